// Units whose headers are counted as they are read.
use extent_groups::GroupTable;
use extents::HEADER_BYTES;
use step_core::Refusal;
use unit_store::Units;

/// Units, and how many of their headers were asked for one by one or read by group.
#[derive(Drop)]
pub(crate) struct Watched<U> {
    units: U,
    headers: u32,
}

impl<U: Units> Watched<U> {
    /// Units of which no header was asked for.
    pub(crate) fn new(units: U) -> Watched<U> {
        Watched { units, headers: 0 }
    }

    /// The units, and how many headers were asked for.
    pub(crate) fn end(self) -> (U, u32) {
        (self.units, self.headers)
    }
}

impl<U: Units> Units for Watched<U> {
    ghost groups = { λ w. U.groups w.units };

    ghost cells = { λ w. U.cells w.units };

    ghost fits = { λ w. U.fits w.units };

    ghost leaves = { λ v w. U.leaves v.units w.units };

    ghost scratch_length = { U.scratch_length };

    fn groups(&self) -> &GroupTable {
        self.units.groups()
    }

    fn scratch_length(&self) -> usize {
        self.units.scratch_length()
    }

    fn unit(&mut self, slot: u16, unit: &mut [u8], scratch: &mut [u8]) -> Result<(), Refusal> {
        self.units.unit(slot, unit, scratch)
    }

    fn header(&mut self, slot: u16, header: &mut [u8], scratch: &mut [u8]) -> Result<(), Refusal> {
        self.headers = self.headers.saturating_add(1);
        self.units.header(slot, header, scratch)
    }

    fn headers(
        &mut self,
        group: u16,
        headers: &mut [[u8; HEADER_BYTES]],
        scratch: &mut [u8],
    ) -> u16 {
        let read = self.units.headers(group, headers, scratch);
        self.headers = self.headers.saturating_add(u32::from(read));
        read
    }

    ghost none = { λ w. U.none w.units };

    ghost more = { λ u v w one two. U.more u.units v.units w.units one two };
}
