// A world has its array's units, for any caller that scans them.
ghost use Rattle.unit_store.specs.Views.{drive_cells};
ghost use Rattle.disk_array.specs.Refused.{OnlyLosesOf};
ghost use Rattle.disk_array.specs.Laws.{world_itself, world_more};

use crate::world::World;
use extent_groups::GroupTable;
use extents::{Drive, HEADER_BYTES};
use flat_machine::Refusal;
use unit_store::Units;

impl<D: Drive> Units for World<D> {
    ghost groups = { λ w. w.array.parts.groups };

    ghost cells = { λ w. drive_cells w.array.parts };

    ghost fits = { λ w. Unit {0} };

    ghost leaves = { λ v w. OnlyLosesOf v w };

    ghost scratch_length = { λ _. 0 };

    fn groups(&self) -> &GroupTable {
        self.array().groups()
    }

    fn scratch_length(&self) -> usize {
        0
    }

    fn unit(&mut self, slot: u16, unit: &mut [u8], scratch: &mut [u8]) -> Result<(), Refusal> {
        self.array.unit(slot, unit, scratch)
    }

    fn header(&mut self, slot: u16, header: &mut [u8], scratch: &mut [u8]) -> Result<(), Refusal> {
        self.array.header(slot, header, scratch)
    }

    fn headers(
        &mut self,
        group: u16,
        headers: &mut [[u8; HEADER_BYTES]],
        scratch: &mut [u8],
    ) -> u16 {
        self.array.headers(group, headers, scratch)
    }

    ghost none = { λ w. world_itself w };

    ghost more = { λ u v w one two. world_more u v w one two };
}
