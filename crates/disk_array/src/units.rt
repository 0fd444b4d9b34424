// An array's units by slot number, for a scan.
ghost use Rattle.unit_store.specs.Views.{drive_cells};
ghost use Rattle.disk_array.specs.Refused.{OnlyLoses};
ghost use Rattle.disk_array.specs.Laws.{only_itself, only_more};

use crate::array::Array;
use extent_groups::GroupTable;
use extents::{Drive, HEADER_BYTES};
use flat_machine::Refusal;
use slot_tables::Hold;
use unit_store::Units;

impl<D: Drive, C: Hold> Units for Array<D, C> {
    ghost groups = { λ a. a.parts.groups };

    ghost cells = { λ a. drive_cells a.parts };

    ghost fits = { λ a. Unit {0} };

    ghost leaves = { λ a b. OnlyLoses a b };

    // An array has buffers of its own.
    ghost scratch_length = { λ _. 0 };

    fn groups(&self) -> &GroupTable {
        &self.parts.groups
    }

    fn scratch_length(&self) -> usize {
        0
    }

    fn unit(&mut self, slot: u16, unit: &mut [u8], _scratch: &mut [u8]) -> Result<(), Refusal> {
        self.unit_at(slot, unit)
    }

    fn header(&mut self, slot: u16, header: &mut [u8], _scratch: &mut [u8]) -> Result<(), Refusal> {
        self.header_at(slot, header)
    }

    fn headers(
        &mut self,
        group: u16,
        headers: &mut [[u8; HEADER_BYTES]],
        _scratch: &mut [u8],
    ) -> u16 {
        self.headers_at(group, headers)
    }

    ghost none = { λ a. only_itself a };

    ghost more = { λ a b c one two. only_more a b c one two };
}
