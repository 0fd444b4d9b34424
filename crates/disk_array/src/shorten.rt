// A log that is shortened to what a map needs.
ghost use Rattle.std.specs.Prelude.{◌≡◌, OnOk, OnErr};
ghost use Rattle.map_join.specs.Maps.{IsListOf};
ghost use Rattle.flat_machine.specs.Flat.{Flat};
ghost use Rattle.flat_machine.specs.Shortened.{IsShortened};
ghost use Rattle.slot_tables.specs.Represents.{ShowsArray};
ghost use Rattle.slot_tables.specs.Views.{key_at};

use crate::array::Array;
use extents::Drive;
use slot_tables::Hold;
use std::alloc::{AllocError, Global};

impl<D: Drive, C: Hold> Array<D, C> {
    /// Shortens the log to the newest record of each block, in the order of blocks: a map joined from it is the same. It
    /// allocates a new log, and frees the old one. If an allocation fails, nothing changes.
    pub fn shorten_log(&mut self, alloc: Global) -> Result<(), AllocError>
        ensures list { OnOk result (IsListOf (key_at self.old) self.new.log) }
        ensures rest { OnOk result (self.new ≡ record self.old { log = self.new.log }) }
        ensures flat { OnOk result ((F : Flat) → ShowsArray self.old F → (G : Flat) × IsShortened F G × ShowsArray self.new G) }
        ensures err { OnErr result (self.new ≡ self.old) }
    {
        let Ok(map) = self.map(alloc) else {
            return Err(AllocError);
        };
        let Ok(log) = map.to_list(alloc) else {
            return Err(AllocError);
        };
        // Only the whole new log replaces the old one, so that a failed allocation changes nothing.
        self.log = log;
        Ok(())
    }
}
