// The map of the headers of a world's drives.
ghost use Rattle.std.specs.Prelude.{IfOk, IfErr};
ghost use Rattle.map_join.specs.Maps.{at};
ghost use Rattle.flat_machine.specs.Flat.{Flat};
ghost use Rattle.flat_machine.specs.Restarted.{HasDistinctSlots};
ghost use Rattle.flat_machine.specs.Scans.{Reported, ScanCase};
ghost use Rattle.step_core.specs.Refused.{OnlyLosesOf};
ghost use Rattle.tiered_array.specs.Scanning.{IsScanFaultOf};
ghost use Rattle.tiered_array.specs.Matches.{RepresentsTiers};
ghost use Rattle.tiered_array.specs.Tiered.{Tiered};

use crate::Tiers;
use header_scan::{ScanFault, scan_world};
use map_join::BlockMap;
use std::alloc::Global;
use step_core::Drive;

impl<D: Drive> Tiers<D> {
    /// The map that the headers of the drives hold: that of the records which were emitted, or a fault: out of memory, or a slot
    /// that is gone, below which none was gone before. Drives may be found lost, and all else stays.
    pub fn scan(&mut self, alloc: Global) -> Result<BlockMap, ScanFault>
        ensures ok { IfOk result (λ m. (T : Tiered) → RepresentsTiers self.old T
            → (G : Flat) × ScanCase T.flat (Reported (at m)) G × RepresentsTiers self.new (record T { flat = G })) }
        ensures inside { IfOk result (λ m. HasDistinctSlots self.new.world.array.parts.groups (at m)) }
        ensures fault { IfErr result (IsScanFaultOf self.old self.new) }
        ensures loses { OnlyLosesOf self.old.world self.new.world }
    {
        scan_world(alloc, &mut self.world)
    }
}
