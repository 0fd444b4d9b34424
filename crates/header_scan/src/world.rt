// The map of a world, from the headers of its drives.
ghost use Rattle.std.specs.Prelude.{IfOk, IfErr};
ghost use Rattle.map_join.specs.Maps.{at};
ghost use Rattle.flat_machine.specs.Flat.{Flat};
ghost use Rattle.flat_machine.specs.Restarted.{HasDistinctSlots};
ghost use Rattle.flat_machine.specs.Scans.{Reported, ScanCase};
ghost use Rattle.slot_tables.specs.Represents.{Represents};
ghost use Rattle.step_core.specs.Refused.{OnlyLosesOf};
ghost use Rattle.header_scan.specs.Worlds.{IsReportedOf};

use crate::{ScanFault, scan};
use map_join::BlockMap;
use std::alloc::Global;
use step_core::{Drive, World};

/// Scans the headers of a world's drives. Where the world represents a flat state the map is that of the records which the
/// state emitted, and no slot was gone; else the fault is out of memory, or a slot that is gone, below which none was gone
/// before. No other fault is reported of such a world. Drives may be found lost, and all else stays.
pub fn scan_world<D: Drive>(alloc: Global, world: &mut World<D>) -> Result<BlockMap, ScanFault>
    ensures ok { IfOk result (λ m. (F : Flat) → Represents world.old F
        → (G : Flat) × ScanCase F (Reported (at m)) G × Represents world.new G) }
    ensures inside { IfOk result (λ m. HasDistinctSlots world.new.array.parts.groups (at m)) }
    ensures fault { IfErr result (IsReportedOf world.old world.new) }
    ensures loses { OnlyLosesOf world.old world.new }
{
    // For the proof alone, before the scan and after it: nothing is done.
    world.whole();
    let reported = scan(alloc, world);
    world.whole();
    reported
}
