// A stop after n entries of a step's list, told apart by the calls of the two drives that the step writes.
use crate::asserts::check;
use crate::rig::{Rig, record};
use crash_points::{Intent, stop_after};
use std::alloc::Global;
use std::process::Abort;
use step_core::Class;

/// The drive of slot 128's unit, and the drive of its parity.
const DATA: u8 = 1;

const PARITY: u8 = 3;

/// More calls of one drive than a plan, its list and a restart make.
const CALLS: u64 = 40;

// Slots 0 to 5 are mirrored on drives 0 to 2, slots 128 to 135 have parity on drives 1 to 3. Block 3 is at slot 0, and was copied
// to slot 128.
fn copied(rt: &impl Abort, alloc: Global) -> Rig {
    let mut rig = Rig::new(rt, alloc, 4);
    check!(rt; rig.make(rt, Class::Parity, [1, 2, 3], 1) == 1);
    check!(rt; rig.write(rt, 0, 3, 0x11) == record(3, 1, 0, 0));
    check!(rt; rig.copy(rt, 128, 3).is_ok());
    rig
}

// Whether a drive that fails at this call is lost by a stop after `n` entries of the commit of block 3 at slot 128.
fn burns(rt: &impl Abort, alloc: Global, n: usize, drive: u8, call: u64) -> bool {
    let mut rig = copied(rt, alloc);
    rig.fuse(rt, drive, call);
    check!(rt; 3 < rig.array.shape().blocks);
    let commit = Intent::Commit {
        slot: 128,
        block: 3,
    };
    let Ok((array, _others)) = stop_after(alloc, rig.array, &commit, n) else {
        rt.panic("not restarted")
    };
    array.is_lost(drive)
}

// How many calls of a drive a stop after `n` entries makes.
fn calls(rt: &impl Abort, alloc: Global, n: usize, drive: u8) -> u64 {
    for call in 1..CALLS {
        if !burns(rt, alloc, n, drive, call) {
            return call - 1;
        }
    }
    rt.panic("more calls")
}

// Whether stops after 1, 2, 3, 4 and 9 entries make these many calls more of a drive than a stop before the first entry.
fn makes_more(rt: &impl Abort, alloc: Global, drive: u8, more: [u64; 5]) -> bool {
    let none = calls(rt, alloc, 0, drive);
    for (n, expected) in [1, 2, 3, 4, 9].into_iter().zip(more) {
        if calls(rt, alloc, n, drive) != none.saturating_add(expected) {
            return false;
        }
    }
    true
}

#[test]
fn a_stop_carries_out_as_many_entries_as_it_is_given(rt: HostRuntime) {
    // The entries are the note, the unit, the parity and the end of the note. A restart over a note writes both units again.
    check!(rt; makes_more(&rt, rt.alloc(), DATA, [1, 2, 2, 1, 1]));
    check!(rt; makes_more(&rt, rt.alloc(), PARITY, [1, 1, 2, 1, 1]));
}
