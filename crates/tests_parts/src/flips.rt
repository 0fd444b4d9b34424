// Bytes flipped on a drive itself: found where there is something to compare, and not where a drive is lost.
use crate::asserts::check;
use crate::rig::{Rig, SIZE};
use std::process::Abort;

/// Slots 0 to 5 are mirrored, and slots 128 to 135 have parity. Some are written.
fn written(rt: &impl Abort, rig: &mut Rig) {
    for slot in [0, 2, 5, 128, 131, 134] {
        rig.writes(rt, slot, 7);
    }
}

#[test]
fn a_flipped_byte_of_a_second_copy_is_found_until_a_drive_is_lost(rt: HostRuntime) {
    let mut rig = Rig::grouped(&rt, rt.alloc());
    written(&rt, &mut rig);
    check!(rt; rig.find_unsound(&rt).is_none());
    // The copies of slot 2 are at address 0 of drive 2 and address 2 of drive 0.
    for byte in 0..SIZE {
        rig.flip(&rt, 0, 2, byte);
        check!(rt; rig.find_unsound(&rt) == Some(2));
        rig.flip(&rt, 0, 2, byte);
    }
    check!(rt; rig.find_unsound(&rt).is_none());
    rig.flip(&rt, 0, 2, 40);
    check!(rt; rig.holds(&rt, 2, 7));
    check!(rt; !rig.is_sound(&rt, 2) && rig.is_sound(&rt, 3));
    rig.lose(&rt, 2);
    check!(rt; rig.find_unsound(&rt).is_none());
    check!(rt; !rig.holds(&rt, 2, 7));
}

#[test]
fn a_flipped_byte_of_a_row_is_found_at_its_lowest_slot(rt: HostRuntime) {
    let mut rig = Rig::grouped(&rt, rt.alloc());
    written(&rt, &mut rig);
    // The rows of the parity group are at addresses 4 to 7 of drives 1 to 3. The parity of the last, of slots 133 and 135, is
    // on drive 2; slot 130 is on drive 2 at address 4, in a row with slot 128.
    rig.flip(&rt, 2, 7, 55);
    check!(rt; rig.find_unsound(&rt) == Some(133));
    check!(rt; !rig.is_sound(&rt, 135) && rig.is_sound(&rt, 134));
    rig.flip(&rt, 2, 4, 0);
    check!(rt; rig.find_unsound(&rt) == Some(128));
    // Of drive 1 the copies of slots 0 to 5 are read first, four of them, and then the first unit of the row.
    rig.fuse(&rt, 1, 5);
    check!(rt; rig.find_unsound(&rt).is_none());
    check!(rt; rig.is_first_lost(&rt, rt.alloc(), &[0, 1], Some(1)));
}
