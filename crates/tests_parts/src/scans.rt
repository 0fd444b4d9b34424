// Scans of a mirrored and of a parity group: what their headers hold with a drive lost, and one of each fault.
use crate::asserts::check;
use crate::rig::{Rig, record};
use header_scan::ScanFault;
use map_join::{BlockMap, Record};
use std::alloc::Global;
use std::process::Abort;

/// Slots 0 to 5 are mirrored, slots 128 to 135 have parity. Block 3 was written to slot 0 and moved to slot 130, block 5 is at
/// slot 4, block 7 at slot 133, and a payload without a record at slot 1.
fn two_groups(rt: &impl Abort, alloc: Global) -> Rig {
    let mut rig = Rig::grouped(rt, alloc);
    rig.put(rt, 1, 9);
    let carried = [
        (1, record(3, 1, 0, 0)),
        (0, record(3, 1, 1, 130)),
        (1, record(5, 2, 0, 4)),
        (130, record(7, 1, 1, 133)),
    ];
    rig.carry_all(rt, &carried);
    rig
}

/// Whether a scan returned exactly these records, in the blocks' order.
fn reports(alloc: Global, scanned: &Result<BlockMap, ScanFault>, expected: &[Record]) -> bool {
    let Ok(map) = scanned else { return false };
    match map.to_list(alloc) {
        Ok(list) => list.as_slice() == expected,
        Err(_) => false,
    }
}

/// Whether a scan of all groups returns exactly these records.
fn tells_all(rt: &impl Abort, alloc: Global, rig: &mut Rig, expected: &[Record]) -> bool {
    reports(alloc, &rig.scan(rt, alloc), expected)
}

/// Whether a scan of a range of groups returns exactly these records.
fn reports_of(
    rt: &impl Abort,
    alloc: Global,
    rig: &mut Rig,
    first: u16,
    end: u16,
    expected: &[Record],
) -> bool {
    reports(alloc, &rig.scan_groups(rt, alloc, first, end), expected)
}

/// Whether a scan of all groups returns this fault.
fn fails(rt: &impl Abort, alloc: Global, rig: &mut Rig, expected: ScanFault) -> bool {
    match rig.scan(rt, alloc) {
        Ok(_) => false,
        Err(fault) => fault == expected,
    }
}

#[test]
fn a_scan_with_a_drive_lost_reports_the_newest_record_of_each_block(rt: HostRuntime) {
    let alloc = rt.alloc();
    let mut rig = two_groups(&rt, alloc);
    rig.lose(&rt, 1);
    let newest = [
        record(3, 1, 1, 130),
        record(5, 2, 0, 4),
        record(7, 1, 1, 133),
    ];
    check!(rt; tells_all(&rt, alloc, &mut rig, &newest));
}

#[test]
fn a_scan_of_some_groups_reports_their_records_alone(rt: HostRuntime) {
    let alloc = rt.alloc();
    let mut rig = two_groups(&rt, alloc);
    let mirrored = [record(3, 1, 0, 0), record(5, 2, 0, 4)];
    check!(rt; reports_of(&rt, alloc, &mut rig, 0, 1, &mirrored));
    let parity = [record(3, 1, 1, 130), record(7, 1, 1, 133)];
    check!(rt; reports_of(&rt, alloc, &mut rig, 1, 2, &parity));
    check!(rt; reports_of(&rt, alloc, &mut rig, 2, 512, &[]));
}

#[test]
fn a_scan_reads_each_header_by_one_call(rt: HostRuntime) {
    let alloc = rt.alloc();
    let mut rig = two_groups(&rt, alloc);
    // Of the units that are read where no drive is lost, those of slots 0 and 1 lie on drive 0.
    rig.fuse(&rt, 0, 3);
    check!(rt; rig.scan(&rt, alloc).is_ok());
    check!(rt; rig.is_first_lost(&rt, alloc, &[0], None));
    check!(rt; rig.scan(&rt, alloc).is_ok());
    check!(rt; rig.is_first_lost(&rt, alloc, &[0], Some(0)));
}

#[test]
fn the_lowest_slot_that_is_gone_is_reported(rt: HostRuntime) {
    let alloc = rt.alloc();
    let mut rig = two_groups(&rt, alloc);
    rig.lose(&rt, 0);
    rig.lose(&rt, 2);
    check!(rt; fails(&rt, alloc, &mut rig, ScanFault::Gone(2)));
    let parity = [record(3, 1, 1, 130), record(7, 1, 1, 133)];
    check!(rt; reports_of(&rt, alloc, &mut rig, 1, 2, &parity));
}

#[test]
fn a_block_that_matches_twice_is_reported_with_both_slots(rt: HostRuntime) {
    let alloc = rt.alloc();
    let mut rig = two_groups(&rt, alloc);
    rig.carry(&rt, 133, 1, record(7, 1, 1, 1));
    check!(rt; fails(&rt, alloc, &mut rig, ScanFault::Twice(7, 1, 133)));
}

#[test]
fn a_record_of_another_slot_and_bytes_that_are_no_header_are_reported(rt: HostRuntime) {
    let alloc = rt.alloc();
    let mut rig = two_groups(&rt, alloc);
    rig.carry(&rt, 0, 2, record(9, 1, 0, 3));
    check!(rt; fails(&rt, alloc, &mut rig, ScanFault::WrongSlot(2, 3)));
    rig.writes(&rt, 1, 7);
    check!(rt; fails(&rt, alloc, &mut rig, ScanFault::BadHeader(1)));
}
