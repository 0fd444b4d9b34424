// Arrays rebuilt from drives that were written manually: the last version, the last hop, and one of each fault.
use crate::asserts::check;
use crate::rig::{Restarted, Rig, fill_from, is_of, record, restart_parts};
use extents::MemDrive;
use flat_machine::Refusal;
use header_scan::ScanFault;
use map_join::Record;
use std::alloc::Global;
use std::process::Abort;
use step_core::{Array, Done, Plain, Ticket};
use unit_store::Parts;

type Memory = Array<MemDrive, Plain>;

/// Slots 0 to 5 are mirrored, 0 and 1 on drives 0 and 1, 2 and 3 on drives 2 and 0, 4 and 5 on drives 1 and 2. A payload
/// without a record is at slot 5.
fn mirrored(rt: &impl Abort, alloc: Global) -> Rig {
    let mut rig = Rig::mirrored(rt, alloc);
    rig.put(rt, 5, 9);
    rig
}

/// Slots 0 to 5 are mirrored as in `mirrored`, with a payload at slot 5 and each of these records at a slot.
fn holding(rt: &impl Abort, alloc: Global, held: &[(u16, Record)]) -> Rig {
    let mut rig = mirrored(rt, alloc);
    for (slot, reported) in held {
        rig.carry(rt, 5, *slot, *reported);
    }
    rig
}

/// Rebuilds an array with a claim of each of these slots.
fn restarted(rt: &impl Abort, alloc: Global, rig: Rig, slots: &[u16]) -> Restarted {
    let mut claims = Vec::new(alloc);
    for slot in slots {
        check!(rt; claims.push(Plain { slot: *slot }).is_ok());
    }
    restart_parts(rt, alloc, rig.parts, claims)
}

/// The array that is rebuilt from these parts and claims, and the claims that it doesn't take.
fn made_of(
    rt: &impl Abort,
    alloc: Global,
    parts: Parts<MemDrive>,
    claims: Vec<Plain>,
) -> (Memory, Vec<Plain>) {
    let Ok(made) = restart_parts(rt, alloc, parts, claims) else {
        rt.panic("not made anew")
    };
    made
}

/// The array that is rebuilt with a claim of slot 0.
fn made(rt: &impl Abort, alloc: Global, rig: Rig) -> Memory {
    let Ok((array, others)) = restarted(rt, alloc, rig, &[0]) else {
        rt.panic("not made anew")
    };
    check!(rt; others.is_empty());
    array
}

/// What a restart with these claims returns, which ends in a fault.
fn refused(
    rt: &impl Abort,
    alloc: Global,
    rig: Rig,
    slots: &[u16],
) -> (ScanFault, Parts<MemDrive>, Vec<Plain>) {
    let Err(refused) = restarted(rt, alloc, rig, slots) else {
        rt.panic("made anew")
    };
    refused
}

/// The fault that a restart with a claim of slot 0 returns.
fn fault(rt: &impl Abort, alloc: Global, rig: Rig) -> ScanFault {
    let (fault, _parts, _claims) = refused(rt, alloc, rig, &[0]);
    fault
}

/// Whether a restart with a claim of slot 0 returns this fault.
fn fails(rt: &impl Abort, alloc: Global, rig: Rig, expected: ScanFault) -> bool {
    fault(rt, alloc, rig) == expected
}

/// Fills a slot.
fn fill(rt: &impl Abort, alloc: Global, array: &mut Memory, claim: Plain) -> Ticket {
    check!(rt; array.shape().payload == 24);
    let mut payload = [0; 24];
    fill_from(&mut payload, 0x11);
    let Ok(ticket) = array.fill(claim, &payload) else {
        rt.panic("not filled")
    };
    ticket
}

/// Commits what waits, as block 3.
fn commit(
    rt: &impl Abort,
    alloc: Global,
    array: &mut Memory,
    ticket: Ticket,
) -> Result<Done<Plain>, (Refusal, Ticket)> {
    check!(rt; array.shape().blocks == 16);
    array.commit(alloc, ticket, 3)
}

/// The refusal of a copy of block 3 to a slot, and the claim that it returns.
fn copy(rt: &impl Abort, alloc: Global, array: &mut Memory, slot: u16) -> (Refusal, Plain) {
    check!(rt; array.shape().blocks == 16);
    let Err(refused) = array.copy(Plain { slot }, 3) else {
        rt.panic("copied")
    };
    refused
}

/// Whether block 3 reads as this version, with the payload that this byte names.
fn reads(rt: &impl Abort, alloc: Global, array: &mut Memory, version: u32, byte: u8) -> bool {
    check!(rt; array.shape().blocks == 16);
    match array.read(alloc, 3) {
        Ok(Some((reported, payload))) => reported == version && is_of(&payload, byte),
        _ => false,
    }
}

#[test]
fn a_block_found_at_its_last_hop_is_written_and_not_moved(rt: HostRuntime) {
    let alloc = rt.alloc();
    let rig = holding(&rt, alloc, &[(0, record(3, 1, 65_535, 0))]);
    let mut array = made(&rt, alloc, rig);
    let (refusal, claim) = copy(&rt, alloc, &mut array, 1);
    check!(rt; refusal == Refusal::HopsSpent && refusal.number() == 8);
    let ticket = fill(&rt, alloc, &mut array, claim);
    let Ok(done) = commit(&rt, alloc, &mut array, ticket) else {
        rt.panic("not committed")
    };
    check!(rt; done.emitted.record() == record(3, 2, 0, 1));
    check!(rt; done.old == Some(Plain { slot: 0 }));
}

#[test]
fn a_block_found_at_its_last_version_is_not_written(rt: HostRuntime) {
    let alloc = rt.alloc();
    let rig = holding(&rt, alloc, &[(0, record(3, 4_294_967_295, 0, 0))]);
    let mut array = made(&rt, alloc, rig);
    let ticket = fill(&rt, alloc, &mut array, Plain { slot: 1 });
    let Err((refusal, ticket)) = commit(&rt, alloc, &mut array, ticket) else {
        rt.panic("written past the last version")
    };
    check!(rt; refusal == Refusal::VersionSpent && refusal.number() == 7);
    check!(rt; ticket.slot() == 1 && array.is_held(1));
}

#[test]
fn the_fault_of_the_lowest_slot_is_reported(rt: HostRuntime) {
    let alloc = rt.alloc();
    let mut rig = holding(&rt, alloc, &[(2, record(3, 1, 0, 0))]);
    rig.set(&rt, 4, 20, 1);
    let reported = fault(&rt, alloc, rig);
    check!(rt; reported == ScanFault::WrongSlot(2, 0) && reported.number() == 3);
    let mut rig = mirrored(&rt, alloc);
    rig.set(&rt, 4, 20, 1);
    check!(rt; fails(&rt, alloc, rig, ScanFault::BadHeader(4)));
    let rig = holding(&rt, alloc, &[(0, record(16, 1, 0, 0))]);
    check!(rt; fails(&rt, alloc, rig, ScanFault::BadHeader(0)));
}

#[test]
fn a_block_at_two_slots_is_reported_with_both(rt: HostRuntime) {
    let alloc = rt.alloc();
    let twice = [(0, record(3, 1, 0, 0)), (1, record(3, 1, 0, 1))];
    let rig = holding(&rt, alloc, &twice);
    check!(rt; fails(&rt, alloc, rig, ScanFault::Twice(3, 0, 1)));
}

#[test]
fn two_mirrored_drives_lost_leave_no_array(rt: HostRuntime) {
    let alloc = rt.alloc();
    let mut rig = holding(&rt, alloc, &[(0, record(3, 1, 0, 0))]);
    rig.lose(&rt, 0);
    rig.lose(&rt, 2);
    check!(rt; fails(&rt, alloc, rig, ScanFault::Gone(2)));
}

#[test]
fn a_restart_without_a_claim_hands_all_back(rt: HostRuntime) {
    let alloc = rt.alloc();
    let rig = holding(&rt, alloc, &[(0, record(3, 1, 0, 0))]);
    let (fault, parts, mut claims) = refused(&rt, alloc, rig, &[4, 1]);
    check!(rt; fault == ScanFault::NoClaim(0) && fault.number() == 6);
    check!(rt; claims.as_slice() == [Plain { slot: 4 }, Plain { slot: 1 }].as_slice());
    check!(rt; claims.push(Plain { slot: 0 }).is_ok());
    let (mut array, others) = made_of(&rt, alloc, parts, claims);
    check!(rt; others.len() == 2);
    check!(rt; others.contains(&Plain { slot: 1 }) && others.contains(&Plain { slot: 4 }));
    check!(rt; array.is_held(0) && !array.is_held(1) && !array.is_held(4));
    check!(rt; reads(&rt, alloc, &mut array, 1, 9));
}
