// Groups that are dissolved and made again: whose claims are needed, in which order refusals come, and what comes back.
use crate::asserts::check;
use crate::rig::Rig;
use std::alloc::Global;
use std::process::Abort;
use step_core::{Class, Plain, Refusal};

// Claims of these slots.
fn claims_of(rt: &impl Abort, alloc: Global, slots: &[u16]) -> Vec<Plain> {
    let mut claims = Vec::new(alloc);
    for slot in slots {
        check!(rt; claims.push(Plain { slot: *slot }).is_ok());
    }
    claims
}

fn are_of(claims: &[Plain], slots: &[u16]) -> bool {
    claims.len() == slots.len()
        && claims
            .iter()
            .zip(slots)
            .all(|(claim, slot)| claim.slot == *slot)
}

// Whether unmaking a group with claims of these slots is refused so, with the claims back in their order.
fn is_refused(
    rt: &impl Abort,
    rig: &mut Rig,
    group: u16,
    slots: &[u16],
    expected: Refusal,
) -> bool {
    let claims = claims_of(rt, rig.alloc, slots);
    match rig.array.unmake_group(group, claims) {
        Ok(()) => false,
        Err((refusal, claims)) => refusal == expected && are_of(&claims, slots),
    }
}

// Dissolves group 0 with its claims, the last slot's first.
fn unmake(rt: &impl Abort, rig: &mut Rig) {
    let claims = claims_of(rt, rig.alloc, &[5, 0, 4, 1, 3, 2]);
    check!(rt; rig.array.unmake_group(0, claims).is_ok());
}

// Makes group 0 again on other extents: whether the claims of these slots come back.
fn gives_back(rt: &impl Abort, rig: &mut Rig, extent: u16, slots: &[u16]) -> bool {
    let members = crate::rig::members_on([0, 1, 2], extent);
    match rig.array.make_group(rig.alloc, Class::Parity, &members) {
        Ok((group, claims)) => group == 0 && are_of(&claims, slots),
        Err(_) => false,
    }
}

#[test]
fn a_group_is_unmade_with_just_its_claims(rt: HostRuntime) {
    let mut rig = Rig::new(&rt, rt.alloc(), 4);
    check!(rt; is_refused(&rt, &mut rig, 1, &[], Refusal::NoGroup));
    check!(rt; is_refused(&rt, &mut rig, 512, &[0], Refusal::NoGroup));
    check!(rt; is_refused(&rt, &mut rig, 0, &[0, 6], Refusal::NoGroup));
    check!(rt; is_refused(&rt, &mut rig, 0, &[0, 128], Refusal::NoGroup));
    check!(rt; is_refused(&rt, &mut rig, 0, &[1, 0, 1], Refusal::NoGroup));
    check!(rt; is_refused(&rt, &mut rig, 0, &[5, 4, 2, 1, 0], Refusal::SlotsHeld(3)));
    check!(rt; is_refused(&rt, &mut rig, 0, &[], Refusal::SlotsHeld(0)));
    let _record = rig.write(&rt, 1, 3, 0x11);
    check!(rt; is_refused(&rt, &mut rig, 0, &[0, 1, 2, 3, 4, 5], Refusal::SlotsHeld(1)));
}

#[test]
fn its_claims_come_back_once(rt: HostRuntime) {
    let mut rig = Rig::new(&rt, rt.alloc(), 4);
    unmake(&rt, &mut rig);
    check!(rt; rig.array.is_held(0) && rig.array.is_held(5) && !rig.array.is_held(6));
    check!(rt; is_refused(&rt, &mut rig, 0, &[0, 1, 2, 3, 4, 5], Refusal::NoGroup));
    check!(rt; gives_back(&rt, &mut rig, 0, &[0, 1, 2, 3, 4, 5]));
    check!(rt; !rig.array.is_held(0));
    check!(rt; is_refused(&rt, &mut rig, 0, &[0, 1, 2, 3, 4, 5], Refusal::SlotsHeld(6)));
}
