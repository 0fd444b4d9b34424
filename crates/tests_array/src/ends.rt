// The claims that an array returns at its end.
use crate::asserts::check;
use crate::rig::Rig;
use std::alloc::Global;
use std::process::Abort;
use step_core::{Class, Plain, TakeBack};

/// How often each of the first 256 slots came back, and how often any other.
#[derive(Drop)]
struct Returned {
    slots: [u8; 256],
    others: u8,
}

impl TakeBack<Plain> for Returned {
    fn take_back(&mut self, claim: Plain) {
        match self.slots.get_mut(usize::from(claim.slot)) {
            Some(count) => *count = count.saturating_add(1),
            None => self.others = self.others.saturating_add(1),
        }
    }
}

// A claim of each of these slots.
fn claims_of(rt: &impl Abort, alloc: Global, slots: &[u16]) -> Vec<Plain> {
    let mut claims = Vec::new(alloc);
    for slot in slots {
        check!(rt; claims.push(Plain { slot: *slot }).is_ok());
    }
    claims
}

// Block 3 is at slot 2, and was at slot 0. A payload waits at slot 4, a trim at slot 1, a copy of block 3 at slot 128. Group 2 was
// dissolved: its slots are 256 to 261.
fn kept(rt: &impl Abort, alloc: Global) -> Rig {
    let mut rig = Rig::new(rt, alloc, 4);
    check!(rt; rig.make(rt, Class::Parity, [1, 2, 3], 1) == 1);
    check!(rt; rig.make(rt, Class::Mirrored, [0, 1, 3], 2) == 2);
    let _first = rig.write(rt, 0, 3, 0x11);
    let _newest = rig.write(rt, 2, 3, 0x22);
    check!(rt;
        rig.fill(rt, 4, 0x33).is_ok() && rig.trim(1).is_ok() && rig.copy(rt, 128, 3).is_ok()
    );
    let claims = claims_of(rt, alloc, &[256, 257, 258, 259, 260, 261]);
    check!(rt; rig.array.unmake_group(2, claims).is_ok());
    rig
}

#[test]
fn each_claim_of_an_array_comes_back_once_at_its_end(rt: HostRuntime) {
    let rig = kept(&rt, rt.alloc());
    let mut returned = Returned {
        slots: [0; 256],
        others: 0,
    };
    let parts = rig.array.end(&mut returned);
    check!(rt; parts.drives.len() == 4);
    for (slot, count) in returned.slots.iter().enumerate() {
        let expected = slot == 1 || slot == 2 || slot == 4 || slot == 128;
        check!(rt; *count == u8::from(expected));
    }
    check!(rt; returned.others == 6);
}
