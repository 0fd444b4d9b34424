// The array of a storm.
ghost use Rattle.std.specs.Prelude.{◌≡◌, [], IfOk, length};
ghost use Rattle.slot_tables.specs.Represents.{ShowsArray};
ghost use Rattle.flat_machine.specs.Flat.{Flat};
ghost use Rattle.storm.specs.Ending.{IsFreshArray};

use array_book::Claim;
use extents::{MemDrive, Shape};
use flat_machine::{Class, Member, Refusal};
use slot_words::{Naming, Pass, SlotWords};
use std::alloc::Global;
use step_core::{Array, TakeBack};

/// The number of blocks of a storm's array.
pub(crate) const BLOCKS: u32 = 16;

/// Bytes of a payload, by default.
pub(crate) const PAYLOAD: u32 = 8;

// The number of drives of a storm's array.
const DRIVES: u8 = 4;

// Releases the claims that an array returns.
#[derive(Drop)]
struct Releases<'a, N: Naming> {
    words: &'a SlotWords<N>,
    pass: &'a mut Pass<N>,
}

impl<'a, N: Naming> TakeBack<Claim<N>> for Releases<'a, N> {
    fn take_back(&mut self, claim: Claim<N>) {
        self.words.release(self.pass, claim.into_inner());
    }
}

// Ends an array, and releases the claims that it kept.
pub(crate) fn release_all<N: Naming>(
    words: &SlotWords<N>,
    pass: &mut Pass<N>,
    array: Array<MemDrive, Claim<N>>,
) {
    let mut to = Releases { words, pass };
    let _parts = array.end(&mut to);
}

// An array of four drives with two groups of each class, and payloads of `payload` bytes.
pub(crate) fn storm_array<N: Naming>(
    alloc: Global,
    words: &SlotWords<N>,
    pass: &mut Pass<N>,
    payload: u32,
) -> Result<Array<MemDrive, Claim<N>>, Refusal>
    ensures shows { IfOk result (λ array. (F : Flat) × ShowsArray array F) }
    ensures new { IfOk result (IsFreshArray payload) }
{
    let Ok(shape) = Shape::new(8, 8, payload, BLOCKS) else {
        return Err(Refusal::BadMember);
    };
    let mut array = Array::in_memory(alloc, shape, DRIVES)?;
    // Each drive is in groups of both classes, so that a lost one is missed by both.
    let groups = [
        (Class::Mirrored, members(0, [0, 1, 2])),
        (Class::Mirrored, members(1, [1, 2, 3])),
        (Class::Parity, members(2, [0, 1, 3])),
        (Class::Parity, members(3, [0, 2, 3])),
    ];
    for (class, members) in groups {
        if let Err(refusal) = add_group(alloc, words, pass, &mut array, class, &members) {
            // An array of such claims has no `Drop`, also where it keeps none.
            release_all(words, pass, array);
            return Err(refusal);
        }
    }
    Ok(array)
}

// One extent of each of three drives.
fn members(extent: u16, drives: [u8; 3]) -> [Member; 3] {
    [
        Member {
            drive: drives[0],
            extent,
        },
        Member {
            drive: drives[1],
            extent,
        },
        Member {
            drive: drives[2],
            extent,
        },
    ]
}

// Makes a group, and releases the claims that were kept for its number. Else no worker could claim the group's slots.
fn add_group<N: Naming>(
    alloc: Global,
    words: &SlotWords<N>,
    pass: &mut Pass<N>,
    array: &mut Array<MemDrive, Claim<N>>,
    class: Class,
    members: &[Member; 3],
) -> Result<(), Refusal>
    ensures shows { (F : Flat) → ShowsArray array.old F → (G : Flat) × ShowsArray array.new G }
    ensures sizes { (array.new.parts.groups.blocks ≡ array.old.parts.groups.blocks) × (array.new.parts.groups.payload ≡ array.old.parts.groups.payload) }
    ensures log { array.new.log ≡ array.old.log }
{
    let (_group, claims) = array.make_group(alloc, class, members)?;
    release_each(words, pass, claims);
    Ok(())
}

// Releases claims.
fn release_each<N: Naming>(words: &SlotWords<N>, pass: &mut Pass<N>, mut claims: Vec<Claim<N>>) {
    while let Some(claim) = claims.pop() {
        words.release(pass, claim.into_inner());
    }
    claims.destroy_empty();
}
