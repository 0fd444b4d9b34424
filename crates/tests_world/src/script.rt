// Steps of a world, each with what it answers.
use crate::asserts::check;
use map_join::Record;
use std::alloc::Global;
use std::process::Abort;
use step_core::{Answer, At, Class, Member, Refusal, Shape, Step, World};

/// What an answer says; of a payload its first byte.
#[derive(Clone, Copy, PartialEq, Eq)]
pub(crate) enum Reported {
    Claimed(u16),
    Taken(u16),
    NotHeld(u16),
    Filled(u16),
    Copied(u16),
    Committed(Record),
    Discarded(u16),
    Read(u32, Option<u8>),
    Data(Option<u8>),
    Made(u16),
    Unmade(u16),
    Shifted,
    Added(u8),
    Refused(Refusal),
    Other,
}

pub(crate) fn report(answer: &Answer) -> Reported {
    match answer {
        Answer::Claimed(slot) => Reported::Claimed(*slot),
        Answer::Taken(slot) => Reported::Taken(*slot),
        Answer::NotHeld(slot) => Reported::NotHeld(*slot),
        Answer::Filled(slot) => Reported::Filled(*slot),
        Answer::Copied(slot) => Reported::Copied(*slot),
        Answer::Committed(record) => Reported::Committed(*record),
        Answer::Discarded(slot) => Reported::Discarded(*slot),
        Answer::Read(Some((version, payload))) => Reported::Read(
            *version,
            payload.first().copied(),
        ),
        Answer::Found(At::Data(payload)) => Reported::Data(payload.first().copied()),
        Answer::Made(group) => Reported::Made(*group),
        Answer::Unmade(group) => Reported::Unmade(*group),
        Answer::Shifted => Reported::Shifted,
        Answer::Added(drive) => Reported::Added(*drive),
        Answer::Refused(refusal) => Reported::Refused(*refusal),
        _ => Reported::Other,
    }
}

/// Each step of a run, with what it answers.
pub(crate) type Script = Vec<(Step, Reported)>;

/// Four drives, with no group.
pub(crate) fn new_world(rt: &impl Abort, alloc: Global) -> World {
    let Ok(shape) = Shape::new(8, 2, 8, 16) else {
        rt.panic("no shape")
    };
    let Ok(world) = World::new(alloc, shape, 4) else {
        rt.panic("no world")
    };
    world
}

/// The record of a block's first version, `hop` moves on.
pub(crate) fn record_of(block: u32, hop: u16, place: u16) -> Record {
    Record {
        block,
        version: 1,
        hop,
        place,
    }
}

/// An extent of this number on each of three drives.
pub(crate) fn members_on([first, second, third]: [u8; 3], extent: u16) -> [Member; 3] {
    [
        Member {
            drive: first,
            extent,
        },
        Member {
            drive: second,
            extent,
        },
        Member {
            drive: third,
            extent,
        },
    ]
}

/// A list of an extent of this number on each of three drives.
pub(crate) fn list_on(rt: &impl Abort, alloc: Global, drives: [u8; 3], extent: u16) -> Vec<Member> {
    let Ok(members) = members_on(drives, extent).to_vec(alloc) else {
        rt.panic("no memory")
    };
    members
}

/// Eight bytes that are all different, this one first.
pub(crate) fn bytes_of(byte: u8) -> [u8; 8] {
    let mut bytes = [0; 8];
    let mut next = byte;
    for place in bytes.iter_mut() {
        *place = next;
        next = next.wrapping_add(29);
    }
    bytes
}

/// A payload that this byte names.
pub(crate) fn payload_of(rt: &impl Abort, alloc: Global, byte: u8) -> Vec<u8> {
    let Ok(payload) = bytes_of(byte).to_vec(alloc) else {
        rt.panic("no memory")
    };
    payload
}

// Makes a group of an extent of this number on each of these drives.
fn make(
    rt: &impl Abort,
    alloc: Global,
    world: &mut World,
    class: Class,
    drives: [u8; 3],
    extent: u16,
) {
    let members = members_on(drives, extent);
    check!(rt; world.make(alloc, class, &members).is_ok());
}

/// Slots 0 to 5 are mirrored on drives 0 to 2, slots 128 to 135 have parity on drives 1 to 3.
pub(crate) fn grouped(rt: &impl Abort, alloc: Global) -> World {
    let mut world = new_world(rt, alloc);
    make(rt, alloc, &mut world, Class::Mirrored, [0, 1, 2], 0);
    make(rt, alloc, &mut world, Class::Parity, [1, 2, 3], 1);
    world
}

/// Makes a drive fail at its `call`-th read or write from now (1 = the next), and at all later ones.
pub(crate) fn fuse(rt: &impl Abort, world: &mut World, drive: u8, call: u64) {
    check!(rt; drive < world.array().drive_count() && call > 0);
    world.fuse(drive, call);
}

/// Loses a drive at once.
pub(crate) fn lose(world: &mut World, drive: u8) {
    world.lose(drive);
}

pub(crate) fn is_lost(world: &World, drive: u8) -> bool {
    world.array().is_lost(drive)
}

/// The records that the world emitted, from this one on, as its log lists them.
pub(crate) fn records_from(
    rt: &impl Abort,
    alloc: Global,
    world: &World,
    first: usize,
) -> Vec<Record> {
    let Ok(records) = world.array().records_from(alloc, first) else {
        rt.panic("no memory")
    };
    records
}

/// A step, with what it answers.
pub(crate) fn push(rt: &impl Abort, script: &mut Script, step: Step, expected: Reported) {
    check!(rt; script.push((step, expected)).is_ok());
}

/// A slot is claimed and filled with a payload of one byte throughout.
pub(crate) fn push_fill(
    rt: &impl Abort,
    alloc: Global,
    script: &mut Script,
    worker: u8,
    slot: u16,
    byte: u8,
) {
    push(
        rt,
        script,
        Step::Claim { worker, slot },
        Reported::Claimed(slot),
    );
    let payload = payload_of(rt, alloc, byte);
    let fill = Step::Fill {
        worker,
        slot,
        payload,
    };
    push(rt, script, fill, Reported::Filled(slot));
}

/// The slot that waits is committed, as the first version of a block.
pub(crate) fn push_commit(
    rt: &impl Abort,
    script: &mut Script,
    worker: u8,
    block: u32,
    hop: u16,
    slot: u16,
) {
    let commit = Step::Commit {
        worker,
        slot,
        block,
    };
    push(
        rt,
        script,
        commit,
        Reported::Committed(record_of(block, hop, slot)),
    );
}

/// A block is first written, of one byte throughout, at a slot.
pub(crate) fn push_write(
    rt: &impl Abort,
    alloc: Global,
    script: &mut Script,
    slot: u16,
    block: u32,
    byte: u8,
) {
    push_fill(rt, alloc, script, 0, slot, byte);
    push_commit(rt, script, 0, block, 0, slot);
}

/// A block's first version is read.
pub(crate) fn push_read(rt: &impl Abort, script: &mut Script, block: u32, byte: u8) {
    push(
        rt,
        script,
        Step::Read { block },
        Reported::Read(1, Some(byte)),
    );
}

/// A block is copied to a slot, one hop from its first place, and read there.
pub(crate) fn push_move(rt: &impl Abort, script: &mut Script, block: u32, slot: u16, byte: u8) {
    let worker = 1;
    push(
        rt,
        script,
        Step::Claim { worker, slot },
        Reported::Claimed(slot),
    );
    let copy = Step::Copy {
        worker,
        slot,
        block,
    };
    push(rt, script, copy, Reported::Copied(slot));
    push_commit(rt, script, worker, block, 1, slot);
    push_read(rt, script, block, byte);
}

/// What a step answers that fits the world.
pub(crate) fn answer(rt: &impl Abort, alloc: Global, world: &mut World, step: &Step) -> Answer {
    check!(rt; world.fits(step));
    let Ok(answer) = world.step(alloc, step) else {
        rt.panic("no memory")
    };
    answer
}

/// Whether the world answers each step as stated.
pub(crate) fn answers(
    rt: &impl Abort,
    alloc: Global,
    world: &mut World,
    script: &[(Step, Reported)],
) -> bool {
    for (step, expected) in script {
        if report(&answer(rt, alloc, world, step)) != *expected {
            return false;
        }
    }
    true
}
