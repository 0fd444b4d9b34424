// A walk of all kinds of steps, drawn by a fixed rule, with one drive missing at a time, rebuilt, and another lost: after each
// step three maps are compared, and every block is read.
ghost use Rattle.std.specs.Prelude.{◌<◌};

use crate::asserts::check;
use crate::scans::{running, world_scanned};
use crate::script::{answer, bytes_of, grouped, is_lost, list_on, payload_of, records_from};
use map_join::{BlockMap, Record};
use std::alloc::Global;
use std::process::Abort;
use step_core::{Answer, Class, Member, Step, World};

/// Above all bytes: a trim.
const TRIMMED: u16 = 256;

/// How many times a step, or a few that go together, are drawn.
const TURNS: u32 = 1_500;

/// Blocks are numbered below this.
const BLOCKS: u32 = 16;

/// Slots of a group that are drawn, past its last one too.
const SLOTS: u32 = 9;

fn drive_count(world: &World) -> u8 {
    world.array().drive_count()
}

// The slot at a place of one of four groups.
fn slot_at(group: u16, place: u16) -> u16 {
    (128 * (group % 4)).wrapping_add(place)
}

// A step of the flow of payloads, by the number of its kind.
fn flow_step(kind: u32, worker: u8, slot: u16, block: u32) -> Step {
    match kind {
        0 => Step::Claim { worker, slot },
        1 => Step::Release { worker, slot },
        2 => Step::Copy {
            worker,
            slot,
            block,
        },
        3 => Step::Discard { worker, slot },
        4 => Step::Read { block },
        _ => Step::Commit {
            worker,
            slot,
            block,
        },
    }
}

/// A world, and what is known of it without it.
#[derive(Drop)]
struct Walk {
    world: World,
    alloc: Global,
    seed: u32,
    /// The records that were emitted, joined.
    emitted: BlockMap,
    listed: usize,
    /// By group and place, the byte that names the payload last filled into the slot, or `TRIMMED`; and by block the byte of
    /// its last write, none where that was a trim or there is none.
    filled: [[u16; 9]; 4],
    written: [Option<u8>; 16],
    lost: Option<u8>,
    steps: u32,
    unmade: u32,
}

impl Walk {
    fn new(rt: &impl Abort, alloc: Global) -> Walk {
        Walk {
            world: grouped(rt, alloc),
            alloc,
            seed: 1,
            emitted: BlockMap::new(alloc),
            listed: 0,
            filled: [[TRIMMED; 9]; 4],
            written: [None; 16],
            lost: None,
            steps: 0,
            unmade: 0,
        }
    }

    // A number below another, which isn't 0.
    fn draw(&mut self, below: u32) -> u32
        ensures { 0 < below → result < below }
    {
        self.seed = self
            .seed
            .wrapping_mul(1_664_525)
            .wrapping_add(1_013_904_223);
        if below == 0 {
            return 0;
        }
        (self.seed >> 16) % below
    }

    fn worker(&mut self) -> u8 {
        self.draw(2) as u8
    }

    // Slots of the last group are drawn seldom, so that it is often empty.
    fn slot(&mut self) -> u16 {
        let group = match self.draw(32) {
            0 => 3,
            1..=6 => 2,
            7..=18 => 1,
            _ => 0,
        };
        slot_at(group, self.draw(SLOTS) as u16)
    }

    fn block(&mut self) -> u32 {
        self.draw(BLOCKS)
    }

    // Takes the records that were emitted since, which the log lists.
    fn follow_log(&mut self, rt: &impl Abort) {
        let records = records_from(rt, self.alloc, &self.world, self.listed);
        for record in &records {
            self.take_record(rt, record);
        }
        self.listed = self.world.array().record_count();
    }

    fn take_record(&mut self, rt: &impl Abort, record: &Record) {
        check!(rt; record.version > 0);
        check!(rt; self.emitted.take(self.alloc, *record).is_ok());
        self.note_record(record);
    }

    // A write is of what its slot was filled with.
    fn note_record(&mut self, record: &Record) {
        if record.hop == 0 {
            let group = usize::from(record.place / 128) % 4;
            let place = usize::from(record.place % 128) % 9;
            self.written[record.block as usize % 16] = u8::try_from(self.filled[group][place]).ok();
        }
    }

    // The running map, that of the headers and that of the log are equal.
    fn maps_agree(&mut self, rt: &impl Abort) -> bool {
        let running = running(rt, self.alloc, &self.world);
        let scanned = world_scanned(rt, self.alloc, &mut self.world);
        running.agrees(&scanned) && running.agrees(&self.emitted)
    }

    // A block reads as it was last written.
    fn reads(&mut self, rt: &impl Abort, block: u32) -> bool {
        let expected = self.written[block as usize % 16];
        match answer(rt, self.alloc, &mut self.world, &Step::Read { block }) {
            Answer::Read(None) => expected == None,
            Answer::Read(Some((_, payload))) => {
                expected.is_some_and(|byte| payload.as_slice() == bytes_of(byte).as_slice())
            }
            _ => false,
        }
    }

    fn reads_all(&mut self, rt: &impl Abort) -> bool {
        for block in 0..BLOCKS {
            if !self.reads(rt, block) {
                return false;
            }
        }
        true
    }

    // Takes a step, and asserts that the maps agree and that every block reads as it was last written.
    fn take(&mut self, rt: &impl Abort, step: &Step) -> Answer {
        let answer = answer(rt, self.alloc, &mut self.world, step);
        self.follow_log(rt);
        check!(rt; self.maps_agree(rt));
        check!(rt; self.reads_all(rt));
        self.steps = self.steps.wrapping_add(1);
        answer
    }

    // Takes a step, with any answer.
    fn go(&mut self, rt: &impl Abort, step: Step) {
        let _answer = self.take(rt, &step);
    }

    // A byte goes into a slot.
    fn fill(&mut self, rt: &impl Abort) {
        let worker = self.worker();
        let slot = self.slot();
        let byte = self.draw(256) as u8;
        let payload = payload_of(rt, self.alloc, byte);
        let step = Step::Fill {
            worker,
            slot,
            payload,
        };
        if let Answer::Filled(_) = self.take(rt, &step) {
            self.note_fill(slot, u16::from(byte));
        }
    }

    // A trim goes into a slot.
    fn trim(&mut self, rt: &impl Abort) {
        let worker = self.worker();
        let slot = self.slot();
        if let Answer::Filled(_) = self.take(rt, &Step::Trim { worker, slot }) {
            self.note_fill(slot, TRIMMED);
        }
    }

    fn note_fill(&mut self, slot: u16, byte: u16) {
        self.filled[usize::from(slot / 128) % 4][usize::from(slot % 128) % 9] = byte;
    }

    // The next drive that isn't lost.
    fn present_following(&self, drive: u8) -> u8 {
        let count = drive_count(&self.world);
        let mut at = drive;
        for _turn in 0..16u8 {
            at = at.wrapping_add(1);
            if at >= count {
                at = 0;
            }
            if !is_lost(&self.world, at) {
                return at;
            }
        }
        at
    }

    // Extents of one number on three drives that aren't lost.
    fn members(&mut self, rt: &impl Abort) -> Vec<Member> {
        let drawn = self.draw(16) as u8;
        let first = self.present_following(drawn);
        let second = self.present_following(first);
        let third = self.present_following(second);
        let extent = self.draw(8) as u16;
        list_on(rt, self.alloc, [first, second, third], extent)
    }

    fn class(&mut self) -> Class {
        if self.draw(2) == 0 {
            Class::Mirrored
        } else {
            Class::Parity
        }
    }

    // A group of extents on three drives that aren't lost, while there are fewer than four; half of them are dissolved again
    // at once.
    fn make(&mut self, rt: &impl Abort) {
        if !self.world.array().groups().is_free(3) {
            return;
        }
        let members = self.members(rt);
        let class = self.class();
        if let Answer::Made(group) = self.take(rt, &Step::Make { class, members })
            && self.draw(2) == 0
        {
            self.unmake(rt, group);
        }
    }

    // Both workers release what they have of a group's slots; then one claims what it can of them, and dissolves the group if
    // it has all.
    fn unmake(&mut self, rt: &impl Abort, group: u16) {
        self.give_back(rt, 0, group);
        self.give_back(rt, 1, group);
        let worker = self.worker();
        for place in 0..SLOTS as u16 {
            let slot = slot_at(group, place);
            self.go(rt, Step::Claim { worker, slot });
        }
        match self.take(rt, &Step::Unmake { worker, group }) {
            Answer::Unmade(_) => self.unmade = self.unmade.wrapping_add(1),
            _ => self.give_back(rt, worker, group),
        }
    }

    fn give_back(&mut self, rt: &impl Abort, worker: u8, group: u16) {
        for place in 0..SLOTS as u16 {
            let slot = slot_at(group, place);
            self.go(rt, Step::Discard { worker, slot });
            self.go(rt, Step::Release { worker, slot });
        }
    }

    // A drive is lost where none is missing and one may be added.
    fn lose(&mut self, rt: &impl Abort) {
        let count = drive_count(&self.world);
        check!(rt; count > 0);
        if self.lost == None && count < 16 {
            let drive = self.draw(u32::from(count)) as u8;
            self.lost = Some(drive);
            self.go(rt, Step::Lose { drive });
        }
    }

    fn add_drive(&mut self, rt: &impl Abort) -> u8 {
        let Answer::Added(drive) = self.take(rt, &Step::AddDrive) else {
            rt.panic("no drive was added")
        };
        drive
    }

    // The members on the drive that is missing go onto a new one.
    fn rebuild(&mut self, rt: &impl Abort) {
        let Some(lost) = self.lost else { return };
        let drive = self.add_drive(rt);
        for group in 0..4u16 {
            self.replace(rt, group, lost, drive);
        }
        self.lost = None;
    }

    // The group's member on the drive that is missing goes onto the other.
    fn replace(&mut self, rt: &impl Abort, group: u16, lost: u8, drive: u8) {
        for member in 0..8u8 {
            if self.is_on(group, member, lost) {
                self.shift(rt, group, member, drive);
            }
        }
    }

    // The member goes onto the drive's extent of the group's number.
    fn shift(&mut self, rt: &impl Abort, group: u16, member: u8, drive: u8) {
        let to = Member {
            drive,
            extent: group,
        };
        let step = Step::MoveExtent { group, member, to };
        check!(rt; matches!(self.take(rt, &step), Answer::Shifted));
    }

    fn is_on(&self, group: u16, member: u8, drive: u8) -> bool {
        let members = self.world.array().groups().members(group);
        match members.get(usize::from(member)) {
            Some(member) => member.drive == drive,
            None => false,
        }
    }

    fn move_extent(&mut self, rt: &impl Abort) {
        let count = drive_count(&self.world);
        check!(rt; count > 0);
        let to = Member {
            drive: self.draw(u32::from(count)) as u8,
            extent: self.draw(8) as u16,
        };
        let group = self.draw(4) as u16;
        let member = self.draw(3) as u8;
        self.go(rt, Step::MoveExtent { group, member, to });
    }

    // A step of the flow of payloads.
    fn flow(&mut self, rt: &impl Abort) {
        let kind = self.draw(7);
        let worker = self.worker();
        let slot = self.slot();
        let block = self.block();
        self.go(rt, flow_step(kind, worker, slot, block));
    }

    // A record's place is asked for that may be or have been one of its block's.
    fn read_at(&mut self, rt: &impl Abort) {
        let record = Record {
            block: self.block(),
            version: 1 + self.draw(3),
            hop: self.draw(2) as u16,
            place: self.slot(),
        };
        self.go(rt, Step::ReadAt { record });
    }

    fn turn(&mut self, rt: &impl Abort) {
        match self.draw(64) {
            0 | 1 => self.make(rt),
            2 => self.lose(rt),
            3 | 4 => self.rebuild(rt),
            5 | 6 => self.move_extent(rt),
            7 => {
                let group = self.draw(4) as u16;
                self.unmake(rt, group);
            }
            8 => self.read_at(rt),
            9..=11 => self.trim(rt),
            12..=24 => self.fill(rt),
            _ => self.flow(rt),
        }
    }
}

#[test]
fn after_each_step_of_a_long_walk_three_maps_are_one(rt: HostRuntime) {
    let mut walk = Walk::new(&rt, rt.alloc());
    for _turn in 0..TURNS {
        walk.turn(&rt);
    }
    check!(rt; walk.steps > TURNS);
    check!(rt; walk.unmade > 5);
    check!(rt; drive_count(&walk.world) > 8);
}
