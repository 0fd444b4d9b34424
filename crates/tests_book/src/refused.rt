// A Book around a restarted array whose worker's call is refused, and the slot that the call releases.
ghost use Rattle.std.specs.Prelude.{◌≡◌, None};
ghost use Rattle.unit_store.specs.Fit.{IsFit};
ghost use Rattle.unit_store.specs.Memory.{held_lost, held_units};
ghost use Rattle.slot_tables.specs.Represents.{ShowsArray};
ghost use Rattle.flat_machine.specs.Flat.{Flat};
ghost use Rattle.header_scan.specs.Restarts.{AreAllSound};
ghost use Rattle.slot_words.specs.Places.{table_slots};

use crate::asserts::check;
use crate::calls::{payload, trim, write};
use crate::rig::{Story, Tables, grouped, named, new_history, new_tables, play, released};
use array_book::{Claim, Deed, NoGate, SettleFault, Settled, Sizes, WorkFault, Worker, begin};
use header_scan::restart;
use history::Opened;
use slot_words::{Pass, SlotWords};
use std::alloc::Global;
use std::marker::Brand;
use std::process::Abort;
use std::sync::Wait;
use std::thread::Threads;
use step_core::{Array, Class, MemDrive, Plain, Refusal};
use unit_store::Parts;

// Slots 0 to 5 are mirrored on drives 0 to 2, slots 0 and 1 on drives 0 and 1. The parity slots begin at 128.
const GROUPS: [(Class, u16, [u8; 3]); 2] = [
    (Class::Mirrored, 0, [0, 1, 2]),
    (Class::Parity, 1, [1, 2, 3]),
];

// A call that is refused.
#[derive(Clone, Copy, Debug, PartialEq, Eq)]
enum Call {
    Write(u32),
    Trim(u32),
    Migrate,
}

// The call of worker 4 in a Book around an array with a unit of block 3, of this version and hop, at slot 0; the fault that it
// returns; and the slot that it had claimed. Both drives of slot 1 may fail at their next call.
#[derive(Clone, Copy, Debug, PartialEq, Eq)]
struct Refused {
    version: u32,
    hop: u16,
    fails: bool,
    call: Call,
    fault: WorkFault,
    slot: u16,
}

impl Refused {
    fn new(version: u32, hop: u16, call: Call, refusal: Refusal, slot: u16) -> Refused {
        Refused {
            version,
            hop,
            fails: false,
            call,
            fault: WorkFault::Core(refusal),
            slot,
        }
    }

    // The call where both drives of slot 1 fail.
    fn of_lost_drives(call: Call) -> Refused {
        let kept = Refused::new(1, 0, call, Refusal::Gone(1), 1);
        Refused {
            fails: true,
            ..kept
        }
    }

    // The unit of block 3: a header of 32 bytes and a payload of 40.
    fn unit(&self) -> [u8; 72] {
        let mut unit = [0; 72];
        unit[..4].copy_from_slice(b"RBH1");
        unit[7] = 3;
        unit[8..12].copy_from_slice(&self.version.to_be_bytes());
        unit[12..14].copy_from_slice(&self.hop.to_be_bytes());
        unit[32..].copy_from_slice(&payload(9));
        unit
    }
}

impl Story for Refused {
    fn report<
        N: slot_words::Naming + Sizes,
        A: map_words::Naming,
        B: map_words::Naming,
        R: Abort + Wait,
    >(&self, rt: &R, alloc: Global, worker: &mut Worker<'_, MemDrive, N, A, B>) {
        let fault = match self.call {
            Call::Write(block) => write(rt, alloc, worker, block, 7).err(),
            Call::Trim(block) => trim(rt, alloc, worker, block).err(),
            Call::Migrate => worker.migrate(rt, alloc, 6, &NoGate).err(),
        };
        assert!(rt;
            fault == Some(self.fault),
            "{:?} returns {fault:?}",
            self.call
        );
    }
}

// Drives on which that unit is at slot 0, and nothing else was written.
fn written_parts<R: Abort>(rt: &R, alloc: Global, case: &Refused) -> Parts<MemDrive>
    ensures fit { IsFit held_units result }
    ensures sound { AreAllSound held_units held_lost result }
    ensures note { result.note ≡ None }
{
    let array: Array<MemDrive, Plain> = grouped(rt, alloc, 2, &GROUPS);
    let Ok((mut parts, _claims)) = array.into_parts(alloc) else {
        rt.panic("not taken apart")
    };
    assert!(rt; parts.groups.shape().payload == 40 && 0 < parts.groups.slots_of(0));
    assert!(rt; parts.write(0, &case.unit(), &mut [0; 144]) == Ok(()));
    parts
}

// Makes both drives of slot 1 fail at their next call.
fn fail_both<N: slot_words::Naming, R: Abort>(rt: &R, array: &mut Array<MemDrive, Claim<N>>)
    ensures { (F : Flat) → ShowsArray array.old F → (G : Flat) × ShowsArray array.new G }
{
    assert!(rt; array.drive_count() > 1);
    array.fuse(0, 1);
    array.fuse(1, 1);
}

// The array that is restarted from those drives, with a claim of slot 0.
fn remade<N: slot_words::Naming, R: Abort>(
    rt: &R,
    alloc: Global,
    words: &SlotWords<N>,
    pass: &mut Pass<N>,
    case: &Refused,
) -> Array<MemDrive, Claim<N>>
    requires { table_slots N.table ≡ 65536 }
    ensures shows { (F : Flat) × ShowsArray result F }
    ensures sizes { (result.parts.groups.blocks ≡ 16) × (result.parts.groups.payload ≡ 40) }
{
    let Ok(claim) = words.claim(pass, 0) else {
        rt.panic("slot 0 is free")
    };
    let mut claims = Vec::new(alloc);
    if let Err(_kept) = claims.push(Claim::of(claim)) {
        rt.panic("no memory")
    }
    let (array, others) = match restart(alloc, written_parts(rt, alloc, case), claims) {
        Ok(made) => made,
        Err(_back) => rt.panic("not restarted"),
    };
    assert!(rt; others.is_empty());
    others.destroy_empty();
    let shape = array.shape();
    assert!(rt; shape.blocks == 16 && shape.payload == 40);
    array
}

// The same array, whose drives of slot 1 fail at their next call.
fn failing<N: slot_words::Naming, R: Abort>(
    rt: &R,
    alloc: Global,
    words: &SlotWords<N>,
    pass: &mut Pass<N>,
    case: &Refused,
) -> Array<MemDrive, Claim<N>>
    requires { table_slots N.table ≡ 65536 }
    ensures shows { (F : Flat) × ShowsArray result F }
    ensures sizes { (result.parts.groups.blocks ≡ 16) × (result.parts.groups.payload ≡ 40) }
{
    let mut array = remade(rt, alloc, words, pass, case);
    fail_both(rt, &mut array);
    let shape = array.shape();
    assert!(rt; shape.blocks == 16 && shape.payload == 40);
    array
}

// The array of the case.
fn restarted<N: slot_words::Naming, R: Abort>(
    rt: &R,
    alloc: Global,
    words: &SlotWords<N>,
    pass: &mut Pass<N>,
    case: &Refused,
) -> Array<MemDrive, Claim<N>>
    requires { table_slots N.table ≡ 65536 }
    ensures shows { (F : Flat) × ShowsArray result F }
    ensures sizes { (result.parts.groups.blocks ≡ 16) × (result.parts.groups.payload ≡ 40) }
{
    if case.fails {
        failing(rt, alloc, words, pass, case)
    } else {
        remade(rt, alloc, words, pass, case)
    }
}

fn refuses<
    N: slot_words::Naming + Sizes + Send + Sync,
    A: map_words::Naming + Send + Sync,
    B: map_words::Naming + Send + Sync,
    R: Abort + Threads + Wait + Sync,
>(rt: &R, alloc: Global, tables: (Tables, Opened<Deed>), case: &Refused)
    requires names { (tables.0.slots ≡ N.table) × (tables.0.even ≡ A.table) × (tables.0.odd ≡ B.table) × (tables.1 ≡ N.chronicle) }
    requires sizes { (N.blocks ≡ 16) × (N.payload ≡ 40) × (N.hands ≡ 1) }
{
    let (tables, opened) = tables;
    let mut bench = named::<N, A, B>(tables);
    let array = restarted(rt, alloc, &bench.words, &mut bench.shares.pass, case);
    let (history, keeper, hand) = begin(opened, &array);
    let begun = (array, history, keeper, hand);
    let (settled, left) = play(rt, alloc, begun, bench, &[4], case);
    check!(rt; settled == Err(SettleFault::Differs(3)));
    let Settled {
        array,
        words,
        pass,
        history: _,
        keeper: _,
        missing: _,
    } = left;
    let Some(mut pass) = pass else {
        rt.panic("no Pass came back")
    };
    let slot = case.slot;
    let Ok(claim) = words.claim(&mut pass, slot) else {
        panic!(rt; "slot {slot} was not given back")
    };
    assert!(rt; claim.generation() == 2, "slot {slot}");
    words.release(&mut pass, claim);
    check!(rt; released(rt, &words, &mut pass, array) == 1);
}

#[test]
fn a_call_that_is_refused_gives_its_slot_back(rt: HostRuntime) {
    let last = u32::MAX;
    let cases = [
        Refused::new(last, 0, Call::Write(3), Refusal::VersionSpent, 1),
        Refused::new(last, 0, Call::Trim(3), Refusal::VersionSpent, 1),
        Refused::new(1, u16::MAX, Call::Migrate, Refusal::HopsSpent, 128),
        Refused::of_lost_drives(Call::Write(5)),
        Refused::of_lost_drives(Call::Trim(5)),
    ];
    for case in &cases {
        let tables = (new_tables(&rt, rt.alloc()), new_history(&rt, rt.alloc()));
        refuses::<Brand, Brand, Brand, HostRuntime>(&rt, rt.alloc(), tables, case);
    }
}
