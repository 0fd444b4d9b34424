//! Runs of calls over files in memory, stopped at each call of a file. Opened again, the disk has the bytes after the first calls of
//! the run: of those that were begun no later one, and no earlier one than the last that returned, or after a loss of power than the
//! last flush.
ghost use Rattle.std.specs.Prelude.{◌≡◌, All, IsTrue};
ghost use Rattle.array_calls.specs.Calls.{FitsCall};

use crate::asserts::check;
use crate::recovered::opened_in;
use crate::rig::plan_of;
use crate::stopped::{Reached, bytes_again, new_files, store_of};
use array_calls::{Call, CallAnswer};
use cached_drive::Saved;
use disk_shape::{Plan, class_of};
use extents::{DRIVES, Drive};
use file_vault::MemFiles;
use history::{Chronicle, Opened};
use journaled_run::run_calls;
use journaled_store::JournaledStore;
use std::alloc::Global;
use std::marker::Brand;
use std::process::Abort;
use step_core::{Answer, Class, World};
use vault::{Stop, Vault};

/// Bytes of a block.
const BLOCK: usize = 64;

/// Calls of a run.
const CALLS: usize = 15;

/// The block that a worker commits.
const COMMITTED: u32 = 5;

/// What a call is to do with the disk's bytes: a block and the first byte of a payload, or a block alone that is trimmed.
#[derive(Clone, Copy)]
enum Change {
    Nothing,
    Written(u32, u8),
    Trimmed(u32),
}

// What each call of the run does.
fn change_of(number: usize) -> Change {
    match number {
        0 => Change::Written(3, 10),
        1 => Change::Written(0, 20),
        4 => Change::Written(3, 30),
        5 => Change::Trimmed(0),
        9 => Change::Written(COMMITTED, 40),
        12 => Change::Written(15, 50),
        _ => Change::Nothing,
    }
}

fn payload_of(rt: &impl Abort, alloc: Global, first: u8) -> Vec<u8> {
    let Ok(payload) = vec![in alloc; first; BLOCK] else {
        rt.panic("no memory")
    };
    payload
}

// A slot of the mirrored level that no write has reached.
fn slot_of(plan: &Plan) -> u16 {
    for group in 0..plan.groups {
        if class_of(plan, group) == Class::Mirrored {
            return group.saturating_mul(128).saturating_add(5);
        }
    }
    0
}

// The call of a number: writes, trims, moves, flushes, and a worker's steps.
fn call_of(rt: &impl Abort, alloc: Global, slot: u16, number: usize) -> Call {
    match change_of(number) {
        Change::Written(COMMITTED, _) => Call::Commit {
            worker: 1,
            slot,
            block: COMMITTED,
        },
        Change::Written(block, first) => Call::Write {
            block,
            payload: payload_of(rt, alloc, first),
        },
        Change::Trimmed(block) => Call::Trim { block },
        Change::Nothing => match number {
            2 | 6 | 13 => Call::Flush,
            3 | 10 => Call::Demote,
            7 => Call::Claim { worker: 1, slot },
            8 => Call::Fill {
                worker: 1,
                slot,
                payload: payload_of(rt, alloc, 40),
            },
            11 => Call::Plug,
            _ => Call::Clean,
        },
    }
}

fn calls_of(rt: &impl Abort, alloc: Global, plan: &Plan) -> Vec<Call> {
    let mut calls = Vec::new(alloc);
    for number in 0..CALLS {
        let pushed = calls
            .push(call_of(rt, alloc, slot_of(plan), number))
            .is_ok();
        check!(rt; pushed);
    }
    calls
}

// The bytes after the first calls.
fn bytes_after(count: usize) -> [u8; 1000] {
    let mut bytes = [0u8; 1000];
    for number in 0..count {
        let (block, first) = match change_of(number) {
            Change::Written(block, first) => (block, first),
            Change::Trimmed(block) => (block, 0),
            Change::Nothing => continue,
        };
        for (at, byte) in bytes.iter_mut().enumerate() {
            if at / BLOCK == block as usize {
                *byte = first;
            }
        }
    }
    bytes
}

fn all_fit<D: Drive>(calls: &[Call], world: &World<D>) -> bool
    ensures { IsTrue result → All (FitsCall world.now.array.parts.groups) calls.now }
{
    calls.iter().all(|call| call.fits(world))
}

// How far answers came.
fn reached_by(calls: &[Call], answers: &[CallAnswer], begun: usize) -> Reached {
    let mut flushed = 0usize;
    for (number, call) in calls.iter().enumerate() {
        if number < answers.len() && call.is_flush() {
            flushed = number + 1;
        }
    }
    Reached {
        begun,
        answered: answers.len(),
        flushed,
    }
}

fn carry_all<N: Chronicle, V: Vault + Drop>(
    rt: &impl Abort,
    alloc: Global,
    store: &mut JournaledStore<N, V>,
    calls: &[Call],
) -> Reached {
    check!(rt; all_fit(calls, store.world()));
    match run_calls(alloc, store, calls) {
        Ok(answers) => {
            check!(rt; answers.len() == CALLS);
            check!(rt; matches!(answers[9], CallAnswer::Step(Answer::Committed(_))));
            reached_by(calls, &answers, CALLS)
        }
        Err(halted) => reached_by(calls, &halted.answers, halted.at.saturating_add(1)),
    }
}

// The files after a run whose calls of files fail after so many, and how far it came.
fn run<N: Chronicle>(
    rt: &impl Abort,
    alloc: Global,
    plan: &Plan,
    opened: Opened<Saved>,
    stop: u32,
    reached: &mut Reached,
) -> MemFiles
    requires { opened ≡ N.chronicle }
{
    let mut files = new_files(rt, alloc, plan);
    files.fail_after(stop);
    let calls = calls_of(rt, alloc, plan);
    match store_of::<N>(rt, alloc, plan, opened, files, &[false; DRIVES]) {
        Ok(mut store) => {
            *reached = carry_all(rt, alloc, &mut store, &calls);
            store.into_vault().into_files()
        }
        Err(files) => files,
    }
}

fn run_stopped(
    rt: &impl Abort,
    alloc: Global,
    plan: &Plan,
    stop: u32,
    reached: &mut Reached,
) -> MemFiles {
    let opened = opened_in(rt, alloc);
    run::<Brand>(rt, alloc, plan, opened, stop, reached)
}

// Whether these are the bytes after so many calls or more, and no more than were begun.
fn is_allowed(bytes: &[u8; 1000], least: usize, begun: usize) -> bool {
    for count in 0..=CALLS {
        if least <= count && count <= begun && bytes_after(count)[..] == bytes[..] {
            return true;
        }
    }
    false
}

// Stops a run after so many calls of files, and opens what is left. Whether the run came to its end.
fn stop_at(rt: &impl Abort, alloc: Global, plan: &Plan, stop: u32) -> bool {
    let mut reached = Reached {
        begun: 0,
        answered: 0,
        flushed: 0,
    };
    let files = run_stopped(rt, alloc, plan, stop, &mut reached);
    for (kind, choice, least) in [
        (Stop::Killed, 0u64, reached.answered),
        (Stop::PowerLost, u64::from(stop), reached.flushed),
        (Stop::PowerLost, 977 * u64::from(stop) + 5, reached.flushed),
    ] {
        let Ok(left) = files.left(kind, choice) else {
            rt.panic("no memory")
        };
        let (bytes, _vault) = bytes_again(rt, alloc, plan, left, &[false; DRIVES]);
        check!(rt; is_allowed(&bytes, least, reached.begun));
    }
    reached.answered == CALLS
}

#[test]
fn a_run_that_is_stopped_leaves_its_first_calls(rt: HostRuntime) {
    let alloc = rt.alloc();
    let plan = plan_of(&rt, 1000, 64);
    let mut stops = 0u32;
    for stop in 0..1000u32 {
        if stop_at(&rt, alloc, &plan, stop) {
            break;
        }
        stops = stops.saturating_add(1);
    }
    check!(&rt; 40 < stops && stops < 1000);
}
