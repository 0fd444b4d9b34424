// Two controllers, each of which knows what its own workers took, and how a Book is settled.
use crate::asserts::check;
use crate::calls::{read, reads, reads_none, record, write};
use crate::rig::{Story, lived, lived_after};
use array_book::{Controller, SettleFault, Sizes, WorkFault, Worker};
use std::alloc::Global;
use std::process::Abort;
use std::sync::Wait;
use step_core::{MemDrive, Refusal};

// Worker 1 writes block 3.
struct WritesOne;

impl Story for WritesOne {
    fn report<
        N: slot_words::Naming + Sizes,
        A: map_words::Naming,
        B: map_words::Naming,
        R: Abort + Wait,
    >(&self, rt: &R, alloc: Global, worker: &mut Worker<'_, MemDrive, N, A, B>) {
        let only = record(3, 1, 0, 0);
        check!(rt; write(rt, alloc, worker, 3, 7) == Ok(only));
        check!(rt; reads(rt, alloc, worker, Controller::Odd, only, 7));
        check!(rt; reads_none(rt, alloc, worker, Controller::Even, 3));
    }
}

// Worker 5 writes block 11, of which the even controller has taken a later version than the array has emitted.
struct IsAhead;

impl Story for IsAhead {
    fn report<
        N: slot_words::Naming + Sizes,
        A: map_words::Naming,
        B: map_words::Naming,
        R: Abort + Wait,
    >(&self, rt: &R, alloc: Global, worker: &mut Worker<'_, MemDrive, N, A, B>) {
        let none = WorkFault::Core(Refusal::Ahead(None));
        check!(rt; read(rt, alloc, worker, Controller::Even, 11).err() == Some(none));
        let newest = record(11, 1, 0, 0);
        check!(rt; write(rt, alloc, worker, 11, 7) == Ok(newest));
        let some = WorkFault::Core(Refusal::Ahead(Some(newest)));
        check!(rt; read(rt, alloc, worker, Controller::Even, 11).err() == Some(some));
        check!(rt; reads(rt, alloc, worker, Controller::Odd, newest, 7));
    }
}

#[test]
fn the_other_controller_reads_nothing_that_it_did_not_take(rt: HostRuntime) {
    let settled = lived(&rt, rt.alloc(), &[1], &WritesOne);
    check!(rt; settled == (Ok(()), 1));
}

#[test]
fn a_book_without_its_workers_is_not_settled(rt: HostRuntime) {
    let settled = lived(&rt, rt.alloc(), &[], &WritesOne);
    check!(rt; settled == (Err(SettleFault::NotWhole(0)), 0));
}

#[test]
fn a_record_that_no_array_emitted_is_found_by_settling(rt: HostRuntime) {
    let taken = Some(record(4, 1, 0, 0));
    let settled = lived_after(&rt, rt.alloc(), taken, &[1], &WritesOne);
    check!(rt; settled == (Err(SettleFault::Differs(4)), 1));
}

#[test]
fn a_record_ahead_of_the_array_is_not_read(rt: HostRuntime) {
    let taken = Some(record(11, 2, 0, 6));
    let settled = lived_after(&rt, rt.alloc(), taken, &[5], &IsAhead);
    check!(rt; settled == (Err(SettleFault::Differs(11)), 1));
}
