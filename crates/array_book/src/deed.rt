// What a Book's history has of a call under the lock.
ghost use Rattle.std.specs.Prelude.{[]};
ghost use Rattle.step_core.specs.Placing.{block_for, put_for};
ghost use Rattle.array_book.specs.Acts as act;
ghost use Rattle.array_book.specs.Acts.{put_act, placed_act, unplaced_act, commit_act, refused_commit, discard_act, read_act};

use crate::claim::Claim;
use extents::Drive;
use flat_machine::Refusal;
use history::Says;
use map_join::Record;
use slot_words::Naming;
use std::marker::Model;
use step_core::{Array, Done, Reading, Ticket, What};

/// What was done under one hold of the lock, in the flat machine's words. It exists in proofs alone.
pub struct Deed {}

impl Model for Deed {
    ghost use Rattle.std.specs.Prelude.{[]};
    ghost use Rattle.array_book.specs.Acts.{Act, Steps};

    ghost Value = { Act };

    ghost view = { λ _. Steps [] [] };
}

// The array with which a history begins.
pub(crate) struct Opens;

impl<'a, D: Drive, N: Naming> Says<&'a Array<D, Claim<N>>, Deed> for Opens {
    ghost what = { λ x. act.Opens x.now };
}

// The slot, what was put into it, and the outcome.
pub(crate) struct Puts;

impl<'a, 'b, N: Naming> Says<(u16, What<'a>, &'b Result<Ticket, (Refusal, Claim<N>)>), Deed>
    for Puts {
    ghost what = { λ x. put_act (put_for x.1) x.0 (block_for x.1) x.2.now };
}

// The slot, what was put into it together with its commit, and the block.
pub(crate) struct Places;

impl<'a> Says<(u16, What<'a>, u32), Deed> for Places {
    ghost what = { λ x. placed_act (put_for x.1) x.0 x.2 };
}

// The same, and why it wasn't put there.
pub(crate) struct PutFails;

impl<'a> Says<(u16, What<'a>, u32, Refusal), Deed> for PutFails {
    ghost what = { λ x. unplaced_act (put_for x.1) x.0 x.2 x.3 };
}

// The slot, its block, and what was committed.
pub(crate) struct Commits;

impl<'a, N: Naming> Says<(u16, u32, &'a Done<Claim<N>>), Deed> for Commits {
    ghost what = { λ x. commit_act (λ claim. claim.0.slot) x.0 x.1 x.2.now };
}

// The slot, its block, and why it wasn't committed.
pub(crate) struct CommitFails;

impl<'a> Says<(u16, u32, &'a (Refusal, Ticket)), Deed> for CommitFails {
    ghost what = { λ x. refused_commit x.0 x.1 x.2.now.0 };
}

// The slot, and whether its ticket was given up.
pub(crate) struct Discards;

impl<'a, N: Naming> Says<(u16, &'a Result<Claim<N>, (Refusal, Ticket)>), Deed> for Discards {
    ghost what = { λ x. discard_act x.0 x.1.now };
}

// The record that was asked for, and what was learned.
pub(crate) struct Reads;

impl<'a> Says<(Record, &'a Result<Reading, Refusal>), Deed> for Reads {
    ghost what = { λ x. read_act x.0 x.1.now };
}
