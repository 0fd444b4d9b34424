// What workers have in hand of each slot: nothing, a claim or a ticket. A ticket comes out only where one went in.
ghost use Rattle.std.specs.Prelude.{◌≡◌, ℕ, length, replicate, slice_set, IfOk, MatchOption, true, false};
ghost use Rattle.slot_tables.specs.Views.{hand_at};
ghost use Rattle.slot_tables.specs.Represents.{is_ticket};

use crate::ticket::Ticket;
use slot_tables::{Hand, SLOTS};
use std::alloc::{AllocError, Global};
use std::marker::Model;

// The kinds of a word that isn't 0. Its low byte is the worker's number.
const CLAIM: u16 = 256;

const TICKET: u16 = 512;

/// What a worker has in hand, by slot. A slot waits from `keep`, which takes its ticket, until `take` returns it or something
/// else is in hand.
#[derive(Drop)]
pub struct Hands {
    /// Of each slot 0 for nothing, or the kind and the worker's number: all are cleared by writing zeros.
    hands: Vec<u16>,
}

impl Model for Hands {
    ghost use Rattle.std.specs.Prelude.{◌≡◌, List, length};
    ghost use Rattle.slot_tables.specs.declared.hand.Hand.{Hand};
    ghost use Rattle.disk_array.specs.InHand.{hands_of};

    ghost Value = { List Hand };

    ghost view = { λ all. hands_of all.hands.items };

    ghost invariant = { λ all. length all.hands.items ≡ 65536 };
}

impl Hands {
    /// New hands, in which nobody has anything.
    pub fn new(alloc: Global) -> Result<Hands, AllocError>
        ensures many { IfOk result (λ hands. length hands ≡ 65536) }
        ensures empty { IfOk result (λ hands. (s : ℕ) → hand_at hands s ≡ Hand.Empty) }
    {
        let hands = zeros(alloc, SLOTS)?;
        Ok(Hands { hands })
    }

    /// What is in hand of a slot.
    pub fn of(&self, slot: u16) -> Hand
        ensures { result ≡ hand_at self.now slot }
    {
        let word = self.hands[usize::from(slot)];
        let worker = (word % 256) as u8;
        match word / 256 {
            1 => Hand::Holds(worker),
            2 => Hand::Waits(worker),
            _ => Hand::Empty,
        }
    }

    /// Records that the worker has a claim of the slot in hand.
    pub fn hold(&mut self, slot: u16, worker: u8)
        ensures { self.new ≡ slice_set self.old slot (Hand.Holds worker) }
    {
        self.hands[usize::from(slot)] = CLAIM + u16::from(worker);
    }

    /// Records that nobody has the slot in hand.
    pub fn clear(&mut self, slot: u16)
        ensures { self.new ≡ slice_set self.old slot Hand.Empty }
    {
        self.hands[usize::from(slot)] = 0;
    }

    /// Records that nobody has anything in hand. It allocates nothing.
    pub fn clear_all(&mut self)
        ensures many { length self.new ≡ 65536 }
        ensures empty { (s : ℕ) → hand_at self.new s ≡ Hand.Empty }
    {
        self.hands.fill(0);
    }

    /// Takes a worker's ticket.
    pub fn keep(&mut self, worker: u8, ticket: Ticket)
        ensures { self.new ≡ slice_set self.old ticket (Hand.Waits worker) }
    {
        self.hands[usize::from(ticket.slot())] = TICKET + u16::from(worker);
    }

    /// Returns the worker's ticket of a slot, if it has one; nobody has the slot in hand then.
    pub fn take(&mut self, worker: u8, slot: u16) -> Option<Ticket>
        ensures { MatchOption result
            ((is_ticket (hand_at self.old slot) worker ≡ false) × (self.new ≡ self.old))
            (λ ticket. (is_ticket (hand_at self.old slot) worker ≡ true) × (ticket ≡ slot) × (self.new ≡ slice_set self.old slot Hand.Empty)) }
    {
        // The whole word, because both the kind and the worker have to agree.
        if self.hands[usize::from(slot)] == TICKET + u16::from(worker) {
            self.clear(slot);
            Some(Ticket::of(slot))
        } else {
            None
        }
    }
}

fn zeros(alloc: Global, count: usize) -> Result<Vec<u16>, AllocError>
    ensures len { IfOk result (λ words. length words.items ≡ count) }
    ensures zero { IfOk result (λ words. words.items ≡ replicate count 0) }
{
    vec![in alloc; 0; count]
}
