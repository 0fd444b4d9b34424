// The table of words, and the steps on it.
ghost use Rattle.std.specs.Prelude.{◌≡◌, ◌≢◌, ◌↔◌, ℕ, ◌+◌, ◌*◌, ◌/◌, ◌%◌, ◌^◌, ◌<◌, ◌≤◌, [], ◌∷◌, length, All, Contains, IfOk, IfErr, None};
ghost use Rattle.slot_words.specs.Places.{word_of, table_slots};
ghost use Rattle.slot_words.specs.ClaimRule.{opening};
ghost use Rattle.slot_words.specs.Sight.{HasStepped};
ghost use Rattle.slot_words.specs.Steps.{kept_half, given_half, both_pairs};
ghost use Rattle.slot_words.specs.Refused.{HasFreed, IsAcquired, IsClaimRefused, WereRefused, IsFirstClaim, IsMissed};
ghost use Rattle.slot_words.specs.declared.view.Kind.TheVariants.{Exchange};
ghost use Rattle.slot_words.specs.Idle.{IsIdleSeat};

use crate::claim::{Claim, ClaimRefusal, NoneFree};
use crate::naming::Naming;
use crate::pass::Pass;
use crate::rule::{Differs, Frees, Looks, Parts, Sitting, Takes, Words};
use crate::steps::{halve, merge, sit};
use atomic_table::Table;
use std::alloc::Global;
use std::marker::{Brand, Model, PhantomData};
use std::mem;

/// The words before the first slot's, so that it shares no cache line with word 0, on which seats are made.
const FIRST: usize = 8;

/// The word of a slot that is free at the last generation, 2^62.
const SPENT: u64 = 1 << 63;

/// One word for each slot of the table N: twice the slot's generation, and one more while it is held.
#[derive(Drop)]
pub struct SlotWords<N: Naming> {
    table: Words,
    of: PhantomData<N>,
    ghost named: { table.shared.table_id ≡ N.table },
    ghost counts: { N.table.words ≡ table.shared.key + 8 },
}

/// A table that has no name yet, with its first Pass. A contract sees which table it is.
#[derive(Drop)]
pub struct Unnamed {
    table: Words,
    seat: Sitting,
}

impl Model for Unnamed {
    ghost use Rattle.std.specs.Prelude.{◌≡◌, ◌+◌, []};
    ghost use Rattle.atomic_table.specs.Seated.{TableId};
    ghost use Rattle.slot_words.specs.ClaimRule.{opening};

    ghost Value = { TableId };

    ghost view = { λ t. t.table.shared.table_id };

    ghost invariant = { λ t. (t.table.shared.table_id.words ≡ t.table.shared.key + 8) × (t.seat.table_id ≡ t.table.shared.table_id)
        × (t.seat.me ≡ (opening, [])) };
}

/// Why a table was not made.
#[derive(Clone, Copy, Debug, PartialEq, Eq)]
pub enum TableRefusal {
    /// Out of memory for its words.
    Memory = 1,
}

impl TableRefusal {
    /// The refusal's number, 1.
    pub fn number(self) -> u8
        ensures { result ≡ 1 }
    {
        self as u8
    }
}

impl SlotWords<Brand> {
    /// A table of `slots` slots, all free at generation 0, without a name. No other call allocates.
    pub fn new(alloc: Global, slots: u32) -> Result<Unnamed, TableRefusal>
        ensures { IfOk result (λ table. table_slots table ≡ slots) }
    {
        let Ok(words) = vec![in alloc; 0; slots as usize + FIRST] else {
            return Err(TableRefusal::Memory);
        };
        match Table::of_words(alloc, &words, &u64::from(slots)) {
            Ok((table, seat)) => Ok(Unnamed { table, seat }),
            Err(_) => Err(TableRefusal::Memory),
        }
    }
}

impl Unnamed {
    /// Gives the table its name.
    pub fn named<N: Naming>(self) -> (SlotWords<N>, Pass<N>)
        requires { self ≡ N.table }
        ensures { result.1 ≡ opening }
    {
        let Unnamed { table, seat } = self;
        let words = SlotWords {
            table,
            of: PhantomData,
        };
        let pass = Pass {
            seat,
            of: PhantomData,
        };
        (words, pass)
    }
}

// The place of a slot's word.
fn place_of(slot: u16) -> usize
    ensures { result ≡ word_of slot }
{
    usize::from(slot) + FIRST
}

impl<N: Naming> SlotWords<N> {
    /// A second Pass, for another thread, with half of a share. The first keeps the rest, and all that it remembers.
    pub fn split(&self, pass: &mut Pass<N>) -> Pass<N>
        ensures kept { pass.new ≡ kept_half pass.old }
        ensures given { result ≡ given_half pass.old }
    {
        let seat = halve(&self.table, &mut pass.seat);
        Pass {
            seat,
            of: PhantomData,
        }
    }

    /// Merges the other Pass into this one, with its shares and all that it remembers.
    pub fn join(&self, pass: &mut Pass<N>, other: Pass<N>)
        ensures { pass.new ≡ both_pairs pass.old other }
    {
        let Pass { seat, of: _ } = other;
        merge(&self.table, &mut pass.seat, seat);
    }

    /// Claims the slot: loads its word once and, where that is free and not spent, tries one compare-exchange to the next
    /// generation, held.
    pub fn claim(&self, pass: &mut Pass<N>, slot: u16) -> Result<Claim<N>, ClaimRefusal>
        requires { slot < table_slots N.table }
        // one look more, and then one exchange, which won the next generation
        ensures ok { IfOk result (IsAcquired slot pass.old pass.new) }
        // the reason is what one look found, or what one exchange found after it
        ensures err { IfErr result (IsClaimRefused slot pass.old pass.new) }
        // the Pass keeps its whole right to step
        ensures shares { pass.new.shares ≡ pass.old.shares }
    {
        let seen = self
            .table
            .shared
            .load::<Looks>(&mut pass.seat, place_of(slot));
        // A word that is held or spent is only read, since no exchange of it may win.
        if seen % 2 == 1 {
            return Err(ClaimRefusal::Taken(seen));
        }
        if seen == SPENT {
            return Err(ClaimRefusal::Spent);
        }
        self.exchange(&mut pass.seat, slot, seen)
    }

    // Where the exchange wins, the claim gets the seat, because the release needs the pair that it won. Another seat, which
    // remembers its steps, takes its place.
    fn exchange(&self, seat: &mut Sitting, slot: u16, seen: u64) -> Result<Claim<N>, ClaimRefusal>
        requires slot { slot < table_slots N.table }
        requires free { seen % 2 ≡ 0 }
        requires lasting { seen < 2 ^ 63 }
        requires seat { IsIdleSeat N.table seat.old }
        ensures ok { IfOk result (λ c. (c.slot ≡ slot) × (2 * c.generation ≡ seen + 2) × (seat.new.me.0.sight.found ≡ seen)
            × (seat.new.me.0.sight.left ≡ 2 * c.generation + 1)) }
        ensures err { IfErr result (IsMissed seen seat.new.me.0.sight) }
        ensures tried { HasStepped Exchange slot seat.old.me.0 seat.new.me.0 }
        ensures look { seat.new.me.0.look ≡ seat.old.me.0.look }
        ensures idle { IsIdleSeat N.table seat.new }
        ensures shares { seat.new.me.0.shares ≡ seat.old.me.0.shares }
    {
        let generation = seen / 2 + 1;
        let held = 2 * generation + 1;
        let found = self
            .table
            .shared
            .compare_exchange::<Takes>(seat, place_of(slot), seen, held);
        if found == seen {
            let rest = self.table.shared.split_seat::<Parts>(seat);
            let seat = mem::replace(seat, rest);
            Ok(Claim {
                slot,
                generation,
                seat,
                of: PhantomData,
            })
        } else if found % 2 == 1 {
            Err(ClaimRefusal::Taken(found))
        } else {
            Err(ClaimRefusal::Moved(found))
        }
    }

    /// Tries the listed slots in order, each once, until one is claimed.
    pub fn claim_first(&self, pass: &mut Pass<N>, slots: &[u16]) -> Result<Claim<N>, NoneFree>
        requires { All (λ s. s < table_slots N.table) slots.now }
        // those before the claimed slot were tried and refused, in order
        ensures ok { IfOk result (IsFirstClaim slots.now pass.old pass.new) }
        // all listed slots were tried and refused, and the last refusal is returned
        ensures err { IfErr result (λ e. WereRefused slots.now (length slots.now) pass.old pass.new e.0) }
        ensures empty { IfErr result (λ e. e.0 ≡ None ↔ slots.now ≡ []) }
        ensures shares { pass.new.shares ≡ pass.old.shares }
    {
        let mut last = None;
        for slot in slots {
            match self.claim(pass, *slot) {
                Ok(claim) => return Ok(claim),
                Err(refusal) => last = Some(refusal),
            }
        }
        Err(NoneFree(last))
    }

    /// Frees the slot at the claim's generation, by one store. It always succeeds.
    pub fn release(&self, pass: &mut Pass<N>, claim: Claim<N>)
        ensures stored { HasFreed claim pass.old pass.new }
        ensures won { Contains pass.new.won claim }
        ensures shares { pass.new.shares ≡ pass.old.shares }
    {
        let Claim {
            slot,
            generation,
            seat,
            of: _,
        } = claim;
        // First the claim's seat comes back, because the store needs its pair. A store is enough, since nobody else changes a
        // held word.
        merge(&self.table, &mut pass.seat, seat);
        self.table
            .shared
            .store::<Frees>(&mut pass.seat, place_of(slot), 2 * generation);
    }

    /// Promises that the two claims' slots differ.
    pub fn apart(&self, one: &mut Claim<N>, other: &mut Claim<N>)
        ensures differ { one.old.slot ≢ other.old.slot }
        ensures same { (one.new ≡ one.old) × (other.new ≡ other.old) }
    {
        if one.slot == other.slot {
            // Never reached: one seat with both pairs would break the rule.
            let empty = sit(&self.table);
            let theirs = mem::replace(&mut other.seat, empty);
            merge(&self.table, &mut one.seat, theirs);
            self.table.shared.load::<Differs>(&mut one.seat, 0);
            unreachable!()
        }
    }
}
