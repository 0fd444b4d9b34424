// The steps of the keeper's seat and a hand's.
ghost use Rattle.std.specs.Prelude.{◌≡◌, Some, ℕ, ◌+◌, ◌<◌, ◌≤◌, ◌++◌, [], ◌∷◌};
ghost use Rattle.history.specs.Entries.{entry, entries_by, StartsWith};
ghost use Rattle.history.specs.Rule.{keeper, hand, nobody};

use crate::rule::{Appends, Checks, Hires, Lends, Picked, Returns, Says, Sits, Sitting, Words};
use std::mem;

fn sit<E>(table: &Words<E>) -> Sitting<E>
    requires { 0 < table.now.shared.table_id.words }
    ensures { (result.table_id ≡ table.now.shared.table_id) × (result.me ≡ (nobody, [])) }
{
    table.shared.load_new_seat::<Sits>(0).1
}

// The keeper takes in the hand's seat, because one step changes what both know, adds the entry, and returns the seat.
pub(crate) fn note_in<X, E, C: Says<X, E>, P: Picked<E>>(
    table: &Words<E>,
    holder: &mut Sitting<E>,
    caller: &mut Sitting<E>,
    number: u64,
    about: &X,
)
    requires room { 0 < table.now.shared.table_id.words }
    requires what { P.what ≡ Some (C.what about.now) }
    requires keeper { (holder.old.table_id ≡ table.now.shared.table_id) × (holder.old.me ≡ (keeper holder.old.me.0.hired holder.old.me.0.log, [])) }
    requires hand { (caller.old.table_id ≡ table.now.shared.table_id) × (caller.old.me ≡ (hand number caller.old.me.0.seen caller.old.me.0.mine, [])) }
    ensures keeper { (holder.new.table_id ≡ holder.old.table_id)
        × (holder.new.me ≡ (keeper holder.old.me.0.hired (holder.old.me.0.log ++ entry number (C.what about.now) ∷ []), [])) }
    ensures hand { (caller.new.table_id ≡ caller.old.table_id) × (caller.new.me
        ≡ (hand number (holder.old.me.0.log ++ entry number (C.what about.now) ∷ []) (caller.old.me.0.mine ++ entry number (C.what about.now) ∷ []), [])) }
    ensures seen { StartsWith holder.old.me.0.log caller.old.me.0.seen }
{
    let empty = sit(table);
    let theirs = mem::replace(caller, empty);
    table.shared.join_seat::<Lends>(holder, theirs);
    table.shared.load::<Appends<E, P>>(holder, 0);
    *caller = table.shared.split_seat::<Returns>(holder);
}

// A seat of a new hand, with the number of those hired before it.
pub(crate) fn hire_in<E>(table: &Words<E>, holder: &mut Sitting<E>, number: u64) -> Sitting<E>
    requires room { 0 < table.now.shared.table_id.words }
    requires keeper { (holder.old.table_id ≡ table.now.shared.table_id) × (holder.old.me ≡ (keeper number holder.old.me.0.log, [])) }
    ensures keeper { (holder.new.table_id ≡ holder.old.table_id) × (holder.new.me ≡ (keeper (number + 1) holder.old.me.0.log, [])) }
    ensures hand { (result.table_id ≡ holder.old.table_id) × (result.me ≡ (hand number holder.old.me.0.log [], [])) }
{
    table.shared.split_seat::<Hires>(holder)
}

// The keeper takes in the hand's seat, because the comparison needs what both know, and returns it.
pub(crate) fn look_in<E>(
    table: &Words<E>,
    holder: &mut Sitting<E>,
    caller: &mut Sitting<E>,
    number: u64,
)
    requires room { 0 < table.now.shared.table_id.words }
    requires keeper { (holder.old.table_id ≡ table.now.shared.table_id) × (holder.old.me ≡ (keeper holder.old.me.0.hired holder.old.me.0.log, [])) }
    requires hand { (caller.old.table_id ≡ table.now.shared.table_id) × (caller.old.me ≡ (hand number caller.old.me.0.seen caller.old.me.0.mine, [])) }
    ensures keeper { (holder.new.table_id ≡ holder.old.table_id) × (holder.new.me ≡ holder.old.me) }
    ensures hand { (caller.new.table_id ≡ caller.old.table_id) × (caller.new.me ≡ caller.old.me) }
    ensures seen { StartsWith holder.old.me.0.log caller.old.me.0.seen }
    ensures mine { entries_by number holder.old.me.0.log ≡ caller.old.me.0.mine }
    ensures below { number < holder.old.me.0.hired }
    ensures within { (n : ℕ) → holder.old.me.0.hired ≤ n → entries_by n holder.old.me.0.log ≡ [] }
{
    let empty = sit(table);
    let theirs = mem::replace(caller, empty);
    table.shared.join_seat::<Lends>(holder, theirs);
    table.shared.load::<Checks>(holder, 0);
    *caller = table.shared.split_seat::<Returns>(holder);
}
