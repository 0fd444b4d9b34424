// The steps that change no word: a load that makes a seat, one that halves a share, and one that makes two seats one.
ghost use Rattle.std.specs.Prelude.{◌≡◌, ◌<◌, [], length};
ghost use Rattle.slot_words.specs.ClaimRule.{blank};
ghost use Rattle.slot_words.specs.Steps.{both_pairs, kept_half, given_half};

use crate::rule::{Both, Halves, Sits, Sitting, Words};

// Loads word 0, and makes a seat that knows nothing and may make no step.
pub(crate) fn sit(table: &Words) -> Sitting
    requires { 0 < table.now.shared.table_id.words }
    ensures table { result.table_id ≡ table.now.shared.table_id }
    ensures blank { result.me ≡ (blank, []) }
{
    table.shared.load_new_seat::<Sits>(0).1
}

// A new seat with half of the first share of the given seat.
pub(crate) fn halve(table: &Words, seat: &mut Sitting) -> Sitting
    requires room { 0 < table.now.shared.table_id.words }
    requires seat { seat.old.table_id ≡ table.now.shared.table_id }
    requires share { 0 < length seat.old.me.0.shares }
    ensures seat { seat.new.table_id ≡ seat.old.table_id }
    ensures kept { seat.new.me ≡ (kept_half seat.old.me.0, seat.old.me.1) }
    ensures table { result.table_id ≡ table.now.shared.table_id }
    ensures given { result.me ≡ (given_half seat.old.me.0, []) }
{
    table.shared.split_seat::<Halves>(seat)
}

// The first seat takes in the pairs of the other.
pub(crate) fn merge(table: &Words, seat: &mut Sitting, other: Sitting)
    requires room { 0 < table.now.shared.table_id.words }
    requires seat { seat.old.table_id ≡ table.now.shared.table_id }
    requires other { (other.table_id ≡ table.now.shared.table_id) × (other.me.1 ≡ []) }
    ensures seat { seat.new.table_id ≡ seat.old.table_id }
    ensures both { seat.new.me ≡ (both_pairs seat.old.me.0 other.me.0, seat.old.me.1) }
{
    table.shared.join_seat::<Both>(seat, other);
}
