// What workers return when they have ended, and all of it joined.
ghost use Rattle.std.specs.Prelude.{◌≡◌, ◌==◌, ◌+◌, ◌++◌, ◌∷◌, [], IfSome, IfNone, map};
ghost use Rattle.std.specs.List.{list_any};
ghost use Rattle.array_book.specs.Settling.{taken_by, shares_of};
ghost use Rattle.array_book.specs.Passes.{joined};
ghost use Rattle.history.specs.Entries.{IsCoherent};
ghost use Rattle.array_book.specs.Whole.{AreWhole, IsLowestMissing};

use crate::claim::Sizes;
use crate::deed::Deed;
use history::{Hand, History, Keeper};
use map_words::{MapWords, Taker};
use slot_words::{Pass, SlotWords};

/// What a worker returns: its Pass, both Takers, and its hand of the history.
#[derive(Drop)]
pub struct Ended<N: slot_words::Naming + Sizes, A: map_words::Naming, B: map_words::Naming> {
    pub pass: Pass<N>,
    pub even: Taker<A>,
    pub odd: Taker<B>,
    pub hand: Hand<N, Deed>,
}

/// The first that ended, and the others.
pub fn parted<N: slot_words::Naming + Sizes, A: map_words::Naming, B: map_words::Naming>(
    ended: Vec<Ended<N, A, B>>,
) -> Option<(Ended<N, A, B>, Vec<Ended<N, A, B>>)>
    ensures some { IfSome result (λ r. ended.items ≡ r.0 ∷ r.1.items) }
    ensures none { IfNone result (ended.items ≡ []) }
{
    let mut rest = ended;
    if rest.is_empty() {
        return None;
    }
    let first = rest.remove(0);
    Some((first, rest))
}

/// Joins all that ended into the first, but for the hands of the history, which are compared with it.
pub fn join_all<N: slot_words::Naming + Sizes, A: map_words::Naming, B: map_words::Naming>(
    words: &SlotWords<N>,
    maps: (&MapWords<A>, &MapWords<B>),
    history: &History<N, Deed>,
    keeper: &mut Keeper<N, Deed>,
    first: &mut Ended<N, A, B>,
    rest: Vec<Ended<N, A, B>>,
)
    ensures pass { first.new.pass ≡ joined first.old.pass (map (λ e. e.pass) rest.items) }
    ensures even { first.new.even.taken ≡ first.old.even.taken ++ taken_by (map (λ e. e.even) rest.items) }
    ensures odd { first.new.odd.taken ≡ first.old.odd.taken ++ taken_by (map (λ e. e.odd) rest.items) }
    ensures shares { (first.new.even.share ≡ first.old.even.share + shares_of (map (λ e. e.even) rest.items))
        × (first.new.odd.share ≡ first.old.odd.share + shares_of (map (λ e. e.odd) rest.items)) }
    ensures keeper { keeper.new ≡ keeper.old }
    ensures first { IsCoherent keeper.old first.old.hand }
    ensures whole { AreWhole keeper.old (map (λ e. e.hand) rest.items) }
{
    for other in rest {
        let Ended {
            pass,
            even: one,
            odd: two,
            mut hand,
        } = other;
        words.join(&mut first.pass, pass);
        maps.0.join(&mut first.even, one);
        maps.1.join(&mut first.odd, two);
        keeper.check(history, &mut hand);
    }
    keeper.check(history, &mut first.hand);
}

/// The lowest number of a hand that was hired and isn't among these, if there is one; 0 where nobody came.
pub(crate) fn lowest_missing<
    N: slot_words::Naming + Sizes,
    A: map_words::Naming,
    B: map_words::Naming,
>(hired: u64, ended: &[Ended<N, A, B>]) -> Option<u64>
    ensures { IsLowestMissing hired (map (λ e. e.hand) ended.now) result }
{
    if ended.is_empty() {
        return Some(0);
    }
    for number in 0..hired {
        if !has_hand(ended, number) {
            return Some(number);
        }
    }
    None
}

// Whether the hand of this number is among these.
fn has_hand<N: slot_words::Naming + Sizes, A: map_words::Naming, B: map_words::Naming>(
    ended: &[Ended<N, A, B>],
    number: u64,
) -> bool
    ensures { result ≡ list_any (λ e. e.hand.number == number) ended.now }
{
    ended.iter().any(|one| one.hand.number() == number)
}
