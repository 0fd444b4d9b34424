// What is left of a Book when its workers have ended.
ghost use Rattle.std.specs.Prelude.{◌≡◌, ◌++◌, map, IfOk, IfErr, OnOk, MatchResult};
ghost use Rattle.slot_tables.specs.Represents.{ShowsArray};
ghost use Rattle.slot_tables.specs.Views.{key_at};
ghost use Rattle.flat_machine.specs.Flat.{Flat};
ghost use Rattle.map_join.specs.Maps.{IsMapOf};
ghost use Rattle.map_words.specs.TakeRule.{whole};
ghost use Rattle.array_book.specs.Passes.{all_joined};
ghost use Rattle.array_book.specs.Settling.{taken_by, shares_of, IsUnsettled};
ghost use Rattle.array_book.specs.Whole.{AreWhole, IsHistoryOf, IsMissing};

use crate::book::Book;
use crate::claim::{Claim, Sizes};
use crate::closing::close_and_compare;
use crate::deed::Deed;
use crate::ended::{Ended, join_all, lowest_missing, parted};
use crate::settle_fault::SettleFault;
use extents::Drive;
use history::{History, Keeper};
use map_words::MapWords;
use slot_words::{Pass, SlotWords};
use std::alloc::Global;
use step_core::Array;

/// What is left of a Book: a new one can be made around the array with these words and this history, and claims can be released by
/// the Pass. The Pass is none where no worker's came.
pub struct Settled<D: Drive, N: slot_words::Naming + Sizes> {
    pub array: Array<D, Claim<N>>,
    pub words: SlotWords<N>,
    pub pass: Option<Pass<N>>,
    pub history: History<N, Deed>,
    pub keeper: Keeper<N, Deed>,
    /// The lowest number of a hand of the history that was hired and didn't come, if there is one; 0 where nobody came.
    pub missing: Option<u64>,
}

/// Ends a Book: joins what its workers had, closes both maps of words, and tests whether what was taken, and nothing else, has
/// made the array's map. Compares each hand with the history. The maps end with the Book; all else is returned, also with a fault.
pub fn settle<D: Drive, N: slot_words::Naming + Sizes, A: map_words::Naming, B: map_words::Naming>(
    alloc: Global,
    book: Book<D, N, A, B>,
    ended: Vec<Ended<N, A, B>>,
) -> Result<Settled<D, N>, (SettleFault, Settled<D, N>)>
    ensures ok { IfOk result (λ settled. (shares_of (map (λ e. e.even) ended.items) ≡ whole) × (shares_of (map (λ e. e.odd) ended.items) ≡ whole)
        × IsMapOf (taken_by (map (λ e. e.even) ended.items) ++ taken_by (map (λ e. e.odd) ended.items)) (key_at settled.array)) }
    ensures err { IfErr result (λ e. IsUnsettled (shares_of (map (λ e. e.even) ended.items)) (shares_of (map (λ e. e.odd) ended.items))
        (taken_by (map (λ e. e.even) ended.items) ++ taken_by (map (λ e. e.odd) ended.items)) (key_at e.1.array) e.0) }
    ensures history { MatchResult result (λ settled. IsHistoryOf N.hands (map (λ e. e.hand) ended.items) settled.keeper settled.array)
        (λ e. IsHistoryOf N.hands (map (λ e. e.hand) ended.items) e.1.keeper e.1.array) }
    ensures missing { MatchResult result (λ settled. IsMissing settled.keeper (map (λ e. e.hand) ended.items) settled.missing)
        (λ e. IsMissing e.1.keeper (map (λ e. e.hand) ended.items) e.1.missing) }
    ensures pass { MatchResult result (λ settled. settled.pass ≡ all_joined (map (λ e. e.pass) ended.items))
        (λ e. e.1.pass ≡ all_joined (map (λ e. e.pass) ended.items)) }
    ensures shows { MatchResult result (λ settled. (F : Flat) × ShowsArray settled.array F) (λ e. (F : Flat) × ShowsArray e.1.array F) }
{
    let (array, words, maps, (history, mut keeper)) = book.into_parts();
    // For its clause, the array's invariant: it does nothing.
    array.whole();
    // Before `ended` is joined, which leaves one hand of all.
    let missing = lowest_missing(keeper.hired(), &ended);
    let (reported, pass) = close_all(alloc, &words, maps, &history, &mut keeper, ended, &array);
    let settled = Settled {
        array,
        words,
        pass,
        history,
        keeper,
        missing,
    };
    match reported {
        Ok(()) => Ok(settled),
        Err(fault) => Err((fault, settled)),
    }
}

// Joins what all that ended had, compares their hands with the history, and closes both maps. The Pass is none where nobody came.
fn close_all<D: Drive, N: slot_words::Naming + Sizes, A: map_words::Naming, B: map_words::Naming>(
    alloc: Global,
    words: &SlotWords<N>,
    maps: (MapWords<A>, MapWords<B>),
    history: &History<N, Deed>,
    keeper: &mut Keeper<N, Deed>,
    ended: Vec<Ended<N, A, B>>,
    array: &Array<D, Claim<N>>,
) -> (Result<(), SettleFault>, Option<Pass<N>>)
    ensures ok { OnOk result.0 ((shares_of (map (λ e. e.even) ended.items) ≡ whole) × (shares_of (map (λ e. e.odd) ended.items) ≡ whole)
        × IsMapOf (taken_by (map (λ e. e.even) ended.items) ++ taken_by (map (λ e. e.odd) ended.items)) (key_at array.now)) }
    ensures err { IfErr result.0 (IsUnsettled (shares_of (map (λ e. e.even) ended.items)) (shares_of (map (λ e. e.odd) ended.items))
        (taken_by (map (λ e. e.even) ended.items) ++ taken_by (map (λ e. e.odd) ended.items)) (key_at array.now)) }
    ensures pass { result.1 ≡ all_joined (map (λ e. e.pass) ended.items) }
    ensures keeper { keeper.new ≡ keeper.old }
    ensures whole { AreWhole keeper.old (map (λ e. e.hand) ended.items) }
{
    let Some((mut first, rest)) = parted(ended) else {
        // Without any Taker no map can be closed, also where no record was taken.
        return (Err(SettleFault::NotWhole(0)), None);
    };
    // First the joins: only a Taker with the whole share closes a map.
    join_all(words, (&maps.0, &maps.1), history, keeper, &mut first, rest);
    let Ended {
        pass,
        even,
        odd,
        hand: _,
    } = first;
    let reported = close_and_compare(alloc, (maps.0, even), (maps.1, odd), array);
    (reported, Some(pass))
}
