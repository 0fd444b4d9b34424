// An array guarded by a lock, next to the words that need none.
ghost use Rattle.std.specs.Prelude.{◌≡◌, ◌⊎◌, IfOk, IfErr};
ghost use Rattle.array_book.specs.Acts.{IsEndOf};
ghost use Rattle.map_words.specs.Places.{blocks_of};
ghost use Rattle.map_words.specs.Steps.{given_half as share_given, kept_half as share_kept};
ghost use Rattle.slot_words.specs.Places.{table_slots};
ghost use Rattle.slot_words.specs.Steps.{given_half as right_given, kept_half as right_kept};

use crate::claim::{Claim, Sizes};
use crate::deed::Deed;
use crate::ended::Ended;
use crate::kept::Kept;
use extents::Drive;
use history::{Hand, History, Keeper};
use map_words::MapWords;
use migrator::mirror_slots;
use slot_words::SlotWords;
use std::alloc::Global;
use std::sync::Mutex;
use step_core::Array;
use tiered_array::Planner;

/// What a Book is made of: the array, its slot words, the maps of two controllers, and the history with its keeper.
pub type BookParts<D, N, A, B> = (
    Array<D, Claim<N>>,
    SlotWords<N>,
    (MapWords<A>, MapWords<B>),
    (History<N, Deed>, Keeper<N, Deed>),
);

/// An array guarded by a lock, its slot words, and the maps of two controllers. While it is in a Book no group of it is made.
pub struct Book<
    D: Drive,
    N: slot_words::Naming + Sizes,
    A: map_words::Naming,
    B: map_words::Naming,
> {
    pub(crate) words: SlotWords<N>,
    pub(crate) even: MapWords<A>,
    pub(crate) odd: MapWords<B>,
    pub(crate) history: History<N, Deed>,
    pub(crate) kept: Mutex<Kept<D, N>>,
    // The slots of mirrored groups, ascending. Kept outside of the lock, because no group changes while the array is in a Book.
    pub(crate) mirrors: Vec<u16>,
    // The array's sizes, so that nobody takes the lock to learn them.
    pub(crate) blocks: u32,
    pub(crate) payload: u32,
    pub(crate) ghost slots: { table_slots N.table ≡ 65536 },
    pub(crate) ghost many: { blocks ≡ N.blocks },
    pub(crate) ghost size: { payload ≡ N.payload },
    pub(crate) ghost here: { blocks_of A.table ≡ blocks },
    pub(crate) ghost there: { blocks_of B.table ≡ blocks },
}

impl<D: Drive, N: slot_words::Naming + Sizes, A: map_words::Naming, B: map_words::Naming> Book<
    D,
    N,
    A,
    B,
> {
    /// A Book around the array that its history leads to, with a word for each slot and two for each block. All hands of the history
    /// were hired before. Out of memory returns all of it.
    pub fn new(
        alloc: Global,
        array: Array<D, Claim<N>>,
        words: SlotWords<N>,
        maps: (MapWords<A>, MapWords<B>),
        history: (History<N, Deed>, Keeper<N, Deed>),
    ) -> Result<Book<D, N, A, B>, BookParts<D, N, A, B>>
        requires course { IsEndOf history.1.log array }
        requires slots { table_slots N.table ≡ 65536 }
        requires blocks { array.parts.groups.blocks ≡ N.blocks }
        requires payload { array.parts.groups.payload ≡ N.payload }
        requires even { blocks_of A.table ≡ N.blocks }
        requires odd { blocks_of B.table ≡ N.blocks }
        requires hands { history.1.hired ≡ N.hands }
        ensures err { IfErr result (λ e. (e.0 ≡ array) × (e.3.1 ≡ history.1)) }
    {
        let shape = array.shape();
        // Both allocations before anything is moved into the Book, so that out of memory returns all of it.
        let Ok(mirrors) = mirror_slots(alloc, array.groups()) else {
            return Err((array, words, maps, history));
        };
        let Ok(planner) = Planner::new(alloc, &array) else {
            return Err((array, words, maps, history));
        };
        let (even, odd) = maps;
        let (history, keeper) = history;
        let kept = Kept {
            array,
            planner,
            keeper,
        };
        Ok(Book {
            words,
            even,
            odd,
            history,
            kept: Mutex::new(kept),
            mirrors,
            blocks: shape.blocks,
            payload: shape.payload,
        })
    }

    // What the Book was made of, once no worker is left.
    pub(crate) fn into_parts(self) -> BookParts<D, N, A, B>
        ensures course { IsEndOf result.3.1.log result.0 }
        ensures hands { result.3.1.hired ≡ N.hands }
    {
        let Book {
            words,
            even,
            odd,
            history,
            kept,
            mirrors: _,
            blocks: _,
            payload: _,
        } = self;
        let Kept {
            array,
            planner: _,
            keeper,
        } = kept.into_inner();
        (array, words, (even, odd), (history, keeper))
    }

    /// Splits what these hands have, for one worker more: half of each share goes to the new hands, with a hand of the history. That
    /// comes back where a Taker has no share left to split, and these hands keep theirs.
    #[tactic(auto, using(crate::proofs::Halves::together_again))]
    pub fn split(
        &self,
        hands: &mut Ended<N, A, B>,
        hand: Hand<N, Deed>,
    ) -> Result<Ended<N, A, B>, Hand<N, Deed>>
        ensures given { IfOk result (λ new. (new.pass ≡ right_given hands.old.pass) × (new.even ≡ share_given hands.old.even)
            × (new.odd ≡ share_given hands.old.odd) × (new.hand ≡ hand)) }
        ensures kept { IfOk result (λ new. (hands.new.pass ≡ right_kept hands.old.pass) × (hands.new.even ≡ share_kept hands.old.even)
            × (hands.new.odd ≡ share_kept hands.old.odd)) }
        ensures err { IfErr result (λ back. (back ≡ hand) × ((hands.old.even.share ≡ 1) ⊎ (hands.old.odd.share ≡ 1))) }
        ensures same { IfErr result (λ back. (hands.new.pass ≡ hands.old.pass) × (hands.new.even ≡ hands.old.even) × (hands.new.odd ≡ hands.old.odd)) }
        ensures hand { hands.new.hand ≡ hands.old.hand }
    {
        let Ok(even) = self.even.split(&mut hands.even) else {
            return Err(hand);
        };
        let Ok(odd) = self.odd.split(&mut hands.odd) else {
            // Else half of the even share would be lost, and no later `settle` could be Ok.
            self.even.join(&mut hands.even, even);
            return Err(hand);
        };
        // Last, because a Pass can always be split.
        let pass = self.words.split(&mut hands.pass);
        Ok(Ended {
            pass,
            even,
            odd,
            hand,
        })
    }

    /// How many blocks the array has.
    pub fn blocks(&self) -> u32
        ensures { result ≡ self.now.blocks }
    {
        self.blocks
    }

    /// How many bytes a payload has.
    pub fn payload(&self) -> u32
        ensures { result ≡ self.now.payload }
    {
        self.payload
    }
}
