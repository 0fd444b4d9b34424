// How a history begins.
ghost use Rattle.std.specs.Prelude.{◌≡◌, [], ◌∷◌};
ghost use Rattle.flat_machine.specs.Flat.{Flat};
ghost use Rattle.slot_tables.specs.Represents.{ShowsArray};
ghost use Rattle.history.specs.Entries.{entry};
ghost use Rattle.array_book.specs.Acts.{Opens, IsEndOf};

use crate::claim::{Claim, Sizes};
use crate::deed::{self, Deed};
use extents::Drive;
use history::{Hand, History, Keeper, Opened};
use slot_words::Naming;
use step_core::Array;

/// Names a history and begins it with this array. Returns it with its keeper and the first hand. The first entry is the array,
/// so that a history says from which state its run starts.
pub fn begin<D: Drive, N: Naming + Sizes>(
    opened: Opened<Deed>,
    array: &Array<D, Claim<N>>,
) -> (History<N, Deed>, Keeper<N, Deed>, Hand<N, Deed>)
    requires name { opened ≡ N.chronicle }
    requires shows { (F : Flat) × ShowsArray array.now F }
    ensures keeper { result.1 ≡ record { hired = 1; log = entry 0 (Opens array.now) ∷ [] } }
    ensures hand { (result.2.number ≡ 0) × (result.2.seen ≡ entry 0 (Opens array.now) ∷ []) × (result.2.mine ≡ entry 0 (Opens array.now) ∷ []) }
    ensures course { IsEndOf result.1.log array.now }
{
    let (history, mut keeper, mut hand) = opened.named::<N>();
    keeper.note::<&Array<D, Claim<N>>, deed::Opens>(&history, &mut hand, &array);
    (history, keeper, hand)
}
