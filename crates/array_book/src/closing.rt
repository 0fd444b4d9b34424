// The maps of both controllers' words, closed and compared with an array's.
ghost use Rattle.std.specs.Prelude.{◌≡◌, ◌++◌, IfOk, IfErr, OnOk};
ghost use Rattle.slot_tables.specs.Views.{key_at};
ghost use Rattle.map_join.specs.Maps.{at, join, IsMapOf, IsSame};
ghost use Rattle.map_words.specs.TakeRule.{whole};
ghost use Rattle.array_book.specs.Settling.{IsUnsettled, IsUnclosed, IsDiffering};

use crate::settle_fault::SettleFault;
use disk_array::{Array, Hold};
use extents::Drive;
use map_join::BlockMap;
use map_words::{CloseRefusal, MapWords, Taker};
use std::alloc::Global;

/// Closes both maps, the even controller's first, and compares them with the array's. Memory comes after both were tried: a
/// share that isn't whole is the fault of a caller, and is never hidden by it.
pub fn close_and_compare<D: Drive, C: Hold, A: map_words::Naming, B: map_words::Naming>(
    alloc: Global,
    even: (MapWords<A>, Taker<A>),
    odd: (MapWords<B>, Taker<B>),
    array: &Array<D, C>,
) -> Result<(), SettleFault>
    ensures ok { OnOk result ((even.1.share ≡ whole) × (odd.1.share ≡ whole) × IsMapOf (even.1.taken ++ odd.1.taken) (key_at array.now)) }
    ensures err { IfErr result (IsUnsettled even.1.share odd.1.share (even.1.taken ++ odd.1.taken) (key_at array.now)) }
{
    let one = closed(alloc, even.0, even.1);
    if let Err(SettleFault::NotWhole(share)) = one {
        return Err(SettleFault::NotWhole(share));
    }
    let other = closed(alloc, odd.0, odd.1);
    if let Err(SettleFault::NotWhole(share)) = other {
        return Err(SettleFault::NotWhole(share));
    }
    match (one, other) {
        (Ok(one), Ok(other)) => compare(alloc, &one, &other, array),
        _ => Err(SettleFault::Memory),
    }
}

// The map of what a Taker and all that joined it took.
fn closed<A: map_words::Naming>(
    alloc: Global,
    words: MapWords<A>,
    taker: Taker<A>,
) -> Result<BlockMap, SettleFault>
    ensures whole { OnOk result (taker.share ≡ whole) }
    ensures map { IfOk result (λ map. IsMapOf taker.taken (at map)) }
    ensures err { IfErr result (IsUnclosed taker.share) }
{
    match words.close(alloc, taker) {
        Ok(map) => Ok(map),
        Err((CloseRefusal::NotWhole(share), _, _)) => Err(SettleFault::NotWhole(share)),
        Err((CloseRefusal::Memory, _, _)) => Err(SettleFault::Memory),
    }
}

/// Whether the join of both maps is the array's map; if not, the lowest block of which it isn't.
pub fn compare<D: Drive, C: Hold>(
    alloc: Global,
    one: &BlockMap,
    other: &BlockMap,
    array: &Array<D, C>,
) -> Result<(), SettleFault>
    ensures ok { OnOk result (IsSame (join (at one.now) (at other.now)) (key_at array.now)) }
    ensures err { IfErr result (IsDiffering (join (at one.now) (at other.now)) (key_at array.now)) }
{
    let Ok(mut joined) = one.copied(alloc) else {
        return Err(SettleFault::Memory);
    };
    if joined.merge(alloc, other).is_err() {
        return Err(SettleFault::Memory);
    }
    let Ok(map) = array.map(alloc) else {
        return Err(SettleFault::Memory);
    };
    match joined.lowest_difference(&map) {
        Some(block) => Err(SettleFault::Differs(block)),
        None => Ok(()),
    }
}
