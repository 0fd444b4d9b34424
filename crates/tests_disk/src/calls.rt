// Calls of a store and a vault of any type, without their contracts. Nothing here is proved of them, and over types that are spelled out
// each contract takes a minute to check.
use crate::asserts::check;
use array_store::ArrayStore;
use byte_store::{ByteStore, StoreFault};
use cached_drive::CachedDrive;
use history::Chronicle;
use journaled_store::{Changes, publish};
use std::process::Abort;
use step_core::Drive;
use vault::Vault;

/// Publishes what a call changed.
pub(crate) fn publish_call<N: Chronicle, V: Vault>(
    rt: &impl Abort,
    store: &mut ArrayStore<CachedDrive<N>>,
    changes: &mut Changes<N>,
    vault: &mut V,
) {
    let kept = publish(store, changes, vault);
    check!(rt; kept.is_ok());
}

/// Makes all bytes durable.
pub(crate) fn flush<S: ByteStore>(store: &mut S) -> Result<(), StoreFault> {
    store.flush()
}

/// Whether a drive of a store is lost.
pub(crate) fn is_lost<D: Drive + Drop>(store: &ArrayStore<D>, drive: u8) -> bool {
    store.world().array().is_lost(drive)
}

/// How many records a store's array has.
pub(crate) fn count_records<D: Drive + Drop>(store: &ArrayStore<D>) -> usize {
    store.world().array().record_count()
}
