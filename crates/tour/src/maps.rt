// Block maps of records.
use anyhow::{Result, ensure};
use map_join::{BlockMap, Record};
use std::alloc::Global;

/// The map of records, taken one after another.
pub(crate) fn map_of(alloc: Global, records: &[Record]) -> Result<BlockMap> {
    let mut map = BlockMap::new(alloc);
    for record in records {
        ensure!(record.version > 0, "no record");
        ensure!(map.take(alloc, *record).is_ok(), "no memory");
    }
    Ok(map)
}

/// Joins a map with another.
pub(crate) fn merge(alloc: Global, map: &mut BlockMap, other: &BlockMap) -> Result<()> {
    ensure!(map.merge(alloc, other).is_ok(), "no memory");
    Ok(())
}

/// Records in the opposite order.
pub(crate) fn backwards(alloc: Global, records: &[Record]) -> Result<Vec<Record>> {
    let mut records = records.to_vec(alloc)?;
    records.reverse();
    Ok(records)
}
