// The records that headers held so far, of slots in ascending order.
ghost use Rattle.std.specs.Prelude.{◌≡◌, ◌<◌, ◌≤◌, length, OnOk, IsOk, MatchOption};
ghost use Rattle.map_join.specs.Record.{stamp_of};
ghost use Rattle.map_join.specs.Maps.{at, IsSame, join, only};
ghost use Rattle.header_scan.specs.Found.{key_in, stamp_in_option, stamp_at, twins_at, HasNoTwins, AreFirstTwins};

use crate::keys::Keys;
use map_join::{BlockMap, MapRefusal, Record};
use std::alloc::Global;

/// The newest record of each block so far, at its lowest slot. In `twins` the second record of a version and hop that was
/// found twice while it was the newest.
#[derive(Drop)]
pub(crate) struct Found {
    pub(crate) newest: Keys,
    pub(crate) twins: BlockMap,
}

/// Version and hop of a record as one number.
fn stamp_of(record: &Record) -> u64
    ensures { result ≡ stamp_of «record».now }
{
    (u64::from(record.version) << 16) + u64::from(record.hop)
}

/// Version and hop of what may be a record as one number, 0 where there is none.
fn stamp_in(found: Option<Record>) -> u64
    ensures { result ≡ stamp_in_option found }
{
    match found {
        Some(found) => stamp_of(&found),
        None => 0,
    }
}

impl Found {
    /// Notes the record of the next slot.
    pub(crate) fn note(&mut self, alloc: Global, reported: Record) -> Result<(), MapRefusal>
        requires written { 0 < reported.version }
        requires within { reported.block < length self.old.newest }
        ensures many { length self.new.newest ≡ length self.old.newest }
        ensures newer { stamp_at (key_in self.old.newest) reported.block < stamp_of reported
            → IsOk result × IsSame (key_in self.new.newest) (join (key_in self.old.newest) (only reported)) × (self.new.twins ≡ self.old.twins) }
        ensures twin { stamp_at (key_in self.old.newest) reported.block ≡ stamp_of reported → stamp_at (at self.old.twins) reported.block < stamp_of reported
            → OnOk result ((self.new.newest ≡ self.old.newest) × IsSame (at self.new.twins) (join (at self.old.twins) (only reported))) }
        ensures older { stamp_of reported < stamp_at (key_in self.old.newest) reported.block → IsOk result × (self.new.newest ≡ self.old.newest)
            × (self.new.twins ≡ self.old.twins) }
        ensures third { stamp_at (key_in self.old.newest) reported.block ≡ stamp_of reported → stamp_of reported ≤ stamp_at (at self.old.twins) reported.block
            → IsOk result × (self.new.newest ≡ self.old.newest) × (self.new.twins ≡ self.old.twins) }
    {
        let stamp = stamp_of(&reported);
        let newest = stamp_in(self.newest.get(reported.block));
        if stamp > newest {
            // An older twin of the block stays, because `twins_of` compares stamps.
            self.newest.raise(reported);
            return Ok(());
        }
        if stamp < newest {
            return Ok(());
        }
        if stamp > stamp_in(self.twins.get(reported.block)) {
            return self.twins.take(alloc, reported);
        }
        // A third slot isn't noted, because two are enough for the fault.
        Ok(())
    }

    /// The two slots of a block's newest version and hop, where these are at two.
    fn twins_of(&self, block: u32) -> Option<(u16, u16)>
        requires { block < length self.now.newest }
        ensures { result ≡ twins_at (key_in self.now.newest) (at self.now.twins) block }
    {
        let one = self.newest.get(block)?;
        let other = self.twins.get(block)?;
        if stamp_of(&one) == stamp_of(&other) {
            return Some((one.place, other.place));
        }
        None
    }

    /// The lowest block below `blocks` whose newest version and hop are at two slots, and these slots. Where no stamp was
    /// noted twice, as in an array that was never damaged, no block is searched.
    pub(crate) fn twice(&self, alloc: Global, blocks: u32) -> Option<(u32, u16, u16)>
        requires { length self.now.newest ≡ blocks }
        ensures { MatchOption result (HasNoTwins (key_in self.now.newest) (at self.now.twins) blocks)
            (λ t. AreFirstTwins (key_in self.now.newest) (at self.now.twins) t.0 t.1 t.2) }
    {
        let first = self.twins.lowest_difference(&BlockMap::new(alloc))?;
        for block in first..blocks {
            if let Some((one, other)) = self.twins_of(block) {
                return Some((block, one, other));
            }
        }
        None
    }
}
