// What the plans of an array depend on, and what they choose.
ghost use Rattle.std.specs.Prelude.{◌≡◌, ℕ, ◌<◌, length, IfOk, MatchOption, None};
ghost use Rattle.slot_tables.specs.Views.{key_at};
ghost use Rattle.cleaner.specs.Counts.{AreLiveCounts};
ghost use Rattle.migrator.specs.Ages.{by_number, IsMarked};
ghost use Rattle.migrator.specs.Slots.{at_start, class_of_record, end_at};
ghost use Rattle.tiered_array.specs.Marking.{AreMarked, IsCommitNoted, is_mirrors};
ghost use Rattle.tiered_array.specs.Planning.{IsCleanOf, IsDueHere, IsNextAppend, IsOldestMirrored, IsPlugOf};

use crate::asks::{Any, Readable, Running};
use cleaner::{Move, clean_plan_counted, clean_plan_unplugged, plug_plan_counted};
use disk_array::{Array, Hold};
use extent_groups::{Class, GROUPS, GroupTable, SLOTS};
use extents::Drive;
use map_join::Record;
use migrator::{Free, LogEnd, MarkedAges, first_append};
use std::alloc::{AllocError, Global};

/// What the plans of an array depend on, in addition to its tables. Each commit has to be noted. Only `new` allocates.
#[derive(Drop)]
pub struct Planner {
    /// The order of last writes since the array was made or restarted. Blocks in mirrored groups are marked. Kept, because a log
    /// that was shortened has lost it.
    pub(crate) ages: MarkedAges,
    /// The end of the write log.
    pub(crate) end: LogEnd,
}

impl Planner {
    /// No write is noted and nothing is appended: all blocks by number, with marks on those in mirrored groups. It takes memory
    /// by the number of blocks.
    pub fn new<D: Drive, C: Hold>(alloc: Global, array: &Array<D, C>) -> Result<Planner, AllocError>
        ensures order { IfOk result (λ planner. planner.ages.order ≡ by_number array.now.parts.groups.blocks) }
        ensures long { IfOk result (λ planner. length planner.ages.marks ≡ array.now.parts.groups.blocks) }
        ensures marks { IfOk result (λ planner. AreMarked planner.ages.marks array.now.parts.groups (key_at array.now)) }
        ensures end { IfOk result (λ planner. planner.end ≡ at_start) }
    {
        // For its clause, the array's invariant: it does nothing.
        array.whole();
        let mut ages = MarkedAges::new(alloc, array.shape().blocks)?;
        // A restarted array has blocks: their marks are known, the order of their writes isn't.
        mark_stored(&mut ages, array);
        Ok(Planner {
            ages,
            end: LogEnd::new(),
        })
    }

    /// The group where the write log goes on; none where nothing was appended yet.
    pub fn write_group(&self) -> Option<u16>
        ensures { result ≡ self.now.end.group }
    {
        self.end.group()
    }

    /// The block in a mirrored group that was written longest ago, if each commit was noted. None where no block is marked.
    pub fn oldest_mirrored<D: Drive, C: Hold>(&mut self, array: &Array<D, C>) -> Option<u32>
        ensures oldest { AreMarked self.old.ages.marks array.now.parts.groups (key_at array.now) → IsOldestMirrored array.now self.old result }
        ensures block { MatchOption result (Unit {0}) (λ block. block < array.now.parts.groups.blocks) }
        ensures same { self.new ≡ self.old }
    {
        array.whole();
        let found = self.ages.oldest_marked();
        below(found, array.shape().blocks)
    }

    /// The block in a mirrored group that was written longest ago, of those that can be read where there are any; if each commit
    /// was noted. None where no block is marked. It asks about each marked block before that one.
    pub fn due<D: Drive, C: Hold>(&mut self, array: &Array<D, C>) -> Option<u32>
        ensures due { AreMarked self.old.ages.marks array.now.parts.groups (key_at array.now) → IsDueHere array.now self.old result }
        ensures block { MatchOption result (Unit {0}) (λ block. block < array.now.parts.groups.blocks) }
        ensures same { self.new ≡ self.old }
    {
        array.whole();
        // First the oldest: this passes the turns before it for good, and the search after it starts there.
        let oldest = self.oldest_mirrored(array);
        let readable = self.ages.oldest_picked(&Readable { array });
        match below(readable, array.shape().blocks) {
            Some(block) => Some(block),
            None => oldest,
        }
    }

    /// The first free slot where the write log goes on, if any.
    pub fn next_append<D: Drive, C: Hold, F: Free>(
        &self,
        array: &Array<D, C>,
        free: &F,
    ) -> Option<u16>
        ensures { IsNextAppend array.now self.now (F.free free.now) result }
    {
        let counts = live_counts(array);
        first_append(&self.end, array.groups(), &Running { array }, counts, free)
    }

    /// The move that fills the lowest hole of the fullest parity group with one, but the write group, from the emptiest other.
    pub fn plug<D: Drive, C: Hold>(&self, array: &Array<D, C>) -> Option<Move>
        ensures plan { IsPlugOf array.now self.now result }
        ensures block { MatchOption result (Unit {0}) (λ plan. plan.block < array.now.parts.groups.blocks) }
    {
        array.whole();
        let counts = live_counts(array);
        plug_plan_counted(array.groups(), &Running { array }, counts, self.end.group())
    }

    /// Where nothing can be plugged, the move out of the emptiest parity group with a hole, but the write group, to where the
    /// write log goes on.
    pub fn clean<D: Drive, C: Hold>(&self, array: &Array<D, C>) -> Option<Move>
        ensures plan { IsCleanOf array.now self.now result }
        ensures block { MatchOption result (Unit {0}) (λ plan. plan.block < array.now.parts.groups.blocks) }
    {
        array.whole();
        let counts = live_counts(array);
        // Held or not, because plans follow the map and not each short claim: a held slot is answered by `NoRoom`.
        let append = self.next_append(array, &Any);
        clean_plan_counted(
            array.groups(),
            &Running { array },
            counts,
            self.end.group(),
            append,
        )
    }

    /// The move of `clean`, for a caller that has found that nothing can be plugged.
    pub fn clean_unplugged<D: Drive, C: Hold>(&self, array: &Array<D, C>) -> Option<Move>
        requires { IsPlugOf array.now self.now None }
        ensures plan { IsCleanOf array.now self.now result }
        ensures block { MatchOption result (Unit {0}) (λ plan. plan.block < array.now.parts.groups.blocks) }
    {
        array.whole();
        let counts = live_counts(array);
        let append = self.next_append(array, &Any);
        clean_plan_unplugged(
            array.groups(),
            &Running { array },
            counts,
            self.end.group(),
            append,
        )
    }

    /// Notes the record of a commit: a write, if it has no hop. The block is marked if it lies in a mirrored group, and else loses
    /// its mark. A block that the array lacks isn't noted.
    pub fn note<D: Drive, C: Hold>(&mut self, array: &Array<D, C>, committed: Record)
        ensures noted { committed.block < length self.old.ages.order → IsCommitNoted array.now.parts.groups self.old.ages self.new.ages committed }
        ensures long { length self.new.ages.order ≡ length self.old.ages.order }
        ensures end { self.new.end ≡ self.old.end }
    {
        let block = committed.block;
        // Else `wrote` would be called for a block that has no turn.
        if block as usize >= self.ages.len() {
            return;
        }
        // A write is noted before the mark: then the mark makes no turn be passed again.
        if committed.hop == 0 {
            self.ages.wrote(block);
        }
        let marked = is_mirrored(array.groups(), Some(committed));
        self.ages.mark(block, marked);
    }

    /// Notes that a slot was appended: the write log goes on after it.
    pub fn appended(&mut self, slot: u16)
        ensures end { self.new.end ≡ end_at slot }
        ensures same { self.new.ages ≡ self.old.ages }
    {
        self.end.appended(slot);
    }
}

// The live slots of each group.
fn live_counts<D: Drive, C: Hold>(array: &Array<D, C>) -> &[u16; GROUPS]
    ensures { AreLiveCounts array.now.parts.groups (key_at array.now) result.now }
{
    array.live_counts()
}

// The block, if it is below `blocks`. Callers may pass another array than the planner's, so the bound isn't known without the
// test.
fn below(block: Option<u32>, blocks: u32) -> Option<u32>
    ensures within { MatchOption result (Unit {0}) (λ block. block < blocks) }
    ensures same { MatchOption block (Unit {0}) (λ block. block < blocks) → result ≡ block }
{
    match block {
        Some(block) if block < blocks => Some(block),
        _ => None,
    }
}

// Marks the blocks of an array that lie in mirrored groups, where none is marked.
fn mark_stored<D: Drive, C: Hold>(ages: &mut MarkedAges, array: &Array<D, C>)
    requires order { length ages.old.order ≡ array.now.parts.groups.blocks }
    requires marks { length ages.old.marks ≡ array.now.parts.groups.blocks }
    requires none { (b : ℕ) → IsMarked ages.old.marks b → ⊥ }
    ensures order { ages.new.order ≡ ages.old.order }
    ensures marks { AreMarked ages.new.marks array.now.parts.groups (key_at array.now) }
    ensures long { length ages.new.marks ≡ length ages.old.marks }
{
    array.whole();
    for block in 0..array.shape().blocks {
        let marked = is_mirrored(array.groups(), array.newest(block));
        ages.mark(block, marked);
    }
}

// Whether what may be a record lies in a mirrored group.
fn is_mirrored(groups: &GroupTable, reported: Option<Record>) -> bool
    ensures { result ≡ is_mirrors (class_of_record groups.now reported) }
{
    match reported {
        Some(record) => groups.class_of(record.place / SLOTS) == Some(Class::Mirrored),
        None => false,
    }
}
