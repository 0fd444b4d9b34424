// The array: its tables, how a new one is made, and the calls that only read them.
ghost use Rattle.std.specs.Prelude.{◌≡◌, ℕ, ◌+◌, ◌*◌, ◌<◌, ◌≤◌, length, map, drop};
ghost use Rattle.std.specs.Prelude.{slice_index_or, None, true, IsTrue, ◌↔◌, IsOk, IfOk, IfErr, OnOk};
ghost use Rattle.map_join.specs.Record.{record_at};
ghost use Rattle.map_join.specs.Live.{IsBlockAt};
ghost use Rattle.map_join.specs.Maps.{at, IsSame, IsMapOf};
ghost use Rattle.extents.specs.Shapes.{IsShapeOf};
ghost use Rattle.extents.specs.Sizes.{extent_units};
ghost use Rattle.extents.specs.declared.shape.TheConstants.{HEADER_BYTES};
ghost use Rattle.extent_groups.specs.Calls.{AreSized};
ghost use Rattle.unit_store.specs.Fit.{HaveUnitCount};
ghost use Rattle.unit_store.specs.Views.{drive_view, lost_of, failed_of, IsLost};
ghost use Rattle.flat_machine.specs.Groups.{class_at, IsEmpty};
ghost use Rattle.flat_machine.specs.Flat.{Flat, new_flat, put, IsArrayHeld, IsNewest};
ghost use Rattle.slot_tables.specs.Views.{kept_at, key_at, newest_block_in, is_kept, is_waiting, IsWhole};
ghost use Rattle.slot_tables.specs.Represents.{ShowsArray};

use crate::live::none_live;
use extent_groups::{GROUPS, GroupTable, SLOTS as SLOTS_OF_A_GROUP};
use extents::{Drive, ExtentTable, Shape};
use flat_machine::{Class, Refusal};
use map_join::{BlockMap, MapRefusal, Record};
use slot_tables::{Hold, SlotState, new_tables, state_at};
use std::alloc::Global;
use std::marker::Model;
use unit_store::Parts;

/// The array: drives and groups, the log of emitted records, and of each slot what the array keeps.
#[derive(Drop)]
pub struct Array<D: Drive, C: Hold> {
    pub(crate) parts: Parts<D>,
    pub(crate) log: Vec<Record>,
    /// The key of each block, 0 where it was never written. Kept next to the log, so that no call walks the log.
    pub(crate) keys: Vec<u64>,
    /// What is kept of each slot, at least for the numbers of all made groups. Of slots past its end nothing is kept.
    pub(crate) places: Vec<SlotState<C>>,
    /// Of each group, how many of its slots are newest places. Kept, so that plans don't count them.
    pub(crate) live: [u16; GROUPS],
    /// A buffer of a unit's length, and one of two units', for the calls of the drives. Kept, so that these allocate nothing.
    pub(crate) unit: Vec<u8>,
    pub(crate) scratch: Vec<u8>,
}

impl<D: Drive, C: Hold> Model for Array<D, C> {
    ghost use Rattle.slot_tables.specs.Views.{ArrayView, IsWhole};
    ghost use Rattle.slot_tables.specs.Kept.{AreOf};
    ghost use Rattle.disk_array.specs.Inside.{seen, IsReady};

    ghost Value = { ArrayView };

    ghost view = { seen D.units D.lost D.failures };

    ghost invariant = { λ a. IsWhole (seen D.units D.lost D.failures a) × AreOf C.names a.places.items × IsReady D.units a };
}

impl<D: Drive, C: Hold> Array<D, C> {
    /// A new array: no group is made and nothing is written. There are 3 to 16 drives, each with the units that the shape asks
    /// for, with any content. If out of memory it returns the drives.
    pub fn new(
        alloc: Global,
        shape: Shape,
        drives: Vec<D>,
    ) -> Result<Array<D, C>, (Refusal, Vec<D>)>
        requires count { (3 ≤ length drives.items) × (length drives.items ≤ 16) }
        requires units { HaveUnitCount D.units drives.items (shape.extents * extent_units shape.segments) }
        requires sized { AreSized D.units (HEADER_BYTES + shape.payload) drives.items }
        ensures sizes { IfOk result (λ array. IsShapeOf shape array.parts.groups.extents array.parts.groups.segments array.parts.groups.payload
            array.parts.groups.blocks) }
        ensures drives { IfOk result (λ array. array.parts.drives ≡ map (drive_view D.units D.lost D.failures) drives.items) }
        ensures empty { IfOk result (λ array. IsEmpty array.parts.groups) }
        ensures ok { IfOk result (λ array. ShowsArray array
            (new_flat array.parts.groups (length array.parts.drives) (lost_of array.parts) (failed_of array.parts))) }
        ensures err { IfErr result (λ e. (e.0 ≡ Refusal.Memory) × (e.1 ≡ drives)) }
    {
        let Ok(tables) = new_tables(alloc, shape, drives.len() as u8) else {
            return Err((Refusal::Memory, drives));
        };
        Ok(Array {
            parts: Parts {
                shape,
                groups: tables.groups,
                extents: tables.extents,
                drives,
                note: None,
            },
            log: Vec::new(alloc),
            keys: tables.keys,
            places: tables.places,
            live: none_live(),
            unit: tables.unit,
            scratch: tables.scratch,
        })
    }

    /// The sizes that the array was made with.
    pub fn shape(&self) -> Shape
        ensures { IsShapeOf result self.now.parts.groups.extents self.now.parts.groups.segments self.now.parts.groups.payload self.now.parts.groups.blocks }
    {
        self.parts.groups.shape()
    }

    /// The groups, by number.
    pub fn groups(&self) -> &GroupTable
        ensures { result.now ≡ self.now.parts.groups }
    {
        &self.parts.groups
    }

    /// Which group owns which extent.
    pub fn extents(&self) -> &ExtentTable
        ensures { result.now ≡ self.now.parts.owners }
    {
        &self.parts.extents
    }

    /// How many drives there are, lost ones too: 3 to 16.
    pub fn drive_count(&self) -> u8
        ensures count { result ≡ length self.now.parts.drives }
        ensures most { result ≤ 16 }
    {
        self.parts.drives.len() as u8
    }

    /// Whether the drive of this number is lost; past the last drive none is there, which counts as lost.
    pub fn is_lost(&self, drive: u8) -> bool
        ensures { result ≡ lost_of self.now.parts drive }
    {
        let drive = usize::from(drive);
        drive >= self.parts.drives.len() || self.parts.drives[drive].is_lost()
    }

    /// Which of sixteen drives are lost, by number; past the last drive none is there, which counts as lost.
    pub fn lost(&self) -> [bool; 16]
        ensures { (drive : ℕ) → drive < 16 → slice_index_or result drive true ≡ lost_of self.now.parts drive }
    {
        let mut lost = [true; 16];
        for drive in 0..16u8 {
            lost[usize::from(drive)] = self.is_lost(drive);
        }
        lost
    }

    /// Whether no drives are left from which the unit of a slot could be read or written. A slot of no group isn't gone.
    pub fn is_gone(&self, slot: u16) -> bool
        ensures { IsTrue result ↔ IsLost self.now.parts slot }
    {
        self.parts.is_gone(slot)
    }

    /// What always holds of an array, as a law: nothing is done.
    pub fn whole(&self)
        ensures { IsWhole self.now }
    {
        // The law is the invariant of the type: there is nothing to do.
        let _ = &self.parts;
    }

    /// Whether the array itself holds the slot: for a ticket, as a block's newest place, or for a dissolved group.
    pub fn is_held(&self, slot: u16) -> bool
        ensures value { result ≡ is_kept (kept_at self.now slot) }
        ensures flat { (F : Flat) → ShowsArray self.now F → IsTrue result ↔ IsArrayHeld F slot }
    {
        match state_at(&self.places, slot) {
            Some(SlotState::Free) => false,
            Some(SlotState::Pending(_, _)) => true,
            Some(SlotState::Moving(_, _, _)) => true,
            Some(SlotState::Newest(_, _)) => true,
            Some(SlotState::Unmade(_)) => true,
            None => false,
        }
    }

    // A ticket waits at the slot.
    pub(crate) fn waits(&self, slot: u16) -> bool
        ensures { result ≡ is_waiting (kept_at self.now slot) }
    {
        match state_at(&self.places, slot) {
            Some(SlotState::Free) => false,
            Some(SlotState::Pending(_, _)) => true,
            Some(SlotState::Moving(_, _, _)) => true,
            Some(SlotState::Newest(_, _)) => false,
            Some(SlotState::Unmade(_)) => false,
            None => false,
        }
    }

    /// The newest record of a block.
    pub fn newest(&self, block: u32) -> Option<Record>
        requires { block < self.now.parts.groups.blocks }
        ensures value { result ≡ record_at block (key_at self.now block) }
        ensures flat { (F : Flat) → ShowsArray self.now F → IsNewest F.emitted block result }
    {
        self.reported(block)
    }

    /// The block whose newest place the slot is, if any.
    pub fn block_at(&self, slot: u16) -> Option<u32>
        ensures { IsBlockAt (key_at self.now) slot result }
    {
        self.placed(slot)
    }

    fn placed(&self, slot: u16) -> Option<u32>
        ensures value { result ≡ newest_block_in (kept_at self.now slot) }
        ensures whole { IsWhole self.now }
    {
        match state_at(&self.places, slot) {
            Some(SlotState::Free) => None,
            Some(SlotState::Pending(_, _)) => None,
            Some(SlotState::Moving(_, _, _)) => None,
            Some(SlotState::Newest(block, _)) => Some(*block),
            Some(SlotState::Unmade(_)) => None,
            None => None,
        }
    }

    pub(crate) fn reported(&self, block: u32) -> Option<Record>
        requires { block < self.now.parts.groups.blocks }
        ensures value { result ≡ record_at block (key_at self.now block) }
        ensures whole { IsWhole self.now }
    {
        Record::of_key(block, self.keys[block as usize])
    }

    /// How many records were emitted.
    pub fn record_count(&self) -> usize
        ensures { result ≡ length self.now.log }
    {
        self.log.len()
    }

    /// The emitted records from the n-th on, in order of emission. None where n is past the end, and then nothing is
    /// allocated.
    pub fn records_from(&self, alloc: Global, n: usize) -> Result<Vec<Record>, Refusal>
        ensures ok { IfOk result (λ records. records.items ≡ drop n self.now.log) }
        ensures there { length self.now.log ≤ n → IsOk result }
        ensures err { IfErr result (λ refusal. refusal ≡ Refusal.Memory) }
    {
        if n >= self.log.len() {
            return Ok(Vec::new(alloc));
        }
        match self.log[n..].to_vec(alloc) {
            Ok(records) => Ok(records),
            Err(_) => Err(Refusal::Memory),
        }
    }

    /// The running map, copied. Allocates only where a block was written.
    pub fn map(&self, alloc: Global) -> Result<BlockMap, Refusal>
        ensures ok { IfOk result (λ map. IsSame (at map) (key_at self.now)) }
        ensures there { IsSame (key_at self.now) (λ _. 0) → IsOk result }
        ensures flat { IfOk result (λ map. (F : Flat) → ShowsArray self.now F → IsMapOf F.emitted (at map)) }
        ensures err { IfErr result (λ refusal. refusal ≡ Refusal.Memory) }
    {
        let mut map = BlockMap::new(alloc);
        for block in 0..self.parts.groups.shape().blocks {
            match self.take_newest(alloc, block, &mut map) {
                Ok(()) => {}
                Err(_) => return Err(Refusal::Memory),
            }
        }
        Ok(map)
    }

    // Takes the newest record of a block into a map that has none of it.
    fn take_newest(&self, alloc: Global, block: u32, map: &mut BlockMap) -> Result<(), MapRefusal>
        requires inside { block < self.now.parts.groups.blocks }
        requires none { at map.old block ≡ 0 }
        ensures ok { OnOk result (IsSame (at map.new) (put (at map.old) block (key_at self.now block))) }
        ensures there { key_at self.now block ≡ 0 → IsOk result }
    {
        match self.reported(block) {
            None => Ok(()),
            Some(record) => map.take(alloc, record),
        }
    }

    // The class of a slot, none where no made group has it.
    pub(crate) fn class_of(&self, slot: u16) -> Option<Class>
        ensures { result ≡ class_at self.now.parts.groups slot }
    {
        let group = slot / SLOTS_OF_A_GROUP;
        let class = self.parts.groups.class_of(group)?;
        if slot % SLOTS_OF_A_GROUP < self.parts.groups.slots_of(group) {
            Some(class)
        } else {
            None
        }
    }
}
