// What a block holds.
ghost use Rattle.std.specs.Prelude.{◌≡◌, ◌<◌, ◌≤◌, length, IfOk, IfErr, MatchResult, Some};
ghost use Rattle.map_join.specs.Record.{key_of, record_at};
ghost use Rattle.unit_store.specs.Views as parts;
ghost use Rattle.unit_store.specs.Views.{FoundGone};
ghost use Rattle.flat_machine.specs.Steps as say;
ghost use Rattle.flat_machine.specs.Flat.{Flat};
ghost use Rattle.flat_machine.specs.Cases.{IsAhead, IsAllocating, ReadCase, ReadAtCase};
ghost use Rattle.slot_tables.specs.Changes.{MayRefuse};
ghost use Rattle.slot_tables.specs.Reads.{WasSeen};
ghost use Rattle.slot_tables.specs.Represents.{ShowsArray};
ghost use Rattle.slot_tables.specs.Views.{with_parts, key_at, IsWhole};
ghost use Rattle.disk_array.specs.Reads.{WasFound, WasFoundIn, WasGone, WasNotFound, version_in, version_of, seen_of};
ghost use Rattle.disk_array.specs.Refused.{IsRefused};

use crate::array::Array;
use extents::{Drive, Kind};
use flat_machine::Refusal;
use map_join::Record;
use slot_tables::Hold;
use std::alloc::{AllocError, Global};
use unit_store::Sight;

/// What lies at a record's place: the payload or the trim under exactly that record; else the record in the header that was
/// found, none where it is blank or the place is in no group.
#[derive(Debug, Drop)]
pub enum At {
    Data(Vec<u8>),
    Trimmed,
    Stale(Option<Record>),
}

impl<D: Drive, C: Hold> Array<D, C> {
    /// The version and the payload of a block's last acknowledged write; none where that was a trim, or the block was never
    /// written. Refused as gone, with the slot of its newest record, where that slot is.
    pub fn read(&mut self, alloc: Global, block: u32) -> Result<Option<(u32, Vec<u8>)>, Refusal>
        requires { block < self.old.parts.groups.blocks }
        ensures ok { IfOk result (WasFound self.old self.new block) }
        ensures err { IfErr result (WasNotFound self.old self.new block) }
        ensures rest { self.new ≡ with_parts self.old self.new.parts }
        ensures flat { (F : Flat) → ShowsArray self.old F → MatchResult result
            (λ found. (G : Flat) × ReadCase F block (say.Found (version_of found)) G × ShowsArray self.new G)
            (λ refusal. MayRefuse refusal
            (IsAllocating F (say.Read block))
            ((G : Flat) × ReadCase F block (say.Refused refusal) G × ShowsArray self.new G)) }
    {
        let Some(record) = self.reported(block) else {
            return Ok(None);
        };
        // Before the drive call, so that out of memory loses no drive.
        let mut payload = match self.no_payload(alloc) {
            Ok(payload) => payload,
            Err(_) => return Err(Refusal::Memory),
        };
        // A trimmed block is read too, because only its unit says that it is trimmed.
        match self.payload_at(record.place, &mut payload) {
            Ok(Kind::Data) => Ok(Some((record.version, payload))),
            Ok(Kind::Trim) => Ok(None),
            Err(refusal) => Err(refusal),
        }
    }

    /// The version of a block's last acknowledged write, with its payload put into the buffer, which allocates nothing; none
    /// where that was a trim, or the block was never written. Refused as gone, with the slot of its newest record, where
    /// that slot is. Where no version is returned, nothing is said of what the buffer holds.
    pub fn read_into(&mut self, block: u32, payload: &mut [u8]) -> Result<Option<u32>, Refusal>
        requires block { block < self.old.parts.groups.blocks }
        requires payload { length payload.old ≡ self.old.parts.groups.payload }
        ensures ok { IfOk result (λ found. WasFoundIn self.old self.new block found payload.new) }
        ensures err { IfErr result (WasGone self.old self.new block) }
        ensures rest { self.new ≡ with_parts self.old self.new.parts }
        ensures flat { (F : Flat) → ShowsArray self.old F → MatchResult result
            (λ found. (G : Flat) × ReadCase F block (say.Found (version_in found payload.new)) G × ShowsArray self.new G)
            (λ refusal. (G : Flat) × ReadCase F block (say.Refused refusal) G × ShowsArray self.new G) }
    {
        let Some(record) = self.reported(block) else {
            return Ok(None);
        };
        match self.payload_at(record.place, payload) {
            Ok(Kind::Data) => Ok(Some(record.version)),
            Ok(Kind::Trim) => Ok(None),
            Err(refusal) => Err(refusal),
        }
    }

    /// What lies at a record's place. Refused as ahead where the record is greater than the newest of
    /// its block, or the block was never written, and as gone where its place can't be read.
    pub fn read_at(&mut self, alloc: Global, asked: Record) -> Result<At, Refusal>
        requires { asked.block < self.old.parts.groups.blocks }
        ensures ok { IfOk result (λ at. WasSeen self.old self.new asked (seen_of at)) }
        ensures err { IfErr result (IsRefused self.old self.new) }
        ensures rest { self.new ≡ with_parts self.old self.new.parts }
        ensures flat { (F : Flat) → ShowsArray self.old F → MatchResult result
            (λ at. (G : Flat) × ReadAtCase F asked (say.FoundAt (seen_of at)) G × ShowsArray self.new G)
            (λ refusal. MayRefuse refusal
            (IsAllocating F (say.ReadAt asked))
            ((G : Flat) × ReadAtCase F asked (say.Refused refusal) G × ShowsArray self.new G)) }
    {
        // Before the allocation, so that Memory is only the answer to a record that isn't ahead.
        if let Err(refusal) = self.not_ahead(asked) {
            return Err(refusal);
        }
        let mut payload = match self.no_payload(alloc) {
            Ok(payload) => payload,
            Err(_) => return Err(Refusal::Memory),
        };
        match self.look(&asked, &mut payload) {
            Ok(Sight::Here(Kind::Data)) => Ok(At::Data(payload)),
            Ok(Sight::Here(Kind::Trim)) => Ok(At::Trimmed),
            Ok(Sight::Stale(found)) => Ok(At::Stale(found)),
            Err(refusal) => Err(refusal),
        }
    }

    // The newest record of a block, where the one asked for isn't ahead of it.
    pub(crate) fn not_ahead(&self, asked: Record) -> Result<Record, Refusal>
        requires { asked.block < self.now.parts.groups.blocks }
        ensures ok { IfOk result (λ newest. (record_at asked.block (key_at self.now asked.block) ≡ Some newest) × (key_of asked ≤ key_of newest)) }
        ensures err { IfErr result (λ refusal. (refusal ≡ Refusal.Ahead (record_at asked.block (key_at self.now asked.block)))
            × IsAhead asked (record_at asked.block (key_at self.now asked.block))) }
        ensures whole { IsWhole self.now }
    {
        let found = self.reported(asked.block);
        let Some(newest) = found else {
            return Err(Refusal::Ahead(found));
        };
        if newest.key() < asked.key() {
            return Err(Refusal::Ahead(found));
        }
        Ok(newest)
    }

    // What lies at the record's place, where it is in a group; its payload is read where the record is there.
    pub(crate) fn look(&mut self, asked: &Record, payload: &mut [u8]) -> Result<Sight, Refusal>
        requires { length payload.old ≡ self.old.parts.groups.payload }
        ensures ok { IfOk result (λ sight. WasSeen self.old self.new asked.now (parts.seen_of sight payload.new)) }
        ensures err { IfErr result (FoundGone self.old.parts self.new.parts asked.now.place) }
        ensures rest { self.new ≡ with_parts self.old self.new.parts }
    {
        // The group of an old record may be dissolved since, so the slot is tested.
        if self.class_of(asked.place).is_none() {
            return Ok(Sight::Stale(None));
        }
        let unit: &mut [u8] = &mut self.unit;
        let scratch: &mut [u8] = &mut self.scratch;
        self.parts.see(asked, payload, unit, scratch)
    }

    // A buffer of a payload's length, to read a payload into.
    pub(crate) fn no_payload(&self, alloc: Global) -> Result<Vec<u8>, AllocError>
        ensures { IfOk result (λ payload. length payload.items ≡ self.now.parts.groups.payload) }
    {
        vec![in alloc; 0; self.shape().payload as usize]
    }
}
