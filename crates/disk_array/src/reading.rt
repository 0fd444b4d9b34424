// What is learned of a record that may be stale.
ghost use Rattle.std.specs.Prelude.{◌≡◌, ◌<◌, length, IfOk, IfErr, IsErr, IsErrOf, MatchOption, MatchResult};
ghost use Rattle.flat_machine.specs.Flat.{Flat, Payload, Trim, content_under};
ghost use Rattle.flat_machine.specs.Cases.{IsNotAhead};
ghost use Rattle.flat_machine.specs.Learning.{LearnedCase, UnlearnedCase};
ghost use Rattle.slot_tables.specs.Changes.{MayRefuse};
ghost use Rattle.slot_tables.specs.Represents.{ShowsArray};
ghost use Rattle.slot_tables.specs.Views.{with_parts};
ghost use Rattle.disk_array.specs.Refused.{IsRefused};

use crate::array::Array;
use extents::{Drive, Kind};
use flat_machine::Refusal;
use map_join::Record;
use slot_tables::Hold;
use std::alloc::{AllocError, Global};
use std::marker::Model;
use unit_store::Sight;

/// A record with its payload, or with none where it is a trim, as an array returns it: `read_or_learn` and
/// `read_or_learn_into` alone make one.
#[derive(Debug, Drop)]
pub struct Reading {
    record: Record,
    payload: Option<Vec<u8>>,
}

impl Model for Reading {
    ghost use Rattle.disk_array.specs.Reads.{Lesson, content_of};

    ghost Value = { Lesson };

    ghost view = { λ reading. record { reported = reading.record; content = content_of reading.payload } };
}

impl Reading {
    fn of(source: Record, kind: Kind, payload: Vec<u8>) -> Reading
        ensures { result ≡ record { reported = source; content = content_under kind payload.items } }
    {
        let payload = match kind {
            Kind::Data => Some(payload),
            Kind::Trim => None,
        };
        Reading {
            record: source,
            payload,
        }
    }

    /// The record that was asked for, or where that is stale the newest of its block.
    pub fn record(&self) -> Record
        ensures { result ≡ self.now.reported }
    {
        self.record
    }

    /// The payload of that record, none of a trim.
    pub fn payload(&self) -> Option<&[u8]>
        ensures { MatchOption result (self.now.content ≡ Trim) (λ bytes. self.now.content ≡ Payload bytes.now) }
    {
        match &self.payload {
            Some(payload) => Some(payload),
            None => None,
        }
    }
}

impl<D: Drive, C: Hold> Array<D, C> {
    /// The record with its payload, or where its place is stale the newest record of its block with
    /// the payload of the last write; no payload of a trim. Refused as `read_at` is, and as gone where the newest place can't be read.
    pub fn read_or_learn(&mut self, alloc: Global, asked: Record) -> Result<Reading, Refusal>
        requires { asked.block < self.old.parts.groups.blocks }
        ensures err { IfErr result (IsRefused self.old self.new) }
        ensures rest { self.new ≡ with_parts self.old self.new.parts }
        ensures flat { (F : Flat) → ShowsArray self.old F → MatchResult result
            (λ reading. (G : Flat) × LearnedCase F asked reading.reported reading.content G × ShowsArray self.new G)
            (λ refusal. MayRefuse refusal
            (IsNotAhead F asked)
            ((G : Flat) × UnlearnedCase F asked refusal G × ShowsArray self.new G)) }
    {
        let room = self.no_payload(alloc);
        self.read_or_learn_into(asked, room)
    }

    /// Reads a record, or where its place is stale the newest of its block, into memory that was allocated before: `room` has a
    /// payload's length and any content, or is an Err if it couldn't be had. For a caller that allocates nothing while it holds a
    /// lock. Refused as Ahead, then as out of memory, both before any drive is called, then as gone.
    pub fn read_or_learn_into(
        &mut self,
        asked: Record,
        room: Result<Vec<u8>, AllocError>,
    ) -> Result<Reading, Refusal>
        requires block { asked.block < self.old.parts.groups.blocks }
        requires room { IfOk room (λ payload. length payload.items ≡ self.old.parts.groups.payload) }
        ensures err { IfErr result (IsRefused self.old self.new) }
        ensures memory { IsErrOf result Refusal.Memory → IsErr room }
        ensures rest { self.new ≡ with_parts self.old self.new.parts }
        ensures flat { (F : Flat) → ShowsArray self.old F → MatchResult result
            (λ reading. (G : Flat) × LearnedCase F asked reading.reported reading.content G × ShowsArray self.new G)
            (λ refusal. MayRefuse refusal
            (IsNotAhead F asked)
            ((G : Flat) × UnlearnedCase F asked refusal G × ShowsArray self.new G)) }
    {
        let newest = match self.not_ahead(asked) {
            Ok(newest) => newest,
            Err(refusal) => return Err(refusal),
        };
        // Only after Ahead, so that the refusals come in the order of `read_at`, which allocates then.
        let Ok(mut payload) = room else {
            return Err(Refusal::Memory);
        };
        match self.look(&asked, &mut payload) {
            Ok(Sight::Here(kind)) => Ok(Reading::of(asked, kind, payload)),
            Ok(Sight::Stale(_found)) => match self.payload_at(newest.place, &mut payload) {
                Ok(kind) => Ok(Reading::of(newest, kind, payload)),
                Err(refusal) => Err(refusal),
            },
            Err(refusal) => Err(refusal),
        }
    }
}
