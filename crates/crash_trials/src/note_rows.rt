// Rows of notes: a restart over a note that is made manually.
use crate::cells::found_of;
use crate::copies::all_units;
use crate::difference::{agree, holds};
use crate::payloads::unit_of;
use crate::reported::fault_text;
use crate::seen::map_text;
use crate::setup::{Memory, Setup};
use crate::stopped::{Stopped, all_claims, lose, restarted_whole, stopped};
use crate::table::Row;
use crate::trouble::Trouble;
use crate::words::{cells_of, drives_of, number, short};
use header_scan::ScanFault;
use std::alloc::{AllocError, Global};
use step_core::Plain;
use unit_store::Note;

/// The drives that are lost before a restart, the note, and the expected answer: that the note is bad, or the map.
#[derive(Drop)]
pub(crate) struct NoteRow {
    id: u32,
    setup: u32,
    lost: Vec<u8>,
    note: Note,
    answer: String,
}

fn note_of(alloc: Global, slot: &str, unit: &str, parity: &str) -> Result<Note, Trouble> {
    Ok(Note {
        slot: short(number(slot)?)?,
        unit: bytes_of(alloc, unit)?.unwrap_or(Vec::new(alloc)),
        parity: bytes_of(alloc, parity)?,
    })
}

// The row of these cells.
fn row_of(alloc: Global, cells: &[&str], setup: &Setup) -> Result<NoteRow, Trouble> {
    let [id, number_of_setup, lost, slot, unit, parity, answer] = cells else {
        return Err(Trouble::Form);
    };
    Ok(NoteRow {
        id: number(id)?,
        setup: number(number_of_setup)?,
        lost: drives_of(alloc, lost, setup.drives)?,
        note: note_of(alloc, slot, unit, parity)?,
        answer: found_of(alloc, answer, setup.shape.blocks)?,
    })
}

/// What a restart that is refused must leave.
#[derive(Drop)]
struct Left {
    units: Vec<u8>,
    claims: Vec<Plain>,
}

impl Row for NoteRow {
    fn file() -> &'static str {
        "notes.csv"
    }

    fn head() -> &'static str {
        "id,setup,lost,slot,unit,parity,answer"
    }

    fn parse(alloc: Global, line: &str, setup: &Setup) -> Result<NoteRow, Trouble> {
        let cells = cells_of(alloc, line)?;
        row_of(alloc, &cells, setup)
    }

    fn id(&self) -> u32 {
        self.id
    }

    fn setup(&self) -> u32 {
        self.setup
    }

    fn run(&self, alloc: Global, setup: &Setup) -> Result<(), Trouble> {
        let mut parts = self.noted(alloc, setup)?;
        match left_in(alloc, &mut parts) {
            Ok(left) => self.is_answered(alloc, parts, &left),
            Err(trouble) => Err(trouble),
        }
    }
}

// What a restart of the parts must leave if it is refused. After the losses, since a lost drive's units aren't read.
fn left_in(alloc: Global, parts: &mut Stopped) -> Result<Left, Trouble> {
    Ok(Left {
        units: all_units(alloc, parts)?,
        claims: all_claims(alloc, &parts.groups)?,
    })
}

impl NoteRow {
    // The parts of the array with the losses and the note.
    fn noted(&self, alloc: Global, setup: &Setup) -> Result<Stopped, Trouble> {
        let mut parts = stopped(alloc, setup.built(alloc)?)?;
        match self.put_note(alloc, &mut parts) {
            Ok(()) => Ok(parts),
            Err(trouble) => Err(trouble),
        }
    }

    fn put_note(&self, alloc: Global, parts: &mut Stopped) -> Result<(), Trouble> {
        lose(parts, &self.lost)?;
        parts.note = Some(copy_of(alloc, &self.note)?);
        Ok(())
    }

    // Whether a restart of the parts answers as the row says. If it is refused, it must leave what there was.
    fn is_answered(&self, alloc: Global, parts: Stopped, left: &Left) -> Result<(), Trouble> {
        match restarted_whole(alloc, parts)? {
            Ok(mut array) => self.is_mapped(alloc, &mut array),
            Err((fault, mut parts, claims)) => {
                self.is_refused(alloc, fault, left, &mut parts, &claims)
            }
        }
    }

    fn is_mapped(&self, alloc: Global, array: &mut Memory) -> Result<(), Trouble> {
        let map = map_text(alloc, array)?;
        agree(alloc, "answer", self.answer.as_str(), map.as_str())
    }

    fn is_refused(
        &self,
        alloc: Global,
        fault: ScanFault,
        left: &Left,
        parts: &mut Stopped,
        claims: &[Plain],
    ) -> Result<(), Trouble> {
        let found = fault_text(alloc, fault)?;
        agree(alloc, "answer", self.answer.as_str(), found.as_str())?;
        self.is_unchanged(alloc, left, parts, claims)
    }

    // Returns an error unless units, note and claims are as they were.
    fn is_unchanged(
        &self,
        alloc: Global,
        left: &Left,
        parts: &mut Stopped,
        claims: &[Plain],
    ) -> Result<(), Trouble> {
        let units = all_units(alloc, parts)?;
        holds(
            alloc,
            "units unchanged",
            units.as_slice() == left.units.as_slice(),
        )?;
        let same = match &parts.note {
            Some(note) => is_same(note, &self.note),
            None => false,
        };
        holds(alloc, "note unchanged", same)?;
        holds(alloc, "claims unchanged", claims == left.claims.as_slice())
    }
}

// The bytes of a cell; none if it is `-`. `empty` is a unit without bytes, which makes a note bad.
fn bytes_of(alloc: Global, cell: &str) -> Result<Option<Vec<u8>>, Trouble> {
    match cell {
        "-" => Ok(None),
        "empty" => Ok(Some(Vec::new(alloc))),
        _ => Ok(Some(unit_of(alloc, cell)?)),
    }
}

fn copy_of(alloc: Global, note: &Note) -> Result<Note, AllocError> {
    let parity = match &note.parity {
        Some(parity) => Some(parity.as_slice().to_vec(alloc)?),
        None => None,
    };
    Ok(Note {
        slot: note.slot,
        unit: note.unit.as_slice().to_vec(alloc)?,
        parity,
    })
}

fn is_same(one: &Note, other: &Note) -> bool {
    let is_parity = match (&one.parity, &other.parity) {
        (Some(one), Some(other)) => one.as_slice() == other.as_slice(),
        (None, None) => true,
        _ => false,
    };
    is_parity && one.slot == other.slot && one.unit.as_slice() == other.unit.as_slice()
}
