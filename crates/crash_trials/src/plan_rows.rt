// Rows of plans: a step of an array as a list of single writes.
use crate::cells::answer_of;
use crate::difference::agree;
use crate::intents::{intent_of, planned};
use crate::payloads::unit_of;
use crate::reported::refusal_text;
use crate::seen::{join, or_none};
use crate::setup::{Memory, Setup};
use crate::table::Row;
use crate::trouble::Trouble;
use crate::words::{byte, cells_of, number};
use crash_points::Intent;
use flat_machine::Refusal;
use std::alloc::Global;
use unit_store::{Micro, Note};

/// A step, its answer, and the note and the writes of its list. Units and the writes' units are hex digits of this program's
/// payloads.
#[derive(Drop)]
pub(crate) struct PlanRow {
    id: u32,
    setup: u32,
    intent: Intent,
    answer: String,
    unit: String,
    parity: String,
    writes: String,
}

// The row of these cells.
fn row_of(alloc: Global, cells: &[&str], setup: &Setup) -> Result<PlanRow, Trouble> {
    let [id, number_of_setup, intent, answer, unit, parity, writes] = cells else {
        return Err(Trouble::Form);
    };
    let id = number(id)?;
    let number_of_setup = number(number_of_setup)?;
    let unit = noted(alloc, unit)?;
    let parity = noted(alloc, parity)?;
    let writes = expected_writes(alloc, writes, unit.as_str(), parity.as_str())?;
    Ok(PlanRow {
        id,
        setup: number_of_setup,
        intent: intent_of(alloc, intent, setup)?,
        answer: answer_of(alloc, answer)?,
        unit,
        parity,
        writes,
    })
}

impl Row for PlanRow {
    fn file() -> &'static str {
        "plans.csv"
    }

    fn head() -> &'static str {
        "id,setup,intent,answer,unit,parity,writes"
    }

    fn parse(alloc: Global, line: &str, setup: &Setup) -> Result<PlanRow, Trouble> {
        let cells = cells_of(alloc, line)?;
        row_of(alloc, &cells, setup)
    }

    fn id(&self) -> u32 {
        self.id
    }

    fn setup(&self) -> u32 {
        self.setup
    }

    fn run(&self, alloc: Global, setup: &Setup) -> Result<(), Trouble> {
        let mut array = setup.built(alloc)?;
        self.is_planned(alloc, &mut array)
    }
}

impl PlanRow {
    // Whether the array's plan is the row's.
    fn is_planned(&self, alloc: Global, array: &mut Memory) -> Result<(), Trouble> {
        match planned(alloc, array, &self.intent)? {
            Ok(list) => self.is_list(alloc, &list),
            Err(refusal) => self.is_refusal(alloc, &refusal),
        }
    }

    fn is_refusal(&self, alloc: Global, refusal: &Refusal) -> Result<(), Trouble> {
        let refused = refusal_text(alloc, refusal)?;
        agree(alloc, "answer", self.answer.as_str(), refused.as_str())?;
        agree(alloc, "unit", self.unit.as_str(), "-")?;
        agree(alloc, "parity", self.parity.as_str(), "-")?;
        agree(alloc, "writes", self.writes.as_str(), "-")
    }

    // Whether the list is a note, writes, and the note cleared, as the row says.
    fn is_list(&self, alloc: Global, list: &[Micro]) -> Result<(), Trouble> {
        agree(alloc, "answer", self.answer.as_str(), "list")?;
        let [Micro::NoteSet(note), writes @ .., Micro::NoteClear] = list else {
            return agree(alloc, "answer", "list", "a list of another form");
        };
        self.is_noted_slot(alloc, note)?;
        self.is_noted_unit(alloc, note)?;
        self.is_noted_parity(alloc, note)?;
        let writes = found_writes(alloc, writes)?;
        agree(alloc, "writes", self.writes.as_str(), writes.as_str())
    }

    fn is_noted_slot(&self, alloc: Global, note: &Note) -> Result<(), Trouble> {
        let slot = format!(in alloc; "{}", note.slot)?;
        let expected = format!(in alloc; "{}", slot_of(&self.intent))?;
        agree(alloc, "slot of the note", expected.as_str(), slot.as_str())
    }

    fn is_noted_unit(&self, alloc: Global, note: &Note) -> Result<(), Trouble> {
        let unit = hex::encode(alloc, note.unit.as_slice())?;
        agree(alloc, "unit", self.unit.as_str(), unit.as_str())
    }

    fn is_noted_parity(&self, alloc: Global, note: &Note) -> Result<(), Trouble> {
        let parity = match &note.parity {
            Some(parity) => hex::encode(alloc, parity.as_slice())?,
            None => String::from_str(alloc, "-")?,
        };
        agree(alloc, "parity", self.parity.as_str(), parity.as_str())
    }
}

fn slot_of(intent: &Intent) -> u16 {
    match intent {
        Intent::Fill { slot, payload: _ } => *slot,
        Intent::Trim { slot } => *slot,
        Intent::Copy { slot, block: _ } => *slot,
        Intent::Commit { slot, block: _ } => *slot,
    }
}

// The unit of a cell in hex digits with this program's payload, `-` where there is none.
fn noted(alloc: Global, cell: &str) -> Result<String, Trouble> {
    if cell == "-" {
        return Ok(String::from_str(alloc, cell)?);
    }
    Ok(hex::encode(alloc, unit_of(alloc, cell)?)?)
}

// The writes of a cell, each with the unit that it names.
fn expected_writes(alloc: Global, cell: &str, unit: &str, parity: &str) -> Result<String, Trouble> {
    let mut text = String::new(alloc);
    if cell != "-" {
        for entry in cell.split(';') {
            let entry = expected_write(alloc, entry, unit, parity)?;
            join(&mut text, entry.as_str())?;
        }
    }
    or_none(text)
}

fn expected_write(alloc: Global, entry: &str, unit: &str, parity: &str) -> Result<String, Trouble> {
    let mut words = entry.split(' ');
    let drive = byte(number(words.next().unwrap_or(""))?)?;
    let address = number(words.next().unwrap_or(""))?;
    let bytes = match words.next() {
        Some("unit") => unit,
        Some("parity") => parity,
        _ => return Err(Trouble::Form),
    };
    if words.next().is_some() {
        return Err(Trouble::Form);
    }
    Ok(format!(in alloc; "{drive} {address} {bytes}")?)
}

fn found_writes(alloc: Global, writes: &[Micro]) -> Result<String, Trouble> {
    let mut text = String::new(alloc);
    for write in writes {
        let entry = match write {
            Micro::Write { drive, at, unit } => {
                let unit = hex::encode(alloc, unit.as_slice())?;
                format!(in alloc; "{drive} {at} {unit}")?
            }
            _ => String::from_str(alloc, "another note")?,
        };
        join(&mut text, entry.as_str())?;
    }
    or_none(text)
}
