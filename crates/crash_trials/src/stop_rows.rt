// Rows of stops: a step that stops after some of its writes, and the array that is restarted.
use crate::cells::{map_of, records_of};
use crate::copies::{add_up, are_equal};
use crate::difference::{agree, holds};
use crate::intents::{intent_of, planned};
use crate::reported::{at_text, fault_text, record_text, refusal_text};
use crate::seen::{join, look, map_text, or_none};
use crate::setup::{Memory, Setup};
use crate::stopped::{Stopped, lose, restarted, restarted_whole, run, stopped};
use crate::table::Row;
use crate::trouble::Trouble;
use crate::words::{cells_of, drives_of, number};
use crash_points::Intent;
use flat_machine::Refusal;
use map_join::Record;
use std::alloc::Global;
use unit_store::Micro;

/// A step, the drives that are lost before its writes, how many entries of its list are carried out, the drives that are
/// lost after them, and what is expected: whether there is a note, the map after a restart, and what lies at some records'
/// places.
#[derive(Drop)]
pub(crate) struct StopRow {
    id: u32,
    setup: u32,
    intent: Intent,
    losses: Losses,
    entries: u32,
    expected: Expected,
}

/// The drives that are lost before the writes of a step, and after them.
#[derive(Drop)]
struct Losses {
    between: Vec<u8>,
    then: Vec<u8>,
}

/// Whether there is a note, the map after a restart, and what lies at the records' places.
#[derive(Drop)]
struct Expected {
    note: String,
    map: String,
    records: Vec<Record>,
    at: String,
}

fn losses_of(alloc: Global, between: &str, then: &str, drives: u8) -> Result<Losses, Trouble> {
    Ok(Losses {
        between: drives_of(alloc, between, drives)?,
        then: drives_of(alloc, then, drives)?,
    })
}

fn expected_of(
    alloc: Global,
    note: &str,
    map: &str,
    at: &str,
    blocks: u32,
) -> Result<Expected, Trouble> {
    Ok(Expected {
        note: String::from_str(alloc, note)?,
        map: map_of(alloc, map, blocks)?,
        records: records_of(alloc, at, blocks)?,
        at: String::from_str(alloc, at)?,
    })
}

// The row of these cells.
fn row_of(alloc: Global, cells: &[&str], setup: &Setup) -> Result<StopRow, Trouble> {
    let [
        id,
        number_of_setup,
        intent,
        between,
        n,
        then,
        note,
        outcome,
        map,
        at,
    ] = cells
    else {
        return Err(Trouble::Form);
    };
    // The outcome is read for its form alone, since the map shows which it was.
    if !matches!(*note, "0" | "1") || !matches!(*outcome, "before" | "after") {
        return Err(Trouble::Form);
    }
    Ok(StopRow {
        id: number(id)?,
        setup: number(number_of_setup)?,
        entries: number(n)?,
        intent: intent_of(alloc, intent, setup)?,
        losses: losses_of(alloc, between, then, setup.drives)?,
        expected: expected_of(alloc, note, map, at, setup.shape.blocks)?,
    })
}

impl Row for StopRow {
    fn file() -> &'static str {
        "stops.csv"
    }

    fn head() -> &'static str {
        "id,setup,intent,between,n,then,note,outcome,map,at"
    }

    fn parse(alloc: Global, line: &str, setup: &Setup) -> Result<StopRow, Trouble> {
        let cells = cells_of(alloc, line)?;
        row_of(alloc, &cells, setup)
    }

    fn id(&self) -> u32 {
        self.id
    }

    fn setup(&self) -> u32 {
        self.setup
    }

    fn run(&self, alloc: Global, setup: &Setup) -> Result<(), Trouble> {
        // Over a stop of its own, because a restart takes the parts.
        self.leaves_no_note(alloc, setup)?;
        let parts = self.stop(alloc, setup)?;
        let note = if parts.note.is_some() { "1" } else { "0" };
        match agree(alloc, "note", self.expected.note.as_str(), note) {
            Ok(()) => self.is_left(alloc, parts),
            Err(trouble) => Err(trouble),
        }
    }
}

impl StopRow {
    // The parts that the stop and the losses leave.
    fn stop(&self, alloc: Global, setup: &Setup) -> Result<Stopped, Trouble> {
        let mut array = setup.built(alloc)?;
        match self.list(alloc, &mut array) {
            Ok(list) => self.stop_in(alloc, array, list),
            Err(trouble) => Err(trouble),
        }
    }

    fn list(&self, alloc: Global, array: &mut Memory) -> Result<Vec<Micro>, Trouble> {
        match planned(alloc, array, &self.intent)? {
            Ok(list) => Ok(list),
            Err(refusal) => no_list(alloc, &refusal),
        }
    }

    fn stop_in(&self, alloc: Global, array: Memory, list: Vec<Micro>) -> Result<Stopped, Trouble> {
        let mut parts = stopped(alloc, array)?;
        match self.carry_out(&mut parts, list) {
            Ok(()) => Ok(parts),
            Err(trouble) => Err(trouble),
        }
    }

    // Carries out the first entries of the list, between the losses.
    fn carry_out(&self, parts: &mut Stopped, list: Vec<Micro>) -> Result<(), Trouble> {
        lose(parts, &self.losses.between)?;
        run(parts, list, self.entries as usize)?;
        lose(parts, &self.losses.then)
    }

    // Whether a restart without a claim, which finishes the note and then is refused, leaves no note.
    fn leaves_no_note(&self, alloc: Global, setup: &Setup) -> Result<(), Trouble> {
        match restarted(alloc, self.stop(alloc, setup)?, Vec::new(alloc))? {
            // An array that is restarted has no note: that is proved.
            Ok(_array) => Ok(()),
            Err((_, parts, _)) => holds(alloc, "no note", parts.note.is_none()),
        }
    }

    // Whether a restart of the parts answers as the row says.
    fn is_left(&self, alloc: Global, parts: Stopped) -> Result<(), Trouble> {
        match restarted_whole(alloc, parts)? {
            Ok(array) => self.is_restarted(alloc, array),
            Err((fault, _, _)) => {
                let found = fault_text(alloc, fault)?;
                agree(alloc, "map", self.expected.map.as_str(), found.as_str())
            }
        }
    }

    // Whether the array is as the row says, and its units agree.
    fn is_restarted(&self, alloc: Global, array: Memory) -> Result<(), Trouble> {
        let mut array = array;
        match self.is_mapped(alloc, &mut array) {
            Ok(()) => agrees(alloc, array),
            Err(trouble) => Err(trouble),
        }
    }

    fn is_mapped(&self, alloc: Global, array: &mut Memory) -> Result<(), Trouble> {
        let map = map_text(alloc, array)?;
        agree(alloc, "map", self.expected.map.as_str(), map.as_str())?;
        let at = at_all(alloc, array, &self.expected.records)?;
        agree(alloc, "at", self.expected.at.as_str(), at.as_str())
    }
}

// Where a list is expected, and the step is refused.
fn no_list(alloc: Global, refusal: &Refusal) -> Result<Vec<Micro>, Trouble> {
    let found = refusal_text(alloc, refusal)?;
    agree(alloc, "intent", "list", found.as_str())?;
    Err(Trouble::Form)
}

// Whether copies are equal and rows add up.
fn agrees(alloc: Global, array: Memory) -> Result<(), Trouble> {
    let mut parts = stopped(alloc, array)?;
    agree_in(alloc, &mut parts)
}

fn agree_in(alloc: Global, parts: &mut Stopped) -> Result<(), Trouble> {
    holds(alloc, "equal copies", are_equal(alloc, parts)?)?;
    holds(alloc, "zero sums", add_up(alloc, parts)?)
}

// What lies at the places of these records.
fn at_all(alloc: Global, array: &mut Memory, records: &[Record]) -> Result<String, Trouble> {
    let mut text = String::new(alloc);
    for reported in records {
        let found = look(alloc, array, *reported)?;
        let answer = at_text(alloc, &found)?;
        let reported = record_text(alloc, *reported)?;
        let entry = format!(in alloc; "{reported} > {answer}")?;
        join(&mut text, entry.as_str())?;
    }
    or_none(text)
}
