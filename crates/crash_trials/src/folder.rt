// A folder of tables with the setups that they name.
use crate::note_rows::NoteRow;
use crate::plan_rows::PlanRow;
use crate::setup::read_setup;
use crate::stop_rows::StopRow;
use crate::table::{Row, Setups, rows_of, run_rows, setup_in};
use crate::trouble::Trouble;
use std::collections::BTreeMap;
use std::{fs, io};

/// A table's file: its name and its text.
#[derive(Drop)]
struct Table {
    file: String,
    text: String,
}

/// Reads the tables of a folder and their setups, and then carries out each row. Returns whether all agree. All lines are
/// parsed first, so that a wrong one ends the run before any result.
pub(crate) fn run_folder(rt: &HostRuntime, folder: &str) -> Result<bool, Trouble> {
    let plans = table_of::<PlanRow>(rt, folder)?;
    let stops = table_of::<StopRow>(rt, folder)?;
    let notes = table_of::<NoteRow>(rt, folder)?;
    let mut setups = BTreeMap::new(rt.alloc());
    read_setups(rt, folder, &plans, &mut setups)?;
    read_setups(rt, folder, &stops, &mut setups)?;
    read_setups(rt, folder, &notes, &mut setups)?;
    let plan_rows = rows_in::<PlanRow>(rt, &plans, &setups)?;
    let stop_rows = rows_in::<StopRow>(rt, &stops, &setups)?;
    let note_rows = rows_in::<NoteRow>(rt, &notes, &setups)?;
    let are_planned = run_rows(rt, &plan_rows, &setups)?;
    let are_stopped = run_rows(rt, &stop_rows, &setups)?;
    let are_noted = run_rows(rt, &note_rows, &setups)?;
    Ok(are_planned && are_stopped && are_noted)
}

fn rows_in<R: Row>(rt: &HostRuntime, table: &Table, setups: &Setups) -> Result<Vec<R>, Trouble> {
    rows_of(rt.alloc(), table.file.as_str(), table.text.as_str(), setups)
}

// The text of a file.
fn read_file(rt: &HostRuntime, file: &str) -> Result<String, Trouble> {
    match fs::read_to_string(rt, file) {
        Ok(text) => Ok(text),
        Err(error) => match error.kind() {
            io::ErrorKind::OutOfMemory => Err(Trouble::Memory),
            _ => Err(Trouble::File(String::from_str(rt.alloc(), file)?)),
        },
    }
}

// The table of a kind of rows, whose first line has to be theirs.
fn table_of<R: Row>(rt: &HostRuntime, folder: &str) -> Result<Table, Trouble> {
    let name = R::file();
    let file = format!(in rt.alloc(); "{folder}/{name}")?;
    let text = read_file(rt, file.as_str())?;
    if text.as_str().lines().next() != Some(R::head()) {
        return Err(Trouble::Line(file, 1));
    }
    Ok(Table { file, text })
}

// Reads the setups that a table names and that aren't read yet.
fn read_setups(
    rt: &HostRuntime,
    folder: &str,
    table: &Table,
    setups: &mut Setups,
) -> Result<(), Trouble> {
    for (at, line) in table.text.as_str().lines().enumerate().skip(1) {
        let number = match setup_in(line) {
            Ok(number) => number,
            Err(trouble) => {
                return Err(trouble.located(rt.alloc(), table.file.as_str(), at.saturating_add(1)));
            }
        };
        if !setups.contains_key(&number) {
            read_one(rt, folder, number, setups)?;
        }
    }
    Ok(())
}

fn read_one(
    rt: &HostRuntime,
    folder: &str,
    number: u32,
    setups: &mut Setups,
) -> Result<(), Trouble> {
    let file = format!(in rt.alloc(); "{folder}/setups/{number}.steps")?;
    let text = read_file(rt, file.as_str())?;
    let setup = read_setup(rt.alloc(), file.as_str(), text.as_str())?;
    setups.insert(number, setup)?;
    Ok(())
}
