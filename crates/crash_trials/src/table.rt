// A file of rows, each carried out over the array of a setup.
use crate::difference::Difference;
use crate::setup::Setup;
use crate::trouble::Trouble;
use crate::words::number;
use std::alloc::Global;
use std::collections::BTreeMap;

/// The setups, by number.
pub(crate) type Setups = BTreeMap<u32, Setup>;

/// A row of a table.
pub(crate) trait Row: Drop + Sized {
    /// The name of the table's file.
    fn file() -> &'static str;

    /// The first line of the file.
    fn head() -> &'static str;

    /// The row that a line spells, over this setup.
    fn parse(alloc: Global, line: &str, setup: &Setup) -> Result<Self, Trouble>;

    /// The row's number.
    fn id(&self) -> u32;

    /// The number of its setup.
    fn setup(&self) -> u32;

    /// Carries the row out; an error where something isn't as the row says.
    fn run(&self, alloc: Global, setup: &Setup) -> Result<(), Trouble>;
}

/// The number of a line's setup, which is in its second cell.
pub(crate) fn setup_in(line: &str) -> Result<u32, Trouble> {
    match line.split(',').nth(1) {
        Some(cell) => number(cell),
        None => Err(Trouble::Form),
    }
}

/// The rows of a table's text, whose setups were read before. `file` is its name.
pub(crate) fn rows_of<R: Row>(
    alloc: Global,
    file: &str,
    text: &str,
    setups: &Setups,
) -> Result<Vec<R>, Trouble> {
    let mut rows = Vec::new(alloc);
    for (at, line) in text.lines().enumerate().skip(1) {
        match row_of::<R>(alloc, line, setups) {
            Ok(row) => rows.push(row)?,
            Err(trouble) => return Err(trouble.located(alloc, file, at.saturating_add(1))),
        }
    }
    Ok(rows)
}

fn row_of<R: Row>(alloc: Global, line: &str, setups: &Setups) -> Result<R, Trouble> {
    match setups.get(&setup_in(line)?) {
        Some(setup) => R::parse(alloc, line, setup),
        None => Err(Trouble::Form),
    }
}

/// Carries out each row, and prints how many agree, and the first that doesn't; whether all agree.
pub(crate) fn run_rows<R: Row>(
    rt: &HostRuntime,
    rows: &[R],
    setups: &Setups,
) -> Result<bool, Trouble> {
    let mut agreeing = 0usize;
    let mut first = None;
    for row in rows {
        match run_row(rt.alloc(), row, setups) {
            Ok(()) => agreeing = agreeing.saturating_add(1),
            Err(Trouble::Differs(difference)) => {
                if first.is_none() {
                    first = Some((row.id(), difference));
                }
            }
            Err(trouble) => return Err(trouble),
        }
    }
    let (file, count) = (R::file(), rows.len());
    println!(rt; "{file}: {agreeing} of {count} rows agree")?;
    match first {
        Some((id, difference)) => report_difference(rt, file, id, &difference)?,
        None => {}
    }
    Ok(agreeing == count)
}

fn run_row<R: Row>(alloc: Global, row: &R, setups: &Setups) -> Result<(), Trouble> {
    match setups.get(&row.setup()) {
        Some(setup) => row.run(alloc, setup),
        None => Err(Trouble::Form),
    }
}

fn report_difference(
    rt: &HostRuntime,
    file: &str,
    id: u32,
    difference: &Difference,
) -> Result<(), Trouble> {
    let Difference {
        column,
        expected,
        found,
    } = difference;
    println!(rt; "{file}: row {id}, {column}: wanted {expected}, found {found}")?;
    Ok(())
}
