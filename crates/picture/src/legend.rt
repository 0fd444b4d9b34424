// What the marks mean.
ghost use Rattle.std.specs.Prelude.{◌≤◌};

use crate::mark::Mark;
use crate::shapes::{put_box, put_cross, put_frame, put_rect, put_unit};
use crate::style::{BLUE, CELL, FREE, GREEN, MARGIN, STRIP, Tint};
use std::alloc::AllocError;

/// The width of an entry.
const ENTRY: u32 = 250;

/// A sample of a mark.
#[derive(Clone, Copy)]
enum Sample {
    /// A unit, next to its group's number.
    Unit(Mark, u16, Tint),
    /// An extent in no group.
    Free,
    /// The log's next slot.
    End,
    /// A lost drive.
    Lost,
}

/// The samples with what they mean.
const ENTRIES: [(Sample, &str); 8] = [
    (
        Sample::Unit(Mark::Unit(0, Some(42)), 7, BLUE),
        "live unit with its block",
    ),
    (
        Sample::Unit(Mark::SecondCopy(0, Some(42)), 7, BLUE),
        "its second copy",
    ),
    (
        Sample::Unit(Mark::Unit(0, None), 8, GREEN),
        "empty slot (a hole)",
    ),
    (Sample::Unit(Mark::Parity(8), 8, GREEN), "parity of a row"),
    (
        Sample::Unit(Mark::Unused(7), 7, BLUE),
        "segment without a partner",
    ),
    (Sample::Free, "extent in no group"),
    (Sample::End, "write group, next slot of the log"),
    (Sample::Lost, "lost drive"),
];

/// Entries next to each other in a picture of this width.
fn columns_of(width: u32) -> usize
    ensures { 1 ≤ result }
{
    (width / ENTRY).max(1) as usize
}

/// The height of the legend.
pub(crate) fn legend_height(width: u32) -> u32 {
    let lines = (ENTRIES.len() - 1) / columns_of(width) + 1;
    lines as u32 * 20 + 40
}

// A sample, one unit high.
fn put_sample(out: &mut String, sample: Sample) -> Result<(), AllocError> {
    match sample {
        Sample::Unit(mark, group, tint) => {
            put_box(out, group, tint, STRIP + CELL, 15)?;
            put_unit(out, mark, tint, 0, 14)
        }
        Sample::Free => put_rect(out, 0, 0, STRIP + CELL, 15, FREE),
        Sample::End => put_frame(out, STRIP, 1, CELL - 1, 13),
        Sample::Lost => put_cross(out, STRIP + CELL, 15),
    }
}

/// The legend, from this height down.
pub(crate) fn put_legend(out: &mut String, width: u32, top: u32) -> Result<(), AllocError> {
    let columns = columns_of(width);
    for number in 0..ENTRIES.len() {
        let (sample, meaning) = ENTRIES[number];
        let x = MARGIN + (number % columns) as u32 * ENTRY;
        let y = top.saturating_add((number / columns) as u32 * 20);
        write!(out, "<g transform=\"translate({x} {y})\">\n")?;
        put_sample(out, sample)?;
        write!(
            out,
            "<text x=\"62\" y=\"11\" font-size=\"11\" text-anchor=\"start\">{meaning}</text>\n</g>\n"
        )?;
    }
    Ok(())
}
