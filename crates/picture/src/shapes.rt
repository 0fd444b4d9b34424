// What the picture is made of, appended to its text.
use crate::mark::Mark;
use crate::style::{CELL, FREE, GREY, LINE, RED, STRIP, Tint, WHITE};
use std::alloc::AllocError;

// A filled rectangle.
pub(crate) fn put_rect(
    out: &mut String,
    x: u32,
    y: u32,
    width: u32,
    height: u32,
    fill: u32,
) -> Result<(), AllocError> {
    write!(
        out,
        "<rect x=\"{x}\" y=\"{y}\" width=\"{width}\" height=\"{height}\" fill=\"#{fill:06x}\"/>\n"
    )
}

// The outline of a rectangle.
pub(crate) fn put_frame(
    out: &mut String,
    x: u32,
    y: u32,
    width: u32,
    height: u32,
) -> Result<(), AllocError> {
    write!(
        out,
        "<rect x=\"{x}\" y=\"{y}\" width=\"{width}\" height=\"{height}\" fill=\"none\" stroke=\"#111111\" stroke-width=\"2\"/>\n"
    )
}

// A cross over a rectangle that begins at the origin.
pub(crate) fn put_cross(out: &mut String, width: u32, height: u32) -> Result<(), AllocError> {
    write!(
        out,
        "<path d=\"M0 0L{width} {height}V0L0 {height}Z\" stroke=\"#b8322a\" stroke-width=\"2\" fill=\"#b8322a\" fill-opacity=\"0.15\"/>\n"
    )
}

// A number, in the middle above a place, with an attribute for its style.
fn put_number(
    out: &mut String,
    x: u32,
    y: u32,
    style: &str,
    number: u32,
) -> Result<(), AllocError> {
    write!(out, "<text x=\"{x}\" y=\"{y}\" {style}>{number}</text>\n")
}

// A character, in the middle above a place.
fn put_letter(out: &mut String, x: u32, y: u32, ink: u32, letter: &str) -> Result<(), AllocError> {
    write!(
        out,
        "<text x=\"{x}\" y=\"{y}\" fill=\"#{ink:06x}\">{letter}</text>\n"
    )
}

// The box of an extent, with its group's number in a strip left of its units.
pub(crate) fn put_box(
    out: &mut String,
    group: u16,
    tint: Tint,
    width: u32,
    height: u32,
) -> Result<(), AllocError> {
    put_rect(out, 0, 0, width, height, LINE)?;
    put_rect(out, 0, 0, STRIP - 1, height, tint.dark)?;
    // A lower box has no room for digits, so the number is left out.
    if height < 10 {
        return Ok(());
    }
    let style = "fill=\"#ffffff\" font-weight=\"bold\"";
    put_number(out, 10, height / 2 + 3, style, u32::from(group))
}

// The colour of a unit.
fn fill_of(mark: Mark, tint: Tint) -> u32 {
    match mark {
        Mark::Free => FREE,
        Mark::Unit(_, Some(_)) => tint.live,
        Mark::SecondCopy(_, Some(_)) => tint.pale,
        Mark::Unit(_, None) | Mark::SecondCopy(_, None) => WHITE,
        Mark::Parity(_) => tint.dark,
        Mark::Unused(_) => GREY,
        Mark::Stray(_) => RED,
    }
}

// What is written into a unit, in the middle above a place.
fn put_word(out: &mut String, mark: Mark, dark: u32, x: u32, y: u32) -> Result<(), AllocError> {
    match mark {
        Mark::Unit(_, Some(block)) => put_number(out, x, y, "", block),
        Mark::SecondCopy(_, Some(block)) => {
            put_number(out, x, y, "fill=\"#3e4c59\" font-style=\"italic\"", block)
        }
        Mark::Unit(_, None) | Mark::SecondCopy(_, None) => put_letter(out, x, y, dark, "&#183;"),
        Mark::Parity(_) => put_letter(out, x, y, WHITE, "P"),
        Mark::Stray(_) => put_letter(out, x, y, WHITE, "?"),
        Mark::Free | Mark::Unused(_) => Ok(()),
    }
}

// The unit at an offset of an extent, in a line of this height.
pub(crate) fn put_unit(
    out: &mut String,
    mark: Mark,
    tint: Tint,
    offset: u16,
    line: u8,
) -> Result<(), AllocError> {
    let x = STRIP + u32::from(offset % 2) * CELL;
    let y = u32::from(offset / 2) * u32::from(line) + 1;
    // A low line has no pixel for the gap below a unit, so its units touch.
    let height = if line < 6 { line } else { line - 1 };
    put_rect(out, x, y, CELL - 1, u32::from(height), fill_of(mark, tint))?;
    // Text of 8.5 pixels doesn't fit a lower line, so the unit has its colour alone.
    if line < 9 {
        return Ok(());
    }
    put_word(
        out,
        mark,
        tint.dark,
        x + CELL / 2,
        y + u32::from(line) / 2 + 2,
    )
}
