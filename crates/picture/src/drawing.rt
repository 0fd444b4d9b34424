// An array as SVG: a column for each drive, in it a box for each extent, with a line for each segment.
ghost use Rattle.std.specs.Prelude.{◌≡◌, ◌≤◌, ◌<◌, length};
ghost use Rattle.extents.specs.Owners.{IsExtent};
ghost use Rattle.extents.specs.Sizes.{extent_units};

use crate::blocks::blocks_by_slot;
use crate::legend::{legend_height, put_legend};
use crate::mark::{Mark, mark_of};
use crate::shapes::{put_box, put_cross, put_frame, put_rect, put_unit};
use crate::style::{
    CELL, EXTENT, FREE, MARGIN, NUMBERS, PITCH, Rows, STRIP, TOP, Tint, WHITE, tint_of,
};
use extent_groups::{Class, GROUPS, GroupTable, SLOTS};
use extents::{DRIVES, ExtentTable};
use map_join::BlockMap;
use std::alloc::{AllocError, Global};

/// The end of the log.
#[derive(Clone, Copy, Debug, PartialEq, Eq)]
pub struct End {
    /// The write group: the parity group to which the log last appended.
    pub group: u16,
    /// The next index in it. Past its last slot, it isn't drawn: the group is full, or the index unknown.
    pub next: u16,
}

// What is drawn, and how high its rows are.
#[derive(Clone, Copy)]
struct Scene<'a> {
    groups: &'a GroupTable,
    extents: &'a ExtentTable,
    blocks: &'a [Option<u32>],
    end: Option<End>,
    rows: Rows,
}

impl Scene<'_> {
    // Whether a mark is of the slot that the log appends to next.
    fn is_next(&self, mark: Mark) -> bool {
        match (self.end, mark) {
            (Some(end), Mark::Unit(slot, _)) => {
                slot / SLOTS == end.group && slot % SLOTS == end.next
            }
            _ => false,
        }
    }

    // Whether a group is the write group.
    fn is_write_group(&self, group: u16) -> bool {
        match self.end {
            Some(end) => end.group == group,
            None => false,
        }
    }
}

// The unit at an offset of an extent, with a frame if the log appends to its slot next.
fn put_slot(
    out: &mut String,
    scene: &Scene<'_>,
    mark: Mark,
    tint: Tint,
    offset: u16,
) -> Result<(), AllocError> {
    let line = scene.rows.line;
    put_unit(out, mark, tint, offset, line)?;
    if !scene.is_next(mark) {
        return Ok(());
    }
    let x = STRIP + u32::from(offset % 2) * CELL;
    let y = u32::from(offset / 2) * u32::from(line) + 1;
    // After the unit, so that the unit doesn't cover the frame.
    put_frame(out, x, y, CELL - 1, u32::from(line))
}

// An extent of a group, in a box that begins at the origin.
fn put_members(
    out: &mut String,
    scene: &Scene<'_>,
    group: u16,
    drive: u8,
    extent: u16,
) -> Result<(), AllocError>
    requires { IsExtent scene.now.extents.now drive extent }
{
    let tint = tint_of(scene.groups, group);
    put_box(out, group, tint, EXTENT, scene.rows.height)?;
    if scene.is_write_group(group) {
        put_frame(out, 0, 0, STRIP - 1, scene.rows.height)?;
    }
    for offset in 0..scene.groups.shape().extent_units() as u16 {
        let mark = mark_of(
            scene.groups,
            scene.extents,
            scene.blocks,
            drive,
            extent,
            offset,
        );
        put_slot(out, scene, mark, tint, offset)?;
    }
    Ok(())
}

// An extent, in a box that begins at the origin.
fn put_extent(out: &mut String, scene: &Scene<'_>, drive: u8, extent: u16) -> Result<(), AllocError>
    requires { IsExtent scene.now.extents.now drive extent }
{
    match scene.extents.owner(drive, extent) {
        Some(group) => put_members(out, scene, group, drive, extent),
        None => put_rect(out, 0, 0, EXTENT, scene.rows.height, FREE),
    }
}

// A drive's name, above its column.
fn put_name(out: &mut String, drive: u8, lost: bool) -> Result<(), AllocError> {
    let style = if lost { "fill=\"#b8322a\"" } else { "" };
    let state = if lost { ", lost" } else { "" };
    write!(
        out,
        "<text x=\"41\" y=\"-8\" font-size=\"11\" {style}>drive {drive}{state}</text>\n"
    )
}

// The column of a drive.
fn put_drive(out: &mut String, scene: &Scene<'_>, drive: u8, lost: bool) -> Result<(), AllocError> {
    let x = MARGIN + NUMBERS + u32::from(drive) * PITCH;
    write!(out, "<g transform=\"translate({x} {TOP})\">\n")?;
    put_name(out, drive, lost)?;
    for extent in 0..scene.rows.extents {
        // The group table and the extent table may be of different shapes, so each extent is looked up.
        if scene.extents.has_extent(drive, extent) {
            let y = u32::from(extent) * u32::from(scene.rows.pitch);
            write!(out, "<g transform=\"translate(0 {y})\">\n")?;
            put_extent(out, scene, drive, extent)?;
            write!(out, "</g>\n")?;
        }
    }
    // Last, so that the cross lies over the extents.
    if lost {
        put_cross(out, EXTENT, scene.rows.total)?;
    }
    write!(out, "</g>\n")
}

// The extents' numbers, at least 10 pixels apart.
fn put_numbers(out: &mut String, rows: Rows) -> Result<(), AllocError> {
    let y = TOP + rows.height / 2 + 3;
    let step = 10 / rows.pitch.max(1) + 1;
    write!(
        out,
        "<g transform=\"translate(46 {y})\" text-anchor=\"end\" fill=\"#616e7c\">\n"
    )?;
    for extent in 0..rows.extents {
        if extent % step == 0 {
            let foot = u32::from(extent) * u32::from(rows.pitch);
            write!(out, "<text y=\"{foot}\">{extent}</text>\n")?;
        }
    }
    write!(out, "</g>\n")
}

// How many groups are of a class.
fn count_groups(groups: &GroupTable, class: Class) -> u16 {
    let mut count = 0u16;
    for group in 0..GROUPS as u16 {
        if groups.class_of(group) == Some(class) {
            count = count.saturating_add(1);
        }
    }
    count
}

// How many slots have a live block.
fn count_live(blocks: &[Option<u32>]) -> u32 {
    let mut count = 0u32;
    for block in blocks {
        if block.is_some() {
            // Saturating, because no clause bounds the table's length.
            count = count.saturating_add(1);
        }
    }
    count
}

// The title, lines of sizes and counts, and the word over the extents' numbers.
fn put_titles(out: &mut String, scene: &Scene<'_>, drives: usize) -> Result<(), AllocError> {
    write!(
        out,
        "<g text-anchor=\"start\" font-size=\"11\">\n<text x=\"24\" y=\"32\" font-size=\"16\" font-weight=\"bold\">Array of {drives} drives</text>\n"
    )?;
    put_sizes(out, scene)?;
    put_groups(out, scene.groups)?;
    write!(
        out,
        "</g>\n<text x=\"46\" y=\"100\" text-anchor=\"end\" fill=\"#616e7c\">extent</text>\n"
    )
}

// The sizes of a drive, and how many blocks are live.
fn put_sizes(out: &mut String, scene: &Scene<'_>) -> Result<(), AllocError> {
    let extents = scene.groups.shape().extents;
    let segments = scene.groups.shape().segments;
    let live = count_live(scene.blocks);
    write!(
        out,
        "<text x=\"24\" y=\"50\">Extents of a drive: {extents}. Segments of an extent: {segments}. Live blocks: {live}.</text>\n"
    )
}

// How many groups of each class there are, with the colours of the class.
fn put_groups(out: &mut String, groups: &GroupTable) -> Result<(), AllocError> {
    let mirrored = count_groups(groups, Class::Mirrored);
    let parity = count_groups(groups, Class::Parity);
    write!(
        out,
        "<text x=\"24\" y=\"66\">Mirrored groups (blue to violet): {mirrored}. Parity groups (green to brown): {parity}.</text>\n"
    )
}

// Opens the document, which `draw` closes: a white page, with the style of its text.
fn put_page(out: &mut String, width: u32, height: u32) -> Result<(), AllocError> {
    write!(
        out,
        "<svg xmlns=\"http://www.w3.org/2000/svg\" width=\"{width}\" height=\"{height}\" viewBox=\"0 0 {width} {height}\""
    )?;
    write!(
        out,
        " font-family=\"Helvetica, Arial, sans-serif\" font-size=\"8.5\" text-anchor=\"middle\" fill=\"#1f2933\">\n"
    )?;
    put_rect(out, 0, 0, width, height, WHITE)
}

/// An SVG document that shows of each unit what it is, of each live unit its block, which drives are lost and where the log ends.
/// The first 16 drives are drawn. A drive past the end of `lost` isn't lost. A red unit with a question mark has an owner that
/// doesn't have its extent as a member. The document is 560 to 1,582 pixels wide and at most 9,500 high. It has at most 160 bytes
/// for each unit of a group, 400 for each extent and 9,000 for the rest. Refused exactly where an allocation fails.
pub fn draw(
    alloc: Global,
    groups: &GroupTable,
    extents: &ExtentTable,
    map: &BlockMap,
    lost: &[bool],
    end: Option<End>,
) -> Result<String, AllocError> {
    let blocks = blocks_by_slot(alloc, map)?;
    let rows = Rows::new(&groups.shape());
    let drives = extents.drives().min(DRIVES);
    let scene = Scene {
        groups,
        extents,
        blocks: &blocks,
        end,
        rows,
    };
    let width = (2 * MARGIN + NUMBERS + drives as u32 * PITCH).max(560);
    let foot = rows.total.saturating_add(TOP + 24);
    let mut out = String::new(alloc);
    // First, because all else is painted over its white.
    put_page(&mut out, width, foot.saturating_add(legend_height(width)))?;
    put_titles(&mut out, &scene, drives)?;
    put_numbers(&mut out, rows)?;
    for drive in 0..drives {
        let is_lost = drive < lost.len() && lost[drive];
        put_drive(&mut out, &scene, drive as u8, is_lost)?;
    }
    put_legend(&mut out, width, foot)?;
    write!(out, "</svg>\n")?;
    Ok(out)
}
