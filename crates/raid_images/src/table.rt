//! The table as a text: the line `array N E S P B` of a script, a line `image D DIGEST` for each drive, a line
//! `G make m|p D.E D.E D.E ..` for each group, with its number G, and last `sum DIGEST`, the digest of all lines before it.
//! A table of the older form has no `image` and no `sum`.
ghost use Rattle.std.specs.Prelude.{IfOk};
ghost use Rattle.extent_groups.specs.Groups.{Agree};

use crate::digest::{Sum, put_sum, sum_in, sum_of};
use crate::trouble::Trouble;
use crate::words::LOST;
use extent_groups::{Class, GROUPS, GroupRefusal, GroupTable, Member, are_there};
use extents::{ExtentTable, Shape};
use script_exec::{put, put_number};
use script_syntax::{Command, Named, Verb, number_of, read_command};
use std::alloc::{AllocError, Global};

/// The first word of the last line.
const SUM: &[u8] = b"sum ";

/// The first word of a drive's line.
const IMAGE: &[u8] = b"image ";

/// An array's sizes, its groups, the owners of extents, and the digests of the images, without the drives.
#[derive(Drop)]
pub(crate) struct Table {
    pub(crate) shape: Shape,
    pub(crate) groups: GroupTable,
    pub(crate) extents: ExtentTable,
    /// Drives, 3 to 16.
    pub(crate) drives: u8,
    /// The digest of each drive's image, none where the drive was lost. Empty in a table of the older form.
    pub(crate) sums: Vec<Option<Sum>>,
}

// The text without its last line, and that line without its end, where the text ends with one.
fn cut_last(text: &[u8]) -> Option<(&[u8], &[u8])> {
    let Some((end, rest)) = text.split_last() else {
        return None;
    };
    if *end != b'\n' {
        return None;
    }
    match rest.iter().rposition(|byte| *byte == b'\n') {
        Some(at) => Some((&text[..at + 1], &rest[at + 1..])),
        None => None,
    }
}

// The lines of a table before its digest, and whether it has one; none where that is the digest of other lines.
fn cut_sum(text: &[u8]) -> Option<(&[u8], bool)> {
    let Some((lines, last)) = cut_last(text) else {
        return Some((text, false));
    };
    let Some(word) = last.strip_prefix(SUM) else {
        return Some((text, false));
    };
    match sum_in(word) {
        Some(sum) if sum == sum_of(lines) => Some((lines, true)),
        _ => None,
    }
}

// A size, below 65,537; none where it is greater. Tested here, since a cast would cut it to 32 bits.
fn size_of(number: u64) -> Option<u32> {
    if number > 65_536 {
        None
    } else {
        Some(number as u32)
    }
}

// The shape of an `array` line, and its drives.
fn shape_of(command: &Command) -> Option<(u8, Shape)> {
    let [drives, extents, segments, payload, blocks] = command.numbers;
    if drives < 3 || drives > 16 {
        return None;
    }
    let (Some(extents), Some(segments)) = (size_of(extents), size_of(segments)) else {
        return None;
    };
    let (Some(payload), Some(blocks)) = (size_of(payload), size_of(blocks)) else {
        return None;
    };
    match Shape::new(extents, segments, payload, blocks) {
        Ok(shape) => Some((drives as u8, shape)),
        Err(_) => None,
    }
}

// The members that are named; none where a number is past all drives and extents. Tested before the casts, which would cut it.
// `are_there` tests the rest.
fn members_of(alloc: Global, named: &[Named]) -> Result<Option<Vec<Member>>, AllocError> {
    let mut members = Vec::new(alloc);
    for name in named {
        if name.drive > 255 || name.extent > 65_535 {
            return Ok(None);
        }
        members.push(Member {
            drive: name.drive as u8,
            extent: name.extent as u16,
        })?;
    }
    Ok(Some(members))
}

impl Table {
    // The table of the first line, with no group.
    fn of_line(alloc: Global, line: &[u8]) -> Result<Table, Trouble>
        ensures { IfOk result (λ t. Agree t.groups t.extents) }
    {
        let mut command = Command::new(alloc);
        if !read_command(alloc, line, &mut [], &mut command)? || command.verb != Verb::Array {
            return Err(Trouble::Line(1));
        }
        let Some((drives, shape)) = shape_of(&command) else {
            return Err(Trouble::Line(1));
        };
        Ok(Table {
            shape,
            groups: GroupTable::new(alloc, &shape)?,
            extents: ExtentTable::new(alloc, drives, &shape)?,
            drives,
            sums: Vec::new(alloc),
        })
    }

    // Takes the line of the next drive's image, after its first word; false where it isn't one.
    fn take_image(&mut self, rest: &[u8]) -> Result<bool, AllocError>
        requires { Agree self.old.groups self.old.extents }
        ensures { Agree self.new.groups self.new.extents }
    {
        let Some(at) = rest.iter().position(|byte| *byte == b' ') else {
            return Ok(false);
        };
        // In the order of drives, so that each has one line and none is left out.
        if number_of(&rest[..at]) != Some(self.sums.len() as u64) {
            return Ok(false);
        }
        let word = &rest[at + 1..];
        if word == LOST.as_bytes() {
            self.sums.push(None)?;
            return Ok(true);
        }
        let Some(sum) = sum_in(word) else {
            return Ok(false);
        };
        self.sums.push(Some(sum))?;
        Ok(true)
    }

    // Enters a group with free extents under a free number; false where it can't be.
    fn enter(
        &mut self,
        alloc: Global,
        group: u16,
        class: Class,
        named: &[Named],
    ) -> Result<bool, AllocError>
        requires { Agree self.old.groups self.old.extents }
        ensures { Agree self.new.groups self.new.extents }
    {
        let Some(members) = members_of(alloc, named)? else {
            return Ok(false);
        };
        // `put_group` requires both, and a file may say anything.
        if !are_there(&self.extents, &members) || !self.groups.is_free(group) {
            return Ok(false);
        }
        let entered = self
            .groups
            .put_group(alloc, &mut self.extents, group, class, &members);
        match entered {
            Ok(()) => Ok(true),
            Err(GroupRefusal::Memory) => Err(AllocError),
            Err(_) => Ok(false),
        }
    }

    // Takes a line after the first; false where it isn't one, or where its group can't be entered.
    fn take(&mut self, alloc: Global, line: &[u8]) -> Result<bool, AllocError>
        requires { Agree self.old.groups self.old.extents }
        ensures { Agree self.new.groups self.new.extents }
    {
        match line.strip_prefix(IMAGE) {
            Some(rest) => self.take_image(rest),
            None => self.take_group(alloc, line),
        }
    }

    // Takes the line of a group; false where it isn't one, or where the group can't be entered.
    fn take_group(&mut self, alloc: Global, line: &[u8]) -> Result<bool, AllocError>
        requires { Agree self.old.groups self.old.extents }
        ensures { Agree self.new.groups self.new.extents }
    {
        let Some(at) = line.iter().position(|byte| *byte == b' ') else {
            return Ok(false);
        };
        let Some(group) = number_of(&line[..at]) else {
            return Ok(false);
        };
        let mut command = Command::new(alloc);
        if !read_command(alloc, &line[at + 1..], &mut [], &mut command)? {
            return Ok(false);
        }
        if group >= GROUPS as u64 || command.verb != Verb::Make {
            return Ok(false);
        }
        self.enter(alloc, group as u16, command.class, &command.members)
    }

    // The table that lines spell, without a digest at their end. `Trouble::Line` names the first line that can't be taken.
    fn of_lines(alloc: Global, text: &[u8]) -> Result<Table, Trouble> {
        let mut lines = text.split(|byte| *byte == b'\n');
        let Some(first) = lines.next() else {
            return Err(Trouble::Line(1));
        };
        let mut table = Table::of_line(alloc, first)?;
        let mut number = 1usize;
        for line in lines {
            number = number.saturating_add(1);
            if !line.is_empty() && !table.take(alloc, line)? {
                return Err(Trouble::Line(number));
            }
        }
        Ok(table)
    }

    /// The table that a text spells. It has a digest for each drive, and at its end the digest of its lines, or neither. Empty
    /// lines after the first are skipped.
    pub(crate) fn parse(alloc: Global, text: &[u8]) -> Result<Table, Trouble> {
        let Some((lines, has_sum)) = cut_sum(text) else {
            return Err(Trouble::Sum);
        };
        let table = Table::of_lines(alloc, lines)?;
        // With digests of images, or without any: else a table that lost its last line would count as one of the older form.
        let expected = if has_sum {
            usize::from(table.drives)
        } else {
            0
        };
        if table.sums.len() != expected {
            return Err(Trouble::Sum);
        }
        Ok(table)
    }
}

fn put_member(out: &mut Vec<u8>, member: &Member) -> Result<(), AllocError> {
    put(out, b" ")?;
    put_number(out, u64::from(member.drive))?;
    put(out, b".")?;
    put_number(out, u64::from(member.extent))
}

// Appends the line of the sizes.
fn put_sizes(out: &mut Vec<u8>, shape: &Shape, drives: usize) -> Result<(), AllocError> {
    let Shape {
        extents,
        segments,
        payload,
        blocks,
        ..
    } = shape;
    put(out, b"array ")?;
    put_number(out, drives as u64)?;
    for number in [extents, segments, payload, blocks] {
        put(out, b" ")?;
        put_number(out, u64::from(*number))?;
    }
    put(out, b"\n")
}

// Appends a line for each drive.
fn put_images(out: &mut Vec<u8>, sums: &[Option<Sum>]) -> Result<(), AllocError> {
    for (drive, sum) in sums.iter().enumerate() {
        put(out, IMAGE)?;
        put_number(out, drive as u64)?;
        put(out, b" ")?;
        match sum {
            Some(sum) => put_sum(out, sum)?,
            None => put(out, LOST.as_bytes())?,
        }
        put(out, b"\n")?;
    }
    Ok(())
}

// Appends a line for each group.
fn put_groups(out: &mut Vec<u8>, groups: &GroupTable) -> Result<(), AllocError> {
    for group in 0..GROUPS as u16 {
        let name: &[u8] = match groups.class_of(group) {
            Some(Class::Mirrored) => b" make m",
            Some(Class::Parity) => b" make p",
            None => continue,
        };
        put_number(out, u64::from(group))?;
        put(out, name)?;
        for member in groups.members(group) {
            put_member(out, member)?;
        }
        put(out, b"\n")?;
    }
    Ok(())
}

/// The text of the table of these groups, with the digests of the images of all drives.
pub(crate) fn table_text(
    alloc: Global,
    groups: &GroupTable,
    sums: &[Option<Sum>],
) -> Result<Vec<u8>, AllocError> {
    let mut text = Vec::new(alloc);
    put_sizes(&mut text, &groups.shape(), sums.len())?;
    put_images(&mut text, sums)?;
    put_groups(&mut text, groups)?;
    let sum = sum_of(&text);
    put(&mut text, SUM)?;
    put_sum(&mut text, &sum)?;
    put(&mut text, b"\n")?;
    Ok(text)
}
