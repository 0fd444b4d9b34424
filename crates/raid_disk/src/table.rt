//! The table of a disk, a text of eight lines, and a ninth where drives were added or removed:
//!
//!     raid_disk 5
//!     identity UUID
//!     size BYTES
//!     block BYTES
//!     drives N
//!     segments S
//!     groups G
//!     mirrored M
//!     added K
//!
//! or `removed K`. The identity is in each other file too. Size, block and drives are as given to `create`; segments, groups and
//! mirrored groups follow from them. It is in two files, and is written when the disk is made, and when a drive is added or removed.
use crate::trouble::Trouble;
use disk_shape::{Plan, plan_disk};
use std::alloc::{AllocError, Global};
use uuid::Uuid;

/// The text of the table of a disk that has so many drives now.
pub(crate) fn text_of(
    alloc: Global,
    identity: Uuid,
    plan: &Plan,
    count: u8,
) -> Result<String, AllocError> {
    let size = plan.size;
    let drives = plan.drives;
    let block = plan.shape.payload;
    let segments = plan.shape.segments;
    let groups = plan.groups;
    let mirrored = plan.mirrored;
    let mut buffer = Uuid::encode_buffer();
    let number: &str = identity.hyphenated().encode_lower(&mut buffer);
    let mut text = format!(in alloc;
        "raid_disk 5\nidentity {number}\nsize {size}\nblock {block}\ndrives {drives}\nsegments {segments}\ngroups {groups}\nmirrored {mirrored}\n"
    )?;
    let added = count.saturating_sub(drives);
    if added > 0 {
        write!(text, "added {added}\n")?;
    }
    let removed = drives.saturating_sub(count);
    if removed > 0 {
        write!(text, "removed {removed}\n")?;
    }
    Ok(text)
}

/// What a table says.
#[derive(Clone, Copy)]
pub(crate) struct Table {
    pub(crate) identity: [u8; 16],
    /// The sizes of the disk as it was made.
    pub(crate) plan: Plan,
    /// Its drives, with those that were added and without those that were removed. The last one may be in no group yet, or no more: the
    /// vault's table says how many the array has.
    pub(crate) drives: u8,
}

impl Table {
    /// The table of a disk with so many drives.
    pub(crate) fn with_drives(&self, drives: u8) -> Table {
        Table {
            identity: self.identity,
            plan: self.plan,
            drives,
        }
    }
}

// What follows a line's word and a blank.
fn after_word<'a>(line: &'a str, word: &str) -> Option<&'a str> {
    let rest = line.strip_prefix(word)?;
    rest.strip_prefix(" ")
}

// The number of a line.
fn number_after(line: &str, word: &str) -> Option<u64> {
    match after_word(line, word)?.parse::<u64>() {
        Ok(number) => Some(number),
        Err(_) => None,
    }
}

// How many drives there are with those that a text's last line adds or removes; none where there can't be as many.
fn drives_with(drives: u64, line: Option<&str>) -> Option<u8> {
    let count = match line {
        None | Some("") => drives,
        Some(line) => match number_after(line, "added") {
            Some(added) => drives.checked_add(added)?,
            None => drives.checked_sub(number_after(line, "removed")?)?,
        },
    };
    if count > 16 {
        return None;
    }
    Some(count as u8)
}

// The identity, the plan and the drives for which the text's lines ask, if they are a table's.
fn lines_in(text: &str) -> Option<(Uuid, Plan, u8)> {
    let mut lines = text.split("\n");
    if lines.next() != Some("raid_disk 5") {
        return None;
    }
    let Ok(identity) = Uuid::parse_str(after_word(lines.next()?, "identity")?) else {
        return None;
    };
    let size = number_after(lines.next()?, "size")?;
    let block = number_after(lines.next()?, "block")?;
    let drives = number_after(lines.next()?, "drives")?;
    // What follows from these is compared by the caller.
    let _segments = lines.next()?;
    let _groups = lines.next()?;
    let _mirrored = lines.next()?;
    if block > 65_536 || drives > 16 {
        return None;
    }
    let count = drives_with(drives, lines.next())?;
    match plan_disk(size, block as u32, drives as u8) {
        Ok(plan) => Some((identity, plan, count)),
        Err(_) => None,
    }
}

/// The table that a text spells: exactly the text of its identity, its plan and its drives.
pub(crate) fn table_in(alloc: Global, text: &str) -> Result<Table, Trouble> {
    for earlier in ["raid_disk 2\n", "raid_disk 3\n", "raid_disk 4\n"] {
        if text.starts_with(earlier) {
            return Err(Trouble::Earlier);
        }
    }
    let Some((identity, plan, drives)) = lines_in(text) else {
        return Err(Trouble::NoTable);
    };
    let expected = text_of(alloc, identity, &plan, drives)?;
    if text != expected.as_str() {
        return Err(Trouble::NoTable);
    }
    Ok(Table {
        identity: identity.into_bytes(),
        plan,
        drives,
    })
}
