//! What a disk has, and how full it is.
ghost use Rattle.std.specs.Prelude.{◌≡◌};

use crate::disk_vault::DiskVault;
use crate::drives::{Drives, path_at};
use crate::folder::Folder;
use crate::notes::name_lost;
use crate::opened::{Disk, OpenFiles, Use, open_array, open_disk_files};
use crate::pairs::Pair;
use crate::progress;
use crate::trouble::Trouble;
use cached_drive::{CachedDrive, Saved};
use drive_places::Verdict;
use extent_groups::{Class, GROUPS, SLOTS};
use history::{Chronicle, Opened};
use journaled_store::JournaledStore;
use std::alloc::{AllocError, Global};
use std::io;
use std::marker::Brand;
use step_core::{Array, Plain};
use vault::Vault;

/// Slots of a level, and those that hold a block.
#[derive(Clone, Copy, Debug, PartialEq, Eq)]
struct Level {
    groups: u32,
    slots: u32,
    used: u32,
}

// How many slots of a group hold a block.
fn used_in<N: Chronicle>(array: &Array<CachedDrive<N>, Plain>, group: u16) -> u32 {
    let mut used = 0u32;
    for index in 0..array.groups().slots_of(group) {
        if array.is_held((SLOTS * (group % GROUPS as u16)).saturating_add(index)) {
            used = used.saturating_add(1);
        }
    }
    used
}

// The level of a class.
fn level_of<N: Chronicle>(array: &Array<CachedDrive<N>, Plain>, class: Class) -> Level {
    let mut level = Level {
        groups: 0,
        slots: 0,
        used: 0,
    };
    for group in 0..GROUPS as u16 {
        if array.groups().class_of(group) == Some(class) {
            let slots = u32::from(array.groups().slots_of(group));
            level.groups = level.groups.saturating_add(1);
            level.slots = level.slots.saturating_add(slots);
            level.used = level.used.saturating_add(used_in(array, group));
        }
    }
    level
}

// How many drives are lost.
fn missing_in<N: Chronicle>(array: &Array<CachedDrive<N>, Plain>) -> u8 {
    let mut missing = 0u8;
    for drive in 0..array.drive_count() {
        if array.is_lost(drive) {
            missing = missing.saturating_add(1);
        }
    }
    missing
}

// Prints the word for a drive's state, and where its file is, if it isn't at its own place.
fn print_drive<N: Chronicle, V: Vault + Drop>(
    rt: &HostRuntime,
    folder: Folder<'_>,
    disk: &Disk<N, V>,
    drive: u8,
) -> io::Result<()> {
    let is_lost = disk.store.world().array().is_lost(drive);
    let state = word_of(&disk.drives, drive, is_lost);
    match disk.drives.elsewhere(drive) {
        Some(index) => {
            let path = path_at(rt.alloc(), folder, disk.table.drives, index)?;
            println!(rt; "drive{drive} {state} at {path}")
        }
        None => println!(rt; "drive{drive} {state}"),
    }
}

fn print<N: Chronicle, V: Vault + Drop>(
    rt: &HostRuntime,
    folder: Folder<'_>,
    disk: &Disk<N, V>,
) -> io::Result<()> {
    let array = disk.store.world().array();
    let plan = &disk.table.plan;
    let size = plan.size;
    let block = plan.shape.payload;
    let blocks = plan.shape.blocks;
    println!(rt; "size {size} bytes: {blocks} blocks of {block}")?;
    for drive in 0..array.drive_count() {
        print_drive(rt, folder, disk, drive)?;
    }
    for (name, pair) in [("state", Pair::State), ("journal", Pair::Journal)] {
        let found = disk.pairs.of(pair);
        let first = found.first.word();
        let second = found.second.word();
        println!(rt; "{name}0 {first}")?;
        println!(rt; "{name}1 {second}")?;
    }
    for (name, class) in [("mirrored", Class::Mirrored), ("parity", Class::Parity)] {
        let level = level_of(array, class);
        let Level {
            groups,
            slots,
            used,
        } = level;
        println!(rt; "{name} groups {groups}: slots {slots}, used {used}")?;
    }
    let missing = missing_in(array);
    match missing {
        0 => println!(rt; "no drive is lost"),
        1 => println!(rt;
            "one drive is lost: all can be read, and a second loss may not be survived"
        ),
        _ => println!(rt; "{missing} drives are lost"),
    }
}

// The word for a drive's state: that of its file, or `lost` where that is there and isn't used.
fn word_of(drives: &Drives, drive: u8, is_lost: bool) -> &'static str {
    match drives.verdict(drive) {
        Verdict::Present if is_lost => "lost",
        verdict => verdict.word(),
    }
}

/// What a server's disk is like, for those who can't open it meanwhile.
pub(crate) fn served_text<N: Chronicle, V: Vault + Drop>(
    alloc: Global,
    store: &JournaledStore<N, V>,
    drives: &Drives,
    mended: u32,
) -> Result<String, AllocError> {
    let array = store.world().array();
    let mut text = String::new(alloc);
    write!(text, "served\n")?;
    for drive in 0..array.drive_count() {
        let word = word_of(drives, drive, array.is_lost(drive));
        write!(text, "drive{drive} {word}\n")?;
    }
    if mended > 0 {
        write!(
            text,
            "{mended} units weren't as their digests say at the start, and are written again\n"
        )?;
    }
    let repaired = store.repaired();
    if repaired > 0 {
        write!(
            text,
            "{repaired} units weren't as the array has them, and are written again\n"
        )?;
    }
    match missing_in(array) {
        0 => write!(text, "{}", progress::FINE)?,
        missing => write!(text, "{missing} of the drives lost\n")?,
    }
    Ok(text)
}

fn print_json<N: Chronicle, V: Vault + Drop>(
    rt: &HostRuntime,
    disk: &Disk<N, V>,
) -> io::Result<()> {
    let array = disk.store.world().array();
    let plan = &disk.table.plan;
    let size = plan.size;
    let block = plan.shape.payload;
    let blocks = plan.shape.blocks;
    print!(rt; "{{\"size\":{size},\"block\":{block},\"blocks\":{blocks},\"drives\":[")?;
    let mut comma = "";
    for drive in 0..array.drive_count() {
        let word = word_of(&disk.drives, drive, array.is_lost(drive));
        print!(rt; "{comma}\"{word}\"")?;
        comma = ",";
    }
    print!(rt; "]")?;
    for (name, pair) in [("states", Pair::State), ("journals", Pair::Journal)] {
        let found = disk.pairs.of(pair);
        let first = found.first.word();
        let second = found.second.word();
        print!(rt; ",\"{name}\":[\"{first}\",\"{second}\"]")?;
    }
    for (name, class) in [("mirrored", Class::Mirrored), ("parity", Class::Parity)] {
        let Level {
            groups,
            slots,
            used,
        } = level_of(array, class);
        print!(rt; ",\"{name}\":{{\"groups\":{groups},\"slots\":{slots},\"used\":{used}}}")?;
    }
    let missing = missing_in(array);
    println!(rt; ",\"missing\":{missing}}}")
}

// Prints what a disk has that is open.
fn show_disk<N: Chronicle, V: Vault + Drop>(
    rt: &HostRuntime,
    folder: Folder<'_>,
    json: bool,
    disk: &Disk<N, V>,
) -> Result<u8, Trouble> {
    let printed = if json {
        print_json(rt, disk)
    } else {
        print(rt, folder, disk)
    };
    // Nothing is left to do where standard error can't be written.
    let _ = name_lost(rt, folder, &disk.store, &disk.drives);
    match printed {
        Ok(()) => {
            let missing = missing_in(disk.store.world().array());
            let whole = missing == 0 && disk.pairs.are_present();
            Ok(if whole { 0 } else { 1 })
        }
        Err(error) => Err(Trouble::Output(error)),
    }
}

// Prints what a disk has whose files are open.
fn show_files<N: Chronicle, V: Vault + Drop>(
    rt: &HostRuntime,
    folder: Folder<'_>,
    files: OpenFiles<V>,
    json: bool,
    opened: Opened<Saved>,
) -> Result<u8, Trouble>
    requires { opened ≡ N.chronicle }
{
    let disk = open_array::<N, V>(rt, folder, files, 0, opened)?;
    show_disk(rt, folder, json, &disk)
}

// Prints what a disk has.
fn show_opened<N: Chronicle>(
    rt: &HostRuntime,
    folder: Folder<'_>,
    json: bool,
    opened: Opened<Saved>,
) -> Result<u8, Trouble>
    requires { opened ≡ N.chronicle }
{
    let (_lock, files) = open_disk_files(rt, folder, Use::Looks)?;
    show_files::<N, DiskVault>(rt, folder, files, json, opened)
}

/// Prints a disk's sizes, drives and levels, or what another process does with it. The status is 1 where a drive is lost, or a file of
/// the state or the journal is missing, older or fails.
pub(crate) fn show(rt: &HostRuntime, folder: Folder<'_>, json: bool) -> Result<u8, Trouble> {
    let opened = Opened::new(rt.alloc())?;
    match show_opened::<Brand>(rt, folder, json, opened) {
        Err(Trouble::Busy) => progress::show(rt, folder, json),
        shown => shown,
    }
}
