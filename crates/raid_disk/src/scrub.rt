//! All slots of a disk are tested.
use crate::any_vault::scrub_in;
use crate::folder::Folder;
use crate::mending::{Mended, mend_disk, mend_or_accept};
use crate::opened::{OpenFiles, Use, groups_in, open_disk_files, trouble_of};
use crate::trouble::Trouble;
use array_recovery::{RecoveryFault, tiers_of};
use drive_rebuild::{Findings, Scrubbed};
use extent_groups::SLOTS;
use extents::{DRIVES, MemDrive};
use std::alloc::Global;
use std::io;
use unit_store::Parts;
use vault::Vault;

// What a disk has, as far as it can be tested.
#[derive(Drop)]
struct Report {
    findings: Findings,
    lost: [bool; DRIVES],
    drives: u8,
    /// The units' headers make an array.
    are_headers_sound: bool,
    /// Units that weren't as their digests say, and are written again.
    mended: u32,
    /// Units that weren't as their digests say, and are taken as they are.
    accepted: u32,
}

// Whether a drive is lost.
fn is_lost(report: &Report, drive: u8) -> bool {
    drive < report.drives && report.lost[usize::from(drive % 16)]
}

// How many drives are lost.
fn lost_count(report: &Report) -> u8 {
    let mut count = 0u8;
    for drive in 0..DRIVES as u8 {
        if is_lost(report, drive) {
            count = count.saturating_add(1);
        }
    }
    count
}

// Whether the units' headers make an array.
fn make_array(alloc: Global, parts: Parts<MemDrive>) -> Result<bool, Trouble> {
    let Parts {
        shape,
        groups,
        extents,
        drives,
        note: _,
    } = parts;
    let parts = Parts {
        shape,
        groups,
        extents,
        drives,
        note: None,
    };
    match tiers_of(alloc, parts) {
        Ok(_tiers) => Ok(true),
        Err(RecoveryFault::Unsound | RecoveryFault::Gone(_)) => Ok(false),
        Err(fault) => Err(trouble_of(fault)),
    }
}

// Tests the slots of a disk that is open, and then the headers: whether they make an array.
fn test_opened<V: Vault + Drop>(rt: &HostRuntime, files: OpenFiles<V>) -> Result<Report, Trouble> {
    let mut files = files;
    let table = files.table;
    let spelled = groups_in(rt.alloc(), &mut files.vault, &table)?;
    let drives = spelled.drives;
    let absent = files.drives.absent();
    match scrub_in(
        rt.alloc(),
        &mut files.vault,
        &table.plan.shape,
        spelled,
        &absent,
    ) {
        Ok(scrubbed) => {
            let Scrubbed {
                findings,
                lost,
                parts,
            } = scrubbed;
            Ok(Report {
                findings,
                lost,
                drives,
                are_headers_sound: make_array(rt.alloc(), parts)?,
                mended: 0,
                accepted: 0,
            })
        }
        Err(fault) => Err(Trouble::of_rebuild(fault)),
    }
}

// Tests a disk.
fn test_once(rt: &HostRuntime, folder: Folder<'_>) -> Result<Report, Trouble> {
    let (_lock, files) = open_disk_files(rt, folder, Use::Looks)?;
    test_opened(rt, files)
}

fn print(rt: &HostRuntime, report: &Report) -> io::Result<()> {
    let mended = report.mended;
    if mended > 0 {
        println!(rt; "{mended} units weren't as their digests say, and are written again")?;
    }
    let accepted = report.accepted;
    if accepted > 0 {
        println!(rt; "{accepted} units weren't as their digests say, and are taken as they are")?;
    }
    for slot in report.findings.named.iter() {
        let group = *slot / SLOTS;
        let index = *slot % SLOTS;
        println!(rt; "group {group} slot {index}: its units contradict one another")?;
    }
    let unsound = report.findings.unsound;
    if unsound as usize > report.findings.named.len() {
        println!(rt; "and others: {unsound} in all")?;
    }
    if !report.are_headers_sound {
        println!(rt; "the headers make no array: blocks can't be found, or units are missing")?;
    }
    for drive in 0..report.drives {
        if is_lost(report, drive) {
            println!(rt; "drive{drive} is missing: what it shares can't be compared")?;
        }
    }
    let slots = report.findings.slots;
    if unsound == 0 && report.are_headers_sound {
        println!(rt; "{slots} slots are sound")
    } else {
        println!(rt; "{unsound} of {slots} slots aren't sound")
    }
}

// Prints the slots that are named, for JSON.
fn print_named(rt: &HostRuntime, report: &Report) -> io::Result<()> {
    let mut comma = "";
    for slot in report.findings.named.iter() {
        let group = *slot / SLOTS;
        let index = *slot % SLOTS;
        print!(rt; "{comma}{{\"group\":{group},\"slot\":{index}}}")?;
        comma = ",";
    }
    Ok(())
}

// Prints the lost drives, for JSON.
fn print_missing(rt: &HostRuntime, report: &Report) -> io::Result<()> {
    let mut comma = "";
    for drive in 0..report.drives {
        if is_lost(report, drive) {
            print!(rt; "{comma}{drive}")?;
            comma = ",";
        }
    }
    Ok(())
}

fn print_json(rt: &HostRuntime, report: &Report) -> io::Result<()> {
    let slots = report.findings.slots;
    let unsound = report.findings.unsound;
    let headers = report.are_headers_sound;
    let accepted = report.accepted;
    let mended = report.mended;
    print!(rt;
        "{{\"mended\":{mended},\"accepted\":{accepted},\"slots\":{slots},\"unsound\":{unsound}"
    )?;
    print!(rt; ",\"headers\":{headers},\"named\":[")?;
    print_named(rt, report)?;
    print!(rt; "],\"missing\":[")?;
    print_missing(rt, report)?;
    println!(rt; "]}}")
}

// Writes units again that aren't as their digests say, and tests all slots. What can't be computed is taken as it is, if that was asked
// for.
fn test_mended(rt: &HostRuntime, folder: Folder<'_>, accepts: bool) -> Result<Report, Trouble> {
    let mended = if accepts {
        mend_or_accept(rt, folder)?
    } else {
        Mended {
            computed: mend_disk(rt, folder)?,
            accepted: 0,
        }
    };
    let mut report = test_once(rt, folder)?;
    report.mended = mended.computed;
    report.accepted = mended.accepted;
    Ok(report)
}

/// Compares each unit with its digest, and writes those again that differ; tests each slot of a disk, and whether the headers make an
/// array. The status is 1 where something is or was wrong, or a drive is lost.
pub(crate) fn scrub(
    rt: &HostRuntime,
    folder: Folder<'_>,
    json: bool,
    accepts: bool,
) -> Result<u8, Trouble> {
    let report = match test_once(rt, folder) {
        Err(Trouble::Rotten(_, _)) => test_mended(rt, folder, accepts)?,
        tested => tested?,
    };
    let printed = if json {
        print_json(rt, &report)
    } else {
        print(rt, &report)
    };
    if let Err(error) = printed {
        return Err(Trouble::Output(error));
    }
    let is_sound = report.findings.unsound == 0 && report.are_headers_sound;
    Ok(if is_sound && report.mended == 0 && report.accepted == 0 && lost_count(&report) == 0 {
        0
    } else {
        1
    })
}
