//! Each stop leaves the units of after some first batches: all that were flushed, and after a kill all that were added.
use crate::asserts::check;
use crate::calls::{add_batch, count, flush_all, opened, settle_all};
use crate::story::{
    BATCHES, Reached, empty_files, fill, layout, read_units, recover, run, units_after,
};
use file_vault::{FileVault, MemFiles};
use std::alloc::Global;
use std::process::Abort;
use std::test::Fail;
use vault::{Batch, Stop, VaultError, add};

// A new vault.
fn made(rt: &impl Abort, alloc: Global, files: MemFiles) -> FileVault<MemFiles> {
    match FileVault::create(alloc, files, layout()) {
        Ok(vault) => vault,
        Err(_) => rt.panic("not made"),
    }
}

// The files after a run that is stopped after so many calls, and how far it came.
fn stopped(rt: &impl Abort, alloc: Global, calls: u32) -> Result<(MemFiles, Reached, bool), Fail> {
    let mut files = made(rt, alloc, empty_files(alloc, 18)?).into_files();
    files.fail_after(calls);
    let mut reached = Reached {
        begun: 0,
        added: 0,
        flushed: 0,
    };
    let mut vault = match FileVault::open(alloc, files, layout()) {
        Ok(vault) => vault,
        Err((_, files)) => return Ok((files, reached, false)),
    };
    let done = run(alloc, &mut vault, &mut reached).is_ok();
    Ok((vault.into_files(), reached, done))
}

/// How many first batches these units are of after.
pub(crate) fn batches_in(
    alloc: Global,
    bytes: &[u8],
    reached: Reached,
) -> Result<Option<usize>, Fail> {
    for count in 0..BATCHES + 1 {
        if count < reached.flushed || count > reached.begun {
            continue;
        }
        let after = units_after(alloc, count)?;
        if &after.bytes[..] == bytes {
            return Ok(Some(count));
        }
    }
    Ok(None)
}

#[test]
fn a_run_that_isnt_stopped_leaves_all(rt: HostRuntime) -> Result<(), Fail> {
    let alloc = rt.alloc();
    let mut vault = made(&rt, alloc, empty_files(alloc, 18)?);
    let mut reached = Reached {
        begun: 0,
        added: 0,
        flushed: 0,
    };
    check!(rt; run(alloc, &mut vault, &mut reached).is_ok());
    check!(rt; reached.flushed == BATCHES);
    let mut room = Batch::new(alloc);
    check!(rt; settle_all(&mut vault, &mut room, &[false; 16]).is_ok());
    let Ok(units) = read_units(alloc, &mut vault) else {
        rt.panic("not read");
    };
    check!(rt; units.bytes[..] == units_after(alloc, BATCHES)?.bytes[..]);
    Ok(())
}

// How a run ends, how its recovery does, after so many calls, and what of unsynced writes is left.
#[derive(Clone, Copy)]
struct Ends {
    run: Stop,
    recovery: Stop,
    calls: u32,
    choice: u64,
}

// Recovers after a recovery that was stopped, and finds units of after some first batches.
fn check(
    rt: &impl Abort,
    alloc: Global,
    files: &MemFiles,
    ends: Ends,
    reached: Reached,
) -> Result<usize, Fail> {
    let mut left = files.left(ends.run, ends.choice)?;
    left.fail_after(ends.calls);
    let left = recover(alloc, left).files;
    let last = left.left(ends.recovery, ends.choice ^ 0x5a5a)?;
    let Some(units) = recover(alloc, last).into_units() else {
        rt.panic("not recovered");
    };
    let Some(count) = batches_in(alloc, &units.bytes, reached)? else {
        rt.panic("units of no moment");
    };
    Ok(count)
}

// Stops a run at each call, in some ways. After kills alone all is there that was added, else what was flushed.
fn check_all(
    rt: &impl Abort,
    alloc: Global,
    run: Stop,
    recovery: Stop,
    choices: u64,
) -> Result<(), Fail> {
    for stop in 0..200 {
        let (files, reached, done) = stopped(rt, alloc, stop)?;
        for choice in 0..choices {
            let ends = Ends {
                run,
                recovery,
                calls: (choice % 32) as u32,
                choice: choice.wrapping_mul(77).wrapping_add(stop as u64),
            };
            let count = check(rt, alloc, &files, ends, reached)?;
            check!(rt; count >= reached.flushed);
            if run == Stop::Killed && recovery == Stop::Killed {
                check!(rt; count >= reached.added);
            }
        }
        if done {
            return Ok(());
        }
    }
    rt.panic("no end");
}

#[test]
fn a_killed_run_leaves_all_that_was_added(rt: HostRuntime) -> Result<(), Fail> {
    check_all(&rt, rt.alloc(), Stop::Killed, Stop::Killed, 10)
}

#[test]
fn a_loss_of_power_leaves_all_that_was_flushed(rt: HostRuntime) -> Result<(), Fail> {
    check_all(&rt, rt.alloc(), Stop::PowerLost, Stop::PowerLost, 24)
}

#[test]
fn a_recovery_may_be_stopped_in_another_way(rt: HostRuntime) -> Result<(), Fail> {
    check_all(&rt, rt.alloc(), Stop::PowerLost, Stop::Killed, 24)?;
    check_all(&rt, rt.alloc(), Stop::Killed, Stop::PowerLost, 12)
}

#[test]
fn a_drive_that_fails_is_named_and_left_out(rt: HostRuntime) -> Result<(), Fail> {
    let alloc = rt.alloc();
    let mut files = made(&rt, alloc, empty_files(alloc, 18)?).into_files();
    files.fail_file_after(1, 1);
    let mut vault = opened(&rt, alloc, files);
    let mut batch = Batch::new(alloc);
    let mut room = Batch::new(alloc);
    for number in 0..3 {
        fill(&mut batch, number)?;
        add_batch(&rt, &mut vault, &batch);
    }
    flush_all(&rt, &mut vault);
    let mut lost = [false; 16];
    check!(rt; settle_all(&mut vault, &mut room, &lost) == Err(VaultError::Drive(1)));
    check!(rt; count(&rt, &mut vault) == 3);
    lost[1] = true;
    check!(rt; settle_all(&mut vault, &mut room, &lost) == Ok(()));
    let Some(units) = recover(alloc, vault.into_files().left(Stop::Killed, 1)?).into_units() else {
        rt.panic("not recovered");
    };
    let after = units_after(alloc, 3)?;
    check!(rt; units.bytes.len() == 49);
    check!(rt; after.bytes.len() == 49);
    check!(rt; units.bytes[..15] == after.bytes[..15]);
    check!(rt; units.bytes[30..] == after.bytes[30..]);
    Ok(())
}

#[test]
fn a_misfit_is_refused(rt: HostRuntime) -> Result<(), Fail> {
    let alloc = rt.alloc();
    let mut vault = made(&rt, alloc, empty_files(alloc, 18)?);
    let mut batch = Batch::new(alloc);
    batch.push(
        extent_groups::Place {
            drive: 2,
            address: 1,
        },
        &[1, 2, 3, 4],
    )?;
    check!(rt; add(&mut vault, &batch) == Err(VaultError::Misfit));
    check!(rt; count(&rt, &mut vault) == 0);
    Ok(())
}
