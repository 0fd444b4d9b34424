//! Vaults whose journal lies in two files: one of them fails, is lost, or is an older one, and all is there.
use crate::asserts::check;
use crate::story::{BATCHES, Reached, Recovered, empty_files, layout, run, settled};
use crate::tests::batches_in;
use file_vault::{FileVault, Found, Held, MemFiles, TwinFiles};
use std::alloc::Global;
use std::process::Abort;
use std::test::Fail;
use vault::Stop;

/// The files of the journal.
const JOURNALS: [u8; 2] = [17, 18];

// How far a run came that hasn't begun.
const NOTHING: Reached = Reached {
    begun: 0,
    added: 0,
    flushed: 0,
};

// Opens a vault. Hands the files back if it can't be.
fn opened(alloc: Global, files: MemFiles) -> Result<FileVault<TwinFiles<MemFiles>>, MemFiles> {
    match TwinFiles::open(files) {
        Ok(twins) => match FileVault::open(alloc, twins, layout()) {
            Ok(vault) => Ok(vault),
            Err((_, twins)) => Err(twins.into_files()),
        },
        Err((_, files)) => Err(files),
    }
}

// The files of a new vault.
fn made(rt: &impl Abort, alloc: Global) -> Result<MemFiles, Fail> {
    let Ok(twins) = TwinFiles::open(empty_files(alloc, 19)?) else {
        rt.panic("not opened");
    };
    check!(rt; twins.found() == Found::Pair);
    match FileVault::create(alloc, twins, layout()) {
        // Without the calls of it, which each read would look through.
        Ok(vault) => Ok(vault.into_files().into_files().left(Stop::Killed, 0)?),
        Err(_) => rt.panic("not made"),
    }
}

// Opens files that a stop left, settles, and reads all units.
fn recover(alloc: Global, files: MemFiles) -> Recovered {
    match opened(alloc, files) {
        Ok(mut vault) => {
            let units = settled(alloc, &mut vault).ok();
            Recovered {
                files: vault.into_files().into_files(),
                units,
            }
        }
        Err(files) => Recovered { files, units: None },
    }
}

// The batches of which files have the units after, and the files after they were found.
fn found_in(
    rt: &impl Abort,
    alloc: Global,
    files: MemFiles,
    reached: Reached,
) -> Result<(usize, MemFiles), Fail> {
    let Recovered { files, units } = recover(alloc, files);
    let Some(units) = units else {
        rt.panic("not recovered");
    };
    match batches_in(alloc, &units.bytes, reached)? {
        Some(count) => Ok((count, files)),
        None => rt.panic("units of no moment"),
    }
}

// A run with files, and how far it came.
fn ran(alloc: Global, files: MemFiles) -> (MemFiles, Reached, Held, bool) {
    let mut reached = NOTHING;
    match opened(alloc, files) {
        Ok(mut vault) => {
            let done = run(alloc, &mut vault, &mut reached).is_ok();
            let twins = vault.into_files();
            let held = twins.held();
            (twins.into_files(), reached, held, done)
        }
        Err(files) => (files, reached, Held::Neither, false),
    }
}

// Files after a run in which one of the journal's failed: it comes back as it is, or is lost and comes back later.
fn check_failed(
    rt: &impl Abort,
    alloc: Global,
    files: &MemFiles,
    failed: u8,
    reached: Reached,
) -> Result<(), Fail> {
    for choice in 0..6 {
        for stop in [Stop::Killed, Stop::PowerLost] {
            let (count, _) = found_in(rt, alloc, files.left(stop, choice)?, reached)?;
            check!(rt; count == BATCHES);
            let mut left = files.left(stop, choice)?;
            left.fail_file_after(failed, 0);
            let (count, after) = found_in(rt, alloc, left, reached)?;
            check!(rt; count == BATCHES);
            let (count, _) = found_in(rt, alloc, after.left(stop, choice)?, reached)?;
            check!(rt; count == BATCHES);
        }
    }
    Ok(())
}

#[test]
fn a_file_of_the_journal_may_fail_at_any_call(rt: HostRuntime) -> Result<(), Fail> {
    let alloc = rt.alloc();
    for failed in JOURNALS {
        let mut ended = false;
        for calls in 0..200 {
            let mut files = made(&rt, alloc)?;
            files.fail_file_after(failed, calls);
            let (files, reached, held, done) = ran(alloc, files);
            check!(rt; done && reached.flushed == BATCHES);
            check_failed(&rt, alloc, &files, failed, reached)?;
            if matches!(held, Held::Both(_)) {
                ended = true;
                break;
            }
        }
        check!(rt; ended);
    }
    Ok(())
}

// Files of a run that was stopped: one of the journal's fails after some calls of the opening, and comes back later.
fn check_lost(
    rt: &impl Abort,
    alloc: Global,
    files: &MemFiles,
    stop: Stop,
    lost: (u8, u32),
    choice: u64,
    reached: Reached,
) -> Result<(), Fail> {
    let mut left = files.left(stop, choice)?;
    left.fail_file_after(lost.0, lost.1);
    let (count, after) = found_in(rt, alloc, left, reached)?;
    check!(rt; count >= reached.flushed);
    if stop == Stop::Killed {
        check!(rt; count >= reached.added);
    }
    let again = after.left(stop, choice ^ 0x77)?;
    let (later, _) = found_in(rt, alloc, again, reached)?;
    check!(rt; later == count);
    Ok(())
}

// After how many calls of it a file is lost: none for loss 0.
fn calls_before(calls: u32, loss: u32) -> u32 {
    match loss.checked_sub(1) {
        Some(more) => (calls % 9).saturating_add(more.saturating_mul(9)),
        None => 0,
    }
}

// The other file of the journal.
fn other_of(file: u8) -> u8 {
    if file == 17 { 18 } else { 17 }
}

// Stops a run at each call, and loses a file of the journal at some call of the opening.
fn check_stops(rt: &impl Abort, alloc: Global, stop: Stop, losses: u32) -> Result<(), Fail> {
    for calls in 0..300 {
        let mut files = made(rt, alloc)?;
        files.fail_after(calls);
        let (files, reached, _, done) = ran(alloc, files);
        for lost in JOURNALS {
            for loss in 0..losses {
                let after = calls_before(calls, loss);
                check_lost(rt, alloc, &files, stop, (lost, after), loss as u64, reached)?;
            }
        }
        if done {
            return Ok(());
        }
    }
    rt.panic("no end");
}

#[test]
fn after_a_kill_a_file_of_the_journal_may_be_lost(rt: HostRuntime) -> Result<(), Fail> {
    check_stops(&rt, rt.alloc(), Stop::Killed, 4)
}

#[test]
fn after_a_loss_of_power_a_file_of_the_journal_may_be_lost(rt: HostRuntime) -> Result<(), Fail> {
    check_stops(&rt, rt.alloc(), Stop::PowerLost, 4)
}

#[test]
fn an_older_file_of_the_journal_is_written_over(rt: HostRuntime) -> Result<(), Fail> {
    let alloc = rt.alloc();
    for older in JOURNALS {
        let old = made(&rt, alloc)?.left(Stop::Killed, 0)?;
        let (files, reached, _, done) = ran(alloc, made(&rt, alloc)?);
        check!(rt; done);
        for stop in [Stop::Killed, Stop::PowerLost] {
            let mut left = files.left(stop, 3)?;
            left.take_file(older, &old)?;
            let (count, after) = found_in(&rt, alloc, left, reached)?;
            check!(rt; count == BATCHES);
            let mut left = after.left(stop, 4)?;
            left.fail_file_after(other_of(older), 0);
            let (count, _) = found_in(&rt, alloc, left, reached)?;
            check!(rt; count == BATCHES);
        }
    }
    Ok(())
}

#[test]
fn without_both_files_of_the_journal_nothing_is_opened(rt: HostRuntime) -> Result<(), Fail> {
    let mut files = made(&rt, rt.alloc())?;
    files.fail_after(0);
    let Err((found, _)) = TwinFiles::open(files) else {
        rt.panic("opened");
    };
    check!(rt; found == Found::None);
    Ok(())
}
