//! Records of the journal of which bytes are missing, and what lies after them.
use crate::asserts::check;
use crate::calls::{append, count, opened, read};
use crate::story::{empty_files, fill, layout};
use extent_groups::Place;
use file_vault::{FileVault, Files, HEADER, JOURNAL, MemFiles};
use std::alloc::Global;
use std::process::Abort;
use std::test::Fail;
use vault::{Batch, Stop, Vault};

// A new vault.
fn made(rt: &impl Abort, alloc: Global) -> Result<FileVault<MemFiles>, Fail> {
    match FileVault::create(alloc, empty_files(alloc, 18)?, layout()) {
        Ok(vault) => Ok(vault),
        Err(_) => rt.panic("not made"),
    }
}

// The bytes of a file.
fn bytes_of(
    rt: &impl Abort,
    alloc: Global,
    files: &mut MemFiles,
    file: u8,
) -> Result<Vec<u8>, Fail> {
    let Ok(length) = files.length(file) else {
        rt.panic("no length");
    };
    let mut bytes = Vec::new(alloc);
    bytes.resize(length as usize, 0)?;
    check!(rt; files.read_at(file, 0, &mut bytes).is_ok());
    Ok(bytes)
}

// Files of which the journal's has these bytes, and no other has any.
fn files_with(alloc: Global, journal: &[u8]) -> Result<MemFiles, Fail> {
    let mut first = Vec::new(alloc);
    for _ in 0..17 {
        first.push(Vec::new(alloc))?;
    }
    first.push(journal.to_vec(alloc)?)?;
    Ok(MemFiles::new(alloc, first))
}

// How many batches a journal of these bytes has, and that each is read.
fn batches_in(rt: &impl Abort, alloc: Global, journal: &[u8]) -> Result<usize, Fail> {
    let mut vault = opened(rt, alloc, files_with(alloc, journal)?);
    let count = count(rt, &mut vault);
    let mut batch = Batch::new(alloc);
    for index in 0..count {
        read(rt, &mut vault, index, &mut batch);
    }
    Ok(count)
}

// The bytes of a journal with two batches, and where the second one's record begins.
fn two_records(rt: &impl Abort, alloc: Global) -> Result<(Vec<u8>, usize), Fail> {
    let mut vault = made(rt, alloc)?;
    let mut batch = Batch::new(alloc);
    fill(&mut batch, 0)?;
    append(rt, &mut vault, &batch);
    let mut files = vault.into_files().left(Stop::Killed, 0)?;
    let start = bytes_of(rt, alloc, &mut files, JOURNAL)?.len();
    let mut vault = opened(rt, alloc, files);
    fill(&mut batch, 1)?;
    append(rt, &mut vault, &batch);
    let journal = bytes_of(rt, alloc, &mut vault.into_files(), JOURNAL)?;
    Ok((journal, start))
}

#[test]
fn a_record_without_its_last_bytes_isnt_taken(rt: HostRuntime) -> Result<(), Fail> {
    let alloc = rt.alloc();
    let (journal, start) = two_records(&rt, alloc)?;
    check!(rt; start > HEADER as usize + 18);
    check!(rt; journal.len().saturating_sub(start) > 18);
    check!(rt; batches_in(&rt, alloc, &journal)? == 2);
    for end in start..journal.len() {
        // Zeros past the end are as good as zeros in the file.
        let whole = journal[end..].iter().all(|byte| *byte == 0);
        let count = batches_in(&rt, alloc, &journal[..end])?;
        check!(rt; count == if whole { 2 } else { 1 });
    }
    Ok(())
}

#[test]
fn a_record_without_one_byte_isnt_taken(rt: HostRuntime) -> Result<(), Fail> {
    let alloc = rt.alloc();
    let (journal, start) = two_records(&rt, alloc)?;
    let mut dropped = 0u32;
    for spot in start..journal.len() {
        let mut torn = journal.to_vec(alloc)?;
        if spot >= torn.len() || torn[spot] == 0 {
            continue;
        }
        torn[spot] = 0;
        check!(rt; batches_in(&rt, alloc, &torn)? == 1);
        dropped = dropped.saturating_add(1);
    }
    check!(rt; dropped > 18);
    check!(rt; batches_in(&rt, alloc, &journal)? == 2);
    Ok(())
}

#[test]
fn batches_of_zeros_are_found(rt: HostRuntime) -> Result<(), Fail> {
    let alloc = rt.alloc();
    let mut vault = made(&rt, alloc)?;
    let mut batch = Batch::new(alloc);
    // Without writes its bytes are zeros alone.
    append(&rt, &mut vault, &batch);
    let place = Place {
        drive: 0,
        address: 0,
    };
    batch.push(place, &[0; 5])?;
    append(&rt, &mut vault, &batch);
    check!(rt; vault.sync_journal().is_ok());
    let mut files = vault.into_files().left(Stop::PowerLost, 1)?;
    let journal = bytes_of(&rt, alloc, &mut files, JOURNAL)?;
    let mut vault = opened(&rt, alloc, files);
    check!(rt; count(&rt, &mut vault) == 2);
    read(&rt, &mut vault, 0, &mut batch);
    check!(rt; batch.is_empty());
    read(&rt, &mut vault, 1, &mut batch);
    check!(rt; batch.len() == 1);
    check!(rt; batch.place(0) == place);
    check!(rt; batch.unit(0) == &[0; 5][..]);
    // The first record is found where the file ends after its head.
    let front = journal.len().min(HEADER as usize + 18);
    check!(rt; batches_in(&rt, alloc, &journal[..front])? == 1);
    Ok(())
}

#[test]
fn nothing_is_left_of_an_older_longer_record(rt: HostRuntime) -> Result<(), Fail> {
    let alloc = rt.alloc();
    let (journal, start) = two_records(&rt, alloc)?;
    // A short record over a long one, of which the rest still lies there.
    let mut mixed = journal.to_vec(alloc)?;
    mixed.extend_from_slice(&[7; 300])?;
    let mut vault = opened(&rt, alloc, files_with(alloc, &mixed)?);
    check!(rt; count(&rt, &mut vault) == 2);
    check!(rt; vault.clear().is_ok());
    let mut batch = Batch::new(alloc);
    fill(&mut batch, 0)?;
    append(&rt, &mut vault, &batch);
    let files = vault.into_files();
    for choice in 0..40 {
        for stop in [Stop::Killed, Stop::PowerLost] {
            let mut left = files.left(stop, choice)?;
            let bytes = bytes_of(&rt, alloc, &mut left, JOURNAL)?;
            let past = start.min(bytes.len());
            check!(rt; bytes[past..].iter().all(|byte| *byte == 0));
            let count = batches_in(&rt, alloc, &bytes)?;
            check!(rt; count <= 1);
            check!(rt; stop == Stop::PowerLost || count == 1);
        }
    }
    Ok(())
}

#[test]
fn bytes_after_the_last_record_are_cut_off(rt: HostRuntime) -> Result<(), Fail> {
    let alloc = rt.alloc();
    let (journal, start) = two_records(&rt, alloc)?;
    // The second record has lost a byte of its head, and the rest of it is there.
    let mut torn = journal.to_vec(alloc)?;
    let spot = start.saturating_add(3);
    check!(rt; spot < torn.len());
    torn[spot] = 0;
    let mut vault = opened(&rt, alloc, files_with(alloc, &torn)?);
    check!(rt; count(&rt, &mut vault) == 1);
    append(&rt, &mut vault, &Batch::new(alloc));
    let files = vault.into_files();
    for choice in 0..40 {
        let mut left = files.left(Stop::PowerLost, choice)?;
        let bytes = bytes_of(&rt, alloc, &mut left, JOURNAL)?;
        let past = start.saturating_add(26).min(bytes.len());
        check!(rt; bytes[past..].iter().all(|byte| *byte == 0));
        check!(rt; batches_in(&rt, alloc, &bytes)? >= 1);
    }
    Ok(())
}
