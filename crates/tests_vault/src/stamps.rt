//! Drives' files that are as new as the table, and copies of before.
use crate::asserts::check;
use crate::story::empty_files;
use file_vault::{
    Files, Header, MemFiles, StampedFiles, Verdict, judge, read_generation, write_header,
};
use std::alloc::Global;
use std::process::Abort;
use std::test::Fail;
use vault::{Stop, TABLE};

/// Drives that have a file.
const DRIVES: [u8; 3] = [0, 1, 2];

// What a drive's file is.
fn header_of(drive: u8) -> Header {
    Header {
        identity: [7; 16],
        number: drive,
        unit_bytes: 40,
        count: 9,
    }
}

// Files that are marked.
fn marked(rt: &impl Abort, alloc: Global) -> Result<MemFiles, Fail> {
    let mut files = empty_files(alloc, 18)?;
    for drive in DRIVES {
        check!(rt; write_header(&mut files, &header_of(drive)).is_ok());
    }
    Ok(files)
}

// Makes drives durable, but for one of them, and then the table.
fn round(rt: &impl Abort, files: MemFiles, lost: u8) -> MemFiles {
    let Ok(mut stamped) = StampedFiles::open(files) else {
        rt.panic("not opened");
    };
    for drive in DRIVES {
        if drive != lost {
            check!(rt; stamped.sync(drive).is_ok());
            check!(rt; stamped.is_current(drive));
        }
    }
    check!(rt; stamped.sync(TABLE).is_ok());
    check!(rt; lost > 2 || !stamped.is_current(lost));
    stamped.into_files()
}

// What a drive's file is found to be.
fn verdict_of(rt: &impl Abort, files: &mut MemFiles, expected: &Header) -> Verdict {
    let Ok(Some(generation)) = read_generation(files, TABLE) else {
        rt.panic("no generation");
    };
    match judge(files, expected, generation) {
        Ok(verdict) => verdict,
        Err(_) => rt.panic("not read"),
    }
}

#[test]
fn a_copy_of_a_drive_is_stale_after_the_next_round(rt: HostRuntime) -> Result<(), Fail> {
    let alloc = rt.alloc();
    let first = round(&rt, marked(&rt, alloc)?, 16);
    let old = first.left(Stop::Killed, 0)?;
    let second = round(&rt, first, 16);
    for stop in [Stop::Killed, Stop::PowerLost] {
        let mut left = second.left(stop, 5)?;
        for drive in DRIVES {
            check!(rt; verdict_of(&rt, &mut left, &header_of(drive)) == Verdict::Good);
        }
        left.take_file(1, &old)?;
        check!(rt; verdict_of(&rt, &mut left, &header_of(1)) == Verdict::Stale);
        check!(rt; verdict_of(&rt, &mut left, &header_of(2)) == Verdict::Good);
    }
    Ok(())
}

#[test]
fn a_drive_that_was_left_out_is_stale(rt: HostRuntime) -> Result<(), Fail> {
    let alloc = rt.alloc();
    let mut left = round(&rt, round(&rt, marked(&rt, alloc)?, 16), 2).left(Stop::Killed, 0)?;
    check!(rt; verdict_of(&rt, &mut left, &header_of(1)) == Verdict::Good);
    check!(rt; verdict_of(&rt, &mut left, &header_of(2)) == Verdict::Stale);
    let mut again = round(&rt, left, 16).left(Stop::Killed, 0)?;
    check!(rt; verdict_of(&rt, &mut again, &header_of(2)) == Verdict::Good);
    Ok(())
}

#[test]
fn a_round_that_is_stopped_leaves_good_drives(rt: HostRuntime) -> Result<(), Fail> {
    let alloc = rt.alloc();
    for calls in 0..13 {
        let first = round(&rt, marked(&rt, alloc)?, 16);
        let Ok(mut stamped) = StampedFiles::open(first.left(Stop::Killed, 0)?) else {
            rt.panic("not opened");
        };
        for call in 0..calls {
            let file = [0, 1, 2, TABLE][call % 4];
            check!(rt; stamped.sync(file).is_ok());
        }
        let files = stamped.into_files();
        for choice in 0..4 {
            let mut left = files.left(Stop::PowerLost, choice)?;
            for drive in DRIVES {
                check!(rt; verdict_of(&rt, &mut left, &header_of(drive)) == Verdict::Good);
            }
        }
    }
    Ok(())
}

#[test]
fn a_file_that_is_another_is_named(rt: HostRuntime) -> Result<(), Fail> {
    let alloc = rt.alloc();
    let mut files = round(&rt, marked(&rt, alloc)?, 16);
    let expected = header_of(1);
    let foreign = Header {
        identity: [8; 16],
        ..expected
    };
    let resized = Header {
        unit_bytes: 48,
        ..expected
    };
    let longer = Header {
        count: 10,
        ..expected
    };
    check!(rt; verdict_of(&rt, &mut files, &foreign) == Verdict::Foreign);
    check!(rt; verdict_of(&rt, &mut files, &resized) == Verdict::Resized);
    check!(rt; verdict_of(&rt, &mut files, &longer) == Verdict::Resized);
    check!(rt; files.write_at(1, 24, &[2]).is_ok());
    check!(rt; verdict_of(&rt, &mut files, &expected) == Verdict::Misplaced);
    check!(rt; files.write_at(1, 3, &[0]).is_ok());
    check!(rt; verdict_of(&rt, &mut files, &expected) == Verdict::Foreign);
    Ok(())
}
