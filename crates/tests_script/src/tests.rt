//! Scripts and their answers, and readers and writers that break off.
use script_io::{End, run_script};
use std::io;
use std::io::{ErrorKind, Read, Write};
use std::test::Fail;

/// A new array, two groups, and a block that worker 6 writes at slot 132 and reads.
const FIRST: &str =
    "array 4 8 2 16 16\nmake p 0.0 1.0 2.0\nmake m 1.7 3.4 2.5\nclaim 6 132\nfill 6 132 112a435c758ea7c0d9f20b243d566f88\ncommit 6 132 3\nread 3\n";

const FIRST_ANSWERS: &str =
    "array\nmade 0\nmade 1\nclaimed 132\nfilled 132\nrecord 000000030000000100000084\ndata 1 112a435c758ea7c0d9f20b243d566f88\n";

/// Gives its bytes three at a time, and an error where they end.
#[derive(Drop)]
struct Breaking<'a> {
    bytes: &'a [u8],
}

impl Read for Breaking<'_> {
    fn read(&mut self, buf: &mut [u8]) -> io::Result<usize> {
        let count = self.bytes.len().min(buf.len()).min(3);
        if count == 0 {
            return Err(io::Error::from(ErrorKind::BrokenPipe));
        }
        buf[..count].copy_from_slice(&self.bytes[..count]);
        self.bytes = &self.bytes[count..];
        Ok(count)
    }
}

/// Takes `room` bytes, five at a time, and then none, or answers an error.
#[derive(Drop)]
struct Full {
    taken: Vec<u8>,
    room: usize,
    fails: bool,
}

impl Write for Full {
    fn write(&mut self, buf: &[u8]) -> io::Result<usize> {
        let count = buf.len().min(self.room).min(5);
        if count == 0 && self.fails {
            return Err(io::Error::from(ErrorKind::BrokenPipe));
        }
        self.taken.extend_from_slice(&buf[..count])?;
        self.room -= count;
        Ok(count)
    }

    fn flush(&mut self) -> io::Result<()> {
        Ok(())
    }
}

/// Gives its bytes one at a time.
#[derive(Drop)]
struct Slow<'a> {
    bytes: &'a [u8],
}

impl Read for Slow<'_> {
    fn read(&mut self, buf: &mut [u8]) -> io::Result<usize> {
        let count = self.bytes.len().min(buf.len()).min(1);
        buf[..count].copy_from_slice(&self.bytes[..count]);
        self.bytes = &self.bytes[count..];
        Ok(count)
    }
}

/// Answers one error before its bytes, or after the first of them, and then goes on.
#[derive(Drop)]
struct Stumbling<'a> {
    front: &'a [u8],
    stumbled: bool,
    rest: &'a [u8],
}

impl Read for Stumbling<'_> {
    fn read(&mut self, buf: &mut [u8]) -> io::Result<usize> {
        if self.front.is_empty() && !self.stumbled {
            self.stumbled = true;
            return Err(io::Error::from(ErrorKind::Interrupted));
        }
        let bytes = if self.stumbled { self.rest } else { self.front };
        let count = bytes.len().min(buf.len());
        buf[..count].copy_from_slice(&bytes[..count]);
        if self.stumbled {
            self.rest = &bytes[count..];
        } else {
            self.front = &bytes[count..];
        }
        Ok(count)
    }
}

/// Takes `room` bytes, then once none, or answers an error, and then takes all.
#[derive(Drop)]
struct Balking {
    taken: Vec<u8>,
    room: usize,
    fails: bool,
    balked: bool,
}

impl Write for Balking {
    fn write(&mut self, buf: &[u8]) -> io::Result<usize> {
        let count = if self.balked {
            buf.len()
        } else {
            buf.len().min(self.room)
        };
        if count == 0 {
            self.balked = true;
            if self.fails {
                return Err(io::Error::from(ErrorKind::Interrupted));
            }
            return Ok(0);
        }
        self.taken.extend_from_slice(&buf[..count])?;
        self.room -= count.min(self.room);
        Ok(count)
    }

    fn flush(&mut self) -> io::Result<()> {
        Ok(())
    }
}

#[test]
fn scripts_are_answered_line_by_line(rt: HostRuntime) -> Result<(), Fail> {
    let cases = [
        (FIRST, FIRST_ANSWERS, End::Whole),
        ("", "", End::Whole),
        (
            "array 4 8 2 8 16\nread 16\n",
            "array\nfault 2 range\n",
            End::Fault,
        ),
        (
            "array 4 8 2 8 16\nfrob\nmap\n",
            "array\nfault 2 form\n",
            End::Fault,
        ),
        (
            "array 4 8 2 8 16\nmake m 0.0 1.0 2.0\nmake m 0.1 0.2 1.1\nmake m 0.0 1.1 2.1\nmake m 0.8 1.1 2.1\n",
            "array\nmade 0\nrefused 13\nrefused 12\nrefused 18\n",
            End::Whole,
        ),
    ];
    for (script, answers, end) in cases {
        let mut out = Vec::new(rt.alloc());
        let mut reader = script.as_bytes();
        assert!(rt; run_script(rt.alloc(), &mut reader, &mut out) == end);
        assert!(rt; out.as_slice() == answers.as_bytes());
    }
    Ok(())
}

#[test]
fn a_broken_reader_leaves_the_answers_to_its_whole_lines(rt: HostRuntime) -> Result<(), Fail> {
    for (count, answers) in [
        (0, ""),
        (17, ""),
        (18, "array\n"),
        (40, "array\nmade 0\n"),
        (68, "array\nmade 0\nmade 1\nclaimed 132\n"),
    ] {
        let mut out = Vec::new(rt.alloc());
        let mut reader = Breaking {
            bytes: FIRST.as_bytes().get(..count).ok_or("short")?,
        };
        assert!(rt; run_script(rt.alloc(), &mut reader, &mut out) == End::ReadFault);
        assert!(rt; out.as_slice() == answers.as_bytes());
    }
    Ok(())
}

#[test]
fn a_full_writer_has_a_front_of_the_answers(rt: HostRuntime) -> Result<(), Fail> {
    for room in [0, 1, 5, 6, 13, 30, 114] {
        for fails in [false, true] {
            let mut writer = Full {
                taken: Vec::new(rt.alloc()),
                room,
                fails,
            };
            let mut reader = FIRST.as_bytes();
            assert!(rt; run_script(rt.alloc(), &mut reader, &mut writer) == End::WriteFault);
            assert!(rt; Some(writer.taken.as_slice()) == FIRST_ANSWERS.as_bytes().get(..room));
        }
    }
    Ok(())
}

#[test]
fn a_reader_of_one_byte_a_call_is_read_to_its_end(rt: HostRuntime) -> Result<(), Fail> {
    let mut script = Vec::new(rt.alloc());
    for _ in 0..50_000 {
        script.extend_from_slice(b"#\n")?;
    }
    script.extend_from_slice(FIRST.as_bytes())?;
    let mut reader = Slow { bytes: &script };
    let mut out = Vec::new(rt.alloc());
    assert!(rt; run_script(rt.alloc(), &mut reader, &mut out) == End::Whole);
    assert!(rt; out.as_slice() == FIRST_ANSWERS.as_bytes());
    Ok(())
}

#[test]
fn a_read_that_failed_is_not_tried_again(rt: HostRuntime) -> Result<(), Fail> {
    for (count, answers) in [
        (0, ""),
        (18, "array\n"),
        (68, "array\nmade 0\nmade 1\nclaimed 132\n"),
    ] {
        let mut reader = Stumbling {
            front: FIRST.as_bytes().get(..count).ok_or("short")?,
            stumbled: false,
            rest: FIRST.as_bytes().get(count..).ok_or("short")?,
        };
        let mut out = Vec::new(rt.alloc());
        assert!(rt; run_script(rt.alloc(), &mut reader, &mut out) == End::ReadFault);
        assert!(rt; out.as_slice() == answers.as_bytes());
    }
    Ok(())
}

#[test]
fn a_write_that_failed_is_not_tried_again(rt: HostRuntime) -> Result<(), Fail> {
    for (room, fails) in [(0, false), (0, true), (7, false), (7, true)] {
        let mut writer = Balking {
            taken: Vec::new(rt.alloc()),
            room,
            fails,
            balked: false,
        };
        let mut reader = FIRST.as_bytes();
        assert!(rt; run_script(rt.alloc(), &mut reader, &mut writer) == End::WriteFault);
        assert!(rt; Some(writer.taken.as_slice()) == FIRST_ANSWERS.as_bytes().get(..room));
    }
    Ok(())
}

#[test]
fn each_end_has_its_status(rt: HostRuntime) {
    for (end, status) in [
        (End::Whole, 0),
        (End::Fault, 2),
        (End::Memory, 4),
        (End::ReadFault, 5),
        (End::WriteFault, 5),
    ] {
        assert!(rt; end.status() == status);
    }
}
