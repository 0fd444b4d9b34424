// Readers that return their bytes in pieces and may fail, and writers that accept bytes in pieces and may fail.
use std::io;
use std::io::{ErrorKind, Read, Write};

/// What a reader does where its front ends.
#[derive(Drop)]
pub(crate) enum Then {
    /// There is no more.
    End,
    /// Each read fails.
    Fail,
    /// One read fails, and the rest follows: else a caller that reads again wouldn't be found out.
    FailOnce,
}

/// A reader that returns at most `piece` bytes a read.
#[derive(Drop)]
pub(crate) struct Feed<'a> {
    pub(crate) front: &'a [u8],
    pub(crate) then: Then,
    pub(crate) following: &'a [u8],
    pub(crate) piece: usize,
}

impl Read for Feed<'_> {
    fn read(&mut self, buf: &mut [u8]) -> io::Result<usize> {
        if self.front.is_empty() {
            match self.then {
                Then::End => return Ok(0),
                Then::Fail => return Err(io::Error::from(ErrorKind::BrokenPipe)),
                Then::FailOnce => {
                    self.then = Then::End;
                    self.front = self.following;
                    // The kind of error after which most callers read again.
                    return Err(io::Error::from(ErrorKind::Interrupted));
                }
            }
        }
        let count = self.front.len().min(buf.len()).min(self.piece);
        buf[..count].copy_from_slice(&self.front[..count]);
        self.front = &self.front[count..];
        Ok(count)
    }
}

/// A writer that accepts at most `piece` bytes a write, and `room` bytes in all. After that it accepts none or fails.
#[derive(Drop)]
pub(crate) struct Sink {
    pub(crate) taken: Vec<u8>,
    pub(crate) room: usize,
    pub(crate) piece: usize,
    /// Without room it returns an error, instead of accepting 0 bytes.
    pub(crate) fails: bool,
    /// After the first write that accepts nothing it has room for all bytes: else a caller that writes again wouldn't be found
    /// out.
    pub(crate) goes_on: bool,
}

impl Write for Sink {
    fn write(&mut self, buf: &[u8]) -> io::Result<usize> {
        let count = buf.len().min(self.room).min(self.piece);
        if count == 0 {
            if self.goes_on {
                self.room = usize::MAX;
            }
            if self.fails {
                return Err(io::Error::from(ErrorKind::BrokenPipe));
            }
            return Ok(0);
        }
        self.taken.extend_from_slice(&buf[..count])?;
        self.room = self.room.saturating_sub(count);
        Ok(count)
    }

    fn flush(&mut self) -> io::Result<()> {
        Ok(())
    }
}
