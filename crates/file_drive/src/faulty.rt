// A backing that fails.
ghost use Rattle.std.specs.Prelude.{None};

use crate::{Backing, InMemory};
use std::alloc::Global;
use std::io;

/// What a backing does with the write at which it fails.
#[derive(Clone, Copy)]
pub(crate) enum Fault {
    /// It writes nothing.
    Refused,
    /// It writes a half of the piece.
    Short,
}

/// Bytes in memory that accept `left` more writes, and refuse every sync.
#[derive(Drop)]
pub(crate) struct Faulty {
    pub(crate) inner: InMemory,
    pub(crate) left: u64,
    pub(crate) fault: Fault,
}

impl Backing for Faulty {
    ghost bytes = { λ _. None };

    ghost durable = { λ _. None };

    fn read_all(&mut self, alloc: Global) -> io::Result<Vec<u8>> {
        self.inner.read_all(alloc)
    }

    fn write_at(&mut self, start: u64, piece: &[u8]) -> io::Result<usize> {
        if self.left > 0 {
            self.left -= 1;
            return self.inner.write_at(start, piece);
        }
        match self.fault {
            Fault::Refused => Err(io::Error::from(io::ErrorKind::StorageFull)),
            Fault::Short => self.inner.write_at(start, &piece[..piece.len() / 2]),
        }
    }

    fn sync(&mut self) -> io::Result<()> {
        Err(io::Error::from(io::ErrorKind::StorageFull))
    }
}
