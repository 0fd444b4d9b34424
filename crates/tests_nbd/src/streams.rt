//! Readers, writers and stores that refuse.
ghost use Rattle.std.specs.Prelude.{◌≡◌};

use byte_store::{ByteStore, StoreFault};
use std::alloc::Global;
use std::io;
use std::io::{ErrorKind, Read, Write};

/// Gives its bytes three at a time, and an error where they end.
#[derive(Drop)]
pub(crate) struct Breaking<'a> {
    pub(crate) bytes: &'a [u8],
}

impl Read for Breaking<'_> {
    fn read(&mut self, buf: &mut [u8]) -> io::Result<usize> {
        let count = self.bytes.len().min(buf.len()).min(3);
        if count == 0 {
            return Err(io::Error::from(ErrorKind::BrokenPipe));
        }
        buf[..count].copy_from_slice(&self.bytes[..count]);
        self.bytes = &self.bytes[count..];
        Ok(count)
    }
}

/// Takes `room` bytes, five at a time, and then none.
#[derive(Drop)]
pub(crate) struct Full {
    pub(crate) taken: Vec<u8>,
    pub(crate) room: usize,
}

impl Write for Full {
    fn write(&mut self, buf: &[u8]) -> io::Result<usize> {
        let count = buf.len().min(self.room).min(5);
        self.taken.extend_from_slice(&buf[..count])?;
        self.room -= count;
        Ok(count)
    }

    fn flush(&mut self) -> io::Result<()> {
        Ok(())
    }
}

/// A store of 4,096 bytes that refuses each call for one reason. It represents no bytes.
#[derive(Drop)]
pub(crate) struct Refusing {
    pub(crate) fault: StoreFault,
}

impl ByteStore for Refusing {
    ghost use Rattle.byte_store.specs.Flat.{StoreState, Sizes};

    ghost represents = { λ _ _. ⊥ };

    ghost sizes = { λ _. record { bytes = 4096; block = 512 } };

    fn size(&self) -> u64 {
        4096
    }

    fn block_bytes(&self) -> u32 {
        512
    }

    fn read(&mut self, _offset: u64, _out: &mut [u8]) -> Result<(), StoreFault> {
        Err(self.fault)
    }

    fn write(&mut self, _alloc: Global, _offset: u64, _bytes: &[u8]) -> Result<(), StoreFault> {
        Err(self.fault)
    }

    fn zero(&mut self, _alloc: Global, _offset: u64, _length: u32) -> Result<(), StoreFault> {
        Err(self.fault)
    }

    fn flush(&mut self) -> Result<(), StoreFault> {
        Err(self.fault)
    }

    fn rest(&mut self, _alloc: Global) {}
}
