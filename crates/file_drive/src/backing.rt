// What units are written through to.
ghost use Rattle.std.specs.Prelude.{◌≡◌, ◌+◌, ◌≤◌, ℕ, List, Option, Some, None, IfOk, OnOk, IfSome, length, take, drop, ◌++◌};
ghost use Rattle.std.specs.Io.{WritesAtMost};
ghost use Rattle.file_drive.specs.Files.{Overwrites, written_over};

use std::alloc::Global;
use std::fs::File;
use std::io;
use std::io::{Read, Seek, SeekFrom};
use std::os::unix::fs::FileExt;

/// Bytes that outlive a drive.
pub trait Backing {
    /// The bytes that it holds, where the type knows them. Of a file of the system no clause knows them.
    ghost bytes: { Self → Option (List ℕ) };

    /// The bytes that a crash of the system leaves, where the type knows them.
    ghost durable: { Self → Option (List ℕ) };

    /// All its bytes, from the first on.
    fn read_all(&mut self, alloc: Global) -> io::Result<Vec<u8>>
        ensures read { IfOk result (λ v. IfSome (bytes self.old) (λ held. v.items ≡ held)) }
        ensures bytes { bytes self.new ≡ bytes self.old };

    /// Writes a piece over the bytes from an offset on, by one write. Ok is the number of bytes written, which may be less than
    /// the piece has.
    fn write_at(&mut self, start: u64, piece: &[u8]) -> io::Result<usize>
        ensures bound { WritesAtMost result piece.now }
        ensures written { IfOk result (λ count. Overwrites (bytes self.old) start (take count piece.now) (bytes self.new)) };

    /// Makes all that was written durable.
    fn sync(&mut self) -> io::Result<()>
        ensures bytes { bytes self.new ≡ bytes self.old }
        ensures durable { OnOk result (durable self.new ≡ bytes self.old) };
}

/// A file of the system. A write is one `pwrite`, and `sync` is `fdatasync`.
#[derive(Drop)]
pub struct OnFile {
    /// Open for reading and writing. Not for appending, because each write would then go to the end.
    pub file: File,
}

impl Backing for OnFile {
    ghost bytes = { λ _. None };

    ghost durable = { λ _. None };

    fn read_all(&mut self, alloc: Global) -> io::Result<Vec<u8>> {
        let mut bytes = Vec::new(alloc);
        // Back to the start, because an earlier read leaves the file at its end.
        self.file.seek(SeekFrom::Start(0))?;
        self.file.read_to_end(&mut bytes)?;
        Ok(bytes)
    }

    fn write_at(&mut self, start: u64, piece: &[u8]) -> io::Result<usize> {
        self.file.write_at(piece, start)
    }

    fn sync(&mut self) -> io::Result<()> {
        self.file.sync_data()
    }
}

/// Bytes in memory in place of a file, for tests. A piece that doesn't lie within them is refused.
#[derive(Drop)]
pub struct InMemory {
    pub bytes: Vec<u8>,
}

impl Backing for InMemory {
    ghost bytes = { λ m. Some m.bytes.items };

    ghost durable = { λ m. Some m.bytes.items };

    fn read_all(&mut self, alloc: Global) -> io::Result<Vec<u8>> {
        let mut bytes = Vec::new(alloc);
        bytes.extend_from_slice(&self.bytes)?;
        Ok(bytes)
    }

    fn write_at(&mut self, start: u64, piece: &[u8]) -> io::Result<usize> {
        let start = start as usize;
        let all = self.bytes.len();
        // In this order, so that the difference is never below 0.
        if start > all || piece.len() > all - start {
            return Err(io::Error::from(io::ErrorKind::InvalidInput));
        }
        write_over(&mut self.bytes, start, piece);
        Ok(piece.len())
    }

    fn sync(&mut self) -> io::Result<()> {
        Ok(())
    }
}

fn write_over(bytes: &mut [u8], start: usize, piece: &[u8])
    requires { start + length piece.now ≤ length bytes.old }
    ensures { bytes.new ≡ written_over start piece.now bytes.old }
{
    bytes[start..start + piece.len()].copy_from_slice(piece);
}
