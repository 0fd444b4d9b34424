// A disk of one's own: where the bytes of a drive lie.
ghost use Rattle.std.specs.Prelude.{◌≡◌, ◌+◌, ◌≤◌, Some, length};
ghost use Rattle.file_drive.specs.Files.{written_over};

use anyhow::Result;
use file_drive::Backing;
use std::alloc::Global;
use std::io;

/// A disk with a cache: a crash leaves what the last sync put on the medium.
#[derive(Drop)]
pub(crate) struct Disk {
    cache: Vec<u8>,
    medium: Vec<u8>,
}

impl Disk {
    /// A disk of zeros.
    pub(crate) fn new(alloc: Global, bytes: usize) -> Result<Disk> {
        let medium = vec![in alloc; 0u8; bytes]?;
        Disk::of(alloc, medium)
    }

    /// The disk as it is found after a crash.
    pub(crate) fn crash(self, alloc: Global) -> Result<Disk> {
        Disk::of(alloc, self.medium)
    }

    fn of(alloc: Global, medium: Vec<u8>) -> Result<Disk> {
        let cache = medium.to_vec(alloc)?;
        Ok(Disk { cache, medium })
    }
}

impl Backing for Disk {
    ghost bytes = { λ disk. Some disk.cache.items };

    ghost durable = { λ disk. Some disk.medium.items };

    fn read_all(&mut self, alloc: Global) -> io::Result<Vec<u8>> {
        let mut bytes = Vec::new(alloc);
        bytes.extend_from_slice(&self.cache)?;
        Ok(bytes)
    }

    fn write_at(&mut self, start: u64, piece: &[u8]) -> io::Result<usize> {
        let start = start as usize;
        let all = self.cache.len();
        if start > all || piece.len() > all - start {
            return Err(io::Error::from(io::ErrorKind::InvalidInput));
        }
        write_over(&mut self.cache, start, piece);
        Ok(piece.len())
    }

    fn sync(&mut self) -> io::Result<()> {
        self.medium.clear();
        self.medium.extend_from_slice(&self.cache)?;
        Ok(())
    }
}

fn write_over(bytes: &mut [u8], start: usize, piece: &[u8])
    requires { start + length piece.now ≤ length bytes.old }
    ensures { bytes.new ≡ written_over start piece.now bytes.old }
{
    bytes[start..start + piece.len()].copy_from_slice(piece);
}
