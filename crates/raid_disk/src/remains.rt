//! The file of a drive until it is whole, and what an earlier attempt may have left of it.
use crate::trouble::{Trouble, unwritten_at};
use file_vault::{FileFault, Files, Header, RealFiles};
use std::fs::{self, File, OpenOptions};
use std::io;

// Makes the bytes from an index on zeros that are these.
fn clear(piece: &mut [u8], at: usize, bytes: &[u8]) {
    for index in 0..bytes.len() {
        let spot = at.saturating_add(index);
        if spot < piece.len() && piece[spot] == bytes[index] {
            piece[spot] = 0;
        }
    }
}

// Makes what may be of a header zeros, by which a file of zeros becomes a drive's: also a part of it. Its mark is written last, after the
// disk's identity is durable.
fn clear_header(piece: &mut [u8; 4096], header: &Header) {
    if piece[8..24] == header.identity[..] {
        piece[..8].fill(0);
    }
    clear(piece, 8, &header.identity);
    clear(piece, 24, &[header.number]);
    clear(piece, 25, &header.unit_bytes.to_le_bytes());
    clear(piece, 29, &header.count.to_le_bytes());
}

// Whether a file has zeros alone, but for what may be of a header.
fn is_blank(files: &mut RealFiles, header: &Header) -> Result<bool, FileFault> {
    let mut piece = [0u8; 4096];
    for index in 0..files.length(0)? / 4096 + 1 {
        files.read_at(0, index.saturating_mul(4096), &mut piece)?;
        if index == 0 {
            clear_header(&mut piece, header);
        }
        if piece.iter().any(|byte| *byte != 0) {
            return Ok(false);
        }
    }
    Ok(true)
}

/// Whether a file is at a path, and not a folder, a pipe or a device. Opening a pipe would wait for its other end.
pub(crate) fn is_file(rt: &HostRuntime, path: &str) -> bool {
    match fs::metadata(rt, path) {
        Ok(data) => data.is_file(),
        Err(_) => false,
    }
}

// Whether what is at a path is what an attempt to make a drive's file has left, and nothing else's bytes.
fn is_remains(rt: &HostRuntime, path: &str, header: &Header) -> Result<bool, Trouble> {
    if !is_file(rt, path) {
        return Ok(false);
    }
    let file = match File::open(rt, path) {
        Ok(file) => file,
        Err(error) => return Err(unwritten_at(rt.alloc(), path, error)),
    };
    let mut files = RealFiles::new(rt.alloc());
    files.put(0, file)?;
    Ok(is_blank(&mut files, header) == Ok(true))
}

/// Makes an empty file at a path, where nothing may be, or what an earlier attempt has left.
pub(crate) fn fresh_file(rt: &HostRuntime, path: &str, header: &Header) -> Result<File, Trouble> {
    let made = OpenOptions::new()
        .read(true)
        .write(true)
        .create_new(true)
        .open(rt, path);
    match made {
        Err(error) if error.kind() == io::ErrorKind::AlreadyExists => {
            emptied_file(rt, path, header)
        }
        Err(error) => Err(unwritten_at(rt.alloc(), path, error)),
        Ok(file) => Ok(file),
    }
}

fn emptied_file(rt: &HostRuntime, path: &str, header: &Header) -> Result<File, Trouble> {
    if !is_remains(rt, path, header)? {
        return Err(Trouble::InTheWay(String::from_str(rt.alloc(), path)?));
    }
    let opened = OpenOptions::new()
        .read(true)
        .write(true)
        .truncate(true)
        .open(rt, path);
    match opened {
        Ok(file) => Ok(file),
        Err(error) => Err(unwritten_at(rt.alloc(), path, error)),
    }
}
