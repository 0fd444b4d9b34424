// Simple replies: 16 bytes, and the bytes that were read. Magic number (4), error (4), cookie (8).
ghost use Rattle.std.specs.Prelude.{◌≡◌, ◌++◌, ◌≤◌, length, drop};
ghost use Rattle.nbd_wire.specs.Replies.{error_bytes, reply_bytes, number_of};

use byteorder::{BigEndian, ByteOrder};

/// Bytes of a reply, without those that were read.
pub const REPLY_LEN: usize = 16;

const REPLY_MAGIC: u32 = 0x6744_6698;

/// Why a request wasn't carried out.
#[derive(Clone, Copy, Debug, PartialEq, Eq)]
pub enum Errno {
    /// EIO, 5.
    Io,
    /// ENOMEM, 12.
    Memory,
    /// EINVAL, 22.
    Invalid,
    /// ENOSPC, 28.
    NoSpace,
}

fn number_of(error: Option<Errno>) -> u32
    ensures { result ≡ number_of error }
{
    match error {
        None => 0,
        Some(Errno::Io) => 5,
        Some(Errno::Memory) => 12,
        Some(Errno::Invalid) => 22,
        Some(Errno::NoSpace) => 28,
    }
}

// Writes a reply's magic number and its error.
fn put_error(out: &mut [u8], error: Option<Errno>)
    requires { 8 ≤ length out.old }
    ensures { out.new ≡ error_bytes error ++ drop 8 out.old }
{
    BigEndian::write_u32(out, REPLY_MAGIC);
    BigEndian::write_u32(&mut out[4..], number_of(error));
}

/// Writes the head of the reply to the request with this cookie into the first 16 bytes. An error of none means that the request was
/// carried out.
#[tactic(auto, unfolding(crate::specs::Replies::reply_bytes))]
pub fn put_reply(out: &mut [u8], error: Option<Errno>, cookie: u64)
    requires { 16 ≤ length out.old }
    ensures { out.new ≡ reply_bytes error cookie ++ drop 16 out.old }
{
    put_error(out, error);
    BigEndian::write_u64(&mut out[8..], cookie);
}
