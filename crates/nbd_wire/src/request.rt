// Requests of the transmission phase: 28 bytes, and the bytes that a write carries. Magic number (4), flags (2), command (2), cookie
// (8), offset (8), length (4).
ghost use Rattle.std.specs.Prelude.{◌≡◌, ◌≢◌, IfSome, IfNone, drop};
ghost use Rattle.byteorder.specs.Endian.{big_number};
ghost use Rattle.nbd_wire.specs.Requests.{command_at, request_magic, SpellsRequest};

use byteorder::{BigEndian, ByteOrder};

/// Bytes of a request, without those that a write carries.
pub const REQUEST_LEN: usize = 28;

const REQUEST_MAGIC: u32 = 0x2560_9513;

/// The commands. A client may send others. A number that isn't known is no error of the form, so that the server can refuse it
/// and go on.
#[derive(Clone, Copy, Debug, PartialEq, Eq)]
pub enum Command {
    Read,
    Write,
    Disconnect,
    Flush,
    Trim,
    Cache,
    WriteZeroes,
    Other,
}

/// A request. `cookie` comes back in the reply; offset and length are in bytes.
#[derive(Clone, Copy, Debug, PartialEq, Eq)]
pub struct Request {
    pub flags: u16,
    pub command: Command,
    pub cookie: u64,
    pub offset: u64,
    pub length: u32,
}

fn command_of(number: u16) -> Command
    ensures { result ≡ command_at number }
{
    match number {
        0 => Command::Read,
        1 => Command::Write,
        2 => Command::Disconnect,
        3 => Command::Flush,
        4 => Command::Trim,
        5 => Command::Cache,
        6 => Command::WriteZeroes,
        _ => Command::Other,
    }
}

fn read_command(bytes: &[u8; 28]) -> Command
    ensures { result ≡ command_at (big_number 2 (drop 6 bytes.now)) }
{
    command_of(BigEndian::read_u16(&bytes[6..]))
}

fn read_offset(bytes: &[u8; 28]) -> u64
    ensures { result ≡ big_number 8 (drop 16 bytes.now) }
{
    BigEndian::read_u64(&bytes[16..])
}

fn read_length(bytes: &[u8; 28]) -> u32
    ensures { result ≡ big_number 4 (drop 24 bytes.now) }
{
    BigEndian::read_u32(&bytes[24..])
}

/// The request that 28 bytes spell; none if they don't begin with a request's magic number.
pub fn read_request(bytes: &[u8; 28]) -> Option<Request>
    ensures some { IfSome result (SpellsRequest bytes.now) }
    ensures none { IfNone result (big_number 4 bytes.now ≢ request_magic) }
{
    if BigEndian::read_u32(bytes) != REQUEST_MAGIC {
        return None;
    }
    Some(Request {
        flags: BigEndian::read_u16(&bytes[4..]),
        command: read_command(bytes),
        cookie: BigEndian::read_u64(&bytes[8..]),
        offset: read_offset(bytes),
        length: read_length(bytes),
    })
}

impl Request {
    ghost use Rattle.std.specs.Prelude.{ℕ};
    ghost use Rattle.nbd_wire.specs.Requests.{has_known_flags, is_forced, carried_len};

    /// Whether the command takes all flags that are set: FUA with any command, NO_HOLE with `WriteZeroes`. The protocol allows
    /// FUA with each, also where nothing changes.
    pub fn has_known_flags(&self) -> bool
        ensures { result ≡ has_known_flags self.now }
    {
        match self.command {
            Command::WriteZeroes => self.flags <= 3,
            _ => self.flags <= 1,
        }
    }

    /// Whether the flag FUA is set: what the request changes is durable before the reply.
    pub fn is_forced(&self) -> bool
        ensures { result ≡ is_forced self.now }
    {
        self.flags % 2 == 1
    }

    /// Bytes that come after the request's 28: a write carries its data. Also of one that is refused: else the next request
    /// would begin inside its data.
    pub fn carried_len(&self) -> u32
        ensures { result ≡ carried_len self.now }
    {
        match self.command {
            Command::Write => self.length,
            _ => 0,
        }
    }
}
