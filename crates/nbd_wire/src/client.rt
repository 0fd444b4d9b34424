// What a client sends in the handshake: its flags, and options.
ghost use Rattle.std.specs.Prelude.{◌≡◌, ◌≢◌, IfSome, IfNone};
ghost use Rattle.byteorder.specs.Endian.{big_number};
ghost use Rattle.nbd_wire.specs.Options.{option_magic, no_zeroes_in, is_info, SpellsOption};

use byteorder::{BigEndian, ByteOrder};

/// Bytes of a client's flags.
pub const CLIENT_FLAGS_LEN: usize = 4;

/// Bytes of an option before its data.
pub const OPTION_HEAD_LEN: usize = 16;

// `IHAVEOPT`, as in the greeting.
const OPTION_MAGIC: u64 = 0x4948_4156_454f_5054;

/// The options. A client may send others. An unknown one is refused by a reply, and the handshake goes on.
#[derive(Clone, Copy, Debug, PartialEq, Eq)]
pub enum OptionKind {
    /// The client asks for an export by its name, and goes on to the transmission phase without a reply in the form of replies.
    ExportName,
    Abort,
    List,
    Info,
    Go,
    Other,
}

/// Which option, and how many bytes of data come after its 16.
#[derive(Clone, Copy, Debug, PartialEq, Eq)]
pub struct OptionHead {
    pub option: u32,
    pub length: u32,
}

impl OptionHead {
    ghost use Rattle.nbd_wire.specs.Options.{option_at};

    /// Which of the options it is.
    pub fn kind(&self) -> OptionKind
        ensures { result ≡ option_at self.now.option }
    {
        match self.option {
            1 => OptionKind::ExportName,
            2 => OptionKind::Abort,
            3 => OptionKind::List,
            6 => OptionKind::Info,
            7 => OptionKind::Go,
            _ => OptionKind::Other,
        }
    }
}

/// Whether a client with these flags takes no zeroes after an export's size; none if it sets an unknown flag. The protocol
/// lets a server drop such a client.
pub fn no_zeroes_of(flags: &[u8; 4]) -> Option<bool>
    ensures { result ≡ no_zeroes_in flags.now }
{
    match BigEndian::read_u32(flags) {
        0 | 1 => Some(false),
        2 | 3 => Some(true),
        _ => None,
    }
}

/// The option that 16 bytes spell; none if they don't begin with an option's magic number.
pub fn read_option_head(bytes: &[u8; 16]) -> Option<OptionHead>
    ensures some { IfSome result (SpellsOption bytes.now) }
    ensures none { IfNone result (big_number 8 bytes.now ≢ option_magic) }
{
    if BigEndian::read_u64(bytes) != OPTION_MAGIC {
        return None;
    }
    Some(OptionHead {
        option: BigEndian::read_u32(&bytes[8..]),
        length: BigEndian::read_u32(&bytes[12..]),
    })
}

/// Whether the data of the options INFO and GO is well formed: an export's name with its length before it, and then information
/// requests of 2 bytes each with their count before them.
pub fn is_info_request(carried: &[u8]) -> bool
    ensures { result ≡ is_info carried.now }
{
    // Each length before what it bounds is read: a client may send any bytes.
    if carried.len() < 6 {
        return false;
    }
    let name = BigEndian::read_u32(carried) as usize;
    if carried.len() < 6 + name {
        return false;
    }
    let count = usize::from(BigEndian::read_u16(&carried[4 + name..]));
    carried.len() == 6 + name + 2 * count
}
