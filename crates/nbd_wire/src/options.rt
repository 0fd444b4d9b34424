// What a server says in the handshake.
ghost use Rattle.std.specs.Prelude.{◌≡◌, ◌++◌, ◌≤◌, length, OnOk};
ghost use Rattle.nbd_wire.specs.Prefix.{IsPrefix};
ghost use Rattle.nbd_wire.specs.Options.{greeting, option_head, counted, option_reply, size_info, block_info, information, export_bytes};
ghost use Rattle.nbd_wire.specs.Options.{kind_number, preferred_of};

use crate::numbers::{put_u16, put_u32, put_u64};
use std::alloc::AllocError;

// `NBDMAGIC`.
const GREETING_MAGIC: u64 = 0x4e42_444d_4147_4943;

// `IHAVEOPT`.
const OPTION_MAGIC: u64 = 0x4948_4156_454f_5054;

const OPTION_REPLY_MAGIC: u64 = 0x0003_e889_0455_65a9;

// FIXED_NEWSTYLE (bit 0) and NO_ZEROES (bit 1).
const SERVER_FLAGS: u16 = 3;

// HAS_FLAGS (bit 0), SEND_FLUSH (2), SEND_FUA (3), SEND_TRIM (5), SEND_WRITE_ZEROES (6), SEND_CACHE (10). Not CAN_MULTI_CONN
// (8), because a disk has one client at a time.
const EXPORT_FLAGS: u16 = 0b100_0110_1101;

const INFO_EXPORT: u16 = 0;

const INFO_BLOCK_SIZE: u16 = 3;

const INFO_EXPORT_LEN: u32 = 12;

const INFO_BLOCK_SIZE_LEN: u32 = 14;

// A request may begin and end anywhere.
const LEAST_BLOCK: u32 = 1;

// 32 MiB: by the protocol a client that asks for no sizes may send as much, so the server takes as much from all.
const MOST_BLOCK: u32 = 33_554_432;

/// An export: its size in bytes, and the bytes of a request that it carries out best.
#[derive(Clone, Copy, Debug, PartialEq, Eq)]
pub struct Export {
    pub size: u64,
    pub block: u32,
}

/// The kinds of replies to an option.
#[derive(Clone, Copy, Debug, PartialEq, Eq)]
pub enum OptionReply {
    Ack,
    Server,
    Info,
    Unsupported,
    Invalid,
    TooBig,
}

fn number_of_kind(kind: OptionReply) -> u32
    ensures { result ≡ kind_number kind }
{
    match kind {
        OptionReply::Ack => 1,
        OptionReply::Server => 2,
        OptionReply::Info => 3,
        OptionReply::Unsupported => 0x8000_0001,
        OptionReply::Invalid => 0x8000_0003,
        OptionReply::TooBig => 0x8000_0009,
    }
}

/// Appends what a server says first, 18 bytes.
pub fn put_greeting(out: &mut Vec<u8>) -> Result<(), AllocError>
    ensures ok { OnOk result (out.new.items ≡ out.old.items ++ greeting) }
    ensures kept { IsPrefix out.old.items out.new.items }
{
    put_u64(out, GREETING_MAGIC)?;
    put_u64(out, OPTION_MAGIC)?;
    put_u16(out, SERVER_FLAGS)
}

// Appends the first 16 bytes of a reply to an option.
#[tactic(auto, unfolding(crate::specs::Options::option_head))]
fn put_option_head(out: &mut Vec<u8>, option: u32, kind: OptionReply) -> Result<(), AllocError>
    ensures ok { OnOk result (out.new.items ≡ out.old.items ++ option_head option kind) }
    ensures kept { IsPrefix out.old.items out.new.items }
{
    put_u64(out, OPTION_REPLY_MAGIC)?;
    put_u32(out, option)?;
    put_u32(out, number_of_kind(kind))
}

// Appends bytes with their count before them.
#[tactic(auto, unfolding(crate::specs::Options::counted))]
fn put_counted(out: &mut Vec<u8>, carried: &[u8]) -> Result<(), AllocError>
    requires { length carried.now ≤ 4096 }
    ensures ok { OnOk result (out.new.items ≡ out.old.items ++ counted carried.now) }
    ensures kept { IsPrefix out.old.items out.new.items }
{
    put_u32(out, carried.len() as u32)?;
    out.extend_from_slice(carried)
}

/// Appends a reply to an option, with the data that it carries.
pub fn put_option_reply(
    out: &mut Vec<u8>,
    option: u32,
    kind: OptionReply,
    carried: &[u8],
) -> Result<(), AllocError>
    requires { length carried.now ≤ 4096 }
    ensures ok { OnOk result (out.new.items ≡ out.old.items ++ option_reply option kind carried.now) }
    ensures kept { IsPrefix out.old.items out.new.items }
{
    put_option_head(out, option, kind)?;
    put_counted(out, carried)
}

// The least power of two that is a block size at all, 512 to 65,536, and not below the block. By the protocol a preferred size
// is a power of two, and 512 at least.
fn preferred_of(block: u32) -> u32
    ensures { result ≡ preferred_of block }
{
    match block {
        0..=512 => 512,
        513..=1024 => 1024,
        1025..=2048 => 2048,
        2049..=4096 => 4096,
        4097..=8192 => 8192,
        8193..=16384 => 16384,
        16385..=32768 => 32768,
        _ => 65536,
    }
}

// Appends an export's size and flags as information.
fn put_size_info(out: &mut Vec<u8>, size: u64) -> Result<(), AllocError>
    ensures ok { OnOk result (out.new.items ≡ out.old.items ++ size_info size) }
    ensures kept { IsPrefix out.old.items out.new.items }
{
    put_u32(out, INFO_EXPORT_LEN)?;
    put_u16(out, INFO_EXPORT)?;
    put_u64(out, size)?;
    put_u16(out, EXPORT_FLAGS)
}

// Appends the sizes of requests as information.
fn put_block_info(out: &mut Vec<u8>, block: u32) -> Result<(), AllocError>
    ensures ok { OnOk result (out.new.items ≡ out.old.items ++ block_info block) }
    ensures kept { IsPrefix out.old.items out.new.items }
{
    put_u32(out, INFO_BLOCK_SIZE_LEN)?;
    put_u16(out, INFO_BLOCK_SIZE)?;
    put_u32(out, LEAST_BLOCK)?;
    put_u32(out, preferred_of(block))?;
    put_u32(out, MOST_BLOCK)
}

/// Appends two replies of the kind Info: an export's size and flags, and the least, preferred and largest size of a request.
pub fn put_information(out: &mut Vec<u8>, option: u32, export: &Export) -> Result<(), AllocError>
    ensures ok { OnOk result (out.new.items ≡ out.old.items ++ information option export.now) }
    ensures kept { IsPrefix out.old.items out.new.items }
{
    put_option_head(out, option, OptionReply::Info)?;
    put_size_info(out, export.size)?;
    put_option_head(out, option, OptionReply::Info)?;
    put_block_info(out, export.block)
}

/// Appends what ends the handshake by the option EXPORT_NAME: an export's size and flags, and 124 zeroes unless both agreed on none.
pub fn put_export(out: &mut Vec<u8>, export: &Export, no_zeroes: bool) -> Result<(), AllocError>
    ensures ok { OnOk result (out.new.items ≡ out.old.items ++ export_bytes export.now no_zeroes) }
    ensures kept { IsPrefix out.old.items out.new.items }
{
    put_u64(out, export.size)?;
    put_u16(out, EXPORT_FLAGS)?;
    if no_zeroes {
        return Ok(());
    }
    out.extend_from_slice(&[0; 124])
}
