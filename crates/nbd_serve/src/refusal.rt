// Which requests are refused before the store is asked, and the error that a store's refusal is answered with.
ghost use Rattle.std.specs.Prelude.{◌≡◌, ◌+◌, Some, None, nat_le, if◌then◌else◌};
ghost use Rattle.nbd_serve.specs.Refusals.{error_of, refusal_of, past_end, refusal_by};
ghost use Rattle.nbd_wire.specs.declared.reply.Errno.TheVariants as errno;

use byte_store::StoreFault;
use nbd_wire::{Command, Errno, Request};

/// The most bytes that a request reads or writes, 32 MiB.
pub(crate) const MOST_BYTES: u32 = 33_554_432;

/// The error of a request's outcome, none if it was carried out.
pub(crate) fn error_of(outcome: Result<(), StoreFault>) -> Option<Errno>
    ensures { result ≡ error_of outcome }
{
    match outcome {
        Ok(()) => None,
        Err(StoreFault::NoSpace) => Some(Errno::NoSpace),
        Err(StoreFault::Memory) => Some(Errno::Memory),
        Err(StoreFault::Gone) | Err(StoreFault::Sync) => Some(Errno::Io),
    }
}

// The error of a request past the end of the store, none if it isn't.
fn past_end(request: &Request, size: u64, error: Errno) -> Option<Errno>
    ensures { result ≡ past_end size request.now error }
{
    if request.offset <= size && u64::from(request.length) <= size - request.offset {
        None
    } else {
        Some(error)
    }
}

// The refusal of a request to read or write bytes.
fn refusal_of_bytes(request: &Request, size: u64, error: Errno) -> Option<Errno>
    ensures { result ≡ if nat_le request.now.length 33554432 then past_end size request.now error else Some errno.Invalid }
{
    if request.length <= MOST_BYTES {
        past_end(request, size, error)
    } else {
        Some(Errno::Invalid)
    }
}

/// The error of a request that is refused whatever the store holds, none if the store is to carry it out.
pub(crate) fn refusal_of(request: &Request, size: u64) -> Option<Errno>
    ensures { result ≡ refusal_of size request.now }
{
    if !request.has_known_flags() {
        return Some(Errno::Invalid);
    }
    match request.command {
        Command::Read => refusal_of_bytes(request, size, Errno::Invalid),
        Command::Write => refusal_of_bytes(request, size, Errno::NoSpace),
        Command::WriteZeroes => past_end(request, size, Errno::NoSpace),
        Command::Trim | Command::Cache => past_end(request, size, Errno::Invalid),
        Command::Flush => None,
        Command::Disconnect | Command::Other => Some(Errno::Invalid),
    }
}
