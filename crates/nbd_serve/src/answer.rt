// The answer to one request.
ghost use Rattle.std.specs.Prelude.{◌≡◌, ◌≤◌, ◌+◌, ◌++◌, length, take, IfOk, IfErr, OnOk, IsOk, IsTrue, Some, None};
ghost use Rattle.byte_store.specs.Flat.{StoreState};
ghost use Rattle.byte_store.specs.Lasting.{Shown};
ghost use Rattle.nbd_wire.specs.Requests.{carried_len, is_forced};
ghost use Rattle.nbd_wire.specs.Replies.{reply_bytes};
ghost use Rattle.nbd_serve.specs.Streams.{IsShort, Skips, end_by};
ghost use Rattle.nbd_serve.specs.Refusals.{error_of, refusal_of};
ghost use Rattle.nbd_serve.specs.Answers.{Stores, bytes_read};
ghost use Rattle.nbd_serve.specs.Answering.{IsAnswered, IsReadReply, IsWriteServed};
ghost use Rattle.nbd_serve.specs.Stopping.{IsStoreAt, LeavesStore, LeavesBy, store_type};

use crate::calls::{Short, fill, skip};
use crate::refusal::{error_of, refusal_of};
use crate::store_calls::{write, zero};
use byte_store::{ByteStore, StoreFault};
use nbd_wire::{Command, Errno, REPLY_LEN, Request, put_reply};
use std::alloc::Global;
use std::io::Read;

// Writes the reply to a request, without bytes that were read. Returns its length.
fn put_head(out: &mut [u8], error: Option<Errno>, request: &Request) -> usize
    requires room { 16 ≤ length out.old }
    ensures count { result ≤ length out.new }
    ensures written { take result out.new ≡ reply_bytes error request.now.cookie }
{
    put_reply(out, error, request.cookie);
    REPLY_LEN
}

// Carries out a read, and writes the reply. Returns its length. The buffer is too short for the bytes only if out of memory.
fn answer_read<S: ByteStore>(store: &mut S, request: &Request, out: &mut [u8]) -> usize
    requires room { 16 ≤ length out.old }
    requires within { request.now.offset + request.now.length ≤ (S.sizes store.old).bytes }
    ensures count { result ≤ length out.new }
    ensures written { (F : StoreState) → S.represents store.old F → IsReadReply S.may_refuse F request.now (take result out.new) }
    ensures leaves { let type = store_type S.represents S.keys S.stays S.outlasts S.moment S.outlasts_since in
        (F : StoreState) (a : Shown) → IsStoreAt type store.old F a → LeavesStore type ⊥ ⊥ a store.old store.new F }
    ensures sizes { S.sizes store.new ≡ S.sizes store.old }
{
    let end = REPLY_LEN + request.length as usize;
    if out.len() < end {
        return put_head(out, Some(Errno::Memory), request);
    }
    match store.read(request.offset, &mut out[REPLY_LEN..end]) {
        Ok(()) => {
            put_reply(out, None, request.cookie);
            end
        }
        Err(fault) => put_head(out, error_of(Err(fault)), request),
    }
}

// Reads the bytes that a write carries, and writes them to the store. The buffer is too short for them only if out of memory.
fn take_write<R: Read, S: ByteStore>(
    alloc: Global,
    reader: &mut R,
    store: &mut S,
    request: &Request,
    data: &mut [u8],
) -> Result<Result<(), StoreFault>, Short>
    requires within { request.now.offset + request.now.length ≤ (S.sizes store.old).bytes }
    ensures ok { let type = store_type S.represents S.keys S.stays S.outlasts S.moment S.outlasts_since in
        IfOk result (λ outcome. (F : StoreState) (a : Shown) → IsStoreAt type store.old F a →
        IsWriteServed S.may_refuse (LeavesStore type (IsOk outcome) (IsOk outcome × IsTrue (is_forced request.now))
        a store.old store.new) outcome F request.now (R.remaining reader.old) (R.remaining reader.new)) }
    ensures err { IfErr result (λ short. (store.new ≡ store.old) ×
        IsShort (end_by short) (R.remaining reader.old) (R.remaining reader.new) request.now.length) }
    ensures sizes { S.sizes store.new ≡ S.sizes store.old }
{
    let length = request.length as usize;
    if data.len() < length {
        return match skip(reader, request.length) {
            Ok(()) => Ok(Err(StoreFault::Memory)),
            Err(short) => Err(short),
        };
    }
    match fill(reader, &mut data[..length]) {
        Ok(()) => Ok(write(alloc, store, request, &data[..length])),
        Err(short) => Err(short),
    }
}

// Reads the bytes that a refused request carries, and writes the reply. Returns its length.
fn refuse<R: Read>(
    reader: &mut R,
    request: &Request,
    error: Errno,
    out: &mut [u8],
) -> Result<usize, Short>
    requires room { 16 ≤ length out.old }
    ensures count { IfOk result (λ count. count ≤ length out.new) }
    ensures written { IfOk result (λ count. take count out.new ≡ reply_bytes (Some error) request.now.cookie) }
    ensures read { OnOk result (Skips (R.remaining reader.old) (R.remaining reader.new) (carried_len request.now)) }
    ensures err { IfErr result (λ short. IsShort (end_by short) (R.remaining reader.old) (R.remaining reader.new) (carried_len request.now)) }
{
    match skip(reader, request.carried_len()) {
        Ok(()) => Ok(put_head(out, Some(error), request)),
        Err(short) => Err(short),
    }
}

/// Reads the bytes that a request carries, carries it out, and writes the reply into `out`. Returns the reply's length. A reply that
/// says that bytes were read has them all. Nothing is carried out if the input ends before them.
pub(crate) fn answer<R: Read, S: ByteStore>(
    alloc: Global,
    reader: &mut R,
    store: &mut S,
    request: &Request,
    out: &mut [u8],
    data: &mut [u8],
) -> Result<usize, Short>
    requires room { 16 ≤ length out.old }
    ensures count { IfOk result (λ count. count ≤ length out.new) }
    ensures ok { let type = store_type S.represents S.keys S.stays S.outlasts S.moment S.outlasts_since in
        IfOk result (λ count. (F : StoreState) (a : Shown) → IsStoreAt type store.old F a →
        IsAnswered (LeavesBy type a store.old store.new) S.may_refuse (S.sizes store.old).bytes F request.now
        (R.remaining reader.old) (R.remaining reader.new) (take count out.new)) }
    ensures err { IfErr result (λ short. (store.new ≡ store.old) ×
        IsShort (end_by short) (R.remaining reader.old) (R.remaining reader.new) (carried_len request.now)) }
    ensures sizes { S.sizes store.new ≡ S.sizes store.old }
{
    if let Some(error) = refusal_of(request, store.size()) {
        return refuse(reader, request, error, out);
    }
    match request.command {
        Command::Read => Ok(answer_read(store, request, out)),
        Command::Write => match take_write(alloc, reader, store, request, data) {
            Ok(outcome) => Ok(put_head(out, error_of(outcome), request)),
            Err(short) => Err(short),
        },
        Command::Trim | Command::WriteZeroes => {
            let outcome = zero(alloc, store, request);
            Ok(put_head(out, error_of(outcome), request))
        }
        Command::Flush => {
            let outcome = store.flush();
            Ok(put_head(out, error_of(outcome), request))
        }
        // The last two were refused.
        Command::Cache | Command::Disconnect | Command::Other => Ok(put_head(out, None, request)),
    }
}
