// Requests and replies, until the client goes.
ghost use Rattle.std.specs.Prelude.{◌≡◌, ◌≤◌, ◌+◌, length, IfOk};
ghost use Rattle.byte_store.specs.Flat.{StoreState};
ghost use Rattle.byte_store.specs.Lasting.{Shown};
ghost use Rattle.nbd_serve.specs.Serving.{Serves};
ghost use Rattle.nbd_serve.specs.Stepping.{IsDoneOrStop};
ghost use Rattle.nbd_serve.specs.Stopping.{IsStoreAt, LeavesStore, LeavesBy, store_type};

use crate::answer::answer;
use crate::calls::{fill, write_out};
use crate::end::End;
use crate::halt::Halt;
use crate::refusal::refusal_of;
use byte_store::ByteStore;
use nbd_wire::{Command, REPLY_LEN, REQUEST_LEN, Request, read_request};
use std::alloc::{AllocError, Global};
use std::io::{Read, Write};

// A buffer for a reply's head.
fn reply_buffer(alloc: Global) -> Result<Vec<u8>, AllocError>
    ensures { IfOk result (λ out. 16 ≤ length out.items) }
{
    vec![in alloc; 0u8; REPLY_LEN]
}

// Lets a buffer grow to a length, unless out of memory.
fn grow(buffer: &mut Vec<u8>, size: usize)
    ensures { length buffer.old.items ≤ length buffer.new.items }
{
    if buffer.len() < size {
        let _ = buffer.resize(size, 0);
    }
}

// Makes room for the bytes that a request reads or writes. A request that is refused needs none.
fn make_room(request: &Request, size: u64, out: &mut Vec<u8>, data: &mut Vec<u8>)
    ensures { length out.old.items ≤ length out.new.items }
{
    if refusal_of(request, size).is_some() {
        return;
    }
    match request.command {
        Command::Read => grow(out, REPLY_LEN + request.length as usize),
        Command::Write => grow(data, request.length as usize),
        _ => {}
    }
}

// Reads a request and answers it. Returns how the session ends, if it does.
fn exchange<R: Read, W: Write, S: ByteStore>(
    alloc: Global,
    reader: &mut R,
    writer: &mut W,
    store: &mut S,
    out: &mut Vec<u8>,
    data: &mut Vec<u8>,
) -> Option<Halt>
    requires room { 16 ≤ length out.old.items }
    ensures room { 16 ≤ length out.new.items }
    ensures step { let type = store_type S.represents S.keys S.stays S.outlasts S.moment S.outlasts_since in
        (F : StoreState) (a : Shown) → IsStoreAt type store.old F a →
        IsDoneOrStop (LeavesBy type a store.old store.new) (LeavesStore type ⊥ ⊥ a store.old store.new) result S.may_refuse (S.sizes store.old).bytes F
        (R.remaining reader.old) (R.remaining reader.new) (W.contents writer.old) (W.contents writer.new) }
    ensures sizes { S.sizes store.new ≡ S.sizes store.old }
{
    let mut head = [0u8; REQUEST_LEN];
    if let Err(short) = fill(reader, &mut head) {
        return Some(short.halt());
    }
    let Some(request) = read_request(&head) else {
        return Some(Halt::Garbage);
    };
    if let Command::Disconnect = request.command {
        return Some(Halt::Disconnected);
    }
    make_room(&request, store.size(), out, data);
    match answer(alloc, reader, store, &request, out, data) {
        Ok(count) => match write_out(writer, &out[..count]) {
            Ok(()) => None,
            Err(broke) => Some(Halt::WriteBroke(broke)),
        },
        Err(short) => Some(short.halt()),
    }
}

/// Answers requests until the client disconnects, or the session ends otherwise. Each reply is written before the next request is
/// read, and in between the store rests. Buffers are kept between requests.
pub fn transmit<R: Read, W: Write, S: ByteStore>(
    alloc: Global,
    reader: &mut R,
    writer: &mut W,
    store: &mut S,
) -> End
    ensures { let type = store_type S.represents S.keys S.stays S.outlasts S.moment S.outlasts_since in
        (F : StoreState) (a : Shown) → IsStoreAt type store.old F a →
        Serves type S.may_refuse (S.sizes store.old).bytes F a store.old store.new result
        (R.remaining reader.old) (R.remaining reader.new) (W.contents writer.old) (W.contents writer.new) }
{
    let Ok(mut out) = reply_buffer(alloc) else {
        return End::Memory;
    };
    let mut data = Vec::new(alloc);
    for served in 0..u64::MAX {
        if let Some(halt) = exchange(alloc, reader, writer, store, &mut out, &mut data) {
            return halt.end();
        }
        store.rest(alloc);
    }
    End::Limit
}
