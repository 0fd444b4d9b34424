// Requests as calls of the store.
ghost use Rattle.std.specs.Prelude.{◌≡◌, ◌≤◌, ◌+◌, length, replicate, IfErr, IsOk, IsTrue};
ghost use Rattle.byte_store.specs.Flat.{StoreState};
ghost use Rattle.byte_store.specs.Lasting.{Shown};
ghost use Rattle.nbd_wire.specs.Requests.{is_forced};
ghost use Rattle.nbd_wire.specs.Replies.{reply_bytes};
ghost use Rattle.nbd_serve.specs.Answers.{Stores, bytes_read};
ghost use Rattle.nbd_serve.specs.Forcing.{Forces};
ghost use Rattle.nbd_serve.specs.Stopping.{IsStoreAt, LeavesShown, LeavesStore, store_type};

use crate::refusal::error_of;
use byte_store::{ByteStore, StoreFault};
use nbd_wire::{Request, put_reply};
use std::alloc::Global;

// A flush if the request has FUA set.
fn force<S: ByteStore>(store: &mut S, request: &Request) -> Result<(), StoreFault>
    ensures change { let type = store_type S.represents S.keys S.stays S.outlasts S.moment S.outlasts_since in
        (F : StoreState) (a : Shown) → IsStoreAt type store.old F a →
        (G : StoreState) × LeavesShown type (IsOk result × IsTrue (is_forced request.now)) a store.old store.new G
        × Forces result (is_forced request.now) F G }
    ensures cause { IfErr result S.may_refuse }
    ensures sizes { S.sizes store.new ≡ S.sizes store.old }
{
    if request.is_forced() {
        store.flush()
    } else {
        Ok(())
    }
}

/// Writes the bytes of a request, durably if it has FUA set.
pub(crate) fn write<S: ByteStore>(
    alloc: Global,
    store: &mut S,
    request: &Request,
    bytes: &[u8],
) -> Result<(), StoreFault>
    requires within { request.now.offset + length bytes.now ≤ (S.sizes store.old).bytes }
    ensures change { let type = store_type S.represents S.keys S.stays S.outlasts S.moment S.outlasts_since in
        (F : StoreState) (a : Shown) → IsStoreAt type store.old F a →
        (G : StoreState) × LeavesStore type (IsOk result) (IsOk result × IsTrue (is_forced request.now)) a store.old store.new G
        × Stores result (is_forced request.now) F request.now.offset bytes.now G }
    ensures cause { IfErr result S.may_refuse }
    ensures sizes { S.sizes store.new ≡ S.sizes store.old }
{
    match store.write(alloc, request.offset, bytes) {
        Ok(()) => force(store, request),
        Err(fault) => Err(fault),
    }
}

/// Makes the bytes that a request names zero, durably if it has FUA set.
pub(crate) fn zero<S: ByteStore>(
    alloc: Global,
    store: &mut S,
    request: &Request,
) -> Result<(), StoreFault>
    requires within { request.now.offset + request.now.length ≤ (S.sizes store.old).bytes }
    ensures change { let type = store_type S.represents S.keys S.stays S.outlasts S.moment S.outlasts_since in
        (F : StoreState) (a : Shown) → IsStoreAt type store.old F a →
        (G : StoreState) × LeavesStore type (IsOk result) (IsOk result × IsTrue (is_forced request.now)) a store.old store.new G
        × Stores result (is_forced request.now) F request.now.offset (replicate request.now.length 0) G }
    ensures cause { IfErr result S.may_refuse }
    ensures sizes { S.sizes store.new ≡ S.sizes store.old }
{
    match store.zero(alloc, request.offset, request.length) {
        Ok(()) => force(store, request),
        Err(fault) => Err(fault),
    }
}
