// A whole session.
ghost use Rattle.byte_store.specs.Flat.{StoreState};
ghost use Rattle.byte_store.specs.Lasting.{Shown};
ghost use Rattle.nbd_serve.specs.Sessions.{Session};
ghost use Rattle.nbd_serve.specs.Stopping.{IsStoreAt, store_type};

use crate::end::End;
use crate::handshake::agree;
use crate::transmission::transmit;
use byte_store::ByteStore;
use nbd_wire::Export;
use std::alloc::Global;
use std::io::{Read, Write};

/// Serves a store to one client: the handshake, and then requests until the client goes or the session ends otherwise. The store is
/// the one export, under every name.
pub fn serve<R: Read, W: Write, S: ByteStore>(
    alloc: Global,
    reader: &mut R,
    writer: &mut W,
    store: &mut S,
) -> End
    ensures { let type = store_type S.represents S.keys S.stays S.outlasts S.moment S.outlasts_since in
        (F : StoreState) (a : Shown) → IsStoreAt type store.old F a →
        Session type S.may_refuse (S.sizes store.old) F a store.old store.new result
        (R.remaining reader.old) (R.remaining reader.new) (W.contents writer.old) (W.contents writer.new) }
{
    let export = Export {
        size: store.size(),
        block: store.block_bytes(),
    };
    match agree(alloc, reader, writer, &export) {
        Ok(()) => transmit(alloc, reader, writer, store),
        Err(halt) => halt.end(),
    }
}
