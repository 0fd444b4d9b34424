//! Transcripts of sessions, and sessions that break off. All numbers have their highest byte first.
use crate::streams::{Breaking, Full, Refusing};
use byte_store::{MemStore, StoreFault};
use nbd_serve::{End, serve};
use std::alloc::Global;
use std::test::Fail;

/// NBDMAGIC, IHAVEOPT, FIXED_NEWSTYLE and NO_ZEROES.
const GREETING: &str = "4e42444d41474943 49484156454f5054 0003";

/// The client's flags: FIXED_NEWSTYLE and NO_ZEROES.
const FLAGS: &str = "00000003";

/// GO for the export of the empty name, without requests for information.
const GO: &str = "49484156454f5054 00000007 00000006 00000000 0000";

/// The information on a store of 4,096 bytes with blocks of 512, and the end of the replies to GO.
const GONE: &str = "
    0003e889045565a9 00000007 00000003 0000000c 0000 0000000000001000 046d
    0003e889045565a9 00000007 00000003 0000000e 0003 00000001 00000200 02000000
    0003e889045565a9 00000007 00000001 00000000";

/// Requests of every command: a write of 5 bytes at 3 with FUA, a read of 8 at 0, zeroes for 2 at 4 with FUA and NO_HOLE, a trim of 1
/// at 0, a flush, a request to cache, a read of 6 at 2, a read of none, and the request to disconnect.
const REQUESTS: &str = "
    25609513 0001 0001 1122334455667788 0000000000000003 00000005 6162636465
    25609513 0000 0000 0000000000000002 0000000000000000 00000008
    25609513 0003 0006 0000000000000003 0000000000000004 00000002
    25609513 0000 0004 0000000000000004 0000000000000000 00000001
    25609513 0000 0003 0000000000000005 0000000000000000 00000000
    25609513 0000 0005 0000000000000006 0000000000000000 00001000
    25609513 0001 0000 0000000000000007 0000000000000002 00000006
    25609513 0000 0000 0000000000000008 0000000000001000 00000000
    25609513 0000 0002 0000000000000009 0000000000000000 00000000";

/// Their replies.
const REPLIES: &str = "
    67446698 00000000 1122334455667788
    67446698 00000000 0000000000000002 0000006162636465
    67446698 00000000 0000000000000003
    67446698 00000000 0000000000000004
    67446698 00000000 0000000000000005
    67446698 00000000 0000000000000006
    67446698 00000000 0000000000000007 006100006465
    67446698 00000000 0000000000000008";

// Appends the bytes that a text spells in hex, without its blanks.
fn put(bytes: &mut Vec<u8>, text: &str) -> Result<(), Fail> {
    let mut high = None;
    for letter in text.as_bytes() {
        let digit = match *letter {
            b'0'..=b'9' => *letter - b'0',
            b'a'..=b'f' => *letter - b'a' + 10,
            _ => continue,
        };
        match high {
            None => high = Some(digit),
            Some(first) => {
                bytes.push(16 * (first % 16) + digit)?;
                high = None;
            }
        }
    }
    Ok(())
}

// The bytes that texts spell in hex.
fn spelled(alloc: Global, texts: &[&str]) -> Result<Vec<u8>, Fail> {
    let mut bytes = Vec::new(alloc);
    for text in texts {
        put(&mut bytes, text)?;
    }
    Ok(bytes)
}

#[test]
fn a_session_is_answered_as_the_document_says(rt: HostRuntime) -> Result<(), Fail> {
    // The client says, the server says, the end.
    let cases: [(&[&str], &[&str], End); 9] = [
        (
            &[FLAGS, GO, REQUESTS],
            &[GREETING, GONE, REPLIES],
            End::Disconnected,
        ),
        // EXPORT_NAME with the name `disk`, without zeroes and with them.
        (
            &[
                FLAGS,
                "49484156454f5054 00000001 00000004 6469736b",
                REQUESTS,
            ],
            &[GREETING, "0000000000001000 046d", REPLIES],
            End::Disconnected,
        ),
        (
            &["00000001", "49484156454f5054 00000001 00000000"],
            &[
                GREETING,
                "0000000000001000 046d",
                "00000000000000000000000000000000000000000000000000000000000000000000000000000000",
                "00000000000000000000000000000000000000000000000000000000000000000000000000000000",
                "00000000000000000000000000000000000000000000000000000000000000000000000000000000",
                "00000000",
            ],
            End::Cut,
        ),
        // LIST, INFO with two requests, STRUCTURED_REPLY, STARTTLS, LIST with data, GO cut short, ABORT.
        (
            &[
                FLAGS,
                "49484156454f5054 00000003 00000000",
                "49484156454f5054 00000006 0000000b 00000001 78 0002 0000 0003",
                "49484156454f5054 00000008 00000000",
                "49484156454f5054 00000005 00000000",
                "49484156454f5054 00000003 00000001 00",
                "49484156454f5054 00000007 00000006 00000001 0000",
                "49484156454f5054 00000002 00000000",
            ],
            &[
                GREETING,
                "0003e889045565a9 00000003 00000002 00000004 00000000",
                "0003e889045565a9 00000003 00000001 00000000",
                "0003e889045565a9 00000006 00000003 0000000c 0000 0000000000001000 046d",
                "0003e889045565a9 00000006 00000003 0000000e 0003 00000001 00000200 02000000",
                "0003e889045565a9 00000006 00000001 00000000",
                "0003e889045565a9 00000008 80000001 00000000",
                "0003e889045565a9 00000005 80000001 00000000",
                "0003e889045565a9 00000003 80000003 00000000",
                "0003e889045565a9 00000007 80000003 00000000",
                "0003e889045565a9 00000002 00000001 00000000",
            ],
            End::Aborted,
        ),
        // A read and a trim past the end, a write past it whose 2 bytes are skipped, a read of more than 32 MiB, an unknown flag, NO_HOLE
        // where it says nothing, and an unknown command.
        (
            &[
                FLAGS,
                GO,
                "25609513 0000 0000 0000000000000001 0000000000000fff 00000002",
                "25609513 0000 0004 0000000000000002 ffffffffffffffff 00000001",
                "25609513 0000 0001 0000000000000003 0000000000000fff 00000002 6162",
                "25609513 0000 0000 0000000000000004 0000000000000000 02000001",
                "25609513 0004 0000 0000000000000005 0000000000000000 00000001",
                "25609513 0002 0001 0000000000000006 0000000000000000 00000001 61",
                "25609513 0000 0007 0000000000000007 0000000000000000 00000001",
                "25609513 0000 0002 0000000000000000 0000000000000000 00000000",
            ],
            &[
                GREETING,
                GONE,
                "67446698 00000016 0000000000000001",
                "67446698 00000016 0000000000000002",
                "67446698 0000001c 0000000000000003",
                "67446698 00000016 0000000000000004",
                "67446698 00000016 0000000000000005",
                "67446698 00000016 0000000000000006",
                "67446698 00000016 0000000000000007",
            ],
            End::Disconnected,
        ),
        // Unknown flags, and wrong magic numbers.
        (&["00000007", GO], &[GREETING], End::Garbage),
        (
            &[FLAGS, "49484156454f5055 00000007 00000000"],
            &[GREETING],
            End::Garbage,
        ),
        (
            &[
                FLAGS,
                GO,
                "67446698 0000 0000 0000000000000001 0000000000000000 00000001",
            ],
            &[GREETING, GONE],
            End::Garbage,
        ),
        (&[], &[GREETING], End::Cut),
    ];
    for (said, replied, end) in cases {
        let mut store = MemStore::new(rt.alloc(), 4096, 512)?;
        let mut out = Vec::new(rt.alloc());
        let input = spelled(rt.alloc(), said)?;
        let mut reader = input.as_slice();
        assert!(rt; serve(rt.alloc(), &mut reader, &mut out, &mut store) == end);
        assert!(rt; out.as_slice() == spelled(rt.alloc(), replied)?.as_slice());
    }
    Ok(())
}

#[test]
fn an_option_with_too_much_data_is_skipped(rt: HostRuntime) -> Result<(), Fail> {
    // An unknown option with 5,000 bytes, and then EXPORT_NAME with 5,000.
    let mut input = spelled(rt.alloc(), &[FLAGS, "49484156454f5054 00000063 00001388"])?;
    input.resize(input.len() + 5000, 0x49)?;
    put(&mut input, "49484156454f5054 00000001 00001388")?;
    input.resize(input.len() + 5000, 0x49)?;
    let mut store = MemStore::new(rt.alloc(), 4096, 512)?;
    let mut out = Vec::new(rt.alloc());
    let mut reader = input.as_slice();
    assert!(rt; serve(rt.alloc(), &mut reader, &mut out, &mut store) == End::Garbage);
    let replied = spelled(
        rt.alloc(),
        &[GREETING, "0003e889045565a9 00000063 80000009 00000000"],
    )?;
    assert!(rt; out.as_slice() == replied.as_slice());
    assert!(rt; reader.is_empty());
    Ok(())
}

#[test]
fn a_preferred_size_is_a_power_of_two(rt: HostRuntime) -> Result<(), Fail> {
    for (block, preferred) in [
        (8, "00000200"),
        (520, "00000400"),
        (4096, "00001000"),
        (65536, "00010000"),
    ] {
        let mut store = MemStore::new(rt.alloc(), 4096, block)?;
        let mut out = Vec::new(rt.alloc());
        let input = spelled(rt.alloc(), &[FLAGS, GO])?;
        let mut reader = input.as_slice();
        assert!(rt; serve(rt.alloc(), &mut reader, &mut out, &mut store) == End::Cut);
        assert!(rt; out.get(76..80) == Some(spelled(rt.alloc(), &[preferred])?.as_slice()));
    }
    Ok(())
}

#[test]
fn a_session_may_break_off_at_any_byte(rt: HostRuntime) -> Result<(), Fail> {
    let input = spelled(rt.alloc(), &[FLAGS, GO, REQUESTS])?;
    let whole = spelled(rt.alloc(), &[GREETING, GONE, REPLIES])?;
    for count in 0..input.len() {
        for fails in [false, true] {
            let mut store = MemStore::new(rt.alloc(), 4096, 512)?;
            let mut out = Vec::new(rt.alloc());
            let bytes = input.get(..count).ok_or("short")?;
            let end = if fails {
                serve(rt.alloc(), &mut Breaking { bytes }, &mut out, &mut store)
            } else {
                let mut reader = bytes;
                serve(rt.alloc(), &mut reader, &mut out, &mut store)
            };
            assert!(rt; end == if fails { End::ReadFault } else { End::Cut });
            assert!(rt; whole.get(..out.len()) == Some(out.as_slice()));
        }
    }
    Ok(())
}

#[test]
fn a_full_writer_has_a_prefix_of_the_replies(rt: HostRuntime) -> Result<(), Fail> {
    let input = spelled(rt.alloc(), &[FLAGS, GO, REQUESTS])?;
    let whole = spelled(rt.alloc(), &[GREETING, GONE, REPLIES])?;
    for room in 0..whole.len() {
        let mut store = MemStore::new(rt.alloc(), 4096, 512)?;
        let mut writer = Full {
            taken: Vec::new(rt.alloc()),
            room,
        };
        let mut reader = input.as_slice();
        assert!(rt; serve(rt.alloc(), &mut reader, &mut writer, &mut store) == End::WriteFault);
        assert!(rt; whole.get(..room) == Some(writer.taken.as_slice()));
    }
    Ok(())
}

#[test]
fn a_stores_refusal_is_answered_with_its_error(rt: HostRuntime) -> Result<(), Fail> {
    // A read, a write, zeroes, a trim and a flush.
    let requests = "
        25609513 0000 0000 0000000000000001 0000000000000000 00000001
        25609513 0000 0001 0000000000000002 0000000000000000 00000001 61
        25609513 0000 0006 0000000000000003 0000000000000000 00000001
        25609513 0000 0004 0000000000000004 0000000000000000 00000001
        25609513 0000 0003 0000000000000005 0000000000000000 00000000";
    let input = spelled(rt.alloc(), &[FLAGS, GO, requests])?;
    for (fault, error) in [
        (StoreFault::NoSpace, "0000001c"),
        (StoreFault::Gone, "00000005"),
        (StoreFault::Memory, "0000000c"),
        (StoreFault::Sync, "00000005"),
    ] {
        let mut store = Refusing { fault };
        let mut out = Vec::new(rt.alloc());
        let mut reader = input.as_slice();
        assert!(rt; serve(rt.alloc(), &mut reader, &mut out, &mut store) == End::Cut);
        let mut replied = spelled(rt.alloc(), &[GREETING, GONE])?;
        for cookie in ["01", "02", "03", "04", "05"] {
            for part in ["67446698", error, "00000000000000", cookie] {
                put(&mut replied, part)?;
            }
        }
        assert!(rt; out.as_slice() == replied.as_slice());
    }
    Ok(())
}
