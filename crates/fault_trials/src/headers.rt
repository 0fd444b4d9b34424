// Units of random bytes, and headers with one bit flipped: a scan returns what a plain walk over the bytes returns.
use crate::noise::Noise;
use crate::payloads::payload_of;
use crate::slots::Slots;
use crate::trouble::Trouble;
use crate::walk::walk;
use header_scan::ScanFault;
use map_join::{BlockMap, Record};
use std::alloc::Global;

/// Slots of the two groups, blocks, and bits of a header.
const PLACES: u32 = 14;

const BLOCKS: u32 = 16;

const BITS: usize = 256;

/// The mark's last byte and the kind's byte of a header: of the layout that is read alone, and of data and a trim in the
/// other.
const FORMS: [[u8; 2]; 3] = [[0x31, 0], [0x32, 0], [0x32, 1]];

/// How many scans there were, and how many of them returned a map and each fault.
#[derive(Drop)]
pub(crate) struct Headers {
    pub(crate) scans: u64,
    pub(crate) maps: u64,
    pub(crate) bad: u64,
    pub(crate) wrong_slots: u64,
    pub(crate) twice: u64,
}

fn no_scans() -> Headers {
    Headers {
        scans: 0,
        maps: 0,
        bad: 0,
        wrong_slots: 0,
        twice: 0,
    }
}

/// Each of `rounds` rounds writes forty random bytes to a slot, after which no scan returns a map, and then a header that
/// is mostly valid.
pub(crate) fn scan_noise(alloc: Global, seed: u32, rounds: u32) -> Result<Headers, Trouble> {
    let mut slots = Slots::new(alloc)?;
    let mut counts = no_scans();
    let mut noise = Noise::new(u64::from(seed));
    for _ in 0..rounds {
        scan_once(alloc, &mut slots, &mut counts, &mut noise)?;
    }
    Ok(counts)
}

fn scan_once(
    alloc: Global,
    slots: &mut Slots,
    counts: &mut Headers,
    noise: &mut Noise,
) -> Result<(), Trouble> {
    let at = noise.below(PLACES) as usize;
    let before = counts.maps;
    put(alloc, slots, counts, at, bytes(noise), payload(noise))?;
    if counts.maps != before {
        return Err(Trouble::Wrong);
    }
    let header = header(noise, slot_at(slots, at));
    put(alloc, slots, counts, at, header, payload(noise))
}

/// Flips each bit of a header of each form in each slot.
pub(crate) fn flips(alloc: Global) -> Result<Headers, Trouble> {
    let mut slots = Slots::new(alloc)?;
    let mut counts = no_scans();
    for at in 0..PLACES as usize {
        flip_each(alloc, &mut slots, &mut counts, at)?;
    }
    Ok(counts)
}

fn flip_each(
    alloc: Global,
    slots: &mut Slots,
    counts: &mut Headers,
    at: usize,
) -> Result<(), Trouble> {
    for form in FORMS {
        let sound = spell(form, 3, 1, 0, slot_at(slots, at));
        for bit in 0..BITS {
            put(alloc, slots, counts, at, flipped(sound, bit), payload_of(7))?;
        }
    }
    // So that the next slot's header is the only one.
    slots.put(at, [0; 32], [0; 8])
}

// Writes to a slot, and scans.
fn put(
    alloc: Global,
    slots: &mut Slots,
    counts: &mut Headers,
    at: usize,
    header: [u8; 32],
    payload: [u8; 8],
) -> Result<(), Trouble> {
    slots.put(at, header, payload)?;
    check(alloc, slots, counts)
}

// Scans, and compares with the walk. The walk shares no code with the scan.
fn check(alloc: Global, slots: &mut Slots, counts: &mut Headers) -> Result<(), Trouble> {
    counts.scans = counts.scans.saturating_add(1);
    let scanned = slots.scan(alloc)?;
    match walk(alloc, &slots.placed, BLOCKS) {
        Ok(newest) => {
            if !is_list(alloc, &scanned, &newest)? {
                return Err(Trouble::Wrong);
            }
            counts.maps = counts.maps.saturating_add(1);
        }
        Err(ScanFault::Memory) => return Err(Trouble::Memory),
        Err(expected) => {
            if scanned.err() != Some(expected) {
                return Err(Trouble::Wrong);
            }
            note(counts, expected);
        }
    }
    Ok(())
}

fn is_list(
    alloc: Global,
    scanned: &Result<BlockMap, ScanFault>,
    newest: &[Record],
) -> Result<bool, Trouble> {
    match scanned {
        Ok(map) => Ok(map.to_list(alloc)?.as_slice() == newest),
        Err(_) => Ok(false),
    }
}

fn note(counts: &mut Headers, fault: ScanFault) {
    let count = match fault {
        ScanFault::BadHeader(_) => &mut counts.bad,
        ScanFault::WrongSlot(_, _) => &mut counts.wrong_slots,
        _ => &mut counts.twice,
    };
    *count = count.saturating_add(1);
}

fn slot_at(slots: &Slots, at: usize) -> u16 {
    match slots.placed.get(at) {
        Some(placed) => placed.0,
        None => 0,
    }
}

fn bytes(noise: &mut Noise) -> [u8; 32] {
    let mut bytes = [0; 32];
    for byte in bytes.iter_mut() {
        *byte = noise.byte();
    }
    bytes
}

fn payload(noise: &mut Noise) -> [u8; 8] {
    payload_of(noise.byte())
}

// A header of a record of the slot. One in three is blank; of the others one in twenty has another slot, or a block past the
// last. Few are wrong, because a scan ends at the first of them.
fn header(noise: &mut Noise, slot: u16) -> [u8; 32] {
    if noise.below(3) == 0 {
        return [0; 32];
    }
    let version = noise.below(6).saturating_add(1);
    let hop = u16::from(noise.byte() % 2);
    let form = FORMS[noise.below(3) as usize % FORMS.len()];
    match noise.below(40) {
        0 => spell(form, BLOCKS, version, hop, slot),
        1 => spell(form, 3, version, hop, slot ^ 1),
        _ => spell(form, noise.below(BLOCKS), version, hop, slot),
    }
}

// A record's header: the mark, the record's numbers with the highest byte first, the kind's byte and fifteen zeros.
fn spell(form: [u8; 2], block: u32, version: u32, hop: u16, slot: u16) -> [u8; 32] {
    let mut header = [0; 32];
    header[..4].copy_from_slice(&[0x52, 0x42, 0x48, form[0]]);
    header[16] = form[1];
    header[4..8].copy_from_slice(&block.to_be_bytes());
    header[8..12].copy_from_slice(&version.to_be_bytes());
    header[12..14].copy_from_slice(&hop.to_be_bytes());
    header[14..16].copy_from_slice(&slot.to_be_bytes());
    header
}

fn flipped(header: [u8; 32], bit: usize) -> [u8; 32] {
    let mut header = header;
    if let Some(byte) = header.get_mut(bit / 8) {
        *byte ^= 1u8.checked_shl((bit % 8) as u32).unwrap_or(0);
    }
    header
}
