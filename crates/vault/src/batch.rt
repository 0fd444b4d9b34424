// A batch of unit writes.
ghost use Rattle.std.specs.Prelude.{◌≡◌, ◌↔◌, ◌<◌, ◌≤◌, ◌+◌, ◌-◌, ◌*◌, ◌++◌, [], ◌∷◌, ℕ, Some, length, take, IsTrue, IfOk, IfSome, IfNone, OnOk, OnErr, slice_get, option_map, slice_range};
ghost use Rattle.vault.specs.Entries.{writes_in, AreWithin, IsUnitOf};
ghost use Rattle.vault.specs.Coding.{Encodes, IsCode, decoded, entries_code, entry_code, entries_at, entry_at, AreSmall, IsSmall, AreGood, IsGoodEntry};

use crate::code::{count_in, number, put_number};
use extent_groups::Place;
use std::alloc::{AllocError, Global};
use std::marker::Model;

/// How many of the last writes are looked at for one with the same unit. A new unit is compared with all of them, so without a
/// bound a long batch would take quadratic time.
const LOOKED_AT: usize = 64;

/// The byte that is compared first: the low one of a header's slot number, in which most units differ.
const TELLING: usize = 15;

/// Where the unit of a write lies among the bytes of its batch.
#[derive(Clone, Copy, Debug)]
struct Entry {
    place: Place,
    from: usize,
    to: usize,
}

/// Unit writes, in their order. A unit that one of the last 64 writes has too is held once.
#[derive(Debug, Drop)]
pub struct Batch {
    entries: Vec<Entry>,
    units: Vec<u8>,
    /// The write after the one that last had the same unit as another: the next pair's may be there. It may be out of date or
    /// past the end, since it is only where to look first.
    hint: usize,
}

impl Model for Batch {
    ghost use Rattle.std.specs.Prelude.{List};
    ghost use Rattle.extent_groups.specs.Planned.{Intended};
    ghost use Rattle.vault.specs.Entries.{writes_in, AreWithin};

    ghost Value = { List Intended };

    ghost view = { λ b. writes_in b.units.items b.entries.items };

    ghost invariant = { λ b. AreWithin b.units.items b.entries.items };
}

impl Batch {
    pub fn new(alloc: Global) -> Batch
        ensures { result ≡ [] }
    {
        Batch {
            entries: Vec::new(alloc),
            units: Vec::new(alloc),
            hint: 0,
        }
    }

    // What its memory comes from.
    pub(crate) fn allocator(&self) -> Global {
        *self.entries.allocator()
    }

    /// Adds a write. Refused if out of memory, and then nothing is added.
    #[tactic(auto, using(crate::proofs::Held::writes_more, crate::proofs::Held::within_more))]
    pub fn push(&mut self, place: Place, unit: &[u8]) -> Result<(), AllocError>
        ensures ok { OnOk result (self.new ≡ self.old ++ record { place = place; unit = unit.now } ∷ []) }
        ensures err { OnErr result (self.new ≡ self.old) }
    {
        let from = kept_at(&self.entries, &mut self.units, &mut self.hint, unit)?;
        let entry = Entry {
            place,
            from,
            to: from + unit.len(),
        };
        // If this fails, the unit's bytes stay, and no write has them.
        self.entries.push(entry)?;
        Ok(())
    }

    /// Takes all writes away. Keeps the memory for others.
    pub fn clear(&mut self)
        ensures { self.new ≡ [] }
    {
        self.entries.clear();
        self.units.clear();
    }

    /// Takes all writes but the first `count` away. The bytes of their units stay, and are encoded with the others.
    #[tactic(auto, using(crate::proofs::Held::writes_front, crate::proofs::Held::within_front))]
    pub fn truncate(&mut self, count: usize)
        ensures { self.new ≡ take count self.old }
    {
        self.entries.truncate(count);
    }

    #[tactic(auto, using(crate::proofs::Held::writes_len))]
    pub fn len(&self) -> usize
        ensures { result ≡ length self.now }
    {
        self.entries.len()
    }

    #[tactic(auto, using(crate::proofs::Held::writes_len))]
    pub fn is_empty(&self) -> bool
        ensures { IsTrue result ↔ (length self.now ≡ 0) }
    {
        self.entries.is_empty()
    }

    /// The place of a write, the first of them at 0.
    #[tactic(auto, using(crate::proofs::Held::writes_len, crate::proofs::Held::place_at))]
    pub fn place(&self, index: usize) -> Place
        requires { index < length self.now }
        ensures { option_map (λ w. w.place) (slice_get self.now index) ≡ Some result }
    {
        self.entries[index].place
    }

    /// The unit of a write, the first of them at 0.
    #[tactic(auto, using(crate::proofs::Held::writes_len, crate::proofs::Held::write_at, crate::proofs::Held::within_at))]
    pub fn unit(&self, index: usize) -> &[u8]
        requires { index < length self.now }
        ensures { option_map (λ w. w.unit) (slice_get self.now index) ≡ Some result.now }
    {
        let entry = self.entries[index];
        &self.units[entry.from..entry.to]
    }

    /// Becomes a copy of another; empty if out of memory.
    pub fn copy_from(&mut self, other: &Batch) -> Result<(), AllocError>
        ensures ok { OnOk result (self.new ≡ other.now) }
        ensures err { OnErr result (self.new ≡ []) }
    {
        self.entries.clear();
        self.units.clear();
        // Before the entries, which are in range only with these bytes: a failure leaves none of them.
        self.units.extend_from_slice(&other.units)?;
        self.entries.extend_from_slice(&other.entries)
    }

    /// Appends the batch to bytes, as `decode` reads it. Out of memory, the bytes may have grown by a part of it.
    pub fn encode(&self, out: &mut Vec<u8>) -> Result<(), AllocError>
        ensures { OnOk result (Encodes out.old.items out.new.items self.now) }
    {
        put_number(out, self.entries.len())?;
        put_entries(out, &self.entries)?;
        // Last, because they need no length: they are all bytes that are left.
        out.extend_from_slice(&self.units)
    }

    /// Becomes the batch that bytes represent. False where they represent none. If false or out of memory, it may have any
    /// writes.
    pub fn decode(&mut self, bytes: &[u8]) -> Result<bool, AllocError>
        ensures decoded { IfOk result (λ is. IsTrue is → self.new ≡ decoded bytes.now) }
        ensures is { IfOk result (λ is. IsTrue is ↔ IsCode bytes.now) }
    {
        self.entries.clear();
        self.units.clear();
        let Some(count) = count_in(bytes) else {
            return Ok(false);
        };
        let units = &bytes[8 + 32 * count..];
        self.units.extend_from_slice(units)?;
        read_entries(&mut self.entries, count, &bytes[8..], units.len())
    }
}

// Whether the telling byte of a unit is another than that of the unit at `from`. Most units differ there, so that one
// comparison of a byte spares one of a whole unit.
fn differ(units: &[u8], from: usize, unit: &[u8]) -> bool
    ensures { IsTrue result → (to : ℕ) → slice_range units.now from to ≡ unit.now → ⊥ }
{
    let at = from.saturating_add(TELLING);
    if at >= units.len() || TELLING >= unit.len() {
        return false;
    }
    units[at] != unit[TELLING]
}

// Whether a unit is that of the entry of an index.
fn is_unit_of(entries: &[Entry], units: &[u8], index: usize, unit: &[u8]) -> bool
    requires { AreWithin units.now entries.now }
    ensures { IsTrue result ↔ IsUnitOf units.now entries.now index unit.now }
{
    // A hint may be past the end.
    if index >= entries.len() {
        return false;
    }
    let entry = entries[index];
    if differ(units, entry.from, unit) {
        return false;
    }
    units[entry.from..entry.to] == unit[..]
}

// The index of an entry with this unit: the hint, or the first of the last `LOOKED_AT`.
#[tactic(auto, using(crate::proofs::Held::unit_below))]
fn find_unit(entries: &[Entry], units: &[u8], hint: usize, unit: &[u8]) -> Option<usize>
    requires { AreWithin units.now entries.now }
    ensures some { IfSome result (λ index. IsUnitOf units.now entries.now index unit.now) }
    ensures inside { IfSome result (λ index. index < length entries.now) }
    ensures none { IfNone result ((index : ℕ) → length entries.now ≤ index + 64 → IsUnitOf units.now entries.now index unit.now → ⊥) }
{
    if is_unit_of(entries, units, hint, unit) {
        return Some(hint);
    }
    for index in entries.len().saturating_sub(LOOKED_AT)..entries.len() {
        if is_unit_of(entries, units, index, unit) {
            return Some(index);
        }
    }
    None
}

// Where these bytes lie among the units: those of an entry if they are the same, else appended.
#[tactic(auto, using(crate::proofs::Held::within_longer, crate::proofs::Held::writes_longer, crate::proofs::Held::range_last))]
fn kept_at(
    entries: &[Entry],
    units: &mut Vec<u8>,
    hint: &mut usize,
    unit: &[u8],
) -> Result<usize, AllocError>
    requires { AreWithin units.old.items entries.now }
    ensures at { IfOk result (λ from. (from + length unit.now ≤ length units.new.items) × (slice_range units.new.items from (from + length unit.now) ≡ unit.now)) }
    ensures within { AreWithin units.new.items entries.now }
    ensures same { writes_in units.new.items entries.now ≡ writes_in units.old.items entries.now }

    // One of the last 64 writes that has the unit keeps it from being held again.
    ensures once { (index : ℕ) → length entries.now ≤ index + 64 → IsUnitOf units.old.items entries.now index unit.now → units.new.items ≡ units.old.items }
{
    if let Some(index) = find_unit(entries, units, *hint, unit) {
        *hint = index + 1;
        return Ok(entries[index].from);
    }
    let from = units.len();
    units.extend_from_slice(unit)?;
    Ok(from)
}

// Appends the bytes of entries.
fn put_entries(out: &mut Vec<u8>, entries: &[Entry]) -> Result<(), AllocError>
    ensures bytes { OnOk result (out.new.items ≡ out.old.items ++ entries_code entries.now) }
    ensures small { OnOk result (AreSmall entries.now) }
{
    for entry in entries {
        put_entry(out, entry)?;
    }
    Ok(())
}

// Appends the bytes of an entry.
fn put_entry(out: &mut Vec<u8>, entry: &Entry) -> Result<(), AllocError>
    ensures bytes { OnOk result (out.new.items ≡ out.old.items ++ entry_code entry.now) }
    ensures small { OnOk result (IsSmall entry.now) }
{
    put_number(out, entry.place.drive as usize)?;
    put_number(out, entry.place.address as usize)?;
    put_number(out, entry.from)?;
    put_number(out, entry.to)
}

// Reads `count` entries that are in range for `units` bytes of units. False where one isn't.
#[tactic(auto, using(crate::proofs::Codes::tail_is, crate::proofs::Codes::good_at, crate::proofs::Codes::good_more))]
fn read_entries(
    entries: &mut Vec<Entry>,
    count: usize,
    table: &[u8],
    units: usize,
) -> Result<bool, AllocError>
    requires empty { entries.old.items ≡ [] }
    requires table { 32 * count ≤ length table.now }
    ensures good { AreGood units entries.new.items }
    ensures entries { IfOk result (λ is. IsTrue is → entries.new.items ≡ entries_at count table.now) }
    ensures is { IfOk result (λ is. IsTrue is ↔ AreGood units (entries_at count table.now)) }
{
    for index in 0..count {
        let Some(entry) = read_entry(&table[32 * index..], units) else {
            return Ok(false);
        };
        entries.push(entry)?;
    }
    Ok(true)
}

// The entry with which bytes begin; none if it is out of range.
#[tactic(auto, using(crate::proofs::Codes::tail_is))]
fn read_entry(bytes: &[u8], units: usize) -> Option<Entry>
    requires { 32 ≤ length bytes.now }
    ensures some { IfSome result (λ e. (e ≡ entry_at bytes.now) × IsGoodEntry units e) }
    ensures none { IfNone result (IsGoodEntry units (entry_at bytes.now) → ⊥) }
{
    let drive = number(bytes);
    let address = number(&bytes[8..]);
    let from = number(&bytes[16..]);
    let to = number(&bytes[24..]);
    // Tested here, so that no bytes of a file can make `unit` read past the end.
    if drive > 255 || address > u32::MAX as usize || from > to || to > units {
        return None;
    }
    let place = Place {
        drive: drive as u8,
        address: address as u32,
    };
    Some(Entry { place, from, to })
}
