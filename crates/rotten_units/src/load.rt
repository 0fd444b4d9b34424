// The units of drives, read from a vault into memory.
ghost use Rattle.std.specs.Prelude.{◌≡◌, ◌≢◌, ◌+◌, ◌*◌, ◌<◌, ℕ, false, length, slice_get, slice_set, OnOk, IfOk};
ghost use Rattle.extents.specs.Sizes.{extent_units};
ghost use Rattle.extents.specs.Units.{AreUnitsSized};
ghost use Rattle.extents.specs.declared.mem_drive.Condition.TheVariants.{Present};
ghost use Rattle.extents.specs.declared.shape.TheConstants.{HEADER_BYTES};
ghost use Rattle.extent_groups.specs.declared.place.Place.{Place};
ghost use Rattle.vault.specs.Images.{Image, is_lost as is_lost_of};
ghost use Rattle.vault.specs.Marks.{Has};
ghost use Rattle.rotten_units.specs.Loaded.{AreFormed, AreReadOrNoted, IsInside, IsReadOrNoted, KeepsForm, KeepsNoted, NotesOnly, NotesRotten, OnlyRead, SameAttested};

use crate::fault::ReadFault;
use extent_groups::Place;
use extents::{DRIVES, Drive, MemDrive, Shape};
use std::alloc::Global;
use vault::{Places, UnitRead, Vault};

/// What drives hold.
#[derive(Drop)]
pub struct Loaded {
    /// The units of each drive. Those that are rotten, and those of lost drives, are zeros.
    pub caches: Vec<MemDrive>,
    /// The places of the rotten ones.
    pub rotten: Places,
}

/// Whether a drive is among the lost ones.
pub fn is_lost(lost: &[bool; DRIVES], drive: usize) -> bool
    ensures { result ≡ is_lost_of lost.now drive }
{
    match lost.get(drive) {
        Some(lost) => *lost,
        None => false,
    }
}

/// Writes a unit of a drive in memory.
pub fn put(cache: &mut MemDrive, at: u32, unit: &[u8])
    requires at { at < length cache.old.units }
    requires size { AreUnitsSized (length unit.now) cache.old.units }
    ensures present { cache.old.condition ≡ Present → cache.new.condition ≡ Present }
    ensures written { cache.old.condition ≡ Present → cache.new.units ≡ slice_set cache.old.units at unit.now }
{
    let _ = cache.write_unit(at, unit);
}

// Notes a place. Refused if out of memory.
fn note(rotten: &mut Places, place: Place) -> Result<(), ReadFault>
    ensures kept { OnOk result (KeepsNoted (Has rotten.old.marks.items) (Has rotten.new.marks.items)) }
    ensures noted { OnOk result (Has rotten.new.marks.items place) }
    ensures only { OnOk result (NotesOnly (λ x. place ≡ x) (Has rotten.old.marks.items) (Has rotten.new.marks.items)) }
{
    if rotten.put(place) {
        return Ok(());
    }
    Err(ReadFault::Memory)
}

// Reads a unit of a drive into memory, or notes that it is rotten.
fn read_unit<V: Vault>(
    vault: &mut V,
    cache: &mut MemDrive,
    rotten: &mut Places,
    place: Place,
    unit: &mut [u8],
) -> Result<(), ReadFault>
    requires present { cache.old.condition ≡ Present }
    requires size { AreUnitsSized (length unit.old) cache.old.units }
    requires inside { place.address < length cache.old.units }
    ensures stays { V.known vault.old → V.known vault.new }
    ensures read { V.known vault.old → OnlyRead V.seen V.may_leave V.moment V.left_since vault.old vault.new }
    ensures attests { V.known vault.old → SameAttested V.attested vault.old vault.new }
    ensures form { KeepsForm (length unit.old) cache.old cache.new }
    ensures others { (k : ℕ) → k ≢ place.address → slice_get cache.new.units k ≡ slice_get cache.old.units k }
    ensures kept { OnOk result (KeepsNoted (Has rotten.old.marks.items) (Has rotten.new.marks.items)) }
    ensures only { OnOk result (NotesOnly (λ x. place ≡ x) (Has rotten.old.marks.items) (Has rotten.new.marks.items)) }
    ensures rotten { V.known vault.old
        → OnOk result (NotesRotten (V.attested vault.old) (Has rotten.old.marks.items) (Has rotten.new.marks.items)) }
    ensures found { V.known vault.old
        → OnOk result (IsReadOrNoted (Has rotten.new.marks.items) (V.attested vault.old) (Image.cells (V.seen vault.old)) place cache.new.units) }
{
    match vault.read_unit(place, unit)? {
        UnitRead::Whole => {
            put(cache, place.address, unit);
            Ok(())
        }
        UnitRead::Rotten => note(rotten, place),
        UnitRead::Absent => Err(ReadFault::Missing {
            drive: place.drive,
            address: place.address,
        }),
    }
}

// Fills a drive in memory with the units of a drive, and notes those that are rotten.
fn fill<V: Vault>(
    vault: &mut V,
    cache: &mut MemDrive,
    rotten: &mut Places,
    drive: u8,
    unit: &mut [u8],
) -> Result<(), ReadFault>
    requires present { cache.old.condition ≡ Present }
    requires size { AreUnitsSized (length unit.old) cache.old.units }
    ensures stays { V.known vault.old → V.known vault.new }
    ensures read { V.known vault.old → OnlyRead V.seen V.may_leave V.moment V.left_since vault.old vault.new }
    ensures attests { V.known vault.old → SameAttested V.attested vault.old vault.new }
    ensures present { cache.new.condition ≡ Present }
    ensures many { length cache.new.units ≡ length cache.old.units }
    ensures size { AreUnitsSized (length unit.old) cache.new.units }
    ensures kept { OnOk result (KeepsNoted (Has rotten.old.marks.items) (Has rotten.new.marks.items)) }
    ensures inside { OnOk result (NotesOnly (λ x. (x.drive ≡ drive) × (x.address < length cache.old.units))
        (Has rotten.old.marks.items) (Has rotten.new.marks.items)) }
    ensures rotten { V.known vault.old → OnOk result (NotesRotten (V.attested vault.old) (Has rotten.old.marks.items) (Has rotten.new.marks.items)) }
    ensures found { V.known vault.old → OnOk result ((at : ℕ) → at < length cache.new.units
        → IsReadOrNoted (Has rotten.new.marks.items) (V.attested vault.old) (Image.cells (V.seen vault.old))
        (record { drive = drive; address = at }) cache.new.units) }
{
    for address in 0..cache.units() {
        read_unit(vault, cache, rotten, Place { drive, address }, unit)?;
    }
    Ok(())
}

// A drive's units, as the vault has them without its journal; zeros if it is lost. Notes those that are rotten. Takes a buffer of a
// unit's length.
fn load<V: Vault>(
    alloc: Global,
    vault: &mut V,
    shape: &Shape,
    rotten: &mut Places,
    drive: u8,
    is_lost: bool,
    unit: &mut [u8],
) -> Result<MemDrive, ReadFault>
    requires size { length unit.old ≡ HEADER_BYTES + shape.now.payload }
    ensures stays { V.known vault.old → V.known vault.new }
    ensures read { V.known vault.old → OnlyRead V.seen V.may_leave V.moment V.left_since vault.old vault.new }
    ensures attests { V.known vault.old → SameAttested V.attested vault.old vault.new }
    ensures present { IfOk result (λ m. m.condition ≡ Present) }
    ensures many { IfOk result (λ m. length m.units ≡ shape.now.extents * extent_units shape.now.segments) }
    ensures size { IfOk result (λ m. AreUnitsSized (HEADER_BYTES + shape.now.payload) m.units) }
    ensures kept { OnOk result (KeepsNoted (Has rotten.old.marks.items) (Has rotten.new.marks.items)) }
    ensures inside { OnOk result (NotesOnly (λ x. (x.drive ≡ drive) × (x.address < shape.now.extents * extent_units shape.now.segments))
        (Has rotten.old.marks.items) (Has rotten.new.marks.items)) }
    ensures rotten { V.known vault.old → OnOk result (NotesRotten (V.attested vault.old) (Has rotten.old.marks.items) (Has rotten.new.marks.items)) }
    ensures found { V.known vault.old → is_lost ≡ false → IfOk result (λ m. (at : ℕ) → at < length m.units
        → IsReadOrNoted (Has rotten.new.marks.items) (V.attested vault.old) (Image.cells (V.seen vault.old)) (record { drive = drive; address = at }) m.units) }
{
    let mut cache = MemDrive::new(alloc, shape)?;
    if is_lost {
        return Ok(cache);
    }
    fill(vault, &mut cache, rotten, drive, unit)?;
    Ok(cache)
}

/// Reads the units of drives, as the vault has them without its journal, and notes those that are rotten. A lost drive's are zeros.
pub fn load_units<V: Vault>(
    alloc: Global,
    vault: &mut V,
    shape: &Shape,
    drives: u8,
    lost: &[bool; DRIVES],
) -> Result<Loaded, ReadFault>
    ensures stays { V.known vault.old → V.known vault.new }
    ensures read { V.known vault.old → OnlyRead V.seen V.may_leave V.moment V.left_since vault.old vault.new }
    ensures attests { V.known vault.old → SameAttested V.attested vault.old vault.new }
    ensures many { IfOk result (λ l. length l.caches.items ≡ drives) }
    ensures formed { IfOk result (λ l. AreFormed (shape.now.extents * extent_units shape.now.segments) (HEADER_BYTES + shape.now.payload) l.caches.items) }
    ensures inside { IfOk result (λ l. (x : Place) → Has l.rotten.marks.items x → IsInside drives (shape.now.extents * extent_units shape.now.segments) x) }
    ensures rotten { V.known vault.old → IfOk result (λ l. (x : Place) → Has l.rotten.marks.items x → V.attested vault.old x → ⊥) }
    ensures found { V.known vault.old
        → IfOk result (λ l. AreReadOrNoted (Has l.rotten.marks.items) (V.attested vault.old) lost.now (Image.cells (V.seen vault.old)) l.caches.items) }
{
    let mut buffer = vec![in alloc; 0u8; shape.unit_bytes()]?;
    let unit: &mut [u8] = &mut buffer;
    let mut rotten = Places::new(alloc);
    let mut caches = Vec::new(alloc);
    for drive in 0..drives {
        let is_lost = is_lost(lost, usize::from(drive));
        let cache = load(alloc, vault, shape, &mut rotten, drive, is_lost, unit)?;
        caches.push(cache)?;
    }
    Ok(Loaded { caches, rotten })
}
