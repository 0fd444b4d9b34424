// Tests of what no clause says, and each public call once.
use crate::asserts::check;
use crate::tables::shape_of;
use extents::{
    Drive, DriveLost, ExtentTable, Header, HeaderFault, HotSwap, Kind, MemDrive, Shape,
    ShapeRefusal,
};
use map_join::Record;
use std::process::Abort;
use std::test::Fail;

#[test]
fn the_first_size_out_of_its_limit_is_named(rt: HostRuntime) {
    check!(rt; Shape::new(0, 2, 8, 16) == Err(ShapeRefusal::Range(1)));
    check!(rt; Shape::new(8, 9, 8, 0) == Err(ShapeRefusal::Range(2)));
    check!(rt; Shape::new(8, 2, 12, 16) == Err(ShapeRefusal::Range(3)));
    check!(rt; Shape::new(512, 8, 65536, 65537) == Err(ShapeRefusal::Range(4)));
    check!(rt; Shape::new(512, 8, 65536, 65536).is_ok());
    check!(rt; shape_of(&rt, 8, 2).unit_bytes() == 40);
    check!(rt; shape_of(&rt, 8, 2).drive_units() == 32);
    check!(rt; shape_of(&rt, 8, 2).unit_address(3, 2) == 14);
}

fn first_record() -> Record {
    Record {
        block: 3,
        version: 1,
        hop: 0,
        place: 0,
    }
}

/// `52424831000000030000000100000000` and sixteen zero bytes.
const FIRST_HEADER: [u8; 32] = [
    0x52, 0x42, 0x48, 0x31, 0, 0, 0, 3, 0, 0, 0, 1, 0, 0, 0, 0, 0, 0, 0, 0, 0, 0, 0, 0, 0, 0, 0, 0,
    0, 0, 0, 0,
];

/// Whether the header with this byte at a place is refused.
fn is_refused_with(rt: &impl Abort, at: usize, byte: u8) -> bool {
    let mut changed = FIRST_HEADER;
    check!(rt; at < changed.len());
    changed[at] = byte;
    Header::decode(&changed) == Err(HeaderFault::BadHeader)
}

#[test]
fn a_header_is_blank_or_spells_a_record_in_all_its_bytes(rt: HostRuntime) {
    let is = Header::Is(first_record(), Kind::Data);
    let mut second = FIRST_HEADER;
    second[3] = 0x32;
    check!(rt; is.encode() == second);
    check!(rt; Header::decode(&FIRST_HEADER) == Ok(is));
    check!(rt; Header::decode(&second) == Ok(is));
    check!(rt; is.record() == Some(first_record()));
    check!(rt; Header::Blank.record() == None);
    check!(rt; HeaderFault::BadHeader.number() == 1);
    check!(rt; Header::Blank.encode() == [0; 32]);
    check!(rt; Header::decode(&[0; 32]) == Ok(Header::Blank));
    check!(rt; is_refused_with(&rt, 20, 1));
    check!(rt; is_refused_with(&rt, 16, 1));
    check!(rt; is_refused_with(&rt, 11, 0));
    check!(rt; is_refused_with(&rt, 3, 0x33));
    let trim = Header::Is(first_record(), Kind::Trim);
    second[16] = 1;
    check!(rt; trim.encode() == second);
    check!(rt; Header::decode(&second) == Ok(trim));
    check!(rt; trim.kind() == Kind::Trim);
    check!(rt; Header::Blank.kind() == Kind::Data);
    second[16] = 2;
    check!(rt; Header::decode(&second) == Err(HeaderFault::BadHeader));
    second[16] = 1;
    second[17] = 1;
    check!(rt; Header::decode(&second) == Err(HeaderFault::BadHeader));
}

fn read(rt: &impl Abort, drive: &mut MemDrive, at: u32, unit: &mut [u8]) -> Result<(), DriveLost> {
    check!(rt; at < drive.units());
    check!(rt; unit.len() == drive.unit_bytes());
    drive.read_unit(at, unit)
}

fn read_front(
    rt: &impl Abort,
    drive: &mut MemDrive,
    at: u32,
    front: &mut [u8],
) -> Result<(), DriveLost> {
    check!(rt; at < drive.units());
    check!(rt; drive.unit_bytes() == 40);
    check!(rt; front.len() <= 40);
    drive.read_front(at, front, &mut [8; 40])
}

fn write(rt: &impl Abort, drive: &mut MemDrive, at: u32, unit: &[u8]) -> Result<(), DriveLost> {
    check!(rt; at < drive.units());
    check!(rt; unit.len() == drive.unit_bytes());
    drive.write_unit(at, unit)
}

fn write_gathered(
    rt: &impl Abort,
    drive: &mut MemDrive,
    front: &[u8],
    rest: &[u8],
) -> Result<(), DriveLost> {
    check!(rt; 5 < drive.units());
    let size = drive.unit_bytes();
    check!(rt; size == 40);
    check!(rt; rest.len() <= size);
    check!(rt; front.len() == size - rest.len());
    drive.write_gathered(5, front, rest, &mut [8; 40])
}

/// Whether of six writes and reads of a drive those before the fuse burns are answered, and none after.
fn burns_at(rt: &impl Abort, drive: &mut MemDrive, fuse: u8, unit: &mut [u8; 40]) -> bool {
    for call in 1..7u8 {
        let answered = if call % 2 == 1 {
            write(rt, drive, 31, &[call; 40])
        } else {
            read(rt, drive, 31, unit)
        };
        if answered.is_ok() != (call < fuse) || drive.is_lost() != (call >= fuse) {
            return false;
        }
    }
    true
}

#[test]
fn a_drive_reads_as_written_until_its_fuse_burns(rt: HostRuntime) -> Result<(), Fail> {
    for (fuse, last_read) in [(1u8, 9), (2, 9), (3, 1), (4, 1), (5, 3)] {
        let mut drive = MemDrive::new(rt.alloc(), &shape_of(&rt, 8, 2))?;
        let mut unit = [9; 40];
        check!(rt; drive.units() == 32);
        check!(rt; fuse > 0);
        drive.fuse(u64::from(fuse));
        check!(rt; burns_at(&rt, &mut drive, fuse, &mut unit));
        check!(rt; unit == [last_read; 40]);
    }
    Ok(())
}

#[test]
fn a_new_drive_is_zero_and_a_lost_one_stays_lost(rt: HostRuntime) -> Result<(), Fail> {
    let mut drive = MemDrive::new(rt.alloc(), &shape_of(&rt, 8, 2))?;
    let mut unit = vec![in rt.alloc(); 9; shape_of(&rt, 8, 2).unit_bytes()]?;
    check!(rt; read(&rt, &mut drive, 0, &mut unit) == Ok(()));
    check!(rt; unit.iter().all(|byte| *byte == 0));
    drive.lose();
    check!(rt; read(&rt, &mut drive, 0, &mut unit) == Err(DriveLost));
    drive.fuse(5);
    check!(rt; write(&rt, &mut drive, 0, &unit) == Err(DriveLost));
    check!(rt; drive.is_lost());
    Ok(())
}

#[test]
fn the_first_bytes_of_a_unit_are_read_by_a_call_of_their_own(rt: HostRuntime) -> Result<(), Fail> {
    let mut drive = MemDrive::new(rt.alloc(), &shape_of(&rt, 8, 2))?;
    let unit = vec![in rt.alloc(); 7; shape_of(&rt, 8, 2).unit_bytes()]?;
    check!(rt; write(&rt, &mut drive, 31, &unit) == Ok(()));
    drive.fuse(3);
    let mut front = [9; 5];
    check!(rt; read_front(&rt, &mut drive, 31, &mut front) == Ok(()));
    check!(rt; front == [7; 5]);
    check!(rt; read_front(&rt, &mut drive, 30, &mut front) == Ok(()));
    check!(rt; front == [0; 5]);
    check!(rt; read_front(&rt, &mut drive, 31, &mut front) == Err(DriveLost));
    Ok(())
}

/// Whether a unit that is written in two pieces reads as both of them.
fn is_gathered(rt: &impl Abort, drive: &mut MemDrive, front: &[u8], rest: &[u8]) -> bool {
    let mut unit = [9; 40];
    write_gathered(rt, drive, front, rest) == Ok(())
        && read(rt, drive, 5, &mut unit) == Ok(())
        && unit.starts_with(front)
        && unit.ends_with(rest)
}

#[test]
fn a_unit_is_written_in_two_pieces_by_one_call(rt: HostRuntime) -> Result<(), Fail> {
    let mut drive = MemDrive::new(rt.alloc(), &shape_of(&rt, 8, 2))?;
    drive.fuse(7);
    // Zeros where nothing was written, a first write that begins with them, and one over it.
    check!(rt; is_gathered(&rt, &mut drive, &[0; 32], &[0; 8]));
    check!(rt; is_gathered(&rt, &mut drive, &[0; 32], &[1; 8]));
    check!(rt; is_gathered(&rt, &mut drive, &[2; 39], &[3]));
    // The seventh call is refused.
    check!(rt; write_gathered(&rt, &mut drive, &[4; 40], &[]) == Err(DriveLost));
    Ok(())
}

/// Gives an extent to a group or frees it, after asserting that there is such an extent.
fn set_owner(rt: &impl Abort, table: &mut ExtentTable, drive: u8, extent: u16, owner: Option<u16>) {
    check!(rt; table.has_extent(drive, extent));
    table.set_owner(drive, extent, owner);
}

/// The owner of an extent, after asserting that there is such an extent.
fn owner(rt: &impl Abort, table: &ExtentTable, drive: u8, extent: u16) -> Option<u16> {
    check!(rt; table.has_extent(drive, extent));
    table.owner(drive, extent)
}

/// The load of a drive and its lowest free extent, after asserting that there is such a drive.
fn load(rt: &impl Abort, table: &ExtentTable, drive: u8) -> (u32, Option<u16>) {
    check!(rt; (drive as usize) < table.drives());
    (table.load(drive), table.lowest_free(drive))
}

#[test]
fn an_extent_table_knows_owners_loads_and_the_lowest_free_extent(
    rt: HostRuntime,
) -> Result<(), Fail> {
    let mut table = ExtentTable::new(rt.alloc(), 3, &shape_of(&rt, 8, 2))?;
    table.add_drive(rt.alloc())?;
    set_owner(&rt, &mut table, 3, 0, Some(7));
    set_owner(&rt, &mut table, 3, 2, Some(9));
    set_owner(&rt, &mut table, 3, 0, Some(8));
    check!(rt; owner(&rt, &table, 3, 0) == Some(8));
    check!(rt; load(&rt, &table, 3) == (2, Some(1)));
    check!(rt; load(&rt, &table, 0).0 == 0);
    check!(rt; table.has_extent(3, 7));
    check!(rt; table.drives() == 4);
    check!(rt; table.owners(3).len() == 8);
    check!(rt; !(table.has_extent(4, 0)));
    set_owner(&rt, &mut table, 3, 0, None);
    check!(rt; load(&rt, &table, 3) == (1, Some(0)));
    Ok(())
}
