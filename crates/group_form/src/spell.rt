// The units of groups.
ghost use Rattle.std.specs.Prelude.{◌≡◌, ◌++◌, ◌<◌, slice_get, OnOk};
ghost use Rattle.group_form.specs.Form.{member_bytes, class_number, count_unit, group_unit, half_code, member_code};

use extent_groups::{Class, GroupTable, Member};
use std::alloc::AllocError;

/// Bytes of a unit of the table.
pub const FORM_BYTES: usize = 16;

/// Units of the table that have groups: two for each group number.
pub const GROUP_UNITS: u16 = 1024;

/// Units of the table that spell the groups and, the last of them, the number of drives. The first lies at address 1.
pub const FORM_UNITS: u16 = 1025;

// The number of a class.
fn class_number(class: Class) -> u8
    ensures { result ≡ class_number class }
{
    match class {
        Class::Mirrored => 1,
        Class::Parity => 2,
    }
}

// The bytes of a member.
fn member_bytes(class: Class, member: Member) -> [u8; 4]
    ensures { result ≡ member_bytes class member }
{
    let low = (member.extent % 256) as u8;
    let high = (member.extent / 256) as u8;
    [class_number(class), member.drive, low, high]
}

// The bytes of the member of an index, zeros where there is none.
fn code_at(class: Option<Class>, members: &[Member], index: usize) -> [u8; 4]
    ensures { result ≡ member_code class (slice_get members.now index) }
{
    let Some(class) = class else {
        return [0; 4];
    };
    match members.get(index) {
        Some(member) => member_bytes(class, *member),
        None => [0; 4],
    }
}

// Appends the bytes of four members, from the one of an index on.
fn put_half(
    unit: &mut Vec<u8>,
    class: Option<Class>,
    members: &[Member],
    from: usize,
) -> Result<(), AllocError>
    requires { from < 8 }
    ensures { OnOk result (unit.new.items ≡ unit.old.items ++ half_code class members.now from) }
{
    unit.extend_from_slice(&code_at(class, members, from))?;
    unit.extend_from_slice(&code_at(class, members, from + 1))?;
    unit.extend_from_slice(&code_at(class, members, from + 2))?;
    unit.extend_from_slice(&code_at(class, members, from + 3))?;
    Ok(())
}

/// Makes `unit` that of an index among those of the groups. Out of memory, it may have any bytes.
pub fn put_group_unit(unit: &mut Vec<u8>, groups: &GroupTable, index: u16) -> Result<(), AllocError>
    ensures { OnOk result (unit.new.items ≡ group_unit groups.now index) }
{
    let group = index / 2;
    unit.clear();
    let from = 4 * (index % 2);
    put_half(
        unit,
        groups.class_of(group),
        groups.members(group),
        from as usize,
    )
}

/// Makes `unit` that of a number of drives. Out of memory, it may have any bytes.
pub fn put_count(unit: &mut Vec<u8>, drives: u8) -> Result<(), AllocError>
    ensures { OnOk result (unit.new.items ≡ count_unit drives) }
{
    unit.clear();
    unit.push(drives)?;
    unit.extend_from_slice(&[0; 15])
}
