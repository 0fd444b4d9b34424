// A drive in memory, which can be lost from outside or by a fuse.
ghost use Rattle.std.specs.Prelude.{◌≡◌, ℕ, ◌+◌, ◌*◌, ◌-◌, ◌≤◌, ◌<◌, not, true, List, length};
ghost use Rattle.std.specs.Prelude.{slice_get, slice_set, Some, take, drop, ◌++◌, IfOk, OnOk, OnErr, is_err, vec_len};
ghost use Rattle.extents.specs.Failures.{CountsFailure, StaysSteady};
ghost use Rattle.extents.specs.Units.{AreUnitsSized, HaveFront, HasUnitBuffer, fronts, zero_units};
ghost use Rattle.extents.specs.Condition.{is_gone, failures_of, after_call};
ghost use Rattle.extents.specs.declared.shape.TheConstants.{HEADER_BYTES};

use crate::thin::ThinUnits;
use crate::{Drive, DriveLost, Shape};
use std::alloc::{AllocError, Global};
use std::marker::Model;

/// What a drive in memory does with its next call.
#[derive(Clone, Copy, Debug, PartialEq, Eq)]
pub(crate) enum Condition {
    /// It answers.
    Present,
    /// It answers all calls before the one of this number (1 = the next), at which it is lost.
    Fused(u64),
    /// It was lost from outside.
    Lost,
    /// It was lost by its fuse. Not `Lost`, because this counts as a failure of its own.
    Burnt,
}

/// A drive in memory. The memory for its units is allocated at once, because a write can't be refused for memory. A unit that
/// was never written touches none of it.
#[derive(Drop)]
pub struct MemDrive {
    units: ThinUnits,
    pub(crate) condition: Condition,
}

impl Model for MemDrive {
    ghost use Rattle.extents.specs.Condition.{Held};

    ghost Value = { Held };

    ghost view = { λ m. record { units = m.units; condition = m.condition } };
}

impl MemDrive {
    ghost use Rattle.extents.specs.declared.mem_drive.Condition.TheVariants.{Present};
    ghost use Rattle.extents.specs.Sizes.{extent_units};
    ghost use Rattle.extents.specs.Condition.{after_fuse};

    /// A drive of this shape, all its units zero; refused if out of memory.
    pub fn new(alloc: Global, shape: &Shape) -> Result<MemDrive, AllocError>
        ensures units { IfOk result (λ m. m.units ≡ zero_units (HEADER_BYTES + shape.now.payload) (shape.now.extents * extent_units shape.now.segments)) }
        ensures present { IfOk result (λ m. m.condition ≡ Present) }
    {
        let units = ThinUnits::new(alloc, shape.unit_bytes(), shape.drive_units())?;
        Ok(MemDrive {
            units,
            condition: Condition::Present,
        })
    }

    /// Makes the drive fail at its `calls`-th read or write after this call (1 = the next), and at all later ones. A lost drive
    /// stays as it is.
    pub fn fuse(&mut self, calls: u64)
        requires { 1 ≤ calls }
        ensures units { self.new.units ≡ self.old.units }
        ensures condition { self.new.condition ≡ after_fuse self.old.condition calls }
    {
        match self.condition {
            Condition::Present | Condition::Fused(_) => self.condition = Condition::Fused(calls),
            Condition::Lost | Condition::Burnt => {}
        }
    }
}

/// Whether the drive answers this call, which is counted off its fuse, if one is set.
fn spend(condition: &mut Condition) -> bool
    ensures answers { result ≡ not (is_gone condition.new) }
    ensures spent { condition.new ≡ after_call condition.old }
{
    match *condition {
        Condition::Present => true,
        Condition::Fused(calls) if calls > 1 => {
            *condition = Condition::Fused(calls - 1);
            true
        }
        Condition::Fused(_) => {
            *condition = Condition::Burnt;
            false
        }
        Condition::Lost | Condition::Burnt => false,
    }
}

impl MemDrive {
    // One read, of the first bytes of a unit.
    fn answer_read(&mut self, at: u32, front: &mut [u8]) -> Result<(), DriveLost>
        requires at { at < length self.old.units }
        requires size { HaveFront (length front.old) self.old.units }
        ensures read { OnOk result (slice_get (fronts (length front.old) self.old.units) at ≡ Some front.new) }
        ensures units { self.new.units ≡ self.old.units }
        ensures lost { is_gone self.new.condition ≡ is_err result }
        ensures condition { self.new.condition ≡ after_call self.old.condition }
    {
        if !spend(&mut self.condition) {
            return Err(DriveLost);
        }
        self.units.read(at, front);
        Ok(())
    }

    // One write, of a unit in two pieces.
    #[inline(always)]
    fn answer_write(&mut self, at: u32, front: &[u8], rest: &[u8]) -> Result<(), DriveLost>
        requires at { at < length self.old.units }
        requires size { AreUnitsSized (length front.now + length rest.now) self.old.units }
        ensures written { OnOk result (self.new.units ≡ slice_set self.old.units at (front.now ++ rest.now)) }
        ensures unwritten { OnErr result (self.new.units ≡ self.old.units) }
        ensures lost { is_gone self.new.condition ≡ is_err result }
        ensures condition { self.new.condition ≡ after_call self.old.condition }
    {
        // The call is counted first, because the one at which the fuse burns writes nothing.
        if spend(&mut self.condition) {
            self.units.write(at, front, rest);
            return Ok(());
        }
        Err(DriveLost)
    }
}

impl Drive for MemDrive {
    ghost units = { λ m. m.units };

    ghost lost = { λ m. is_gone m.condition };

    ghost failures = { λ m. failures_of m.condition };

    fn units(&self) -> u32 {
        self.units.count()
    }

    fn unit_bytes(&self) -> usize {
        self.units.size()
    }

    fn is_lost(&self) -> bool {
        matches!(self.condition, Condition::Lost | Condition::Burnt)
    }

    fn read_unit(&mut self, at: u32, unit: &mut [u8]) -> Result<(), DriveLost>
        requires at { at < length self.old.units }
        requires size { AreUnitsSized (length unit.old) self.old.units }
        ensures read { OnOk result (slice_get self.old.units at ≡ Some unit.new) }
        ensures units { self.new.units ≡ self.old.units }
        ensures lost { is_gone self.new.condition ≡ is_err result }
        ensures stays { is_gone self.old.condition ≡ true → is_gone self.new.condition ≡ true }
        ensures count { CountsFailure (is_gone self.old.condition) (is_gone self.new.condition) (failures_of self.old.condition) (failures_of self.new.condition) }
        ensures steady { StaysSteady (is_gone self.old.condition) (is_gone self.new.condition) (failures_of self.old.condition)
            (failures_of self.new.condition) }
        ensures condition { self.new.condition ≡ after_call self.old.condition }
    {
        self.answer_read(at, unit)
    }

    fn read_front(
        &mut self,
        at: u32,
        front: &mut [u8],
        _scratch: &mut [u8],
    ) -> Result<(), DriveLost>
        requires at { at < length self.old.units }
        requires size { HaveFront (length front.old) self.old.units }
        requires scratch { HasUnitBuffer (length front.old) (length _scratch.old) self.old.units }
        ensures read { OnOk result (slice_get (fronts (length front.old) self.old.units) at ≡ Some front.new) }
        ensures units { self.new.units ≡ self.old.units }
        ensures lost { is_gone self.new.condition ≡ is_err result }
        ensures stays { is_gone self.old.condition ≡ true → is_gone self.new.condition ≡ true }
        ensures count { CountsFailure (is_gone self.old.condition) (is_gone self.new.condition) (failures_of self.old.condition) (failures_of self.new.condition) }
        ensures steady { StaysSteady (is_gone self.old.condition) (is_gone self.new.condition) (failures_of self.old.condition)
            (failures_of self.new.condition) }
        ensures condition { self.new.condition ≡ after_call self.old.condition }
    {
        self.answer_read(at, front)
    }

    // Inlined, as what it calls is.
    #[inline(always)]
    fn write_unit(&mut self, at: u32, unit: &[u8]) -> Result<(), DriveLost>
        requires at { at < length self.old.units }
        requires size { AreUnitsSized (length unit.now) self.old.units }
        ensures written { OnOk result (self.new.units ≡ slice_set self.old.units at unit.now) }
        ensures unwritten { OnErr result (self.new.units ≡ self.old.units) }
        ensures lost { is_gone self.new.condition ≡ is_err result }
        ensures stays { is_gone self.old.condition ≡ true → is_gone self.new.condition ≡ true }
        ensures count { CountsFailure (is_gone self.old.condition) (is_gone self.new.condition) (failures_of self.old.condition) (failures_of self.new.condition) }
        ensures steady { StaysSteady (is_gone self.old.condition) (is_gone self.new.condition) (failures_of self.old.condition)
            (failures_of self.new.condition) }
        ensures condition { self.new.condition ≡ after_call self.old.condition }
    {
        self.answer_write(at, unit, &[])
    }

    // Inlined, as what it calls is.
    #[inline(always)]
    fn write_gathered(
        &mut self,
        at: u32,
        front: &[u8],
        rest: &[u8],
        _scratch: &mut [u8],
    ) -> Result<(), DriveLost>
        requires at { at < length self.old.units }
        requires size { AreUnitsSized (length front.now + length rest.now) self.old.units }
        requires scratch { AreUnitsSized (length _scratch.old) self.old.units }
        ensures written { OnOk result (self.new.units ≡ slice_set self.old.units at (front.now ++ rest.now)) }
        ensures unwritten { OnErr result (self.new.units ≡ self.old.units) }
        ensures lost { is_gone self.new.condition ≡ is_err result }
        ensures stays { is_gone self.old.condition ≡ true → is_gone self.new.condition ≡ true }
        ensures count { CountsFailure (is_gone self.old.condition) (is_gone self.new.condition) (failures_of self.old.condition) (failures_of self.new.condition) }
        ensures steady { StaysSteady (is_gone self.old.condition) (is_gone self.new.condition) (failures_of self.old.condition)
            (failures_of self.new.condition) }
        ensures condition { self.new.condition ≡ after_call self.old.condition }
    {
        self.answer_write(at, front, rest)
    }
}
