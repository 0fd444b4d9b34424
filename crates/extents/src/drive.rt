// What a drive promises.
ghost use Rattle.std.specs.Prelude.{◌≡◌, ℕ, ◌+◌, ◌<◌, Bool, true, List, length, slice_get, slice_set, Some, ◌++◌, OnOk, OnErr, is_err};
ghost use Rattle.extents.specs.Failures.{Failures, CountsFailure, StaysSteady};
ghost use Rattle.extents.specs.Units.{AreUnitsSized, HaveFront, HasUnitBuffer, fronts};

/// The drive is lost, and stays so.
#[derive(Clone, Copy, Debug, PartialEq, Eq)]
pub struct DriveLost;

/// A drive of numbered units: each reads as it was last written, or the drive is lost for good.
pub trait Drive {
    /// The units that the drive holds, by address.
    ghost units: { Self → List (List ℕ) };

    /// Whether the drive answers no more.
    ghost lost: { Self → Bool };

    /// How often the drive failed spontaneously, and whether it is steady: no failure of its own lies ahead.
    ghost failures: { Self → Failures };

    /// How many units the drive has.
    fn units(&self) -> u32
        ensures { result ≡ length (units self.now) };

    /// Bytes of each of the drive's units.
    fn unit_bytes(&self) -> usize
        ensures { AreUnitsSized result (units self.now) };

    /// Whether the drive is lost.
    fn is_lost(&self) -> bool
        ensures { result ≡ lost self.now };

    /// Reads the unit at an address; refused where the drive is lost or fails now, and then it is lost.
    fn read_unit(&mut self, at: u32, unit: &mut [u8]) -> Result<(), DriveLost>
        requires at { at < length (units self.old) }
        requires size { AreUnitsSized (length unit.old) (units self.old) }
        ensures read { OnOk result (slice_get (units self.old) at ≡ Some unit.new) }
        ensures units { units self.new ≡ units self.old }
        ensures lost { lost self.new ≡ is_err result }
        ensures stays { lost self.old ≡ true → lost self.new ≡ true }
        ensures count { CountsFailure (lost self.old) (lost self.new) (failures self.old) (failures self.new) }
        ensures steady { StaysSteady (lost self.old) (lost self.new) (failures self.old) (failures self.new) };

    /// Reads the first bytes of the unit at an address: `front.len()` of them, at most a unit's length. Counts as one read and
    /// is refused as `read_unit` is. Borrows a buffer of a unit's length, or an empty one for a whole unit. A drive that can read
    /// part of a unit overrides it.
    fn read_front(&mut self, at: u32, front: &mut [u8], scratch: &mut [u8]) -> Result<(), DriveLost>
        requires at { at < length (units self.old) }
        requires size { HaveFront (length front.old) (units self.old) }
        requires scratch { HasUnitBuffer (length front.old) (length scratch.old) (units self.old) }
        ensures read { OnOk result (slice_get (fronts (length front.old) (units self.old)) at ≡ Some front.new) }
        ensures units { units self.new ≡ units self.old }
        ensures lost { lost self.new ≡ is_err result }
        ensures stays { lost self.old ≡ true → lost self.new ≡ true }
        ensures count { CountsFailure (lost self.old) (lost self.new) (failures self.old) (failures self.new) }
        ensures steady { StaysSteady (lost self.old) (lost self.new) (failures self.old) (failures self.new) }
    {
        if scratch.is_empty() {
            return self.read_unit(at, front);
        }
        // Units are read whole, so the bytes after the front need a place.
        self.read_unit(at, scratch)?;
        let size = front.len();
        front.copy_from_slice(&scratch[..size]);
        Ok(())
    }

    /// Writes the unit at an address, whole or not at all; refused where the drive is lost or fails now, and then it is lost.
    fn write_unit(&mut self, at: u32, unit: &[u8]) -> Result<(), DriveLost>
        requires at { at < length (units self.old) }
        requires size { AreUnitsSized (length unit.now) (units self.old) }
        ensures written { OnOk result (units self.new ≡ slice_set (units self.old) at unit.now) }
        ensures unwritten { OnErr result (units self.new ≡ units self.old) }
        ensures lost { lost self.new ≡ is_err result }
        ensures stays { lost self.old ≡ true → lost self.new ≡ true }
        ensures count { CountsFailure (lost self.old) (lost self.new) (failures self.old) (failures self.new) }
        ensures steady { StaysSteady (lost self.old) (lost self.new) (failures self.old) (failures self.new) };

    /// Writes the unit at an address, given as `front` and the bytes after it, `rest`, together of a unit's length; either may
    /// be empty. Counts as one write and is refused as `write_unit` is. Borrows a buffer of a unit's length, in which the two
    /// are joined. A drive that can write them from where they lie overrides it.
    fn write_gathered(
        &mut self,
        at: u32,
        front: &[u8],
        rest: &[u8],
        scratch: &mut [u8],
    ) -> Result<(), DriveLost>
        requires at { at < length (units self.old) }
        requires size { AreUnitsSized (length front.now + length rest.now) (units self.old) }
        requires scratch { AreUnitsSized (length scratch.old) (units self.old) }
        ensures written { OnOk result (units self.new ≡ slice_set (units self.old) at (front.now ++ rest.now)) }
        ensures unwritten { OnErr result (units self.new ≡ units self.old) }
        ensures lost { lost self.new ≡ is_err result }
        ensures stays { lost self.old ≡ true → lost self.new ≡ true }
        ensures count { CountsFailure (lost self.old) (lost self.new) (failures self.old) (failures self.new) }
        ensures steady { StaysSteady (lost self.old) (lost self.new) (failures self.old) (failures self.new) }
    {
        join(scratch, front, rest);
        self.write_unit(at, scratch)
    }

    /// Makes all writes that were Ok durable; refused where the drive is lost or fails now, and then it is lost. Counts as
    /// neither a read nor a write. A drive that something outlives, as a file does, overrides it; else there is nothing to do.
    fn sync(&mut self) -> Result<(), DriveLost>
        ensures units { units self.new ≡ units self.old }
        ensures lost { lost self.new ≡ is_err result }
        ensures stays { lost self.old ≡ true → lost self.new ≡ true }
        ensures count { CountsFailure (lost self.old) (lost self.new) (failures self.old) (failures self.new) }
        ensures steady { StaysSteady (lost self.old) (lost self.new) (failures self.old) (failures self.new) }
    {
        // There is nothing to do, but Ok says that the drive isn't lost.
        if self.is_lost() {
            return Err(DriveLost);
        }
        Ok(())
    }
}

// Puts two pieces into a buffer, one after the other.
fn join(unit: &mut [u8], front: &[u8], rest: &[u8])
    requires { length unit.old ≡ length front.now + length rest.now }
    ensures { unit.new ≡ front.now ++ rest.now }
{
    let size = front.len();
    unit[..size].copy_from_slice(front);
    unit[size..].copy_from_slice(rest);
}
