// A source of units by slot number.
ghost use Rattle.std.specs.Prelude.{◌≡◌, ℕ, ◌+◌, ◌*◌, ◌<◌, ◌≤◌, length, Some, None, OnOk, IfErr};
ghost use Rattle.flat_machine.specs.declared.refusal.Refusal.TheVariants.{Gone};
ghost use Rattle.extents.specs.declared.shape.TheConstants.{HEADER_BYTES};
ghost use Rattle.extent_groups.specs.Groups.{Groups, group_at, slots_in};
ghost use Rattle.extent_groups.specs.Cells.{Cells, cells};
ghost use Rattle.extent_groups.specs.Stores.{unit_bytes, unit_of, header_of, AreHeaders, AreSound, KeepsUnits};
ghost use Rattle.unit_store.specs.Fit.{IsFit};
ghost use Rattle.unit_store.specs.Losses.{LosesOnly};
ghost use Rattle.unit_store.specs.Laws.{loses_none, loses_more};
ghost use Rattle.unit_store.specs.Slots.{IsSlot};

use crate::Parts;
use extent_groups::GroupTable;
use extents::{Drive, HEADER_BYTES};
use flat_machine::Refusal;

/// A source of the effective units of the slots of made groups: an array, a world, or parts.
pub trait Units {
    /// The groups of the slots.
    ghost groups: { Self → Groups };

    /// What the drives hold.
    ghost cells: { Self → Cells };

    /// When a header may be read.
    ghost fits: { Self → Type 0 };

    /// How a read may change the source: only in which drives are lost.
    ghost leaves: { Self → Self → Type 0 };

    /// How long the scratch buffer of `headers` is at least, in bytes: two units, or 0 where the source has buffers of its own.
    ghost scratch_length: { Groups → ℕ };

    /// The groups of the slots.
    fn groups(&self) -> &GroupTable
        ensures { result.now ≡ groups self.now };

    /// How long the scratch buffer of `headers` is at least, in bytes.
    fn scratch_length(&self) -> usize
        ensures { result ≡ scratch_length (groups self.now) };

    /// Reads a slot's effective unit, with a buffer of two units' length. Refused with `Gone` where too many drives of its group
    /// are lost; only which drives are lost may change.
    fn unit(&mut self, slot: u16, unit: &mut [u8], scratch: &mut [u8]) -> Result<(), Refusal>
        requires fits { fits self.old }
        requires slot { IsSlot (groups self.old) slot }
        requires unit { length unit.old ≡ unit_bytes (groups self.old) }
        requires scratch { length scratch.old ≡ 2 * unit_bytes (groups self.old) }
        ensures ok { OnOk result (unit_of (groups self.new) (cells self.new) slot ≡ Some unit.new) }
        ensures gone { IfErr result (λ e. (e ≡ Gone slot) × (unit_of (groups self.new) (cells self.new) slot ≡ None)) }
        ensures units { AreSound (groups self.old) (cells self.old) → KeepsUnits (groups self.old) (cells self.old) (cells self.new) }
        ensures sound { AreSound (groups self.old) (cells self.old) → AreSound (groups self.new) (cells self.new) }
        ensures groups { groups self.new ≡ groups self.old }
        ensures fits { fits self.new }
        ensures leaves { leaves self.old self.new };

    /// Reads only the header of a slot's effective unit, with a buffer of two units' length. Refused as `unit` is.
    fn header(&mut self, slot: u16, header: &mut [u8], scratch: &mut [u8]) -> Result<(), Refusal>
        requires fits { fits self.old }
        requires slot { IsSlot (groups self.old) slot }
        requires header { length header.old ≡ HEADER_BYTES }
        requires scratch { length scratch.old ≡ 2 * unit_bytes (groups self.old) }
        ensures ok { OnOk result (header_of (groups self.new) (cells self.new) slot ≡ Some header.new) }
        ensures gone { IfErr result (λ e. (e ≡ Gone slot) × (unit_of (groups self.new) (cells self.new) slot ≡ None)) }
        ensures units { AreSound (groups self.old) (cells self.old) → KeepsUnits (groups self.old) (cells self.old) (cells self.new) }
        ensures sound { AreSound (groups self.old) (cells self.old) → AreSound (groups self.new) (cells self.new) }
        ensures groups { groups self.new ≡ groups self.old }
        ensures fits { fits self.new }
        ensures leaves { leaves self.old self.new };

    /// Reads the headers of a group's slots, that of index i into `headers[i]`, with a buffer of at least `scratch_length`
    /// bytes. Takes a group's number, 0 to 511, and one header buffer for each of its slots, none if the number is free.
    /// Returns the index of the first slot whose unit is unavailable, or the count of slots. The headers below that index are
    /// those of before the call, if all slots were sound; nothing is said of the others.
    fn headers(&mut self, group: u16, headers: &mut [[u8; HEADER_BYTES]], scratch: &mut [u8]) -> u16
        requires fits { fits self.old }
        requires group { group < 512 }
        requires many { length headers.old ≡ slots_in (groups self.old).segments (group_at (groups self.old) group) }
        requires scratch { scratch_length (groups self.old) ≤ length scratch.old }
        ensures read { AreSound (groups self.old) (cells self.old) → AreHeaders (groups self.old) (cells self.old) group result headers.new }
        ensures gone { result < length headers.old → unit_of (groups self.new) (cells self.new) (128 * group + result) ≡ None }
        ensures within { result ≤ length headers.old }
        ensures units { AreSound (groups self.old) (cells self.old) → KeepsUnits (groups self.old) (cells self.old) (cells self.new) }
        ensures sound { AreSound (groups self.old) (cells self.old) → AreSound (groups self.new) (cells self.new) }
        ensures groups { groups self.new ≡ groups self.old }
        ensures fits { fits self.new }
        ensures leaves { leaves self.old self.new };

    /// `leaves` holds where nothing is read.
    ghost none: { (x : Self) → leaves x x };

    /// `leaves` holds of two reads, one after the other, if it holds of each.
    ghost more: { (x y z : Self) → leaves x y → leaves y z → leaves x z };
}

impl<D: Drive> Units for Parts<D> {
    ghost groups = { λ p. p.groups };

    ghost cells = { λ p. cells D.units D.lost p.drives.items };

    ghost fits = { λ p. IsFit D.units p };

    ghost leaves = { λ p q. LosesOnly D.units D.lost D.failures p q };

    ghost scratch_length = { λ groups. 2 * unit_bytes groups };

    fn groups(&self) -> &GroupTable {
        &self.groups
    }

    fn scratch_length(&self) -> usize {
        2 * self.groups.shape().unit_bytes()
    }

    fn unit(&mut self, slot: u16, unit: &mut [u8], scratch: &mut [u8]) -> Result<(), Refusal> {
        self.read(slot, unit, scratch)
    }

    fn header(&mut self, slot: u16, header: &mut [u8], scratch: &mut [u8]) -> Result<(), Refusal> {
        self.read_header(slot, header, scratch)
    }

    fn headers(
        &mut self,
        group: u16,
        headers: &mut [[u8; HEADER_BYTES]],
        scratch: &mut [u8],
    ) -> u16 {
        // Cut, because the caller's buffer may be longer than the two units that a read takes.
        let length = self.scratch_length();
        self.read_headers(group, headers, &mut scratch[..length])
    }

    ghost none = { λ p. loses_none D.units D.lost D.failures p };

    ghost more = { λ p q r one two. loses_more D.units D.lost D.failures p q r one two };
}
