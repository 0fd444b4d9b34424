// Files that outlive the process, by number, with one clock for all of them.
ghost use Rattle.std.specs.Prelude.{◌≡◌, ◌≤◌, ℕ, OnOk, IfOk};
ghost use Rattle.vault.specs.Moments.{Elapses, Within};
ghost use Rattle.vault.specs.declared.store.Stop.{Stop};
ghost use Rattle.vault.specs.declared.store.Stop.TheVariants.{Killed};
ghost use Rattle.file_vault.specs.Folders.{Folder, Reads, Wrote, Mixed, WasCut, CutShort, wrote_at, mixed_at, cut_at, HasFile, HasFault};

/// A call on a file failed.
#[derive(Clone, Copy, Debug, PartialEq, Eq)]
pub struct FileFault;

/// Files by number. Past a file's end its bytes are zeros, and a write past the end makes the file longer.
pub trait Files {
    /// Whether what the files hold is known. Of real files it isn't: no contract says what they hold, and the clauses say nothing.
    ghost known: { Self → Type 0 };

    /// The bytes that its calls find.
    ghost seen: { Self → Folder };

    /// What a stop of a kind at this moment may leave.
    ghost may_leave: { Self → Stop → Folder → Type 0 };

    /// The moment, as a number that doesn't fall.
    ghost moment: { Self → ℕ };

    /// What a stop of a kind at some moment from that one on might have left, during a call or between two.
    ghost left_since: { Self → Stop → ℕ → Folder → Type 0 };

    /// How often a call failed.
    ghost faults: { Self → ℕ };

    /// Writes bytes at an offset, by one write. Until a sync of the file, a loss of power may leave any of these bytes out.
    fn write_at(&mut self, file: u8, at: u64, bytes: &[u8]) -> Result<(), FileFault>
        ensures stays { known self.old → known self.new }
        ensures wrote { known self.old → OnOk result (Wrote file at bytes.now (seen self.old) (seen self.new)) }
        ensures mixed { known self.old → Mixed file at bytes.now (seen self.old) (seen self.new) }
        ensures killed { known self.old → OnOk result (Within (may_leave self.new Killed) (wrote_at file at bytes.now (may_leave self.old Killed))) }
        ensures time { known self.old → (stop : Stop) → Elapses (moment self.old) (moment self.new) (left_since self.old stop) (left_since self.new stop)
            (mixed_at file at bytes.now (may_leave self.old stop)) (may_leave self.new stop) }
        ensures cause { known self.old → HasFault (faults self.old) (faults self.new) result };

    /// Cuts a file at an offset: from there on it has zeros. Until a sync of the file, a stop may leave any of these bytes as it was.
    fn cut(&mut self, file: u8, at: u64) -> Result<(), FileFault>
        ensures stays { known self.old → known self.new }
        ensures cut { known self.old → OnOk result (WasCut file at (seen self.old) (seen self.new)) }
        ensures short { known self.old → CutShort file at (seen self.old) (seen self.new) }
        ensures time { known self.old → (stop : Stop) → Elapses (moment self.old) (moment self.new) (left_since self.old stop) (left_since self.new stop)
            (cut_at file at (may_leave self.old stop)) (may_leave self.new stop) }
        ensures cause { known self.old → HasFault (faults self.old) (faults self.new) result };

    /// Makes all that was written to a file, and where it was cut, durable.
    fn sync(&mut self, file: u8) -> Result<(), FileFault>
        ensures stays { known self.old → known self.new }
        ensures seen { known self.old → seen self.new ≡ seen self.old }
        ensures durable { known self.old → OnOk result ((stop : Stop) → HasFile file (seen self.old) (may_leave self.new stop)) }
        ensures time { known self.old → (stop : Stop) → Elapses (moment self.old) (moment self.new) (left_since self.old stop) (left_since self.new stop)
            (may_leave self.old stop) (may_leave self.new stop) }
        ensures cause { known self.old → HasFault (faults self.old) (faults self.new) result };

    /// Reads bytes from an offset on; zeros past the end of the file.
    fn read_at(&mut self, file: u8, at: u64, out: &mut [u8]) -> Result<(), FileFault>
        ensures stays { known self.old → known self.new }
        ensures bytes { known self.old → OnOk result (Reads (seen self.old file) at out.new) }
        ensures seen { known self.old → seen self.new ≡ seen self.old }
        ensures time { known self.old → (stop : Stop) → Elapses (moment self.old) (moment self.new) (left_since self.old stop) (left_since self.new stop)
            (may_leave self.old stop) (may_leave self.new stop) }
        ensures cause { known self.old → HasFault (faults self.old) (faults self.new) result };

    /// Bytes of a file, past which it has zeros.
    fn length(&mut self, file: u8) -> Result<u64, FileFault>
        ensures stays { known self.old → known self.new }
        ensures zeros { known self.old → IfOk result (λ length. (k : ℕ) → length ≤ k → seen self.old file k ≡ 0) }
        ensures seen { known self.old → seen self.new ≡ seen self.old }
        ensures time { known self.old → (stop : Stop) → Elapses (moment self.old) (moment self.new) (left_since self.old stop) (left_since self.new stop)
            (may_leave self.old stop) (may_leave self.new stop) }
        ensures cause { known self.old → HasFault (faults self.old) (faults self.new) result };

    /// This moment is one of those since an earlier one.
    ghost counts_now: { (files : Self) → known files → (stop : Stop) (t : ℕ) (g : Folder)
        → t ≤ moment files → may_leave files stop g → left_since files stop t g };

    /// Since this moment there is no other.
    ghost only_now: { (files : Self) → known files → (stop : Stop) (g : Folder) → left_since files stop (moment files) g → may_leave files stop g };
}
