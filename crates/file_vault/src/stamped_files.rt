// Files whose drives and table have a generation, which is raised as they are made durable. So an older copy of a drive's file is known.
ghost use Rattle.std.specs.Prelude.{◌≡◌, ◌⊎◌, ◌≤◌, ◌<◌, ◌+◌, ℕ, List, Bool, true, suc, OnOk, IfOk, IsOk, IfSome, MatchResult};
ghost use Rattle.vault.specs.Moments.{Elapses, Within};
ghost use Rattle.vault.specs.declared.store.Stop.{Stop};
ghost use Rattle.file_vault.specs.Folders.{Folder, HasFault, HasFile, mixed_at};
ghost use Rattle.file_vault.specs.Generations.{stamp_bytes, stamp_offset, HasGeneration, IsCurrent, HasNoGeneration, unstamped, unstamped_of};
ghost use Rattle.file_vault.specs.Generations.{is_flagged, AgreeAtStops, HaveGenerations, AreStamped};

use crate::files::{FileFault, Files};
use crate::layout::HEADER;
use crate::mem_files::one_more;
use crate::stamp::{OF_TABLE, is_current, read_generation, write_generation};
use extents::DRIVES;
use vault::TABLE;

// Whether bytes of a file are apart from its generation. A drive's first block is no caller's.
fn is_apart(file: u8, at: u64, count: usize) -> bool
    ensures { result ≡ true → HasNoGeneration file at count }
{
    if file > TABLE {
        return true;
    }
    if file == TABLE {
        return at <= OF_TABLE && count as u64 <= OF_TABLE - at;
    }
    at >= HEADER
}

// Writes a generation into a file, and makes the file durable.
fn raise<F: Files>(files: &mut F, file: u8, next: u64) -> Result<(), FileFault>
    requires { file < 17 }
    ensures stays { F.known files.old → F.known files.new }
    ensures seen { F.known files.old → unstamped (F.seen files.new) ≡ unstamped (F.seen files.old) }

    // Each stop leaves a file's generation as it was, or in part this one, and no other byte is another.
    ensures leaves { F.known files.old → (stop : Stop)
        → Within (F.may_leave files.new stop) (mixed_at file (stamp_offset file) (stamp_bytes 8 next) (F.may_leave files.old stop)) }
    ensures raised { F.known files.old → OnOk result ((stop : Stop) (g : Folder) → F.may_leave files.new stop g → HasGeneration g file next) }
    ensures durable { F.known files.old → OnOk result ((stop : Stop) → HasFile file (F.seen files.new) (F.may_leave files.new stop)) }
    ensures time { F.known files.old → (stop : Stop) → Elapses (F.moment files.old) (F.moment files.new)
        (λ t h. unstamped_of (F.left_since files.old stop t) h) (λ t h. unstamped_of (F.left_since files.new stop t) h)
        (λ h. unstamped_of (F.may_leave files.old stop) h) (λ h. unstamped_of (F.may_leave files.new stop) h) }
    ensures cause { F.known files.old → HasFault (F.faults files.old) (F.faults files.new) result }
{
    write_generation(files, file, next)?;
    files.sync(file)
}

// The table's generation, once it is durable; none where it can't be read or synced.
fn find_generation<F: Files>(files: &mut F) -> Option<u64>
    ensures stays { F.known files.old → F.known files.new }
    ensures seen { F.known files.old → F.seen files.new ≡ F.seen files.old }
    ensures found { F.known files.old → IfSome result (λ generation. HasGeneration (F.seen files.old) 16 generation) }
    ensures durable { F.known files.old
        → IfSome result (λ generation. (stop : Stop) (g : Folder) → F.may_leave files.new stop g → HasGeneration g 16 generation) }
    ensures time { F.known files.old
        → (stop : Stop) → Elapses (F.moment files.old) (F.moment files.new) (F.left_since files.old stop) (F.left_since files.new stop)
        (F.may_leave files.old stop) (F.may_leave files.new stop) }
{
    let Ok(found) = read_generation(files, TABLE) else {
        return None;
    };
    match files.sync(TABLE) {
        Ok(()) => found,
        Err(_) => None,
    }
}

// Whether a drive's file has the table's generation or the next, and is durable.
fn is_kept<F: Files>(files: &mut F, drive: u8, generation: u64) -> bool
    ensures stays { F.known files.old → F.known files.new }
    ensures seen { F.known files.old → F.seen files.new ≡ F.seen files.old }
    ensures kept { F.known files.old → result ≡ true → (stop : Stop) (g : Folder) → F.may_leave files.new stop g → IsCurrent g drive generation }
    ensures time { F.known files.old
        → (stop : Stop) → Elapses (F.moment files.old) (F.moment files.new) (F.left_since files.old stop) (F.left_since files.new stop)
        (F.may_leave files.old stop) (F.may_leave files.new stop) }
{
    let Ok(current) = is_current(files, drive, generation) else {
        return false;
    };
    match files.sync(drive) {
        Ok(()) => current,
        Err(_) => false,
    }
}

// The drives whose files have the table's generation or the next.
fn find_current<F: Files>(files: &mut F, generation: u64) -> [bool; DRIVES]
    ensures stays { F.known files.old → F.known files.new }
    ensures seen { F.known files.old → F.seen files.new ≡ F.seen files.old }
    ensures kept { F.known files.old → HaveGenerations F.may_leave files.new generation result }
    ensures time { F.known files.old
        → (stop : Stop) → Elapses (F.moment files.old) (F.moment files.new) (F.left_since files.old stop) (F.left_since files.new stop)
        (F.may_leave files.old stop) (F.may_leave files.new stop) }
{
    let mut current = [false; DRIVES];
    for drive in 0..DRIVES {
        current[drive] = is_kept(files, drive as u8, generation);
    }
    current
}

/// Files of which each drive's has a generation, and the table's. The sync of a drive's file raises its generation over the table's by
/// one, and the sync of the table raises the table's. So who syncs the drives first, and then the table, leaves at each moment drives
/// of the table's generation or the next; a drive that was left out is older, and so is a copy of a drive's file of before.
#[derive(Drop)]
pub struct StampedFiles<F: Files + Drop> {
    pub(crate) files: F,
    // The table's generation, as of its last sync.
    pub(crate) generation: u64,
    // The drives of this generation or the next.
    pub(crate) current: [bool; DRIVES],
    // The drives that are durable since, with the next generation.
    pub(crate) raised: [bool; DRIVES],
    // Calls that were refused.
    pub(crate) faults: u32,
}

impl<F: Files + Drop> StampedFiles<F> {
    ghost use Rattle.file_vault.specs.Generations.{HasGeneration, AgreeAtStops, AreCurrentAtStops};

    /// Files that a stop may have left. Drives whose files have the table's generation or the next, and can be synced, are current. The
    /// files are handed back where the table's can't be read or synced, or has no generation.
    pub fn open(files: F) -> Result<StampedFiles<F>, F>
        ensures known { F.known files → IfOk result (λ s. F.known s.files × AgreeAtStops F.may_leave s.files s.generation s.current s.raised) }
        ensures seen { F.known files → IfOk result (λ s. F.seen s.files ≡ F.seen files) }
        ensures generation { F.known files → IfOk result (λ s. HasGeneration (F.seen files) 16 s.generation) }
        ensures time { F.known files
            → MatchResult result (λ s. (stop : Stop) → Elapses (F.moment files) (F.moment s.files) (F.left_since files stop) (F.left_since s.files stop)
            (F.may_leave files stop) (F.may_leave s.files stop))
            (λ e. (stop : Stop) → Elapses (F.moment files) (F.moment e) (F.left_since files stop) (F.left_since e stop)
            (F.may_leave files stop) (F.may_leave e stop)) }
    {
        let mut files = files;
        let Some(generation) = find_generation(&mut files) else {
            return Err(files);
        };
        let current = find_current(&mut files, generation);
        Ok(StampedFiles {
            files,
            generation,
            current,
            raised: [false; DRIVES],
            faults: 0,
        })
    }

    /// The table's generation.
    pub fn generation(&self) -> u64
        ensures { result ≡ self.now.generation }
    {
        self.generation
    }

    /// Whether a drive's file has the table's generation or the next. As a law: so it is after each stop.
    pub fn is_current(&self, drive: u8) -> bool
        ensures marked { result ≡ is_flagged self.now.current drive }
        ensures lasts { F.known self.now.files → AgreeAtStops F.may_leave self.now.files self.now.generation self.now.current self.now.raised
            → AreCurrentAtStops F.may_leave self.now.files self.now.current }
    {
        match self.current.get(drive as usize) {
            Some(current) => *current,
            None => false,
        }
    }

    /// The files.
    pub fn into_files(self) -> F
        ensures { result ≡ self.files }
    {
        self.files
    }

    // Raises a drive's generation, and makes its file durable.
    fn sync_drive(&mut self, drive: u8, next: u64) -> Result<(), FileFault>
        requires { (drive < 16) × (next ≡ suc self.old.generation) }
        ensures stays { F.known self.old.files → F.known self.new.files }
        ensures seen { F.known self.old.files → unstamped (F.seen self.new.files) ≡ unstamped (F.seen self.old.files) }
        ensures agree { F.known self.old.files → AgreeAtStops F.may_leave self.old.files self.old.generation self.old.current self.old.raised
            → AgreeAtStops F.may_leave self.new.files self.new.generation self.new.current self.new.raised }
        ensures marked { OnOk result ((is_flagged self.new.current drive ≡ true) × (is_flagged self.new.raised drive ≡ true)) }
        ensures durable { F.known self.old.files → OnOk result ((stop : Stop)
            → HasFile drive (unstamped (F.seen self.old.files)) (λ h. unstamped_of (F.may_leave self.new.files stop) h)) }
        ensures time { F.known self.old.files → (stop : Stop) → Elapses (F.moment self.old.files) (F.moment self.new.files)
            (λ t h. unstamped_of (F.left_since self.old.files stop t) h) (λ t h. unstamped_of (F.left_since self.new.files stop t) h)
            (λ h. unstamped_of (F.may_leave self.old.files stop) h) (λ h. unstamped_of (F.may_leave self.new.files stop) h) }
        ensures cause { F.known self.old.files → HasFault (F.faults self.old.files) (F.faults self.new.files) result }
        ensures faults { self.new.faults ≡ self.old.faults }
    {
        raise(&mut self.files, drive, next)?;
        self.current[drive as usize] = true;
        self.raised[drive as usize] = true;
        Ok(())
    }

    // Raises the table's generation, and makes its file durable. A drive that wasn't raised before is older from now on.
    fn sync_table(&mut self, next: u64) -> Result<(), FileFault>
        requires { next ≡ suc self.old.generation }
        ensures stays { F.known self.old.files → F.known self.new.files }
        ensures seen { F.known self.old.files → unstamped (F.seen self.new.files) ≡ unstamped (F.seen self.old.files) }
        ensures agree { F.known self.old.files → AgreeAtStops F.may_leave self.old.files self.old.generation self.old.current self.old.raised
            → AgreeAtStops F.may_leave self.new.files self.new.generation self.new.current self.new.raised }
        ensures marked { OnOk result ((self.new.generation ≡ next) × (self.new.current ≡ self.old.raised)) }
        ensures raised { F.known self.old.files → OnOk result ((stop : Stop) (g : Folder) → F.may_leave self.new.files stop g → HasGeneration g 16 next) }
        ensures durable { F.known self.old.files → OnOk result ((stop : Stop)
            → HasFile 16 (unstamped (F.seen self.old.files)) (λ h. unstamped_of (F.may_leave self.new.files stop) h)) }
        ensures time { F.known self.old.files → (stop : Stop) → Elapses (F.moment self.old.files) (F.moment self.new.files)
            (λ t h. unstamped_of (F.left_since self.old.files stop t) h) (λ t h. unstamped_of (F.left_since self.new.files stop t) h)
            (λ h. unstamped_of (F.may_leave self.old.files stop) h) (λ h. unstamped_of (F.may_leave self.new.files stop) h) }
        ensures cause { F.known self.old.files → HasFault (F.faults self.old.files) (F.faults self.new.files) result }
        ensures faults { self.new.faults ≡ self.old.faults }
    {
        self.current = self.raised;
        raise(&mut self.files, TABLE, next)?;
        self.generation = next;
        self.raised = [false; DRIVES];
        Ok(())
    }
}

impl<F: Files + Drop> Files for StampedFiles<F> {
    ghost known = { λ s. F.Files.known s.files × AgreeAtStops F.Files.may_leave s.files s.generation s.current s.raised };

    ghost seen = { λ s. unstamped (F.Files.seen s.files) };

    ghost may_leave = { λ s stop h. unstamped_of (F.Files.may_leave s.files stop) h };

    ghost moment = { λ s. F.Files.moment s.files };

    ghost left_since = { λ s stop t h. unstamped_of (F.Files.left_since s.files stop t) h };

    ghost faults = { λ s. F.Files.faults s.files + s.faults };

    ghost counts_now = { λ s known stop t h le now. (now.0, F.Files.counts_now s.files known.0 stop t now.0 le now.1, now.2) };

    ghost only_now = { λ s known stop h left. (left.0, F.Files.only_now s.files known.0 stop left.0 left.1, left.2) };

    fn write_at(&mut self, file: u8, at: u64, bytes: &[u8]) -> Result<(), FileFault> {
        if is_apart(file, at, bytes.len()) {
            return self.files.write_at(file, at, bytes);
        }
        self.faults = one_more(self.faults);
        Err(FileFault)
    }

    fn cut(&mut self, file: u8, at: u64) -> Result<(), FileFault> {
        if file > TABLE {
            return self.files.cut(file, at);
        }
        self.faults = one_more(self.faults);
        Err(FileFault)
    }

    /// Makes a file durable. After Ok a drive has the next generation, and after that of the table the drives have it that were raised.
    fn sync(&mut self, file: u8) -> Result<(), FileFault>
        ensures stays { AreStamped F.Files.known F.Files.may_leave self.old.files self.old.generation self.old.current self.old.raised
            → AreStamped F.Files.known F.Files.may_leave self.new.files self.new.generation self.new.current self.new.raised }
        ensures seen { AreStamped F.Files.known F.Files.may_leave self.old.files self.old.generation self.old.current self.old.raised
            → unstamped (F.Files.seen self.new.files) ≡ unstamped (F.Files.seen self.old.files) }
        ensures durable { AreStamped F.Files.known F.Files.may_leave self.old.files self.old.generation self.old.current self.old.raised
            → OnOk result ((stop : Stop)
            → HasFile file (unstamped (F.Files.seen self.old.files)) (λ h. unstamped_of (F.Files.may_leave self.new.files stop) h)) }
        ensures time { AreStamped F.Files.known F.Files.may_leave self.old.files self.old.generation self.old.current self.old.raised
            → (stop : Stop) → Elapses (F.Files.moment self.old.files) (F.Files.moment self.new.files)
            (λ t h. unstamped_of (F.Files.left_since self.old.files stop t) h) (λ t h. unstamped_of (F.Files.left_since self.new.files stop t) h)
            (λ h. unstamped_of (F.Files.may_leave self.old.files stop) h) (λ h. unstamped_of (F.Files.may_leave self.new.files stop) h) }
        ensures cause { AreStamped F.Files.known F.Files.may_leave self.old.files self.old.generation self.old.current self.old.raised
            → HasFault (F.Files.faults self.old.files + self.old.faults) (F.Files.faults self.new.files + self.new.faults) result }

        // A drive's file is raised, and so is the table's.
        ensures drive { file < 16 → OnOk result ((is_flagged self.new.current file ≡ true) × (is_flagged self.new.raised file ≡ true)) }
        ensures table { file ≡ 16 → OnOk result ((self.new.generation ≡ suc self.old.generation) × (self.new.current ≡ self.old.raised)) }
    {
        if file > TABLE {
            return self.files.sync(file);
        }
        let Some(next) = self.generation.checked_add(1) else {
            self.faults = one_more(self.faults);
            return Err(FileFault);
        };
        if file == TABLE {
            return self.sync_table(next);
        }
        self.sync_drive(file, next)
    }

    fn read_at(&mut self, file: u8, at: u64, out: &mut [u8]) -> Result<(), FileFault> {
        if is_apart(file, at, out.len()) {
            return self.files.read_at(file, at, out);
        }
        self.faults = one_more(self.faults);
        Err(FileFault)
    }

    fn length(&mut self, file: u8) -> Result<u64, FileFault> {
        self.files.length(file)
    }
}
