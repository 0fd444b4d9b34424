// A vault over files is made, or opened after a stop.
ghost use Rattle.std.specs.Prelude.{◌≡◌, ◌≤◌, ◌^◌, [], ℕ, Bool, List, length, OnOk, IfOk, MatchResult};
ghost use Rattle.vault.specs.Moments.{AreLogged, Elapses, HasJournal, HasUnitsAtStop};
ghost use Rattle.vault.specs.declared.store.Stop.{Stop};
ghost use Rattle.extent_groups.specs.declared.place.Place.{Place};
ghost use Rattle.file_vault.specs.Layouts.{Plan, cells_of, IsBlank, IsAttested};
ghost use Rattle.file_vault.specs.Journals.{IsSound, journal_of, image_of};
ghost use Rattle.file_vault.specs.Vaults.{HasBatches, plan_of, left_of};
ghost use Rattle.file_vault.specs.Recoveries.{leaves_read};

use crate::blank::write_blanks;
use crate::chain::{Chain, find_chain};
use crate::files::Files;
use crate::journal::end_at;
use crate::layout::{HEADER, JOURNAL, Layout};
use crate::over_files::{FileVault, sync_drives};
use extents::DRIVES;
use std::alloc::Global;
use vault::{TABLE, VaultError};

// Takes the batches that a stop left, once they are durable, and ends the journal after them.
fn adopt<F: Files>(alloc: Global, files: &mut F) -> Result<Chain, VaultError>
    ensures stays { F.known files.old → F.known files.new }
    ensures known { F.known files.old
        → IfOk result (λ chain. HasBatches F.seen F.may_leave files.new chain.places.items chain.end (length chain.places.items)) }
    ensures seen { F.known files.old → (plan : Plan)
        → IfOk result (λ chain. image_of plan (F.seen files.new) ≡ image_of plan (F.seen files.old)) }
    ensures time { F.known files.old
        → (stop : Stop) → Elapses (F.moment files.old) (F.moment files.new) (F.left_since files.old stop) (F.left_since files.new stop)
        (leaves_read (F.may_leave files.old stop)) (F.may_leave files.new stop) }
    ensures later { F.known files.old → F.faults files.old ≤ F.faults files.new }
{
    let chain = find_chain(alloc, files)?;
    files.sync(JOURNAL)?;
    end_at(files, chain.end)?;
    Ok(chain)
}

// Makes all units blank and the journal empty, durably.
fn begin<F: Files>(alloc: Global, files: &mut F, layout: &Layout) -> Result<(), VaultError>
    ensures stays { F.known files.old → F.known files.new }
    ensures kept { F.known files.old → OnOk result (IsSound F.seen F.may_leave files.new [] [] 4096 0) }
    ensures blank { F.known files.old → OnOk result ((x : Place) → IsBlank (plan_of layout.now) (F.seen files.new) x) }
    ensures units { F.known files.old → OnOk result ((stop : Stop)
        → HasUnitsAtStop [] (cells_of (plan_of layout.now) (F.seen files.new)) (left_of (plan_of layout.now) (F.may_leave files.new stop))) }
{
    write_blanks(alloc, files, layout)?;
    end_at(files, HEADER)?;
    files.sync(TABLE)?;
    sync_drives(files, layout, &[false; DRIVES])
}

impl<F: Files + Drop> FileVault<F> {
    ghost use Rattle.file_vault.specs.Vaults.{IsKnown, plan_of, left_of};

    /// Files whose units are made zeros, each with its digest, and whose journal is emptied. An error hands the files back.
    pub fn create(alloc: Global, files: F, layout: Layout) -> Result<FileVault<F>, (VaultError, F)>
        ensures known { F.known files → IfOk result (λ v. IsKnown F.known F.seen F.may_leave F.faults v.files v.places.items v.end v.durable v.broken) }
        ensures layout { IfOk result (λ v. v.layout ≡ layout) }

        // Calls find units of zeros, all of them attested, and no batches.
        ensures blank { F.known files → IfOk result (λ v. (x : Place) → IsBlank (plan_of layout) (F.seen v.files) x) }
        ensures attested { F.known files → IfOk result (λ v. (x : Place) → IsAttested (plan_of layout) (F.seen v.files) x) }
        ensures empty { F.known files → IfOk result (λ v. journal_of (F.seen v.files) ≡ []) }

        // Each stop leaves these units and no batches: so all batches of the journal, which has none.
        ensures durable { F.known files → IfOk result (λ v. (stop : Stop) → HasJournal [] (left_of (plan_of layout) (F.may_leave v.files stop))) }
        ensures units { F.known files → IfOk result (λ v. (stop : Stop)
            → HasUnitsAtStop [] (cells_of (plan_of layout) (F.seen v.files)) (left_of (plan_of layout) (F.may_leave v.files stop))) }
        ensures logged { F.known files → IfOk result (λ v. (lost : List Bool) → AreLogged (λ w. image_of (plan_of w.layout) (F.seen w.files))
            (λ w stop i. left_of (plan_of w.layout) (F.may_leave w.files stop) i) lost v) }
    {
        let mut files = files;
        match begin(alloc, &mut files, &layout) {
            Ok(()) => Ok(FileVault {
                files,
                layout,
                places: Vec::new(alloc),
                end: HEADER,
                durable: 0,
                broken: false,
                bytes: Vec::new(alloc),
                unit: Vec::new(alloc),
            }),
            Err(e) => Err((e, files)),
        }
    }

    /// Files that a stop may have left. All batches of whole records are taken, and then they are durable. An error hands the files
    /// back.
    pub fn open(alloc: Global, files: F, layout: Layout) -> Result<FileVault<F>, (VaultError, F)>
        ensures known { F.known files → IfOk result (λ v. IsKnown F.known F.seen F.may_leave F.faults v.files v.places.items v.end v.durable v.broken) }
        ensures layout { IfOk result (λ v. v.layout ≡ layout) }

        // Calls find what the files stood for, and each stop leaves all these batches.
        ensures seen { F.known files → IfOk result (λ v. image_of (plan_of layout) (F.seen v.files) ≡ image_of (plan_of layout) (F.seen files)) }
        ensures durable { F.known files
            → IfOk result (λ v. (stop : Stop) → HasJournal (journal_of (F.seen v.files)) (left_of (plan_of layout) (F.may_leave v.files stop))) }

        // A stop at any moment of it leaves what it left before.
        ensures time { F.known files
            → MatchResult result (λ v. (stop : Stop) → Elapses (F.moment files) (F.moment v.files)
            (λ t i. left_of (plan_of layout) (F.left_since files stop t) i) (λ t i. left_of (plan_of layout) (F.left_since v.files stop t) i)
            (λ i. left_of (plan_of layout) (F.may_leave files stop) i) (λ i. left_of (plan_of layout) (F.may_leave v.files stop) i))
            (λ e. (stop : Stop) → Elapses (F.moment files) (F.moment e.1)
            (λ t i. left_of (plan_of layout) (F.left_since files stop t) i) (λ t i. left_of (plan_of layout) (F.left_since e.1 stop t) i)
            (λ i. left_of (plan_of layout) (F.may_leave files stop) i) (λ i. left_of (plan_of layout) (F.may_leave e.1 stop) i)) }
    {
        let mut files = files;
        match adopt(alloc, &mut files) {
            Ok(chain) => {
                let durable = chain.places.len();
                Ok(FileVault {
                    files,
                    layout,
                    places: chain.places,
                    end: chain.end,
                    durable,
                    broken: false,
                    bytes: Vec::new(alloc),
                    unit: Vec::new(alloc),
                })
            }
            Err(e) => Err((e, files)),
        }
    }

    /// The files.
    pub fn into_files(self) -> F
        ensures { result ≡ self.files }
    {
        self.files
    }
}
