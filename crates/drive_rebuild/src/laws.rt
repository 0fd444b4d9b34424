// When a drive can be replaced.
ghost use Rattle.std.specs.Prelude.{◌≡◌, ◌<◌, ◌≤◌, [], ℕ, List, Bool, false, length, slice_index_or, true};
ghost use Rattle.extent_groups.specs.Cells.{Cells};
ghost use Rattle.extent_groups.specs.Groups.{Groups};
ghost use Rattle.unit_store.specs.Views.{lost_of};
ghost use Rattle.tiered_array.specs.Views.{TiersView};
ghost use Rattle.vault.specs.Images.{Image, recovered};
ghost use Rattle.vault.specs.Moments.{AreLogged};
ghost use Rattle.byte_store.specs.Lasting.{Shown};
ghost use Rattle.array_store.specs.Blocks.{Holds};
ghost use Rattle.group_form.specs.Form.{HasGroups};
ghost use Rattle.journaled_store.specs.Left.{HasBoth, HasKeys, IsLeftOf, MissesOne};
ghost use Rattle.journaled_store.specs.Outlasting.{parts_of};
ghost use Rattle.journaled_store.specs.Steps.{IsEmptied};
ghost use Rattle.array_recovery.specs.Found.{IsTable, is_marked};
ghost use Rattle.array_recovery.specs.Reopened.{EndsAt};
ghost use Rattle.rotten_units.specs.Written.{DiffersAt};
ghost use Rattle.unit_repair.specs.Mended.{AreVerified, IsMended, MayBeMended};
ghost use Rattle.drive_rebuild.specs.Rebuilt.{CanBeRebuilt};

use vault::Vault;

/// After `JournaledStore::settle` a drive of the store can be replaced, if no two are lost: the premises are its clauses `settled` and
/// `lost`. The vault's table has 16 marks and, before that call, the array's groups; it has no unit past the ends of the drives.
pub fn settled_law<V: Vault>()
    ensures bytes { (vault : V) (tiers : TiersView) (bytes : List ℕ) (lost : List Bool) (units : ℕ) (before : Cells) → Holds tiers bytes → MissesOne (parts_of tiers).drives
        → HasGroups (parts_of tiers).groups (length (parts_of tiers).drives) before → IsEmptied V.seen V.may_leave lost before vault (parts_of tiers).drives
        → ((d : ℕ) → d < 16 → slice_index_or lost d true ≡ lost_of (parts_of tiers) d) → length lost ≡ 16
        → length (parts_of tiers).drives ≤ 16 → ((marks : List ℕ) → IsTable marks (recovered (V.seen vault)) → length marks ≡ 16)
        → EndsAt [] (length (parts_of tiers).drives) units (recovered (V.seen vault))
        → CanBeRebuilt Holds V.seen V.may_leave bytes (parts_of tiers).groups (length (parts_of tiers).drives) units vault }
    ensures map { (vault : V) (tiers : TiersView) (keys : List ℕ) (lost : List Bool) (units : ℕ) (before : Cells) → HasKeys tiers keys → MissesOne (parts_of tiers).drives
        → HasGroups (parts_of tiers).groups (length (parts_of tiers).drives) before → IsEmptied V.seen V.may_leave lost before vault (parts_of tiers).drives
        → ((d : ℕ) → d < 16 → slice_index_or lost d true ≡ lost_of (parts_of tiers) d) → length lost ≡ 16
        → length (parts_of tiers).drives ≤ 16 → ((marks : List ℕ) → IsTable marks (recovered (V.seen vault)) → length marks ≡ 16)
        → EndsAt [] (length (parts_of tiers).drives) units (recovered (V.seen vault))
        → CanBeRebuilt HasKeys V.seen V.may_leave keys (parts_of tiers).groups (length (parts_of tiers).drives) units vault }
    ensures both { (vault : V) (tiers : TiersView) (what : Shown) (lost : List Bool) (units : ℕ) (before : Cells) → HasBoth tiers what → MissesOne (parts_of tiers).drives
        → HasGroups (parts_of tiers).groups (length (parts_of tiers).drives) before → IsEmptied V.seen V.may_leave lost before vault (parts_of tiers).drives
        → ((d : ℕ) → d < 16 → slice_index_or lost d true ≡ lost_of (parts_of tiers) d) → length lost ≡ 16
        → length (parts_of tiers).drives ≤ 16 → ((marks : List ℕ) → IsTable marks (recovered (V.seen vault)) → length marks ≡ 16)
        → EndsAt [] (length (parts_of tiers).drives) units (recovered (V.seen vault))
        → CanBeRebuilt HasBoth V.seen V.may_leave what (parts_of tiers).groups (length (parts_of tiers).drives) units vault }
{
    // The law is the contract: there is nothing to do.
}

/// After `unit_repair::mend` a vault has the array of which the units were last written, if none of its drives is lost: with the same
/// bytes and the same block map. The premises are its clauses `mended` and `others`. What lies past the ends of the drives and in the table
/// isn't mended, and stays.
pub fn mended_law<V: Vault>()
    ensures bytes { (old vault : V) (bytes : List ℕ) (groups : Groups) (drives units : ℕ) (written : Cells)
        (left : IsLeftOf Holds bytes groups drives [] written)
        → ((d : ℕ) → d < drives → is_marked left.kept.marks d ≡ false) → AreVerified groups drives units written
        → IsMended V.seen V.may_leave V.attested groups drives units written vault
        → DiffersAt (MayBeMended (V.attested old) drives units) (V.seen old) (V.seen vault)
        → ((at : ℕ) → Image.cells (V.seen old) 16 at ≡ written 16 at) → EndsAt [] drives units (Image.cells (V.seen old))
        → IsLeftOf Holds bytes groups drives [] (recovered (V.seen vault)) }
    ensures map { (old vault : V) (keys : List ℕ) (groups : Groups) (drives units : ℕ) (written : Cells)
        (left : IsLeftOf HasKeys keys groups drives [] written)
        → ((d : ℕ) → d < drives → is_marked left.kept.marks d ≡ false) → AreVerified groups drives units written
        → IsMended V.seen V.may_leave V.attested groups drives units written vault
        → DiffersAt (MayBeMended (V.attested old) drives units) (V.seen old) (V.seen vault)
        → ((at : ℕ) → Image.cells (V.seen old) 16 at ≡ written 16 at) → EndsAt [] drives units (Image.cells (V.seen old))
        → IsLeftOf HasKeys keys groups drives [] (recovered (V.seen vault)) }
    ensures both { (old vault : V) (what : Shown) (groups : Groups) (drives units : ℕ) (written : Cells)
        (left : IsLeftOf HasBoth what groups drives [] written)
        → ((d : ℕ) → d < drives → is_marked left.kept.marks d ≡ false) → AreVerified groups drives units written
        → IsMended V.seen V.may_leave V.attested groups drives units written vault
        → DiffersAt (MayBeMended (V.attested old) drives units) (V.seen old) (V.seen vault)
        → ((at : ℕ) → Image.cells (V.seen old) 16 at ≡ written 16 at) → EndsAt [] drives units (Image.cells (V.seen old))
        → IsLeftOf HasBoth what groups drives [] (recovered (V.seen vault)) }

    // And each stop leaves that.
    ensures logged { (vault : V) (groups : Groups) (drives units : ℕ) (written : Cells) (lost : List Bool)
        → IsMended V.seen V.may_leave V.attested groups drives units written vault → AreLogged V.seen V.may_leave lost vault }
{
    // The law is the contract: there is nothing to do.
}
