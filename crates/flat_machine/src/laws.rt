// Laws of the flat machine, each the contract of a function that does nothing.
ghost use Rattle.std.specs.Prelude.{◌≡◌, ℕ, ◌≤◌, Bool, List, Option};
ghost use Rattle.extents.specs.Failures.{Failures};
ghost use Rattle.map_join.specs.declared.records.Record.{Record};
ghost use Rattle.extent_groups.specs.Groups.{Groups};
ghost use Rattle.map_join.specs.Maps.{IsSame, IsMapOf, IsListOf};
ghost use Rattle.flat_machine.specs.Groups.{AreSizes, IsEmpty, GroupsStand};
ghost use Rattle.flat_machine.specs.Flat.{Flat, Stored, new_flat, last_write};
ghost use Rattle.flat_machine.specs.Steps.{FlatStep, FlatAnswer};
ghost use Rattle.flat_machine.specs.Cases.{Case};
ghost use Rattle.flat_machine.specs.History.{IsHistory, AreHeld, IsValidStep};
ghost use Rattle.flat_machine.specs.Restarted.{ReportMap, restarted};

/// A new array's state has all that is true of every state, and no slot of it has two holders. Each case of each step keeps
/// both.
pub fn history_laws()
    ensures new { (groups : Groups) (drives : ℕ) (lost : ℕ → Bool) (failures : ℕ → Failures) → AreSizes groups → IsEmpty groups → 3 ≤ drives → drives ≤ 16
        → IsHistory (new_flat groups drives lost failures) (λ _. 0) }
    ensures kept { (F G : Flat) (keys map : ℕ → ℕ) (step : FlatStep) (answer : FlatAnswer)
        → IsHistory F keys → IsValidStep F.groups step → Case F step answer G → IsMapOf G.emitted map → IsHistory G map }
    ensures none { (groups : Groups) (drives : ℕ) (lost : ℕ → Bool) (failures : ℕ → Failures) → AreHeld (new_flat groups drives lost failures) }
    ensures held { (F G : Flat) (keys : ℕ → ℕ) (step : FlatStep) (answer : FlatAnswer)
        → IsHistory F keys → AreHeld F → IsValidStep F.groups step → Case F step answer G → AreHeld G }
{
    // The laws are the contract: there is nothing to do.
}

/// The units of every state have its map, and units have only one map. A restart with the units' map gives a state with all that
/// is true of every state, and in which no slot has two holders. A restart with a state's own map keeps each block's last write.
pub fn restart_laws()
    ensures reports { (F : Flat) (keys : ℕ → ℕ) → IsHistory F keys → ReportMap F.groups F.units keys }
    ensures one { (groups : Groups) (units : ℕ → Option Stored) (M N : ℕ → ℕ) → ReportMap groups units M → ReportMap groups units N → IsSame M N }
    ensures history { (F : Flat) (keys : ℕ → ℕ) (records : List Record) → AreSizes F.groups → 3 ≤ F.drives → F.drives ≤ 16 → GroupsStand F.groups F.drives
        → ReportMap F.groups F.units keys → IsListOf keys records → IsHistory (restarted F keys records) keys }
    ensures held { (F : Flat) (keys : ℕ → ℕ) (records : List Record) → ReportMap F.groups F.units keys → AreHeld (restarted F keys records) }
    ensures writes { (F : Flat) (keys : ℕ → ℕ) (records : List Record) → IsHistory F keys → IsListOf keys records
        → (b : ℕ) → last_write (restarted F keys records).writes b ≡ last_write F.writes b }
{
    // The laws are the contract: there is nothing to do.
}
