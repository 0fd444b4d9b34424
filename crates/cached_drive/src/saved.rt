// What a drive's history says: its units at each save. It exists in proofs alone.
use extents::MemDrive;
use history::Says;
use std::marker::Model;

/// The units of a drive, as they were saved.
pub struct Saved {}

impl Model for Saved {
    ghost use Rattle.std.specs.Prelude.{ℕ, List, []};

    ghost Value = { List (List ℕ) };

    ghost view = { λ _. [] };
}

/// The units of a drive are saved.
pub struct Saves;

impl Says<MemDrive, Saved> for Saves {
    ghost what = { λ d. d.units };
}
