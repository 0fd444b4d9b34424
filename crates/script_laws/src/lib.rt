//! The law of scripts: one text of answers, and one end.
#![tactic(auto)]

ghost use Rattle.std.specs.Prelude.{◌≡◌, ℕ, List};
ghost use Rattle.script_io.specs.Says.{Says};
ghost use Rattle.script_io.specs.declared.end.End.{End};

/// A script says one text, and ends in one way.
pub fn said_laws()
    ensures once { (script one other : List ℕ) (first last : End) → Says script one first → Says script other last → (one ≡ other) × (first ≡ last) }
{
    // The law is the contract: there is nothing to do.
}
