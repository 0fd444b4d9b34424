// The law of what a line means, as the contract of a function that does nothing.
ghost use Rattle.std.specs.Prelude.{◌≡◌, ℕ, List};
ghost use Rattle.script_syntax.specs.Order.{Order};
ghost use Rattle.script_syntax.specs.Spelling.{SpellsCommand};
ghost use Rattle.script_exec.specs.State.{State};
ghost use Rattle.script_exec.specs.Meaning.{Meaning, Means};

/// A line spells one command at most, and for a line number and a state it means one thing: nothing, that command, or one
/// fault.
pub fn line_laws()
    ensures spelled { (line : List ℕ) (one other : Order) → SpellsCommand one line → SpellsCommand other line → one ≡ other }
    ensures meant { (n : ℕ) (state : State) (line : List ℕ) (one other : Meaning) → Means n state line one → Means n state line other → one ≡ other }
{
    // The laws are the contract: there is nothing to do.
}
