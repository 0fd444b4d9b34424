// Laws of histories, each the contract of a function that does nothing.
ghost use Rattle.std.specs.Prelude.{List};
ghost use Rattle.map_join.specs.declared.records.Record.{Record};
ghost use Rattle.flat_machine.specs.declared.refusal.Refusal.{Refusal};
ghost use Rattle.flat_machine.specs.Flat.{Flat, Content};
ghost use Rattle.slot_tables.specs.Views.{ArrayView};
ghost use Rattle.history.specs.declared.view.Entry.{Entry};
ghost use Rattle.array_book.specs.Acts.{Act, Learns, Fails, Leads, IsEndOf};
ghost use Rattle.array_book.specs.OneRun.{HasSameContents, IsOneRun};

/// A read emits no record and changes what no block holds, whether it learns or not. A history that leads to what an array shows is
/// one run of the flat machine, whose records have the array's map.
#[tactic(auto, using(crate::proofs::OneRuns::learned_unchanged, crate::proofs::OneRuns::unlearned_unchanged, crate::proofs::OneRuns::one_run))]
pub fn course_laws()
    ensures learned { (F G : Flat) (asked reported : Record) (content : Content) → Leads F (Learns asked reported content) G → HasSameContents F G }
    ensures unlearned { (F G : Flat) (asked : Record) (q : Refusal) → Leads F (Fails asked q) G → HasSameContents F G }
    ensures run { (log : List (Entry Act)) (array : ArrayView) → IsEndOf log array → IsOneRun log array }
{
    // The laws are the contract: there is nothing to do.
}
