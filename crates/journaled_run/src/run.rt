// A run of calls, each of which is kept by the vault before the next begins.
ghost use Rattle.std.specs.Prelude.{◌≡◌, ◌<◌, ◌⊎◌, ◌++◌, All, IfErr, List, MatchResult, Some, length, slice_get, take, [], ◌∷◌};
ghost use Rattle.byte_store.specs.Lasting.{Shown, HasAllOf};
ghost use Rattle.tiered_array.specs.Matches.{RepresentsTiers};
ghost use Rattle.tiered_array.specs.Tiered.{Tiered};
ghost use Rattle.array_calls.specs.Calls.{FitsCall, IsMade};
ghost use Rattle.array_calls.specs.declared.call.Call.{Call};
ghost use Rattle.journaled_store.specs.Left.{HasBoth};
ghost use Rattle.journaled_store.specs.Outlasting.{Outlasts, point};
ghost use Rattle.journaled_run.specs.Showing.{IsShownIn};
ghost use Rattle.journaled_run.specs.Runs.{IsKeptRun, shown_in};

use array_calls::{Call, CallAnswer};
use byte_store::StoreFault;
use history::Chronicle;
use journaled_store::JournaledStore;
use std::alloc::Global;
use vault::Vault;

/// A run that ended at the call `at`, which the vault didn't keep, or which was out of memory; and the answers of those before it. An
/// answer of the array that refuses a step ends no run.
#[derive(Drop)]
pub struct Halted {
    pub answers: Vec<CallAnswer>,
    pub at: usize,
    /// `Memory` also where the array was out of memory, and what it had done is kept; else why the vault didn't keep the call, which the
    /// array in memory has.
    pub fault: StoreFault,
}

/// Carries out calls that fit the store's array, and has each kept by the vault before the next begins. The journal isn't settled.
pub fn run_calls<N: Chronicle, V: Vault + Drop>(
    alloc: Global,
    store: &mut JournaledStore<N, V>,
    calls: &[Call],
) -> Result<Vec<CallAnswer>, Halted>
    requires { All (FitsCall store.old.store.tiers.world.array.parts.groups) calls.now }

    // Of each state that the array represents, where a kill before the run leaves what is shown then, and a loss of power one of a list.
    // After Ok a kill leaves what is shown at its end; where it halts, the call under way made of the array what it makes, or nothing.
    ensures run { (T : Tiered) (before : List Shown) (first : Shown) → RepresentsTiers store.old.store.tiers T → IsShownIn store.old.store.size T.flat first
        → Outlasts HasBoth V.known V.seen V.may_leave (point store.old) (first ∷ []) before → MatchResult result
        (λ answers. (run : IsKeptRun V.known V.seen V.may_leave V.moment V.left_since store.old.store.size (V.moment store.old.vault) T before first calls.now
        answers.items (point store.new)) × (run.last ≡ run.state) × (cut : List Shown) × HasAllOf cut (before ++ first ∷ shown_in run.kept)
        × Outlasts HasBoth V.known V.seen V.may_leave (point store.new) (run.shown ∷ []) cut)
        (λ halted. (run : IsKeptRun V.known V.seen V.may_leave V.moment V.left_since store.old.store.size (V.moment store.old.vault) T before first
        (take halted.at calls.now) halted.answers.items (point store.new)) × ((run.last ≡ run.state)
        ⊎ ((one : Call) × (slice_get calls.now halted.at ≡ Some one) × IsMade run.state one run.last))) }
    ensures at { IfErr result (λ halted. halted.at < length calls.now) }
    ensures size { store.new.store.size ≡ store.old.store.size }
{
    // Room for all answers first, so that each call that is kept has one.
    let mut answers = match Vec::with_capacity(alloc, calls.len()) {
        Ok(answers) => answers,
        Err(_) => {
            return Err(Halted {
                answers: Vec::new(alloc),
                at: 0,
                fault: StoreFault::Memory,
            });
        }
    };
    for (at, call) in calls.iter().enumerate() {
        match store.kept_call(alloc, call) {
            Ok(Ok(answered)) => answers.push_reserved(answered),
            Ok(Err(_)) => {
                return Err(Halted {
                    answers,
                    at,
                    fault: StoreFault::Memory,
                });
            }
            Err(fault) => return Err(Halted { answers, at, fault }),
        }
    }
    Ok(answers)
}
