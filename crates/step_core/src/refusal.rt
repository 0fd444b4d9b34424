// Out of memory is no answer, but an error of its own.
ghost use Rattle.std.specs.Prelude.{◌≡◌, ◌≢◌, IfOk, OnErr};

use flat_machine::Refusal;
use std::alloc::AllocError;

/// The refusal, which is an answer, unless it is `Memory`.
pub fn unless_memory(refusal: Refusal) -> Result<Refusal, AllocError>
    ensures ok { IfOk result (λ answered. (answered ≡ refusal) × (refusal ≢ Refusal.Memory)) }
    ensures err { OnErr result (refusal ≡ Refusal.Memory) }
{
    match refusal {
        Refusal::Memory => Err(AllocError),
        _ => Ok(refusal),
    }
}
