//! What the command line asks for.
ghost use Rattle.std.specs.Prelude.{◌≡◌, ◌∷◌, [], ℕ, IfOk, IfSome, IfNone, None, Ok, decimal, map, string_bytes};
ghost use Rattle.raid_bench.specs.Asked.{IsAsked, AreStorm, IsStorm};

use clap::{Arg, Command, Error};
use script_syntax::number_of;
use std::alloc::{AllocError, Global};

/// What the program is asked to do.
#[derive(Clone, Copy)]
pub enum Task {
    /// Answer the script on standard input.
    Script,
    /// Run `workers` workers, 1 to 8, with `writes` rounds each, 1 to 1,000, and say what they agree on.
    Storm { workers: u8, writes: u32 },
}

/// The task that the words ask for, if any. Allocates nothing for words that ask for none.
pub fn task_of(alloc: Global, words: &[String]) -> Result<Option<Task>, AllocError>
    ensures ok { IfOk result (IsAsked (map string_bytes words.now)) }
    ensures other { IsAsked (map string_bytes words.now) None → result ≡ Ok None }
{
    let Some(task) = asked(words) else {
        return Ok(None);
    };
    // These words are refused only if out of memory: clap takes these and more, such as `script --`.
    match read_words(alloc, words) {
        Ok(()) => Ok(Some(task)),
        Err(_) => Err(AllocError),
    }
}

// Reads the words as a command line.
fn read_words(alloc: Global, words: &[String]) -> Result<(), Error> {
    let storm = Command::new(alloc, "storm")
        .disable_help_flag(true)
        .arg(Arg::new(alloc, "workers").required(true))?
        .arg(Arg::new(alloc, "writes").required(true))?;
    let command = Command::new(alloc, "raid_bench")
        .no_binary_name(true)
        .disable_help_flag(true)
        .disable_help_subcommand(true)
        .subcommand_required(true)
        .subcommand(Command::new(alloc, "script").disable_help_flag(true))?
        .subcommand(storm)?;
    command.try_get_matches_from(words)?;
    Ok(())
}

// What the words ask for, if anything. This decides, not clap, because clap also takes `script --`.
fn asked(words: &[String]) -> Option<Task>
    ensures { IsAsked (map string_bytes words.now) result }
{
    match words {
        [verb] => script_of(verb.as_bytes()),
        [verb, workers, writes] => {
            storm_of(verb.as_bytes(), workers.as_bytes(), writes.as_bytes())
        }
        _ => None,
    }
}

// What one word asks for.
fn script_of(verb: &[u8]) -> Option<Task>
    ensures { IsAsked (verb.now ∷ []) result }
{
    if verb == b"script".as_slice() {
        Some(Task::Script)
    } else {
        None
    }
}

// What three words ask for.
fn storm_of(verb: &[u8], workers: &[u8], writes: &[u8]) -> Option<Task>
    ensures { IsAsked (verb.now ∷ workers.now ∷ writes.now ∷ []) result }
{
    if verb == b"storm".as_slice() {
        numbers_of(workers, writes)
    } else {
        None
    }
}

// The storm of `workers` workers and `writes` rounds, if both words are numbers within their limits.
fn numbers_of(workers: &[u8], writes: &[u8]) -> Option<Task>
    ensures some { IfSome result (AreStorm workers.now writes.now) }
    ensures none { IfNone result ((n m : ℕ) → IsStorm n m → workers.now ≡ decimal n → writes.now ≡ decimal m → ⊥) }
{
    let Some(workers) = number_of(workers) else {
        return None;
    };
    let Some(writes) = number_of(writes) else {
        return None;
    };
    if workers == 0 || workers > 8 || writes == 0 || writes > 1000 {
        return None;
    }
    Some(Task::Storm {
        workers: workers as u8,
        writes: writes as u32,
    })
}
