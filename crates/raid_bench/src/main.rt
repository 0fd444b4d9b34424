//! Answers a script of array commands, a line for each; or runs a storm of workers, and says whether they agree.
#![tactic(auto)]

mod task;

use script_io::{End, run_and_leave};
use std::process::ExitCode;
use std::{env, io};
use storm::{end_storm, run_storm};
use task::{Task, task_of};

/// The exit status for a command line that names no task of the program.
const NO_TASK: u8 = 2;

fn main(rt: HostRuntime) -> ExitCode {
    let words = match words_of(&rt) {
        Ok(words) => words,
        Err(error) => {
            return ExitCode::from(match error.kind() {
                io::ErrorKind::OutOfMemory => End::Memory.status(),
                _ => NO_TASK,
            });
        }
    };
    ExitCode::from(match task_of(rt.alloc(), &words) {
        Ok(Some(Task::Script)) => {
            let (end, _bench) = run_and_leave(rt.alloc(), &mut rt.stdin(), &mut rt.stdout());
            end.status()
        }
        Ok(Some(Task::Storm { workers, writes })) => {
            let ended = run_storm(&rt, rt.alloc(), workers, writes);
            end_storm(&mut rt.stdout(), ended)
        }
        Ok(None) => NO_TASK,
        Err(_) => End::Memory.status(),
    })
}

// The words of the command line after the program's name.
fn words_of(rt: &HostRuntime) -> io::Result<Vec<String>> {
    let mut words = Vec::new(rt.alloc());
    for word in env::args(rt)?.skip(1) {
        words.push(word)?;
    }
    Ok(words)
}
