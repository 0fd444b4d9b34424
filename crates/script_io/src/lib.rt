//! A script from a reader to a writer, line by line.
#![tactic(auto)]

mod calls;
mod end;
mod halt;
mod line;
mod run;
mod script;
mod split;
mod stop;

pub use end::End;
pub use run::{run_and_leave, run_script};
pub use script_exec::Bench;
