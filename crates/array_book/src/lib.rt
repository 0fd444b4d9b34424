//! An array guarded by a lock, next to words that need none: workers in threads, and two controllers' maps that settle.
#![tactic(auto)]

mod book;
mod claim;
mod closing;
mod controller;
mod deed;
mod ended;
mod fault;
mod gate;
mod held;
mod kept;
mod laws;
mod opening;
mod plan;
mod run;
mod settle_fault;
mod settled;
mod worker;

pub use book::{Book, BookParts};
pub use claim::{Claim, Sizes};
pub use closing::compare;
pub use controller::Controller;
pub use deed::Deed;
pub use ended::Ended;
pub use fault::WorkFault;
pub use gate::{Gate, NoGate, Point};
pub use kept::{
    Kept, appended_in, commit_in, copy_in, discard_in, fill_in, put_in, read_in, trim_in,
};
pub use laws::course_laws;
pub use opening::begin;
pub use run::{Job, RunFault, run_workers};
pub use settle_fault::SettleFault;
pub use settled::{Settled, settle};
pub use worker::{Migration, Worker};
