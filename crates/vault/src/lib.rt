//! Batches of unit writes that a stop of the machine leaves undone or done: each is put into a journal first.
#![tactic(auto)]

mod batch;
mod carry;
mod code;
mod commit;
mod memory;
mod places;
mod store;

pub use batch::Batch;
pub use carry::settle;
pub use commit::{add, flush, keep};
pub use memory::MemVault;
pub use places::Places;
pub use store::{Stop, TABLE, UnitRead, Vault, VaultError};
