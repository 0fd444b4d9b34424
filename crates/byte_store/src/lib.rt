//! A store of bytes by offset, as a server of a block device needs it, and one in memory.
#![tactic(auto)]

mod fault;
mod mem_store;
mod store;

pub use fault::StoreFault;
pub use mem_store::MemStore;
pub use store::ByteStore;
