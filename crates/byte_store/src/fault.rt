// Why a store refuses a request.

/// Why a store refuses a request.
#[derive(Clone, Copy, Debug, PartialEq, Eq)]
pub enum StoreFault {
    /// There is no room for the bytes.
    NoSpace,
    /// No drive has the bytes any more.
    Gone,
    /// Out of memory.
    Memory,
    /// The bytes could not be made durable.
    Sync,
}
