// How a session ends.

/// How a session with a client ends.
#[derive(Clone, Copy, Debug, PartialEq, Eq)]
pub enum End {
    /// The client sent the request to disconnect.
    Disconnected,
    /// The client sent the option to abort.
    Aborted,
    /// The input ended, between two messages or within one.
    Cut,
    /// The client broke the protocol: a wrong magic number, or flags that are not known.
    Garbage,
    /// The client sent more options or requests than a session may have.
    Limit,
    /// Out of memory in the handshake.
    Memory,
    /// A read returned an error.
    ReadFault,
    /// A write returned an error, or accepted no byte.
    WriteFault,
}
