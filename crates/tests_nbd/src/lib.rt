//! Sessions of the NBD protocol: the bytes of its document, over stores and streams in memory.
#![tactic(auto)]

#[cfg(test)]
mod streams;
#[cfg(test)]
mod tests;
