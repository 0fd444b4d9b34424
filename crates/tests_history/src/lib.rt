//! One history of two threads' calls on bytes under a lock.
#![tactic(auto)]

#[cfg(test)]
mod shelf;
