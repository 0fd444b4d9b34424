//! A disk's bytes over drives that count their syncs, up to its last block.
#![tactic(auto)]

#[cfg(test)]
mod added;
#[cfg(test)]
mod asserts;
#[cfg(test)]
mod bytes;
#[cfg(test)]
mod calls;
#[cfg(test)]
mod flushes;
#[cfg(test)]
mod groups;
#[cfg(test)]
mod journaled;
#[cfg(test)]
mod model;
#[cfg(test)]
mod recovered;
#[cfg(test)]
mod regrouped;
#[cfg(test)]
mod removed;
#[cfg(test)]
mod replaced;
#[cfg(test)]
mod rig;
#[cfg(test)]
mod room;
#[cfg(test)]
mod runs;
#[cfg(test)]
mod stopped;
