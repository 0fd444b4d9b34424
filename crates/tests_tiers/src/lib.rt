//! Two levels over drives of one's own: in files, and drives that count their calls.
#![tactic(auto)]

#[cfg(test)]
mod asserts;
#[cfg(test)]
mod commands;
#[cfg(test)]
mod counted;
#[cfg(test)]
mod files;
#[cfg(test)]
mod rig;
#[cfg(test)]
mod room;
#[cfg(test)]
mod steps;
#[cfg(test)]
mod syncs;
