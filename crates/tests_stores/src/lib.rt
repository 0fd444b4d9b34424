//! Tests of drives, groups, stores and plans, in one crate that depends on all of them: where the write log goes on, what is
//! demoted, plugged and cleaned, and which extents are moved.
#![tactic(auto)]

#[cfg(test)]
mod asserts;
#[cfg(test)]
mod cases;
#[cfg(test)]
mod counted;
#[cfg(test)]
mod demotion;
#[cfg(test)]
mod drives;
#[cfg(test)]
mod gathering;
#[cfg(test)]
mod geometry;
#[cfg(test)]
mod groups;
#[cfg(test)]
mod pictures;
#[cfg(test)]
mod plans;
#[cfg(test)]
mod recorded;
#[cfg(test)]
mod rig;
#[cfg(test)]
mod set_up;
#[cfg(test)]
mod slow;
#[cfg(test)]
mod starting_over;
#[cfg(test)]
mod stores;
#[cfg(test)]
mod tables;
