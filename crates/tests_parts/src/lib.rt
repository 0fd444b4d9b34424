//! Tests of an array's parts on drives. The parts are above the drives.
#![tactic(auto)]

#[cfg(test)]
mod alike;
#[cfg(test)]
mod asserts;
#[cfg(test)]
mod entries;
#[cfg(test)]
mod flips;
#[cfg(test)]
mod plain;
#[cfg(test)]
mod restarts;
#[cfg(test)]
mod rig;
#[cfg(test)]
mod scans;
#[cfg(test)]
mod shifts;
#[cfg(test)]
mod sights;
#[cfg(test)]
mod stories;
