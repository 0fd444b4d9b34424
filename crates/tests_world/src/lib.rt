//! Steps of a world, one by one and in runs, against values from outside.
#![tactic(auto)]

#[cfg(test)]
mod asserts;
#[cfg(test)]
mod hands;
#[cfg(test)]
mod losses;
#[cfg(test)]
mod moves;
#[cfg(test)]
mod places;
#[cfg(test)]
mod runs;
#[cfg(test)]
mod scans;
#[cfg(test)]
mod script;
#[cfg(test)]
mod sizes;
#[cfg(test)]
mod walk;
