//! The array by its own calls, and rebuilt, against values from outside.
#![tactic(auto)]

#[cfg(test)]
mod adoptions;
#[cfg(test)]
mod asserts;
#[cfg(test)]
mod counts;
#[cfg(test)]
mod cuts;
#[cfg(test)]
mod ends;
#[cfg(test)]
mod extent_units;
#[cfg(test)]
mod learned;
#[cfg(test)]
mod lists;
#[cfg(test)]
mod merges;
#[cfg(test)]
mod micros;
#[cfg(test)]
mod notes;
#[cfg(test)]
mod reads;
#[cfg(test)]
mod restarts;
#[cfg(test)]
mod rig;
#[cfg(test)]
mod stops;
#[cfg(test)]
mod trims;
#[cfg(test)]
mod units;
#[cfg(test)]
mod unmakes;
