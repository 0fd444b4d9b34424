//! A Book and its workers, in one thread and in several, against values from outside.
#![tactic(auto)]

#[cfg(test)]
mod again;
#[cfg(test)]
mod asserts;
#[cfg(test)]
mod books;
#[cfg(test)]
mod calls;
#[cfg(test)]
mod controllers;
#[cfg(test)]
mod jobs;
#[cfg(test)]
mod moves;
#[cfg(test)]
mod numbers;
#[cfg(test)]
mod outruns;
#[cfg(test)]
mod points;
#[cfg(test)]
mod refused;
#[cfg(test)]
mod reported;
#[cfg(test)]
mod rig;
#[cfg(test)]
mod room;
#[cfg(test)]
mod rounds;
#[cfg(test)]
mod storms;
#[cfg(test)]
mod trims;
#[cfg(test)]
mod turns;
