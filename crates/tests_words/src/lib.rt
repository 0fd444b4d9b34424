//! Records and maps, claims of slots and maps of words, in one thread and in four, against values from outside.
#![tactic(auto)]

#[cfg(test)]
mod asserts;
#[cfg(test)]
mod block_maps;
#[cfg(test)]
mod maps;
#[cfg(test)]
mod slots;
