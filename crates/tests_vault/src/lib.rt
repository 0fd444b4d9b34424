//! Vaults over files in memory that are killed, or lose power, at each call.
#![tactic(auto)]

#[cfg(test)]
mod asserts;
#[cfg(test)]
mod calls;
#[cfg(test)]
mod records;
#[cfg(test)]
mod rot;
#[cfg(test)]
mod stamps;
#[cfg(test)]
mod story;
#[cfg(test)]
mod tests;
#[cfg(test)]
mod twins;
