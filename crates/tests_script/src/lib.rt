//! Scripts and their answers, over readers and writers that break off.
#![tactic(auto)]

#[cfg(test)]
mod tests;
