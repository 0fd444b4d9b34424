//! The image of a drive: its units next to each other in address order, as a file holds them.
#![tactic(auto)]

mod loading;
mod refusal;
mod storing;

pub use loading::load;
pub use refusal::ImageRefusal;
pub use storing::image_of;

#[cfg(test)]
mod tests;
