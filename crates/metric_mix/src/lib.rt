//! Metrics composed of others, metrics of permutations and of sets, and the space that a program chooses.
#![tactic(auto)]

mod capped;
mod halves;
mod hausdorff;
mod joined;
mod kendall;
pub mod laws;
mod mix_space;
mod permutations;
mod sets;

pub use capped::Capped;
pub use halves::Halves;
pub use hausdorff::Hausdorff;
pub use joined::{Joined, Joining};
pub use kendall::Kendall;
pub use mix_space::MixSpace;
