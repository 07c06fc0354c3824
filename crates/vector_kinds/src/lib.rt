//! Metrics between points of whole numbers: Hamming's, the sum of the differences, and the greatest difference.
#![tactic(auto)]

mod differences;
mod hamming;
mod l1;
mod max;
mod space;

pub use hamming::Hamming;
pub use l1::L1;
pub use max::Max;
pub use space::{Space, SpaceFault};
