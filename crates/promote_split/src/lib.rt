//! The split of a node with too many entries into two halves (VLDB 1997, sections 3.3 and 4).
#![tactic(auto)]

mod dealing;
mod entry;
mod halves;
mod matrix;
mod promoting;
mod splitting;

pub use dealing::partition;
pub use entry::Entry;
pub use halves::{Half, Halves};
pub use matrix::Matrix;
pub use promoting::{Policy, promote};
pub use splitting::split;
