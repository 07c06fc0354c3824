//! The job `stats`: what is known of an index without its objects.
#![tactic(auto)]

mod jobs;
mod lines;
mod names;
mod numbers;

pub use jobs::stats_index;
pub use names::words_are_read;
pub use numbers::{LevelNumbers, Spread};
