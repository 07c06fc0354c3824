//! The job `show` with two indexes: each log of their joins as the walk that it tells of, in words.
#![tactic(auto)]

mod entries;
mod frames;
mod jobs;
pub mod laws;
mod nodes;
mod opened;
mod reasons;
mod shown;
mod texts;
mod view;
mod walking;

pub use jobs::show_join_logs;
pub use reasons::PairReach;
pub use shown::PairComing;
