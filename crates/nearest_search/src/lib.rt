//! The k nearest objects over the pages of a tree, with the log that shows each decision.
#![tactic(auto)]

mod exploring;
mod frontier;
mod kept;
mod kth;
mod logging;
mod machine;
mod opening;
mod pending;
mod queue;
mod searching;
mod seen;

pub use searching::nearest;
