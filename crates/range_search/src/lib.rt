//! Range search over the pages of a tree, with the log that shows each decision.
#![tactic(auto)]

pub mod laws;
mod searching;

pub use searching::range;
