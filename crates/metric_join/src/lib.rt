//! Similarity join of two trees on pages, with the log that shows each decision.
#![tactic(auto)]

mod faults;
mod joining;
mod opening;
mod touring;
mod walking;

pub use faults::JoinFault;
pub use joining::join;
