//! A walk of a tree by the child numbers in its nodes, each node before the nodes that it names.
#![tactic(auto)]

mod tour;

pub use tour::{Tour, count_nodes};
