//! The shape of a live tree, node by node, by a walk in pre-order.
#![tactic(auto)]

mod outline;

pub use outline::{Shape, ShapeLine, shape_of};
