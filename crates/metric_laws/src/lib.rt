//! Metric spaces over lists of whole numbers, and the tests by which a search rules out answers.
#![tactic(auto)]

pub mod laws;
mod listed;
mod metric;
mod point;
mod pruning;
mod rows;
mod ruler;

pub use listed::Listed;
pub use metric::{BOUND, Metric};
pub use point::Point;
pub use pruning::{cap, centre_test, pair_test, parent_test};
pub use rows::Rows;
pub use ruler::{Meter, Ruler};
