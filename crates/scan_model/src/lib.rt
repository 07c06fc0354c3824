//! The plain answers: scans over lists of points. Every search over an index has to give the same answers.
#![tactic(auto)]

mod hit;
mod join;
pub mod laws;
mod query;
mod scan;

pub use hit::{Hit, Pair};
pub use join::scan_join;
pub use query::Query;
pub use scan::{scan_nearest, scan_range};
