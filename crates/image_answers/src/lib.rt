//! Queries on a file in memory, and their outcomes: an answer with its log and its tags, or the damaged page that the search met.
#![tactic(auto)]

mod outcome;
mod queries;

pub use outcome::Outcome;
pub use queries::{cached_pages, nearest_on, nearest_outcome, pages_of, range_on, range_outcome};
