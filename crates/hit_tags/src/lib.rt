//! Finds the tags of a query's hits: by what the search met, or by the walk of its log.
#![tactic(auto)]

mod tagging;
mod walking;
mod wanted;

pub use tagging::{found_tags, tags_of};
