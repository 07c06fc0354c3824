//! Small trees over points of one coordinate, as the bytes of their pages. The tests of crates above search them.
#![tactic(auto)]

mod entry;
mod trees;

pub use entry::Entry;
pub use trees::{one_leaf, pad, six_entries, two_leaves};
