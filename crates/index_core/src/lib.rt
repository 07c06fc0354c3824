//! An index file, opened for reading or for writing, without its disk.
#![tactic(auto)]

mod faults;
mod index;
mod inserting;
mod lending;
mod listing;
mod loading;
mod pinning;
mod placing;
mod tagging;
mod view;
mod writing;

pub use faults::IndexFault;
pub use index::Index;
pub use tree_outline::{Shape, ShapeLine};
pub use view::View;
