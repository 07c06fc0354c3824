//! Pages behind a cache of decoded nodes, so that a page that was asked for before is not read again: the nodes that were used last, or
//! a line for each page.
#![tactic(auto)]

mod cached;
mod kept;
pub mod laws;
mod lines;
mod mapped;

pub use cached::Cached;
pub use kept::{KEPT_NODES, Kept};
pub use mapped::Mapped;
