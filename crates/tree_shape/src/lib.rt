//! The nodes of a tree on pages, and what a sound tree is.
#![tactic(auto)]

mod copying;
mod entry;
mod filling;
mod flat;
mod inners;
pub mod laws;
mod leaves;
mod live;
mod refs;
mod shared;

pub use copying::TryClone;
pub use entry::{InnerEntry, LeafEntry, Node};
pub use filling::{Bounds, fill};
pub use flat::FlatEntries;
pub use inners::{InnerEntries, InnerView};
pub use leaves::{LeafEntries, LeafView};
pub use live::{LAST_GENERATION, Live, MOST_PAGES, PAGE};
pub use refs::{InnerRef, LeafRef};
pub use shared::Shared;
