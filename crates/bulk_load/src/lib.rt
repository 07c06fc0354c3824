//! Bulk loading, by this project's own procedure: parting all objects into groups, and each group again, down to the leaves, and
//! the tree of nodes that this makes.
#![tactic(auto)]

mod building;
mod crew;
mod distances;
mod faults;
mod filling;
mod grouping;
mod hints;
mod moving;
mod placing;
mod sharing;
mod subtree;

pub use building::build;
pub use crew::{Alone, Crew, Scout};
pub use faults::BuildFault;
pub use grouping::groups;
pub use hints::hints_by_threads;
pub use placing::Placing;
pub use sharing::{Made, made_by_threads};
pub use subtree::{Loading, Set};
