//! Insertion of an object into a tree on pages (VLDB 1997, section 3.3): the descent by the choice of subtrees, and the new
//! nodes on the way back.
#![tactic(auto)]

mod choice;
mod descent;
mod faults;
mod grew;
mod growth;
mod placing;
mod staging;
mod task;

pub use choice::choose;
pub use faults::PlaceFault;
pub use placing::place;
