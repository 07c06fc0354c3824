//! The job `dump`: the objects of an index as a script that makes them again.
#![tactic(auto)]

mod fault;
mod jobs;
pub mod laws;
mod places;
mod rows;
mod writing;

pub use fault::DumpFault;
pub use jobs::dump_index;
