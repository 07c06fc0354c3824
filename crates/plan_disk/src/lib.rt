//! A disk over the bytes of a file that the caller holds in memory. It leaves them as they are, and keeps what it was asked to do:
//! a plan of writes and syncs, which the caller then does to the file.
#![tactic(auto)]

mod disk;
mod laws;
mod patched;
mod step;

pub use disk::PlanDisk;
pub use laws::{crash_in_step, same_base};
pub use step::Step;
