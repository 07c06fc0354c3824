//! The index file: making it, opening it, and changing it in one atomic step whatever crash comes.
#![tactic(auto)]

mod committing;
mod faults;
pub mod laws;
mod making;
mod opening;

pub use committing::commit;
pub use faults::{CreateFault, OpenFault};
pub use making::create;
pub use opening::{live_of, open};
