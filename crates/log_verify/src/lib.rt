//! The verifier of logs: it accepts exactly the sound logs, and returns the first fault of the others.
#![tactic(auto)]

mod checking;
mod faults;
mod join_checking;
mod join_verifying;
mod join_walking;
mod judging;
pub mod laws;
mod verifying;
mod walking;

pub use faults::{Accepted, JoinVerdict, Verdict};
pub use join_verifying::verify_join;
pub use verifying::verify;
