//! The jobs on files of query logs: verifying the logs against an index, and checking the index together with its logs.
#![tactic(auto)]

mod checker;
mod jobs;
pub mod laws;
mod opened;

pub use jobs::{check_logs, verify_logs};
