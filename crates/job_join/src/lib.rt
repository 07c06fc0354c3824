//! The jobs on two files: joining them, and verifying or checking logs of their join.
#![tactic(auto)]

mod checker;
mod faults;
mod jobs;
mod joining;
pub mod laws;
mod lines;
mod opened;

pub use faults::first_join_fault;
pub use jobs::{check_join_logs, join_indexes, open_both, verify_join_logs};
pub use lines::{push_answers, push_verdict, side_name};
pub use opened::{REJECTED_SPACES, Trees};
