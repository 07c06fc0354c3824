//! The job `scan`: a script on a plain list.
#![tactic(auto)]

mod jobs;

pub use jobs::run_scan;
