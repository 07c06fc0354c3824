//! Threads as the crew of a load.
#![tactic(auto)]

mod by_threads;

pub use by_threads::ByThreads;
