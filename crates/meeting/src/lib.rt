//! A metric for tests that shows whether two pieces of work run at once, and threads that load under it.
#![tactic(auto)]

mod metric;
mod seen;
mod threaded;

pub use metric::Meeting;
pub use seen::Seen;
pub use threaded::Threaded;
