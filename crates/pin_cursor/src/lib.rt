//! A cursor that gives the objects of one tree by distance, then by id, some at a time. The tree is that of the live slot when the
//! cursor was opened; the caller keeps its pages.
#![tactic(auto)]

mod cursor;
mod line;
mod opening;
mod stepping;
mod trial;
mod waiting;
mod waits;
mod walk;

pub use cursor::{Cursor, Stepped};
pub use waiting::{Candidate, Subtree};
