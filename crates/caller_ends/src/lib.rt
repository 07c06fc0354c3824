//! The caller's bytes and buffers, for the calls from other languages: what a job reads from, what it writes to, and what is handed over.
#![tactic(auto)]

mod ends;
mod rooms;

pub use ends::{Gathered, SliceSource};
pub use rooms::put_front;
