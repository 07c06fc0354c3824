//! The bytes of query logs, of join logs and of frames, both ways. All numbers are big-endian, and each log has one spelling.
#![tactic(auto)]

mod fault;
pub mod fields;
mod frames;
mod join_log;
pub mod laws;
mod pieces;
mod query_log;

pub use fault::LogFault;
pub use frames::{decode_frames, decode_join_frames, frame};
pub use join_log::{decode_join_log, encode_join_log};
pub use query_log::{decode_log, encode_log};
