//! Many readers: a batch of commands on a file in memory, and its audit, by several threads.
#![tactic(auto)]

mod auditing;
mod batching;
mod dealing;
mod gathering;
mod images;
pub mod jobs;
pub mod laws;

pub use auditing::{audit_image, sound_by_parts};
pub use batching::batch;
pub use images::{ImageFault, read_image, read_parts};
