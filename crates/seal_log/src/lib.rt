//! Logs that are checked without the file. A file is sealed by 32 bytes. A carried log holds the pages that its log needs, each
//! with the path that shows it to be a page of a file with that seal.
#![tactic(auto)]

mod carried;
mod carrying;
mod digests;
mod faults;
pub mod laws;
mod opening;
mod pages;
mod parts;
mod paths;
mod sealing;
mod tree;
mod verifying;

pub use carried::{Carried, read_proof};
pub use carrying::carry;
pub use faults::{ProofFault, SealFault};
pub use parts::{CarriedPage, Parts};
pub use sealing::seal;
pub use tree::Tree;
pub use verifying::{Proved, verify_carried};
