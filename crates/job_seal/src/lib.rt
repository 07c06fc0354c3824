//! The jobs on seals: they compute the root digest of a sound index, and make and check carried logs.
#![tactic(auto)]

mod carrying;
pub mod laws;
mod opening;
mod proof_lines;
mod proving;
mod sealing;
mod stop;
mod taking;

pub use carrying::carry_logs;
pub use proving::prove_logs;
pub use sealing::seal_index;
