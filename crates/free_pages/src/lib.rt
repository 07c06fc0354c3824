//! The pages of a file that its live tree doesn't need: new nodes take the least of them, and a commit leaves others. Pages of
//! trees that are still read are held back.
#![tactic(auto)]

mod free;
mod held;
pub mod laws;
mod queues;
mod walking;

pub use free::Free;
pub use held::Held;
