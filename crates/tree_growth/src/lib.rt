//! The rules by which a tree grows: insertion (VLDB 1997, sections 3.2 and 3.3), and bulk loading, which is this project's own.
#![tactic(auto)]

pub mod laws;
mod rules;

pub use rules::{Aim, Group, Member, Side};
