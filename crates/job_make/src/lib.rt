//! The jobs that make an index and fill it at once: with generated rows, or with the objects of a file of version 1.
#![tactic(auto)]

mod asking;
mod collecting;
mod filling;
mod generating;
mod generator;
mod migrating;
mod ordering;

pub use filling::{FillFault, Objects, fill};
pub use generating::{Generation, generate_index};
pub use generator::generated_rows;
pub use migrating::migrate_index;
