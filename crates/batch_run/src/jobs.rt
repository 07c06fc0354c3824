//! The jobs that several threads share: a script of queries on an index, and its audit.
mod audit_job;
mod batch_job;
pub mod laws;
mod piles;
mod preparing;
mod putting;
mod stop;

pub use audit_job::audit_index_by;
pub use batch_job::run_batch;
