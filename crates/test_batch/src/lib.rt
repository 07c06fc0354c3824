//! Tests of batches and of audits by several workers.
#![tactic(auto)]

#[cfg(test)]
mod batches;
#[cfg(test)]
mod jobs;
