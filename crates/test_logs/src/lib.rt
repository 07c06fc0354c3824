//! Tests of logs and their verifier.
#![tactic(auto)]

#[cfg(test)]
mod frames;
#[cfg(test)]
mod models;
#[cfg(test)]
mod verdicts;
