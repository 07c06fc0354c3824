//! Tests of seals and carried logs.
#![tactic(auto)]

#[cfg(test)]
mod carried;
#[cfg(test)]
mod jobs;
