//! Tests of the jobs on files.
#![tactic(auto)]

#[cfg(test)]
mod files;
#[cfg(test)]
mod joins;
#[cfg(test)]
mod making;
