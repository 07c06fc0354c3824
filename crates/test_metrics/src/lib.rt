//! Tests of metrics.
#![tactic(auto)]

#[cfg(test)]
mod kinds;
#[cfg(test)]
mod meetings;
#[cfg(test)]
mod mixes;
#[cfg(test)]
mod points;
