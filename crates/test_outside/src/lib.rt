//! Tests of the outside: streams, disks and named files.
#![tactic(auto)]

#[cfg(test)]
mod disks;
#[cfg(test)]
mod files;
#[cfg(test)]
mod plans;
#[cfg(test)]
mod slices;
#[cfg(test)]
mod streams;
