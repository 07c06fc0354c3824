//! Tests of an opened index.
#![tactic(auto)]

#[cfg(test)]
mod index;
#[cfg(test)]
mod inserting;
#[cfg(test)]
mod loading;
#[cfg(test)]
mod trial;
