//! Tests of what makes a tree grow: shared work, splits, insertion and bulk loading.
#![tactic(auto)]

#[cfg(test)]
mod building;
#[cfg(test)]
mod groups;
#[cfg(test)]
mod growth;
#[cfg(test)]
mod paths;
#[cfg(test)]
mod splits;
#[cfg(test)]
mod work;
