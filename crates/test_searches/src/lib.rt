//! Tests of what reads a tree: searches, joins, tags, cursors, audits and outlines.
#![tactic(auto)]

#[cfg(test)]
mod audits;
#[cfg(test)]
mod cursors;
#[cfg(test)]
mod given;
#[cfg(test)]
mod images;
#[cfg(test)]
mod joins;
#[cfg(test)]
mod nearest;
#[cfg(test)]
mod outlines;
#[cfg(test)]
mod ranges;
#[cfg(test)]
mod tags;
