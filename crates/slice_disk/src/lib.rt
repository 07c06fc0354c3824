//! A disk over the bytes of a file that the caller holds in memory, or maps. It only reads.
#![tactic(auto)]

mod disk;

pub use disk::SliceDisk;
