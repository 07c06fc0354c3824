//! One file as the index sees it: what a read gives now, and what a crash at each moment may leave.
#![tactic(auto)]

mod disk;
mod entry;
mod file;
mod file_disk;
mod laws;
mod memory_disk;
mod record;
mod replay;
mod shared_disk;

pub use disk::Disk;
pub use file_disk::FileDisk;
pub use laws::{
    FileProperty, images_mix, looks_join, opening_then_stretch, read_may_be_left, stretch_goes_on,
    stretches_join, written_is_torn,
};
pub use memory_disk::MemoryDisk;
pub use outside_io::Failed;
pub use shared_disk::SharedDisk;
