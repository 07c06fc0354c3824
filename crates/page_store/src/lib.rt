//! The pages of an index file. They are read one at a time as nodes. The new nodes of the next commit are staged, and get their
//! pages here.
#![tactic(auto)]

mod disk_pages;
mod image;
mod image_pages;
pub mod laws;
mod numbering;
mod pages;
mod parts;
mod reading;
mod settling;
mod staging;

pub use disk_pages::DiskPages;
pub use image::Image;
pub use image_pages::ImagePages;
pub use numbering::Numbering;
pub use pages::{PageFault, Pages, own_node};
pub use parts::Parts;
pub use reading::{node_on, read_page};
pub use settling::{NewTree, RoomFault, settle};
pub use staging::{Placed, Staged, StagedNode};

/// A node that several may hold.
pub type SharedNode = tree_shape::Shared<tree_shape::Node>;
