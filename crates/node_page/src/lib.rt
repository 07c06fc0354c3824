//! The head, the slots and the nodes of an index file as pages of 4096 bytes. All numbers are big-endian, and a byte that
//! no field takes is 0.
#![tactic(auto)]

mod bytes;
mod head;
pub mod laws;
mod live;
mod node;
mod slot;
mod writing;

pub use bytes::clear;
pub use head::{Head, HeadFault, decode_head, encode_head};
pub use live::{is_valid_live, live_at};
pub use node::{NodeFault, Unread, Version, decode_node};
pub use slot::{Gate, Slot, decode_slot, encode_slot, read_gate};
pub use writing::encode_node;
