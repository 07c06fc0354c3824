//! The jobs on whole files, and their lines: making an index, auditing one, and writing the shape of its tree.
#![tactic(auto)]

mod jobs;
pub mod laws;
mod limits;
mod lines;
pub mod logs;
mod shape_lines;
mod shaping;

pub use jobs::{
    audit_index, audit_opened, create_index, end_rejected, end_sound, end_unopened, open_index,
    space_of,
};
pub use limits::{MOST_INPUT, MOST_LOGS, MOST_WHOLE_PAGES};
pub use lines::{
    FAULT_DISK, FAULT_INPUT, FAULT_LONG, FAULT_MEMORY, FAULT_NOT_EMPTY, FAULT_VERSION,
    damaged_text, end_unread, end_with, put_line, rejected_text, sound_text,
};
pub use shaping::{end_at_page, shape_index, shape_opened};
