//! Opens the files that the words name. Each file is opened by its name, and each index is locked against other processes. No file
//! is both made and read.
#![tactic(auto)]

mod folder;
mod host_folder;
mod named;
mod opening;
mod refusal;

pub use folder::Folder;
pub use host_folder::HostFolder;
pub use named::Named;
pub use opening::{Opened, Unopened, open_files};
pub use refusal::{Denial, Refusal};
