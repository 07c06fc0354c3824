//! A plain list of objects with its open cursors, on which each command does what its meaning says.
#![tactic(auto)]

mod cursor;
mod cursors;
mod list;
mod points;
mod session;

pub use cursors::Cursors;
pub use list::PlainList;
pub use points::has_points_of;
pub use session::{Scan, ScanStop, run_script};
