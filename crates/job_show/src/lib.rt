//! The job `show`: each log of a file as the walk that it tells of, in words.
#![tactic(auto)]

mod entries;
mod frames;
mod jobs;
pub mod laws;
mod nodes;
mod opened;
mod reasons;
mod report;
mod shown;
mod stops;
mod texts;
mod view;
mod walking;

pub use entries::{push_indent, push_place};
pub use frames::end_text;
pub use jobs::show_logs;
pub use nodes::count_marks;
pub use opened::count_opened;
pub use reasons::{Reach, push_gap, push_sign, radius_or_zero};
pub use report::Marks;
pub use shown::{Coming, Counts};
pub use stops::stop_at;
pub use texts::push_nodes;
