//! Reads the words of the command line as a job.
//!
//! The words are those after the program's name. [`read_job`] reads them with `clap` and returns the job. [`files_of`] returns the
//! files that the job works on.
#![tactic(auto)]

mod command_line;
mod complaint;
mod files;
mod job;
mod law;
mod names;
mod reading;
mod rows;
mod values;

pub use complaint::{Complaint, complaint_on};
pub use files::{FileNames, Makes, files_of, no_files};
pub use job::{Job, JobFault};
pub use law::reads_as_clap;
pub use names::{MetricName, PolicyNames, Promote, SpaceName, Split};
pub use reading::read_job;
