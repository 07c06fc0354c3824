//! What the jobs on files of logs have in common: the words on a log and on bytes that are no logs, the judging of logs frame
//! by frame, the line on an audited file, and how such a job reads its logs and ends.
mod auditing;
mod checker;
mod ending;
mod faults;
mod judging;
mod lines;
mod putting;
mod report;
mod stop;

pub use auditing::put_audit;
pub use checker::Checker;
pub use ending::{end_stopped, read_logs};
pub use faults::first_fault;
pub use judging::judge_bytes;
pub use lines::{
    log_fault_name, push_answers, push_frame, push_state, push_verdict, undecoded_text,
};
pub use putting::put;
pub use report::Report;
pub use stop::LogStop;
