//! A session of commands on an index, and the job `session`. Every reply is the plain scan's. Every query's log is put
//! before its reply.
#![tactic(auto)]

mod answer;
mod commands;
mod given_rows;
mod job;
pub mod laws;
mod pinned;
mod queries;
mod requests;
mod running;
mod stop;

pub use given_rows::{GivenRows, RowsToInsert, RowsToLoad};
pub use job::{run_requests, run_session};
pub use requests::{Requests, ScriptBytes};
pub use running::{Ended, session};
pub use stop::SessionStop;
