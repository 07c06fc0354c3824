ghost use Rattle.std.specs.Prelude.{◌≡◌, None};
ghost use Rattle.session_run.specs.Steps.{answer_of_fault, plain_answer, written_answer};

use crate::stop::SessionStop;
use index_core::IndexFault;
use log_model::Log;
use rows_text::{Refusal, Reply};

/// The answer to a command: the reply, and the log of a query.
#[derive(Drop)]
pub struct Answer {
    /// The reply.
    pub reply: Reply,

    /// The log of a query that was answered.
    pub log: Option<Log>,
}

impl Answer {
    /// Makes an answer without a log.
    pub fn plain(reply: Reply) -> Self
        ensures { result ≡ plain_answer reply }
    {
        Answer { reply, log: None }
    }
}

/// Maps the index's refusal to a session's: a reply, or its end.
pub fn answer_of_fault(fault: IndexFault) -> Result<Answer, SessionStop>
    ensures { result ≡ answer_of_fault fault }
{
    let why = match fault {
        IndexFault::Full => Refusal::Full,
        IndexFault::NotEmpty => Refusal::NotEmpty,
        IndexFault::NoRoom { .. } => Refusal::NoRoom,
        IndexFault::Worn => Refusal::Worn,
        IndexFault::Disk | IndexFault::Commit | IndexFault::Stopped => return Err(
            SessionStop::Disk,
        ),
        IndexFault::Damaged(page) => return Err(SessionStop::Damaged(page)),
        IndexFault::Memory => return Err(SessionStop::Memory),
    };
    Ok(Answer::plain(Reply::Refused(why)))
}

/// Returns the answer to an insert.
pub fn inserted(written: Result<u32, IndexFault>) -> Result<Answer, SessionStop>
    ensures { result ≡ written_answer (λ id. Reply.Id id) written }
{
    match written {
        Ok(id) => Ok(Answer::plain(Reply::Id(id))),
        Err(fault) => answer_of_fault(fault),
    }
}

/// Returns the answer to a load.
pub fn loaded(written: Result<u32, IndexFault>) -> Result<Answer, SessionStop>
    ensures { result ≡ written_answer (λ count. Reply.Loaded count) written }
{
    match written {
        Ok(count) => Ok(Answer::plain(Reply::Loaded(count))),
        Err(fault) => answer_of_fault(fault),
    }
}
