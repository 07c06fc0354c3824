ghost use Rattle.std.specs.Prelude.{◌≡◌, None};

use log_model::Log;
use page_store::PageFault;
use rows_text::{Refusal, Reply};

/// The outcome of one command on a file in memory.
#[derive(Drop)]
pub enum Outcome {
    /// The command was answered.
    Done {
        /// The reply. Its hits have a tag each, or no tags where these are not wanted.
        reply: Reply,
        /// The log of a query that was answered with hits.
        log: Option<Log>,
    },

    /// The search of a query met a damaged page: `Bad`, `Outside` or `Repeats`. This never happens on a sound image.
    Damaged(PageFault),
}

impl Outcome {
    /// Returns the outcome of an answer without a log.
    pub fn plain(reply: Reply) -> Self
        ensures { result ≡ Outcome.Done reply None }
    {
        Outcome::Done { reply, log: None }
    }

    /// Returns the outcome of a refusal.
    pub fn refused(why: Refusal) -> Self
        ensures { result ≡ Outcome.Done (Reply.Refused why) None }
    {
        Outcome::plain(Reply::Refused(why))
    }
}
