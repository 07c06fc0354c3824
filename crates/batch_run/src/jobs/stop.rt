ghost use Rattle.std.specs.Prelude.{◌≡◌};
ghost use Rattle.batch_run.specs.declared.jobs.stop.BatchStop.TheVariants as stop;

use outside_io::Failed;
use page_store::PageFault;

/// Why a batch ended before its script did.
#[derive(Clone, Copy, PartialEq, Eq)]
pub enum BatchStop {
    /// A reply or a log could not be written.
    Sink,

    /// The search of a query met a damaged page. That never happens on a sound index.
    Damaged(PageFault),
}

impl From<Failed> for BatchStop {
    ghost from_gives = { λ _ e. e ≡ stop.Sink };

    fn from(_failed: Failed) -> BatchStop {
        BatchStop::Sink
    }
}
