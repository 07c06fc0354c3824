// The first fault of a log.
ghost use Rattle.std.specs.Prelude.{◌≡◌, ◌≤◌, ◌+◌, length, IsTrue, IfOk, IsErrOf};
ghost use Rattle.outside_io.specs.Causes.{Rose};
ghost use Rattle.page_store.specs.Shelf.{HoldsSame};
ghost use Rattle.log_model.specs.Grammar.{IsValidLog};
ghost use Rattle.log_verify.specs.Judged.{log_fault};

use crate::logs::stop::LogStop;
use log_model::Log;
use log_verify::{Verdict, verify};
use metric_laws::{Meter, Metric};
use page_store::{PageFault, Pages};
use std::alloc::Global;
use tree_shape::Live;

/// Returns the first fault of `log` over the tree of `live` in `pages`, if it has one. Where the disk fails or memory runs out,
/// nothing is said of the log.
pub fn first_fault<M: Metric, P: Pages>(
    alloc: Global,
    metric: M,
    pages: &mut P,
    live: &Live,
    log: &Log,
) -> Result<Option<Verdict>, LogStop>
    requires { IsValidLog log.now }
    ensures same { HoldsSame (P.shelf pages.old) (P.shelf pages.new) }
    ensures keeps { P.keeps pages.old pages.new }
    ensures told { IfOk result (λ found. IsTrue (P.shelf pages.old).is_known →
        log_fault (M.space metric) (P.shelf pages.old).read live.now log.now ≡ found) }
    ensures reads { (P.shelf pages.new).reads ≤ (P.shelf pages.old).reads + length log.now.records }
    ensures disk { IsErrOf result LogStop.Disk → Rose (P.shelf pages.old).faults (P.shelf pages.new).faults }
    ensures not_sink { IsErrOf result LogStop.Sink → ⊥ }
{
    let mut ruler = Meter::new(metric);
    match verify(alloc, pages, &mut ruler, live, log) {
        Ok(_) => Ok(None),
        Err(Verdict::Memory) => Err(LogStop::Memory),
        Err(Verdict::Page(PageFault::Disk)) => Err(LogStop::Disk),
        Err(why) => Ok(Some(why)),
    }
}
