ghost use Rattle.std.specs.Prelude.{◌≡◌, ◌≤◌, ◌+◌, length, None, Some, IsTrue, IfOk, IfErr, OnOk};
ghost use Rattle.page_store.specs.Reading.{nodes_of};
ghost use Rattle.page_store.specs.Shelf.{HoldsSame};
ghost use Rattle.metric_laws.specs.Counts.{count_up, CountsUpTo};
ghost use Rattle.log_model.specs.Counts.{measured};
ghost use Rattle.log_model.specs.Grammar.{IsValidLog};
ghost use Rattle.log_model.specs.Sound.{IsSoundLog};
ghost use Rattle.log_verify.specs.Judged.{log_fault};
ghost use Rattle.log_verify.specs.Causes.{HasCause, IsPassing};

use crate::judging::{compare, point_of};
use crate::walking::walk_records;
use crate::{Accepted, Verdict};
use log_model::{Log, Probe, radius_of, select};
use metric_laws::Ruler;
use page_store::Pages;
use std::alloc::Global;
use tree_shape::Live;

/// Accepts a log exactly where it is sound on the live tree, whatever the pages hold. A sound log names the live generation and
/// root, and its point fits. The walk from the root takes all its records, and each record has one allowed mark for each entry of
/// its page. Its answers are those that the records name (VLDB 1997, section 3.2).
///
/// Otherwise it returns the first fault: the state; the point; then record by record the page, the number of marks and the marks;
/// then a record that is left over; then the first answer that differs.
///
/// It asks for at most one page for each record, and computes at most one distance for each mark that isn't Skip. `Page` with
/// `PageFault::Disk` comes where the disk failed.
/// Clauses: what is asked of the caller (`valid`); the answer (`records`, `faultless`, `sound`); what stays (`metric`, `same`, `keeps`);
/// the cost (`asked`, `few_asked`, `reads`, `counted`, `few_counted`); the cause of an error (`cause`, `complete`); faults of the devices
/// (`no_fault`).
pub fn verify<P: Pages, R: Ruler>(
    alloc: Global,
    pages: &mut P,
    ruler: &mut R,
    live: &Live,
    log: &Log,
) -> Result<Accepted, Verdict>
    requires valid { IsValidLog log.now }
    ensures metric { R.metric ruler.new ≡ R.metric ruler.old }
    ensures same { HoldsSame (P.shelf pages.old) (P.shelf pages.new) }
    ensures keeps { P.keeps pages.old pages.new }
    ensures no_fault { OnOk result ((P.shelf pages.new).faults ≡ (P.shelf pages.old).faults) }

    ensures records { IfOk result (λ accepted. accepted.records ≡ length log.now.records) }
    ensures faultless { OnOk result (IsTrue (P.shelf pages.old).is_known →
        log_fault (R.M.space (R.metric ruler.old)) (P.shelf pages.old).read live.now log.now ≡ None) }
    ensures sound { OnOk result (IsTrue (P.shelf pages.old).is_known →
        IsSoundLog (R.M.space (R.metric ruler.old)) (nodes_of (P.shelf pages.old).read) live.now log.now) }
    // The verdict is the first fault.
    ensures cause { IfErr result (λ v.
        HasCause (P.shelf pages.old) (P.shelf pages.new) v
        (log_fault (R.M.space (R.metric ruler.old)) (P.shelf pages.old).read live.now log.now ≡ Some v)) }
    // A sound log is accepted, unless the disk fails or memory runs out.
    ensures complete { IfErr result (λ v. IsTrue (P.shelf pages.old).is_known →
        IsSoundLog (R.M.space (R.metric ruler.old)) (nodes_of (P.shelf pages.old).read) live.now log.now → IsPassing v) }

    // The cost.
    ensures asked { OnOk result ((P.shelf pages.new).asked ≡ count_up (P.shelf pages.old).asked (length log.now.records)) }
    ensures few_asked { CountsUpTo (P.shelf pages.old).asked (P.shelf pages.new).asked (length log.now.records) }
    ensures reads { (P.shelf pages.new).reads ≤ (P.shelf pages.old).reads + length log.now.records }
    ensures counted { OnOk result (R.used ruler.new ≡ count_up (R.used ruler.old) (measured log.now.records)) }
    ensures few_counted { CountsUpTo (R.used ruler.old) (R.used ruler.new) (measured log.now.records) }
{
    if log.generation != live.generation || log.root != live.root {
        return Err(Verdict::OtherState {
            named: (log.generation, log.root),
            live: (live.generation, live.root),
        });
    }
    let point = point_of(&log.query);
    if !ruler.is_point(point) {
        return Err(Verdict::Point);
    }
    let probe = Probe {
        q: point,
        rho: radius_of(&log.query, log.answers.as_slice()),
    };
    let records = log.records.as_slice();
    let mut hits = walk_records(alloc, pages, ruler, probe, live.root, records)?;
    select(&log.query, &mut hits);
    match compare(log.answers.as_slice(), hits.as_slice()) {
        None => Ok(Accepted {
            records: records.len() as u64,
        }),
        Some(verdict) => Err(verdict),
    }
}
