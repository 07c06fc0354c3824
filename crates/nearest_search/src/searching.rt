ghost use Rattle.std.specs.Prelude.{◌≡◌, ◌+◌, ◌≤◌, ◌^◌, IsTrue, IfOk, IfErr, OnOk};
ghost use Rattle.scan_model.specs.declared.query.Query.TheVariants.{Nearest};
ghost use Rattle.tree_shape.specs.Tree.{IsSoundTree};
ghost use Rattle.page_store.specs.Reading.{nodes_of};
ghost use Rattle.page_store.specs.Shelf.{HoldsSame, IsPassing};
ghost use Rattle.metric_laws.specs.Counts.{CountsUpTo};
ghost use Rattle.log_model.specs.Sound.{IsLogOf};
ghost use Rattle.log_model.specs.Met.{tagged_by};
ghost use Rattle.nearest_search.specs.Searched.{HasNearestCause, IsFront, IsFrugal, IsNearest, marks_in};

use crate::exploring::explore;
use crate::logging::rebuild_log;
use crate::machine::Machine;
use log_model::Found;
use metric_laws::{Point, Ruler};
use page_store::{PageFault, Pages};
use scan_model::Query;
use std::alloc::Global;
use tree_shape::Live;

/// Finds the `k` objects nearest to `q`, by distance, then by id (VLDB 1997, section 3.2), and the log that shows it. Subtrees are
/// opened by their least possible distance, also those as far as the `k`-th object. The log is that of a range search at the
/// `k`-th object's distance.
///
/// A page that holds no node is `Bad`. A page below 3 or not below the number of pages is `Outside`. Where as many nodes were
/// opened as the file has pages and one more is to be opened, that one is `Repeats`. None of these comes on a sound tree.
/// `Disk` comes where the disk failed.
/// Clauses: what is asked of the caller (`point`, `few_pages`, `some`); the answer (`log`, `nearest`, `front`, `tagged`); what
/// stays (`metric`, `same`, `keeps`); the cost (`asked`, `reads`, `measured`, `few_measured`); the cause of an error (`cause`,
/// `sound`); faults of the devices (`no_fault`).
pub fn nearest<P: Pages, R: Ruler>(
    alloc: Global,
    pages: &mut P,
    ruler: &mut R,
    live: &Live,
    q: &[u32],
    k: u64,
) -> Result<Found, PageFault>
    requires point { IsTrue ((R.M.space (R.metric ruler.old)).is_point q.now) }
    requires few_pages { live.now.pages ≤ 2 ^ 24 }
    requires some { 1 ≤ k }
    ensures metric { R.metric ruler.new ≡ R.metric ruler.old }
    ensures same { HoldsSame (P.shelf pages.old) (P.shelf pages.new) }
    ensures no_fault { OnOk result ((P.shelf pages.new).faults ≡ (P.shelf pages.old).faults) }
    ensures keeps { P.keeps pages.old pages.new }
    ensures log { IfOk result (IsLogOf live.now (Nearest q.now k)) }
    ensures nearest { IfOk result (λ found. IsTrue (P.shelf pages.old).is_known →
        IsSoundTree (R.M.space (R.metric ruler.old)) (nodes_of (P.shelf pages.old).read) live.now →
        IsNearest (R.M.space (R.metric ruler.old)) (nodes_of (P.shelf pages.old).read) live.now q.now k (P.shelf pages.old)
        (P.shelf pages.new) found) }
    ensures front { IfOk result (λ found. IsTrue (P.shelf pages.old).is_known →
        IsFront (R.M.space (R.metric ruler.old)) (nodes_of (P.shelf pages.old).read) live.now q.now k found.log) }
    // The objects that the log's walk meets, with their tags.
    ensures tagged { IfOk result (λ found. IsTrue (P.shelf pages.old).is_known →
        found.tagged ≡ tagged_by (R.M.space (R.metric ruler.old)) q.now (nodes_of (P.shelf pages.old).read) live.now.root
        found.log.records) }
    ensures cause { IfErr result (HasNearestCause live.now (P.shelf pages.old) (P.shelf pages.new)) }
    // Whatever the result, at most as many pages are asked for, and read, as the file has.
    ensures asked { CountsUpTo (P.shelf pages.old).asked (P.shelf pages.new).asked live.now.pages }
    ensures reads { (P.shelf pages.new).reads ≤ (P.shelf pages.old).reads + live.now.pages }
    // At most one distance was computed for each entry of the pages that were asked for.
    ensures measured { IsFrugal live.now.pages (P.shelf pages.old).asked (R.used ruler.old) (P.shelf pages.new).asked (R.used ruler.new) }
    // On a sound tree at most one distance was computed for each entry that the log marks.
    ensures few_measured { IfOk result (λ found. IsTrue (P.shelf pages.old).is_known →
        IsSoundTree (R.M.space (R.metric ruler.old)) (nodes_of (P.shelf pages.old).read) live.now →
        R.used ruler.new ≤ R.used ruler.old + marks_in found.log.records) }
    ensures sound { IfErr result (λ fault. IsTrue (P.shelf pages.old).is_known →
        IsSoundTree (R.M.space (R.metric ruler.old)) (nodes_of (P.shelf pages.old).read) live.now → IsPassing fault) }
{
    let point = Point::new(alloc, q)?;
    let mut machine = Machine::begin(alloc, k, live.root)?;
    let explored = explore(alloc, pages, ruler, q, live, &mut machine)?;
    let walk = rebuild_log(
        alloc,
        explored.rho,
        live,
        &machine.kept,
        explored.opened as usize,
    )?;
    let query = Query::Nearest { q: point, k };
    Ok(Found::of(alloc, live, query, walk)?)
}
