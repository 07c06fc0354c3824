ghost use Rattle.std.specs.Prelude.{◌≡◌, ◌≤◌, ◌<◌, ◌^◌, ◌+◌, ℕ, [], ◌∷◌, length, reverse, min, IsTrue, IfOk, IfErr, OnOk};
ghost use Rattle.metric_laws.specs.Counts.{next_count, CountsUpTo};
ghost use Rattle.metric_laws.specs.Space.{bound};
ghost use Rattle.scan_model.specs.Scan.{range_hits};
ghost use Rattle.scan_model.specs.declared.query.Query.TheVariants.{Range};
ghost use Rattle.tree_shape.specs.Tree.{IsSoundTree, points_by_id};
ghost use Rattle.page_store.specs.Reading.{nodes_of};
ghost use Rattle.page_store.specs.Shelf.{Shelf, HoldsSame, HasPageCause, IsPassing};
ghost use Rattle.log_model.specs.Walk.{search_at};
ghost use Rattle.log_model.specs.Met.{tagged_by};
ghost use Rattle.range_search.specs.Searched.{IsUnderWay, HasWalkCause, IsFound};

use log_model::{Found, Need, Probe, Traversal};
use metric_laws::{BOUND, Point, Ruler};
use page_store::{PageFault, Pages};
use scan_model::Query;
use std::alloc::Global;
use tree_shape::Live;

/// The records that have room at once: many walks open no more nodes.
const SOME_RECORDS: usize = 1024;

// Opens a page that the walk needs, and processes its node.
// Clauses: what changes (`opened`, `longer`); what stays (`metric`, `same`, `keeps`); the cost (`asked`, `reads`); the cause of an error
// (`cause`); faults of the devices (`no_fault`).
fn open_page<P: Pages, R: Ruler>(
    alloc: Global,
    pages: &mut P,
    ruler: &mut R,
    probe: Probe,
    need: Need,
    walk: &mut Traversal,
) -> Result<(), PageFault>
    ensures metric { R.metric ruler.new ≡ R.metric ruler.old }
    ensures same { HoldsSame (P.shelf pages.old) (P.shelf pages.new) }
    ensures no_fault { OnOk result ((P.shelf pages.new).faults ≡ (P.shelf pages.old).faults) }
    ensures keeps { P.keeps pages.old pages.new }
    ensures opened { OnOk result ((old : Shelf) (used root : ℕ) →
        IsUnderWay (search_at (R.M.space (R.metric ruler.old)) probe.entry.q.now probe.entry.rho) old (P.shelf pages.old)
        used (R.used ruler.old) root walk.old.records.items walk.old.tagged.items (need ∷ reverse walk.old.stack.items) →
        IsUnderWay (search_at (R.M.space (R.metric ruler.old)) probe.entry.q.now probe.entry.rho) old (P.shelf pages.new)
        used (R.used ruler.new) root walk.new.records.items walk.new.tagged.items (reverse walk.new.stack.items)) }
    ensures longer { OnOk result (length walk.new.records.items ≡ length walk.old.records.items + 1) }
    ensures cause { IfErr result (HasPageCause (P.shelf pages.old) (P.shelf pages.new) need.page) }
    ensures asked { (P.shelf pages.new).asked ≡ next_count (P.shelf pages.old).asked }
    ensures reads { (P.shelf pages.new).reads ≤ (P.shelf pages.old).reads + 1 }
{
    let node = pages.node(alloc, need.page, None)?;
    walk.take_node(alloc, ruler, probe, need, node.as_ref())?;
    Ok(())
}

// Walks the live tree with the least marks. After as many pages as the file has, a further page is refused without a request.
// Clauses: the answer (`ok`, `few`); what stays (`metric`, `same`, `keeps`); the cost (`asked`, `reads`); the cause of an error (`cause`);
// faults of the devices (`no_fault`).
fn follow<P: Pages, R: Ruler>(
    alloc: Global,
    pages: &mut P,
    ruler: &mut R,
    probe: Probe,
    live: &Live,
) -> Result<Traversal, PageFault>
    ensures metric { R.metric ruler.new ≡ R.metric ruler.old }
    ensures same { HoldsSame (P.shelf pages.old) (P.shelf pages.new) }
    ensures no_fault { OnOk result ((P.shelf pages.new).faults ≡ (P.shelf pages.old).faults) }
    ensures keeps { P.keeps pages.old pages.new }
    ensures ok { IfOk result (λ walk. IsUnderWay (search_at (R.M.space (R.metric ruler.old)) probe.entry.q.now probe.entry.rho)
        (P.shelf pages.old) (P.shelf pages.new)
        (R.used ruler.old) (R.used ruler.new) live.now.root walk.records.items walk.tagged.items []) }
    ensures few { IfOk result (λ walk. length walk.records.items ≤ live.now.pages) }
    ensures cause { IfErr result (HasWalkCause (search_at (R.M.space (R.metric ruler.old)) probe.entry.q.now probe.entry.rho)
        live.now (P.shelf pages.old) (P.shelf pages.new)) }
    ensures asked { CountsUpTo (P.shelf pages.old).asked (P.shelf pages.new).asked live.now.pages }
    ensures reads { (P.shelf pages.new).reads ≤ (P.shelf pages.old).reads + live.now.pages }
{
    let mut walk = Traversal::begin(alloc, live.root, SOME_RECORDS)?;
    let mut opened = 0u32;
    while let Some(need) = walk.stack.pop() {
        if opened == live.pages {
            return Err(PageFault::Repeats(need.page));
        }
        open_page(alloc, pages, ruler, probe, need, &mut walk)?;
        opened += 1;
    }
    Ok(walk)
}

/// Returns all objects within `r` of `q`, by distance, then by id (VLDB 1997, section 3.2), and the log that shows it. The live tree
/// is walked from its root. A subtree or an object is skipped where the distances to the routing object above rule it out, and left
/// out where its own distance does.
///
/// A page that holds no node is `Bad`. A page below 3 or not below the number of pages is `Outside`. A page is `Repeats` where the
/// walk has opened as many nodes as the file has pages and needs this page too. None of these comes on a sound tree. `Disk` comes
/// where the disk failed.
/// Clauses: what is asked of the caller (`point`, `few_pages`); the answer (`scanned`, `tagged`); the answer and its cost (`found`); what
/// stays (`metric`, `same`, `keeps`); the cost (`asked`, `reads`); the cause of an error (`cause`, `sound`); faults of the devices
/// (`no_fault`).
pub fn range<P: Pages, R: Ruler>(
    alloc: Global,
    pages: &mut P,
    ruler: &mut R,
    live: &Live,
    q: &[u32],
    r: u64,
) -> Result<Found, PageFault>
    requires point { IsTrue ((R.M.space (R.metric ruler.old)).is_point q.now) }
    requires few_pages { live.now.pages ≤ 2 ^ 24 }
    ensures metric { R.metric ruler.new ≡ R.metric ruler.old }
    ensures same { HoldsSame (P.shelf pages.old) (P.shelf pages.new) }
    ensures no_fault { OnOk result ((P.shelf pages.new).faults ≡ (P.shelf pages.old).faults) }
    ensures keeps { P.keeps pages.old pages.new }
    ensures found { IfOk result (IsFound (R.M.space (R.metric ruler.old)) live.now (Range q.now r) (P.shelf pages.old)
        (P.shelf pages.new) (R.used ruler.old) (R.used ruler.new)) }
    ensures cause { IfErr result (HasWalkCause (search_at (R.M.space (R.metric ruler.old)) q.now (min r bound)) live.now
        (P.shelf pages.old) (P.shelf pages.new)) }
    // Whatever the result, at most as many pages were asked for, and read, as the file has.
    ensures asked { CountsUpTo (P.shelf pages.old).asked (P.shelf pages.new).asked live.now.pages }
    ensures reads { (P.shelf pages.new).reads ≤ (P.shelf pages.old).reads + live.now.pages }
    ensures scanned { IfOk result (λ found. IsTrue (P.shelf pages.old).is_known →
        IsSoundTree (R.M.space (R.metric ruler.old)) (nodes_of (P.shelf pages.old).read) live.now →
        found.hits ≡ range_hits (R.M.space (R.metric ruler.old)) (points_by_id (nodes_of (P.shelf pages.old).read) live.now) q.now r) }
    // The objects that the log's walk meets, with their tags.
    ensures tagged { IfOk result (λ found. IsTrue (P.shelf pages.old).is_known →
        found.tagged ≡ tagged_by (R.M.space (R.metric ruler.old)) q.now (nodes_of (P.shelf pages.old).read) live.now.root
        found.log.records) }
    ensures sound { IfErr result (λ fault. IsTrue (P.shelf pages.old).is_known →
        IsSoundTree (R.M.space (R.metric ruler.old)) (nodes_of (P.shelf pages.old).read) live.now → IsPassing fault) }
{
    let point = Point::new(alloc, q)?;
    let probe = Probe {
        q,
        rho: r.min(BOUND),
    };
    let walk = follow(alloc, pages, ruler, probe, live)?;
    let query = Query::Range { q: point, r };
    Ok(Found::of(alloc, live, query, walk)?)
}
