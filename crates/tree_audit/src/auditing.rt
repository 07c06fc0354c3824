// The audit of a whole tree.
ghost use Rattle.std.specs.Prelude.{◌≡◌, ◌+◌, ◌≤◌, ◌<◌, ◌^◌, [], None, length, max, IsTrue, IfOk, OnOk, IfErr};
ghost use Rattle.tree_shape.specs.Fill.{root_least};
ghost use Rattle.tree_shape.specs.Tree.{pages_at};
ghost use Rattle.page_store.specs.Reading.{nodes_of};
ghost use Rattle.page_store.specs.Shelf.{HoldsSame};
ghost use Rattle.tree_audit.specs.Audited.{audit_fault, HasAuditCause};

use crate::AuditFault;
use crate::met::Met;
use crate::walking::{Spot, Visits, walk};
use metric_laws::Ruler;
use page_store::Pages;
use std::alloc::{AllocError, Global};
use tree_shape::Live;

/// The numbers of a sound tree.
#[derive(Clone, Copy, PartialEq, Eq)]
pub struct Audited {
    /// The number of objects.
    pub objects: u32,
    /// The number of nodes.
    pub nodes: u32,
}

// Returns the least entries of a root at height `height`.
fn root_least(height: u32) -> usize
    ensures { result ≡ root_least height }
{
    if height == 0 { 0 } else { 2 }
}

/// Makes empty visits, with room for the pages and objects of a file.
pub fn visits_for(alloc: Global, live: &Live) -> Result<Visits, AllocError>
    ensures { IfOk result (λ v. v ≡ record {
      pages = record { limit = live.now.pages; met = [] };
      ids = record { limit = live.now.count; met = [] };
    }) }
{
    Ok(Visits {
        pages: Met::new(alloc, live.pages)?,
        ids: Met::new(alloc, live.count)?,
    })
}

/// Audits the live tree of a file over points of `dim` coordinates: returns the numbers of a sound tree, or the first fault in
/// the walk's order. At each page the faults are: it was met before; it gives no node; its level or number of entries is wrong. Then
/// at each entry: its point is not in the space; its stored distance is wrong; at an object, the first radius from the root down
/// that leaves it out, and an id out of range or met before; at an inner entry, the walk of its child. At the end, another number
/// of objects than the slot's. Each page is asked for once. The audit takes about 5 bytes for each page and object.
/// Clauses: what is asked of the caller (`some`, `few`, `dim`, `dimension`, `pages`); the answer (`ok`, `objects`, `nodes`); what stays
/// (`metric`, `same`, `keeps`); the cost (`asked`, `reads`, `all_asked`, `all_reads`); the cause of an error (`err`); faults of the devices
/// (`no_fault`).
pub fn audit<P: Pages, R: Ruler>(
    alloc: Global,
    pages: &mut P,
    ruler: &mut R,
    dim: u8,
    live: &Live,
) -> Result<Audited, AuditFault>
    requires some { 1 ≤ dim }
    requires few { dim ≤ 64 }
    requires dim { (P.shelf pages.old).dim ≡ dim }
    requires dimension { (R.M.space (R.metric ruler.old)).dimension ≡ dim }
    requires pages { live.now.pages ≡ (P.shelf pages.old).pages }
    ensures metric { R.metric ruler.new ≡ R.metric ruler.old }
    ensures same { HoldsSame (P.shelf pages.old) (P.shelf pages.new) }
    ensures keeps { P.keeps pages.old pages.new }
    ensures no_fault { OnOk result ((P.shelf pages.new).faults ≡ (P.shelf pages.old).faults) }
    // It is sound exactly where no fault stands.
    ensures ok { IfOk result (λ a. IsTrue (P.shelf pages.old).is_known →
        audit_fault (R.M.space (R.metric ruler.old)) (P.shelf pages.old).read live.now ≡ None) }
    ensures objects { IfOk result (λ a. a.objects ≡ live.now.count) }
    ensures nodes { IfOk result (λ a. IsTrue (P.shelf pages.old).is_known →
        a.nodes ≡ length (pages_at (nodes_of (P.shelf pages.old).read) live.now.height live.now.root)) }
    ensures err { IfErr result (HasAuditCause (P.shelf pages.old) (P.shelf pages.new)
        (audit_fault (R.M.space (R.metric ruler.old)) (P.shelf pages.old).read live.now)) }
    ensures asked { IfOk result (λ a. (P.shelf pages.new).asked ≤ (P.shelf pages.old).asked + a.nodes) }
    ensures reads { IfOk result (λ a. (P.shelf pages.new).reads ≤ (P.shelf pages.old).reads + a.nodes) }
    // Whatever the result, at most as many pages are asked for, and read, as the file has; one where it has none.
    ensures all_asked { (P.shelf pages.new).asked ≤ (P.shelf pages.old).asked + max 1 live.now.pages }
    ensures all_reads { (P.shelf pages.new).reads ≤ (P.shelf pages.old).reads + max 1 live.now.pages }
{
    let mut visits = visits_for(alloc, live)?;
    let mut path = Vec::new(alloc);
    let root = Spot {
        page: live.root,
        level: live.height,
        least: root_least(live.height),
        dim,
    };
    walk(alloc, pages, ruler, &mut visits, &mut path, root)?;
    let objects = visits.ids.len();
    if objects != live.count {
        return Err(AuditFault::Count {
            slot: live.count,
            found: objects,
        });
    }
    Ok(Audited {
        objects,
        nodes: visits.pages.len(),
    })
}
