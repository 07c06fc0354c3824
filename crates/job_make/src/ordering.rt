// Puts the objects of a live tree in order of id.
ghost use Rattle.std.specs.Prelude.{◌≡◌, ◌⊎◌, ◌++◌, ℕ, [], ◌∷◌, length, map, All, IsTrue, IfOk, IfErr, OnOk};
ghost use Rattle.tree_shape.specs.Tree.{IsSoundTree, points_by_id, tags_by_id};
ghost use Rattle.page_store.specs.Reading.{nodes_of};
ghost use Rattle.page_store.specs.Shelf.{HoldsSame};
ghost use Rattle.job_make.specs.Ordering.{AreInSpace, AreNumbered, HasTakingCause, rejection};

use crate::collecting::collect;
use crate::filling::Objects;
use metric_laws::{Metric, Rows};
use page_store::{PageFault, Pages};
use std::alloc::{AllocError, Global};
use tree_audit::AuditFault;
use tree_shape::laws::objects_fit;
use tree_shape::{LeafEntry, Live};

// Maps the fault of a walk to an auditor's fault.
fn rejection(fault: PageFault) -> AuditFault
    ensures { result ≡ rejection fault }
{
    match fault {
        PageFault::Memory => AuditFault::Memory,
        PageFault::Repeats(page) => AuditFault::Twice(page),
        fault => AuditFault::Page(fault),
    }
}

// Returns whether an object has the id `id` and a point of the space.
fn is_next<M: Metric>(metric: &M, entry: &LeafEntry, id: usize) -> bool
    ensures yes { IsTrue result → (entry.now.id ≡ id) × IsTrue ((M.space metric.now).is_point entry.now.point) }
    ensures no { entry.now.id ≡ id → IsTrue ((M.space metric.now).is_point entry.now.point) → IsTrue result }
{
    entry.id as usize == id && metric.is_point(entry.point.as_slice())
}

// Appends an object. After an `Err` the objects may be anything.
fn put_last(objects: &mut Objects, entry: &LeafEntry) -> Result<(), AllocError>
    requires { length entry.now.point ≡ objects.old.rows.dimension }
    ensures rows { OnOk result (objects.new.rows ≡ record objects.old.rows { points = objects.old.rows.points ++ entry.now.point ∷ [] }) }
    ensures tags { OnOk result (objects.new.tags.items ≡ objects.old.tags.items ++ entry.now.tag ∷ []) }
{
    objects.rows.push(entry.point.as_slice())?;
    objects.tags.push(entry.tag)?;
    Ok(())
}

// Takes objects in order. Each has to have the next id, from 0 on, and a point of the space. `Id` names the first that has not.
fn take_in_order<M: Metric>(
    alloc: Global,
    metric: M,
    entries: &[LeafEntry],
) -> Result<Objects, AuditFault>
    ensures points { IfOk result (λ o. o.rows.points ≡ map (λ e. e.point) entries.now) }
    ensures tags { IfOk result (λ o. o.tags.items ≡ map (λ e. e.tag) entries.now) }
    ensures numbered { OnOk result (AreNumbered 0 entries.now) }
    ensures is_point { OnOk result (AreInSpace (M.space metric) entries.now) }
    ensures kind { IfErr result (λ fault. (fault ≡ AuditFault.Memory) ⊎ ((id : ℕ) × (fault ≡ AuditFault.Id id))) }
    ensures cause { IfErr result (λ fault. AreNumbered 0 entries.now → AreInSpace (M.space metric) entries.now →
        fault ≡ AuditFault.Memory) }
{
    let mut objects = Objects {
        rows: Rows::new(alloc, metric.dimension()),
        tags: Vec::new(alloc),
    };
    for (id, entry) in entries.iter().enumerate() {
        if !is_next(&metric, entry, id) {
            return Err(AuditFault::Id(entry.id));
        }
        match put_last(&mut objects, entry) {
            Ok(()) => {}
            Err(_) => return Err(AuditFault::Memory),
        }
    }
    Ok(objects)
}

/// Returns the objects of the live tree in order of id, each with a point of the space. On a sound tree it fails only where the disk
/// fails or memory runs out. On another tree it may fail as an auditor would.
pub fn objects_of<P: Pages, M: Metric>(
    alloc: Global,
    pages: &mut P,
    metric: M,
    live: &Live,
) -> Result<Objects, AuditFault>
    ensures same { HoldsSame (P.shelf pages.old) (P.shelf pages.new) }
    ensures keeps { P.keeps pages.old pages.new }
    ensures is_point { IfOk result (λ o. All (λ p. IsTrue ((M.space metric).is_point p)) o.rows.points) }
    ensures count { IfOk result (λ o. length o.rows.points ≡ live.now.count) }
    ensures tag_count { IfOk result (λ o. length o.tags.items ≡ length o.rows.points) }
    ensures points { IfOk result (λ o. IsTrue (P.shelf pages.old).is_known →
        IsSoundTree (M.space metric) (nodes_of (P.shelf pages.old).read) live.now →
        o.rows.points ≡ points_by_id (nodes_of (P.shelf pages.old).read) live.now) }
    ensures tags { IfOk result (λ o. IsTrue (P.shelf pages.old).is_known →
        IsSoundTree (M.space metric) (nodes_of (P.shelf pages.old).read) live.now →
        o.tags.items ≡ tags_by_id (nodes_of (P.shelf pages.old).read) live.now) }
    ensures cause { IfErr result (HasTakingCause
        (IsTrue (P.shelf pages.old).is_known × IsSoundTree (M.space metric) (nodes_of (P.shelf pages.old).read) live.now)
        (P.shelf pages.old).faults (P.shelf pages.new).faults) }
{
    objects_fit();
    let mut entries = match collect(alloc, pages, live) {
        Ok(entries) => entries,
        Err(fault) => return Err(rejection(fault)),
    };
    if entries.len() != live.count as usize {
        return Err(AuditFault::Count {
            slot: live.count,
            found: u32::try_from(entries.len()).unwrap_or(u32::MAX),
        });
    }
    entries.sort_unstable_by_key(|entry| entry.id);
    take_in_order(alloc, metric, entries.as_slice())
}
