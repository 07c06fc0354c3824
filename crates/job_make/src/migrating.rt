// Does the job `migrate`: makes a new index of the objects of a file of version 1.
ghost use Rattle.std.specs.Prelude.{◌≡◌, ◌⊎◌, ◌≤◌, ◌^◌, length, All, IsTrue, IfOk, IfErr, OnOk, codes};
ghost use Rattle.outside_io.specs.Causes.{Rose};
ghost use Rattle.disk_model.specs.Disk.{IsUnchanged};
ghost use Rattle.tree_shape.specs.Tree.{IsSoundTree, points_by_id, tags_by_id};
ghost use Rattle.node_page.specs.Heads.{IsValidHead};
ghost use Rattle.node_page.specs.Opening.{OpensTo};
ghost use Rattle.std.specs.Io.KnownBytes.{Appends};
ghost use Rattle.outside_io.specs.Bytes.{AppendsPrefix};
ghost use Rattle.outside_io.specs.Sinks.{Tells};
ghost use Rattle.page_store.specs.Reading.{nodes_of};
ghost use Rattle.page_store.specs.Shelf.{HoldsSame};
ghost use Rattle.tree_audit.specs.Audited.{audit_fault};
ghost use Rattle.tree_audit.specs.Laws.{HasNodesWithin};
ghost use Rattle.job_files.specs.Spaces.{space_of};
ghost use Rattle.job_make.specs.Jobs.{Fills, IsFillStatus};
ghost use Rattle.job_make.specs.Migrating.{HasOldFault, IsMigrateStatus, IsOldFile, Migrates, RefusesNew, RefusesNothing, RefusesOld, migrated_text, old_fault, old_nodes, renewed};

use crate::filling::Objects;
use crate::generating::{make_filled, push_counted};
use crate::ordering::objects_of;
use bulk_load::Alone;
use disk_model::Disk;
use job_files::{
    FAULT_DISK, FAULT_MEMORY, FAULT_NOT_EMPTY, FAULT_VERSION, end_rejected, end_unopened, end_with,
    put_line, space_of,
};
use metric_laws::{Meter, Metric};
use node_page::laws::{fault_is_not_open, one_live_slot};
use node_page::{Head, Version};
use outside_io::{Sink, Status};
use page_store::{DiskPages, Pages};
use shadow_root::open;
use std::alloc::Global;
use tree_audit::laws::audit_faults_are_unsoundness;
use tree_audit::{AuditFault, audit};
use tree_shape::Live;

// Checks that the file is empty.
fn want_empty<D: Disk, K: Sink>(disk: &mut D, out: &mut K) -> Result<(), Status>
    ensures same { IsUnchanged (D.state disk.old) (D.state disk.new) }
    ensures reads { (D.state disk.new).reads ≡ (D.state disk.old).reads }
    ensures empty { OnOk result (IsTrue (D.state disk.old).is_known → length (D.state disk.old).bytes ≡ 0) }
    ensures silent { OnOk result (out.new ≡ out.old) }
    ensures refuses { IfErr result (λ status. RefusesNew (D.state disk.old) (D.state disk.new)
        (K.state out.old) (K.state out.new) status.0) }
    ensures later { (D.state disk.old).faults ≤ (D.state disk.new).faults }
    ensures out_later { (K.state out.old).faults ≤ (K.state out.new).faults }
{
    match disk.size() {
        Ok(0) => Ok(()),
        Ok(_) => Err(end_with(out, FAULT_NOT_EMPTY, 6)),
        Err(_) => Err(end_with(out, FAULT_DISK, 5)),
    }
}

// Opens a file of version 1. Otherwise it writes why the file is none.
// Clauses: the answer (`opens`, `version`, `head`, `pages`, `count`); what stays (`same`, `silent`); which statuses come (`unwritten`); the
// cause of an error (`refuses`); faults of the devices (`later`, `out_later`).
fn open_old<D: Disk, K: Sink>(disk: &mut D, out: &mut K) -> Result<(Head, Live), Status>
    ensures same { IsUnchanged (D.state disk.old) (D.state disk.new) }
    ensures opens { IfOk result (λ opened. IsTrue (D.state disk.old).is_known → OpensTo (D.state disk.old).bytes opened.0 opened.1) }
    ensures version { IfOk result (λ opened. opened.0.version ≡ 1) }
    ensures head { IfOk result (λ opened. IsValidHead opened.0) }
    ensures pages { IfOk result (λ opened. opened.1.pages ≤ 2 ^ 24) }
    ensures count { IfOk result (λ opened. opened.1.count ≤ opened.0.limit) }
    ensures silent { OnOk result (out.new ≡ out.old) }
    ensures refuses { IfErr result (λ status. RefusesOld (D.state disk.old) (D.state disk.new)
        (K.state out.old) (K.state out.new) status.0) }
    ensures unwritten { IfErr result (λ status. (status.0 ≡ 5) ⊎ (status.0 ≡ 6)) }
    ensures later { (D.state disk.old).faults ≤ (D.state disk.new).faults }
    ensures out_later { (K.state out.old).faults ≤ (K.state out.new).faults }
{
    match open(disk) {
        Ok((head, live)) => {
            if head.version != 1 {
                return Err(end_with(out, FAULT_VERSION, 6));
            }
            Ok((head, live))
        }
        Err(fault) => Err(end_unopened(fault, out)),
    }
}

// Audits a live tree over points of `dim` coordinates, and returns its objects.
// Clauses: what is asked of the caller (`some`, `few`, `dim`, `dimension`, `pages`, `within`); the answer (`is_point`, `count`,
// `tag_count`, `sound`, `points`, `tags`); what stays (`same`, `keeps`); the cause of an error (`fault`).
fn audited<P: Pages, M: Metric>(
    alloc: Global,
    pages: &mut P,
    metric: M,
    dim: u8,
    live: &Live,
) -> Result<Objects, AuditFault>
    requires some { 1 ≤ dim }
    requires few { dim ≤ 64 }
    requires dim { (P.shelf pages.old).dim ≡ dim }
    requires dimension { (M.space metric).dimension ≡ dim }
    requires pages { live.now.pages ≡ (P.shelf pages.old).pages }
    requires within { HasNodesWithin (P.shelf pages.old).read live.now.pages }
    ensures same { HoldsSame (P.shelf pages.old) (P.shelf pages.new) }
    ensures keeps { P.keeps pages.old pages.new }
    ensures is_point { IfOk result (λ o. All (λ p. IsTrue ((M.space metric).is_point p)) o.rows.points) }
    ensures count { IfOk result (λ o. length o.rows.points ≡ live.now.count) }
    ensures tag_count { IfOk result (λ o. length o.tags.items ≡ length o.rows.points) }
    ensures sound { OnOk result (IsTrue (P.shelf pages.old).is_known →
        IsSoundTree (M.space metric) (nodes_of (P.shelf pages.old).read) live.now) }
    ensures points { IfOk result (λ o. IsTrue (P.shelf pages.old).is_known →
        o.rows.points ≡ points_by_id (nodes_of (P.shelf pages.old).read) live.now) }
    ensures tags { IfOk result (λ o. IsTrue (P.shelf pages.old).is_known →
        o.tags.items ≡ tags_by_id (nodes_of (P.shelf pages.old).read) live.now) }
    ensures fault { IfErr result (HasOldFault (P.shelf pages.old).is_known (P.shelf pages.old).faults (P.shelf pages.new).faults
        (audit_fault (M.space metric) (P.shelf pages.old).read live.now)) }
{
    audit_faults_are_unsoundness();
    let mut ruler = Meter::new(metric);
    audit(alloc, pages, &mut ruler, dim, live)?;
    objects_of(alloc, pages, metric, live)
}

// Audits the live tree of an opened file of version 1, and returns its objects.
// Clauses: what is asked of the caller (`head`, `pages`); the answer (`is_point`, `count`, `tag_count`, `sound`, `points`, `tags`); what
// stays (`same`); the cause of an error (`fault`); faults of the devices (`later`).
fn audited_objects<D: Disk>(
    alloc: Global,
    disk: &mut D,
    head: &Head,
    live: &Live,
) -> Result<Objects, AuditFault>
    requires head { IsValidHead head.now }
    requires pages { live.now.pages ≤ 2 ^ 24 }
    ensures same { IsUnchanged (D.state disk.old) (D.state disk.new) }
    ensures is_point { IfOk result (λ o. All (λ p. IsTrue ((space_of head.now).is_point p)) o.rows.points) }
    ensures count { IfOk result (λ o. length o.rows.points ≡ live.now.count) }
    ensures tag_count { IfOk result (λ o. length o.tags.items ≡ length o.rows.points) }
    ensures sound { OnOk result (IsTrue (D.state disk.old).is_known →
        IsSoundTree (space_of head.now) (old_nodes head.now live.now (D.state disk.old).bytes) live.now) }
    ensures points { IfOk result (λ o. IsTrue (D.state disk.old).is_known →
        o.rows.points ≡ points_by_id (old_nodes head.now live.now (D.state disk.old).bytes) live.now) }
    ensures tags { IfOk result (λ o. IsTrue (D.state disk.old).is_known →
        o.tags.items ≡ tags_by_id (old_nodes head.now live.now (D.state disk.old).bytes) live.now) }
    ensures fault { IfErr result (HasOldFault (D.state disk.old).is_known (D.state disk.old).faults (D.state disk.new).faults
        (old_fault head.now live.now (D.state disk.old).bytes)) }
    ensures later { (D.state disk.old).faults ≤ (D.state disk.new).faults }
{
    let mut pages = DiskPages::of_version(disk, head.dim, live.pages, Version::First);
    audited(alloc, &mut pages, space_of(head), head.dim, live)
}

// Returns the head and the objects of a sound file of version 1. Otherwise it writes why the file is none, and returns the status.
// Clauses: the answer (`is`, `head`, `is_point`, `few`, `tag_count`); what stays (`same`, `silent`); the cause of an error (`refuses`,
// `rose`); faults of the devices (`later`, `out_later`).
fn read_old<D: Disk, K: Sink>(
    alloc: Global,
    disk: &mut D,
    out: &mut K,
) -> Result<(Head, Objects), Status>
    ensures same { IsUnchanged (D.state disk.old) (D.state disk.new) }
    ensures is { IfOk result (λ old. IsTrue (D.state disk.old).is_known →
        IsOldFile old.0 old.1.rows.points old.1.tags.items (D.state disk.old).bytes) }
    ensures head { IfOk result (λ old. IsValidHead old.0) }
    ensures is_point { IfOk result (λ old. All (λ p. IsTrue ((space_of old.0).is_point p)) old.1.rows.points) }
    ensures few { IfOk result (λ old. length old.1.rows.points ≤ old.0.limit) }
    ensures tag_count { IfOk result (λ old. length old.1.tags.items ≡ length old.1.rows.points) }
    ensures silent { OnOk result (out.new ≡ out.old) }
    ensures refuses { IfErr result (λ status. RefusesOld (D.state disk.old) (D.state disk.new)
        (K.state out.old) (K.state out.new) status.0) }
    ensures rose { IfErr result (λ status. status.0 ≡ 4 → Rose (K.state out.old).faults (K.state out.new).faults) }
    ensures later { (D.state disk.old).faults ≤ (D.state disk.new).faults }
    ensures out_later { (K.state out.old).faults ≤ (K.state out.new).faults }
{
    let (head, live) = open_old(disk, out)?;
    match audited_objects(alloc, disk, &head, &live) {
        Ok(objects) => Ok((head, objects)),
        Err(fault) => Err(end_rejected(alloc, fault, out)),
    }
}

// Returns the same head with version 2.
fn renewed(head: &Head) -> Head
    requires { IsValidHead head.now }
    ensures head { result ≡ renewed head.now }
    ensures valid { IsValidHead result }
{
    Head {
        version: 2,
        ..*head
    }
}

// Ends the job with the line that gives the number of objects.
fn end_migrated<K: Sink>(alloc: Global, objects: usize, out: &mut K) -> Status
    ensures done { result.0 ≡ 0 → Appends (K.state out.old).written (K.state out.new).written (migrated_text objects) }
    ensures part { result.0 ≡ 4 → AppendsPrefix (K.state out.old).written (K.state out.new).written (migrated_text objects) }
    ensures memory { result.0 ≡ 8 → Tells (K.state out.old) (K.state out.new) (codes "fault memory\n") }
    ensures statuses { (result.0 ≡ 0) ⊎ ((result.0 ≡ 4) ⊎ (result.0 ≡ 8)) }
    ensures later { (K.state out.old).faults ≤ (K.state out.new).faults }
    ensures rose { result.0 ≡ 4 → Rose (K.state out.old).faults (K.state out.new).faults }
{
    let mut text = Vec::new(alloc);
    if push_counted(b"migrated ", objects as u64, &mut text).is_err() {
        return end_with(out, FAULT_MEMORY, 8);
    }
    put_line(out, &text, 0)
}

// Fills a new index with the old head, but of version 2, and the old objects.
fn move_objects<D: Disk, K: Sink>(
    alloc: Global,
    index: &mut D,
    head: &Head,
    objects: &Objects,
    out: &mut K,
) -> Status
    requires valid { IsValidHead head.now }
    requires is_point { All (λ p. IsTrue ((space_of head.now).is_point p)) objects.now.rows.points }
    requires few { length objects.now.rows.points ≤ head.now.limit }
    requires tags { length objects.now.tags.items ≡ length objects.now.rows.points }
    ensures fills { Fills (renewed head.now) objects.now.rows.points objects.now.tags.items
        (λ file text. text ≡ migrated_text (length objects.now.rows.points))
        (D.state index.old) (D.state index.new) (K.state out.old) (K.state out.new) result.0 }
    ensures statuses { IsFillStatus result.0 }
    ensures later { (K.state out.old).faults ≤ (K.state out.new).faults }
    ensures rose { result.0 ≡ 4 → Rose (K.state out.old).faults (K.state out.new).faults }
{
    let made = make_filled(&Alone, alloc, index, &renewed(head), 1, objects, out);
    let _index = match made {
        Ok(index) => index,
        Err(status) => return status,
    };
    end_migrated(alloc, objects.rows.len(), out)
}

// Does the job.
fn migrate<D: Disk, E: Disk, K: Sink>(
    alloc: Global,
    index: &mut D,
    other: &mut E,
    out: &mut K,
) -> Status
    ensures migrates { Migrates (D.state index.old) (D.state index.new) (E.state other.old) (E.state other.new)
        (K.state out.old) (K.state out.new) result.0 }
    ensures later { (K.state out.old).faults ≤ (K.state out.new).faults }
    ensures rose { result.0 ≡ 4 → Rose (K.state out.old).faults (K.state out.new).faults }
{
    if let Err(status) = want_empty(index, out) {
        return status;
    }
    match read_old(alloc, other, out) {
        Ok((head, objects)) => move_objects(alloc, index, &head, &objects, out),
        Err(status) => status,
    }
}

/// Makes an index in the empty file `index` from the file `other` of version 1: with its objects, its space, its policies and its
/// limit. Writes `migrated` and the number of objects. The objects keep their ids and tags, and the tree is that of bulk loading.
/// `other` is only read. `index` stays as it is unless it is empty and `other` is sound. Status 1: `other` is not sound, and its
/// first fault is written; 4: the line could not be written; 5: a disk failed; 6: `index` holds something, or `other` does not open
/// as a file of version 1; 8: memory ran out; 9: a page of the new index is damaged, which comes only on a disk that does not tell
/// its bytes.
pub fn migrate_index<D: Disk, E: Disk, K: Sink>(
    alloc: Global,
    index: &mut D,
    other: &mut E,
    out: &mut K,
) -> Status
    ensures migrates { Migrates (D.state index.old) (D.state index.new) (E.state other.old) (E.state other.new)
        (K.state out.old) (K.state out.new) result.0 }
    // Where the new file is empty and the old file is sound, nothing is refused.
    ensures complete { RefusesNothing (D.state index.old) (E.state other.old) result.0 }
    ensures statuses { IsMigrateStatus result.0 }
    ensures disk { result.0 ≡ 5 → Rose (D.state index.old).faults (D.state index.new).faults
        ⊎ Rose (E.state other.old).faults (E.state other.new).faults }
    ensures rose { result.0 ≡ 4 → Rose (K.state out.old).faults (K.state out.new).faults }
    ensures later { (K.state out.old).faults ≤ (K.state out.new).faults }
{
    fault_is_not_open();
    one_live_slot();
    audit_faults_are_unsoundness();
    migrate(alloc, index, other, out)
}
