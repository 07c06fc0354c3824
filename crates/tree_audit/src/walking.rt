// The walk of an audit.
ghost use Rattle.std.specs.Prelude.{◌≡◌, ◌≢◌, ◌⊎◌, ℕ, List, [], ◌∷◌, ◌++◌, ◌+◌, ◌-◌, ◌≤◌, ◌<◌, ◌^◌, ◌==◌, ◌&&◌, nat_le, length, slice_index_or, Option, None, Result, Ok, Err, IsTrue, IfOk, OnOk, OnErr, IfErr};
ghost use Rattle.metric_laws.specs.Counts.{next_count};
ghost use Rattle.tree_shape.specs.Entries.{inner_of, leaf_of};
ghost use Rattle.tree_shape.specs.Fill.{least_for, most_for};
ghost use Rattle.metric_laws.specs.Space.{Space};
ghost use Rattle.tree_shape.specs.Tree.{parent_distance, times};
ghost use Rattle.tree_audit.specs.declared.walking.Step.{Step};
ghost use Rattle.page_store.specs.Shelf.{HoldsSame, IsNodeOf};
ghost use Rattle.tree_audit.specs.Audited.{Seen, first_outside, if_inside, check_object, check_entry, each_entry, last_point, audited_at, is_filled, step, IsWalkFault};
ghost use Rattle.tree_audit.specs.Met.{AreFewer};
ghost use Rattle.tree_audit.specs.Visits.{seen_of, leaf_told, IsEntryFault, IsOpenFault};

use crate::AuditFault;
use crate::met::Met;
use metric_laws::{Point, Ruler};
use page_store::{PageFault, Pages, SharedNode};
use std::alloc::{AllocError, Global};
use tree_shape::{InnerRef, LeafEntries, LeafRef, Node, fill};

/// A routing entry on the way from the root.
#[derive(Drop)]
pub struct Step {
    /// The page of its node.
    pub page: u32,
    /// Its place in the node.
    pub place: u32,
    /// Its covering radius.
    pub radius: u64,
    /// Its routing point.
    pub point: Point,
}

/// The pages that the walk went to and the ids that it met.
#[derive(Drop)]
pub struct Visits {
    /// The pages, all of them below the live slot's number of pages.
    pub pages: Met,
    /// The ids, all of them below the live slot's count.
    pub ids: Met,
}

/// Where the walk stands.
#[derive(Clone, Copy)]
pub struct Spot {
    /// The page.
    pub page: u32,
    /// The level that the page's node has to have.
    pub level: u32,
    /// The least entries that it has to have.
    pub least: usize,
    /// The number of coordinates of a point.
    pub dim: u8,
}

// Returns the parent distance that has to be stored beside `p`.
fn parent_of<R: Ruler>(ruler: &mut R, path: &[Step], p: &[u32]) -> u64
    ensures same { R.metric ruler.new ≡ R.metric ruler.old }
    ensures value { result ≡ parent_distance (R.M.space (R.metric ruler.old)) (last_point path.now) p.now }
{
    match path.last() {
        None => 0,
        Some(step) => ruler.dist(p, step.point.as_slice()),
    }
}

// Returns the distance of a point to that of step `i`. For the last step it is the stored one, which was measured.
fn distance_to<R: Ruler>(ruler: &mut R, path: &[Step], i: usize, p: &[u32], stored: u64) -> u64
    requires i { i < length path.now }
    requires stored { stored ≡ parent_distance (R.M.space (R.metric ruler.old)) (last_point path.now) p.now }
    ensures same { R.metric ruler.new ≡ R.metric ruler.old }
    ensures value { (step : Step) → step ≡ slice_index_or path.now i step →
        result ≡ (R.M.space (R.metric ruler.old)).dist p.now step.point }
{
    if i + 1 == path.len() {
        stored
    } else {
        ruler.dist(p, path[i].point.as_slice())
    }
}

// Checks that the object lies within the radius of each step, from the root down.
fn audit_inside<R: Ruler>(
    ruler: &mut R,
    path: &[Step],
    p: &[u32],
    stored: u64,
    id: u32,
) -> Result<(), AuditFault>
    requires { stored ≡ parent_distance (R.M.space (R.metric ruler.old)) (last_point path.now) p.now }
    ensures same { R.metric ruler.new ≡ R.metric ruler.old }
    ensures ok { OnOk result (first_outside (R.M.space (R.metric ruler.old)) path.now p.now ≡ None) }
    ensures err { IfErr result (λ v. (rest : Result Seen AuditFault) →
        IsEntryFault (if_inside (first_outside (R.M.space (R.metric ruler.old)) path.now p.now) id rest) v) }
{
    for i in 0..path.len() {
        let step = &path[i];
        if distance_to(ruler, path, i, p, stored) > step.radius {
            return Err(AuditFault::Radius(step.page, step.place, id));
        }
    }
    Ok(())
}

// Audits one object of a leaf.
fn audit_object<R: Ruler>(
    ruler: &mut R,
    path: &[Step],
    page: u32,
    place: u32,
    object: LeafRef,
    ids: &mut Met,
) -> Result<(), AuditFault>
    ensures same { R.metric ruler.new ≡ R.metric ruler.old }
    ensures limit { ids.new.limit ≡ ids.old.limit }
    ensures ok { OnOk result ((ps : List ℕ) →
        check_object (R.M.space (R.metric ruler.old)) ids.old.limit (last_point path.now) path.now page place (leaf_of object.entry)
        (record { pages = ps; ids = ids.old.met })
        ≡ Ok (record { pages = ps; ids = ids.new.met })) }
    ensures err { IfErr result (λ v. (ps : List ℕ) →
        IsEntryFault (check_object (R.M.space (R.metric ruler.old)) ids.old.limit (last_point path.now) path.now page place
        (leaf_of object.entry) (record { pages = ps; ids = ids.old.met })) v) }
{
    let point = object.point;
    if !ruler.is_point(point) {
        return Err(AuditFault::Unfit(page, place));
    }
    if object.parent != parent_of(ruler, path, point) {
        return Err(AuditFault::ParentDistance(page, place));
    }
    audit_inside(ruler, path, point, object.parent, object.id)?;
    if object.id >= ids.limit() || ids.has(object.id) {
        return Err(AuditFault::Id(object.id));
    }
    ids.add(object.id)?;
    Ok(())
}

// Audits the objects of a leaf.
fn audit_objects<R: Ruler>(
    ruler: &mut R,
    path: &[Step],
    page: u32,
    objects: &LeafEntries,
    ids: &mut Met,
) -> Result<(), AuditFault>
    requires { length objects.now < 2 ^ 32 }
    ensures same { R.metric ruler.new ≡ R.metric ruler.old }
    ensures limit { ids.new.limit ≡ ids.old.limit }
    ensures ok { OnOk result ((ps : List ℕ) →
        each_entry (check_object (R.M.space (R.metric ruler.old)) ids.old.limit (last_point path.now) path.now page) 0 objects.now
        (record { pages = ps; ids = ids.old.met })
        ≡ Ok (record { pages = ps; ids = ids.new.met })) }
    ensures err { IfErr result (λ v. (ps : List ℕ) →
        IsEntryFault (each_entry (check_object (R.M.space (R.metric ruler.old)) ids.old.limit (last_point path.now) path.now page)
        0 objects.now (record { pages = ps; ids = ids.old.met })) v) }
{
    for i in 0..objects.len() {
        audit_object(ruler, path, page, i as u32, objects.at(i), ids)?;
    }
    Ok(())
}

// Audits an entry of an inner node, before its child.
fn audit_entry<R: Ruler>(
    ruler: &mut R,
    path: &[Step],
    page: u32,
    place: u32,
    entry: InnerRef,
) -> Result<(), AuditFault>
    ensures same { R.metric ruler.new ≡ R.metric ruler.old }
    ensures ok { OnOk result ((rest : Result Seen AuditFault) →
        check_entry (R.M.space (R.metric ruler.old)) (last_point path.now) page place (inner_of entry.entry) rest ≡ rest) }
    ensures err { IfErr result (λ v. (rest : Result Seen AuditFault) →
        IsEntryFault (check_entry (R.M.space (R.metric ruler.old)) (last_point path.now) page place (inner_of entry.entry) rest) v) }
{
    let point = entry.point;
    if !ruler.is_point(point) {
        return Err(AuditFault::Unfit(page, place));
    }
    if entry.parent != parent_of(ruler, path, point) {
        return Err(AuditFault::ParentDistance(page, place));
    }
    Ok(())
}

// Reads the node of `page`.
fn open_page<P: Pages>(alloc: Global, pages: &mut P, page: u32) -> Result<SharedNode, AuditFault>
    ensures ok { IfOk result (IsNodeOf (P.shelf pages.old) page) }
    ensures err { IfErr result (IsOpenFault (P.shelf pages.old) (P.shelf pages.new) page) }
    ensures same { HoldsSame (P.shelf pages.old) (P.shelf pages.new) }
    ensures asked { (P.shelf pages.new).asked ≡ next_count (P.shelf pages.old).asked }
    ensures reads { (P.shelf pages.new).reads ≤ (P.shelf pages.old).reads + 1 }
    ensures keeps { P.keeps pages.old pages.new }
    ensures no_fault { OnOk result ((P.shelf pages.new).faults ≡ (P.shelf pages.old).faults) }
{
    match pages.node(alloc, page, None) {
        Ok(node) => Ok(node),
        Err(PageFault::Memory) => Err(AuditFault::Memory),
        Err(fault) => Err(AuditFault::Page(fault)),
    }
}

// Returns whether `count` entries are enough and not too many.
fn is_filled(at: &Spot, count: usize) -> bool
    requires some { 1 ≤ at.now.dim }
    requires few { at.now.dim ≤ 64 }
    ensures { result ≡ (nat_le at.now.least count && nat_le count (most_for at.now.dim)) }
{
    at.least <= count && count <= fill(at.dim).most
}

// Audits the objects of a leaf where the walk stands.
fn audit_leaf<R: Ruler>(
    ruler: &mut R,
    path: &[Step],
    at: &Spot,
    objects: &LeafEntries,
    ids: &mut Met,
) -> Result<(), AuditFault>
    requires some { 1 ≤ at.now.dim }
    requires few { at.now.dim ≤ 64 }
    requires dimension { (R.M.space (R.metric ruler.old)).dimension ≡ at.now.dim }
    requires count { length objects.now < 2 ^ 32 }
    ensures same { R.metric ruler.new ≡ R.metric ruler.old }
    ensures limit { ids.new.limit ≡ ids.old.limit }
    ensures ok { OnOk result ((ps : List ℕ) →
        leaf_told (R.M.space (R.metric ruler.old)) ids.old.limit at.now.level at.now.least path.now at.now.page objects.now
        (record { pages = ps; ids = ids.old.met })
        ≡ Ok (record { pages = ps; ids = ids.new.met })) }
    ensures err { IfErr result (λ v. (ps : List ℕ) →
        IsEntryFault (leaf_told (R.M.space (R.metric ruler.old)) ids.old.limit at.now.level at.now.least path.now at.now.page
        objects.now (record { pages = ps; ids = ids.old.met })) v) }
{
    if at.level != 0 || !is_filled(at, objects.len()) {
        return Err(AuditFault::Fill(at.page));
    }
    audit_objects(ruler, path, at.page, objects, ids)
}

// Reads the node of a page that the walk reaches.
// Clauses: what is asked of the caller (`limit`, `fewer`); the answer (`ok`); when it succeeds (`new`); what changes (`noted`); what stays
// (`same`, `keeps`, `limit`, `fewer`); the cost (`asked`, `reads`); what an error leaves (`unseen`); the cause of an error (`err`); faults
// of the devices (`no_fault`).
fn arrive<P: Pages>(
    alloc: Global,
    pages: &mut P,
    seen: &mut Met,
    page: u32,
) -> Result<SharedNode, AuditFault>
    requires limit { seen.old.limit ≡ (P.shelf pages.old).pages }
    requires fewer { AreFewer seen.old }
    ensures ok { IfOk result (IsNodeOf (P.shelf pages.old) page) }
    ensures new { OnOk result (times page seen.old.met ≡ 0) }
    ensures noted { OnOk result (seen.new.met ≡ seen.old.met ++ page ∷ []) }
    ensures limit { seen.new.limit ≡ seen.old.limit }
    ensures fewer { AreFewer seen.new }
    ensures unseen { OnErr result (seen.new ≡ seen.old) }
    ensures err { IfErr result (λ v. (s : Space) (count h least : ℕ) (path : List Step) (ids : List ℕ)
        → IsWalkFault (P.shelf pages.old) (P.shelf pages.new) (audited_at s (P.shelf pages.old).read count h least path page
        (record { pages = seen.old.met; ids = ids })) v) }
    ensures same { HoldsSame (P.shelf pages.old) (P.shelf pages.new) }
    ensures asked { (P.shelf pages.new).asked ≤ (P.shelf pages.old).asked + 1 }
    ensures reads { (P.shelf pages.new).reads ≤ (P.shelf pages.old).reads + 1 }
    ensures keeps { P.keeps pages.old pages.new }
    ensures no_fault { OnOk result ((P.shelf pages.new).faults ≡ (P.shelf pages.old).faults) }
{
    if seen.has(page) {
        return Err(AuditFault::Twice(page));
    }
    let node = open_page(alloc, pages, page)?;
    seen.add(page)?;
    Ok(node)
}

// Makes the step to a child.
fn step_to(alloc: Global, page: u32, place: u32, entry: InnerRef) -> Result<Step, AllocError>
    ensures { IfOk result (λ t. t ≡ step page place (inner_of entry.entry)) }
{
    Ok(Step {
        page,
        place,
        radius: entry.radius,
        point: Point::new(alloc, entry.point)?,
    })
}

/// Goes down to the child of `entry`, which is audited before: the step to it stands last on the path.
/// Clauses: what is asked of the caller (`some`, `few`, `above`); the answer (`page`, `level`, `least`, `dim`); what changes (`path`); when
/// it succeeds (`ok`); what stays (`same`); the cause of an error (`err`).
pub fn step_down<R: Ruler>(
    alloc: Global,
    ruler: &mut R,
    path: &mut Vec<Step>,
    at: &Spot,
    place: u32,
    entry: InnerRef,
) -> Result<Spot, AuditFault>
    requires some { 1 ≤ at.now.dim }
    requires few { at.now.dim ≤ 64 }
    requires above { 1 ≤ at.now.level }
    ensures same { R.metric ruler.new ≡ R.metric ruler.old }
    ensures path { OnOk result (path.new.items ≡ path.old.items ++ step at.now.page place (inner_of entry.entry) ∷ []) }
    ensures page { IfOk result (λ child. child.page ≡ (inner_of entry.entry).child) }
    ensures level { IfOk result (λ child. child.level ≡ at.now.level - 1) }
    ensures least { IfOk result (λ child. child.least ≡ least_for at.now.dim) }
    ensures dim { IfOk result (λ child. child.dim ≡ at.now.dim) }
    ensures ok { OnOk result ((rest : Result Seen AuditFault) →
        check_entry (R.M.space (R.metric ruler.old)) (last_point path.old.items) at.now.page place (inner_of entry.entry) rest ≡ rest) }
    ensures err { IfErr result (λ v. (rest : Result Seen AuditFault) →
        IsEntryFault (check_entry (R.M.space (R.metric ruler.old)) (last_point path.old.items) at.now.page place
        (inner_of entry.entry) rest) v) }
{
    audit_entry(ruler, path.as_slice(), at.page, place, entry)?;
    let step = step_to(alloc, at.page, place, entry)?;
    if path.push(step).is_err() {
        return Err(AuditFault::Memory);
    }
    Ok(Spot {
        page: entry.child,
        level: at.level - 1,
        least: fill(at.dim).least,
        dim: at.dim,
    })
}

// Returns whether an inner node has this level and a valid number of entries.
fn is_inner(at: &Spot, level: u8, count: usize) -> bool
    requires some { 1 ≤ at.now.dim }
    requires few { at.now.dim ≤ 64 }
    ensures { result ≡ ((level == at.now.level) && (nat_le at.now.least count && nat_le count (most_for at.now.dim))) }
{
    u32::from(level) == at.level && is_filled(at, count)
}

/// Walks the subtree of a page in pre-order.
/// Clauses: what is asked of the caller (`some`, `few`, `dim`, `dimension`, `limit`, `fewer`); what changes (`ok`); what stays (`metric`,
/// `same`, `keeps`, `pages_limit`, `ids_limit`, `path`, `fewer`); the cost (`asked`, `reads`, `all_asked`, `all_reads`); the cause of an
/// error (`err`); faults of the devices (`no_fault`).
pub fn walk<P: Pages, R: Ruler>(
    alloc: Global,
    pages: &mut P,
    ruler: &mut R,
    visits: &mut Visits,
    path: &mut Vec<Step>,
    at: Spot,
) -> Result<(), AuditFault>
    requires some { 1 ≤ at.dim }
    requires few { at.dim ≤ 64 }
    requires dim { (P.shelf pages.old).dim ≡ at.dim }
    requires dimension { (R.M.space (R.metric ruler.old)).dimension ≡ at.dim }
    requires limit { visits.old.pages.limit ≡ (P.shelf pages.old).pages }
    requires fewer { AreFewer visits.old.pages }
    ensures metric { R.metric ruler.new ≡ R.metric ruler.old }
    ensures same { HoldsSame (P.shelf pages.old) (P.shelf pages.new) }
    ensures keeps { P.keeps pages.old pages.new }
    ensures no_fault { OnOk result ((P.shelf pages.new).faults ≡ (P.shelf pages.old).faults) }
    ensures pages_limit { visits.new.pages.limit ≡ visits.old.pages.limit }
    ensures ids_limit { visits.new.ids.limit ≡ visits.old.ids.limit }
    ensures path { OnOk result (path.new.items ≡ path.old.items) }
    ensures ok { OnOk result (IsTrue (P.shelf pages.old).is_known
        → audited_at (R.M.space (R.metric ruler.old)) (P.shelf pages.old).read visits.old.ids.limit at.level at.least
        path.old.items at.page (seen_of visits.old) ≡ Ok (seen_of visits.new)) }
    ensures err { IfErr result (IsWalkFault (P.shelf pages.old) (P.shelf pages.new)
        (audited_at (R.M.space (R.metric ruler.old)) (P.shelf pages.old).read visits.old.ids.limit at.level at.least path.old.items
        at.page (seen_of visits.old))) }
    ensures asked { OnOk result ((P.shelf pages.new).asked + length visits.old.pages.met
        ≤ (P.shelf pages.old).asked + length visits.new.pages.met) }
    ensures reads { OnOk result ((P.shelf pages.new).reads + length visits.old.pages.met
        ≤ (P.shelf pages.old).reads + length visits.new.pages.met) }
    ensures fewer { AreFewer visits.new.pages }
    // Besides the pages that were met, at most one is asked for, and read.
    ensures all_asked { (P.shelf pages.new).asked + length visits.old.pages.met
        ≤ (P.shelf pages.old).asked + length visits.new.pages.met + 1 }
    ensures all_reads { (P.shelf pages.new).reads + length visits.old.pages.met
        ≤ (P.shelf pages.old).reads + length visits.new.pages.met + 1 }
{
    let node = arrive(alloc, pages, &mut visits.pages, at.page)?;
    let (level, entries) = match node.as_ref() {
        Node::Leaf(objects) => {
            return audit_leaf(ruler, path.as_slice(), &at, objects, &mut visits.ids);
        }
        Node::Inner { level, entries } => (*level, entries),
    };
    if at.level == 0 {
        return Err(AuditFault::Fill(at.page));
    }
    if !is_inner(&at, level, entries.len()) {
        return Err(AuditFault::Fill(at.page));
    }
    for place in 0..entries.len() {
        let child = step_down(alloc, ruler, path, &at, place as u32, entries.at(place))?;
        walk(alloc, pages, ruler, visits, path, child)?;
        let _ = path.pop();
    }
    Ok(())
}
