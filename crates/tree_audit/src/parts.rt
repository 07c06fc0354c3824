//! The audit of a tree in parts, which can be walked apart from one another.

ghost use Rattle.std.specs.Prelude.{◌≡◌, ◌≤◌, ◌<◌, ◌+◌, ◌-◌, ◌∷◌, ◌++◌, ◌^◌, [], Some, Ok, length, max, IsTrue, IfOk, IfErr, IfSome, MatchOption, OnOk, true, false};
ghost use Rattle.std.specs.List.{AllByRecursion};
ghost use Rattle.metric_laws.specs.Counts.{next_count};
ghost use Rattle.tree_shape.specs.Entries.{inner_of};
ghost use Rattle.page_store.specs.Shelf.{HoldsSame};
ghost use Rattle.tree_audit.specs.Audited.{IsWalkFault};
ghost use Rattle.tree_audit.specs.Met.{AreFewer, AreNew};
ghost use Rattle.tree_audit.specs.Parts.{AreApart, ids_met, met_in, pages_met, part_told};
ghost use Rattle.tree_audit.specs.Visits.{seen_of, entry_told};

use crate::AuditFault;
use crate::auditing::{Audited, visits_for};
use crate::met::Met;
use crate::walking::{Spot, Visits, step_down, walk};
use metric_laws::Ruler;
use page_store::Pages;
use std::alloc::{AllocError, Global};
use tree_shape::{InnerRef, Live};

/// What the walk of one part of a tree met, in the order of meeting.
#[derive(Drop)]
pub struct Part {
    /// The pages.
    pub pages: Vec<u32>,
    /// The ids of the objects.
    pub ids: Vec<u32>,
}

// Walks an entry of the root and the subtree below it.
// Clauses: what is asked of the caller (`some`, `few`, `above`, `dim`, `dimension`, `limit`, `fewer`); what changes (`ok`); what stays
// (`metric`, `same`, `keeps`, `pages_limit`, `fewer`); the cost (`asked`, `reads`); the cause of an error (`err`); faults of the devices
// (`no_fault`).
// Arguments: `pages`, `ruler` and `visits` change with each step of the walk, and `root`, `place` and `entry` say where it begins.
fn walk_entry<P: Pages, R: Ruler>(
    alloc: Global,
    pages: &mut P,
    ruler: &mut R,
    visits: &mut Visits,
    root: &Spot,
    place: u32,
    entry: InnerRef,
) -> Result<(), AuditFault>
    requires some { 1 ≤ root.now.dim }
    requires few { root.now.dim ≤ 64 }
    requires above { 1 ≤ root.now.level }
    requires dim { (P.shelf pages.old).dim ≡ root.now.dim }
    requires dimension { (R.M.space (R.metric ruler.old)).dimension ≡ root.now.dim }
    requires limit { visits.old.pages.limit ≡ (P.shelf pages.old).pages }
    requires fewer { AreFewer visits.old.pages }
    ensures metric { R.metric ruler.new ≡ R.metric ruler.old }
    ensures same { HoldsSame (P.shelf pages.old) (P.shelf pages.new) }
    ensures keeps { P.keeps pages.old pages.new }
    ensures no_fault { OnOk result ((P.shelf pages.new).faults ≡ (P.shelf pages.old).faults) }
    ensures ok { OnOk result (IsTrue (P.shelf pages.old).is_known
        → entry_told (R.M.space (R.metric ruler.old)) (P.shelf pages.old).read visits.old.ids.limit root.now.level [] root.now.page
        place (inner_of entry.entry) (seen_of visits.old) ≡ Ok (seen_of visits.new)) }
    ensures err { IfErr result (IsWalkFault (P.shelf pages.old) (P.shelf pages.new)
        (entry_told (R.M.space (R.metric ruler.old)) (P.shelf pages.old).read visits.old.ids.limit root.now.level [] root.now.page
        place (inner_of entry.entry) (seen_of visits.old))) }
    ensures pages_limit { visits.new.pages.limit ≡ visits.old.pages.limit }
    ensures fewer { AreFewer visits.new.pages }
    ensures asked { (P.shelf pages.new).asked + length visits.old.pages.met ≤ (P.shelf pages.old).asked + length visits.new.pages.met + 1 }
    ensures reads { (P.shelf pages.new).reads + length visits.old.pages.met ≤ (P.shelf pages.old).reads + length visits.new.pages.met + 1 }
{
    let mut path = Vec::new(alloc);
    let child = step_down(alloc, ruler, &mut path, root, place, entry)?;
    walk(alloc, pages, ruler, visits, &mut path, child)
}

/// Audits the entry of the root at `place`, and the subtree below it, as `audit` does, but as if nothing was met before:
/// returns what was met, or the first fault. So the parts of a tree can be audited apart from one another.
/// Clauses: what is asked of the caller (`some`, `few`, `above`, `dim`, `dimension`, `pages`); the answer (`ok`); what stays (`metric`,
/// `same`, `keeps`); the cost (`all_asked`, `all_reads`); the cause of an error (`err`); faults of the devices (`no_fault`).
/// Arguments: those of `audit`, and `place` and `entry` name the part.
pub fn audit_part<P: Pages, R: Ruler>(
    alloc: Global,
    pages: &mut P,
    ruler: &mut R,
    dim: u8,
    live: &Live,
    place: u32,
    entry: InnerRef,
) -> Result<Part, AuditFault>
    requires some { 1 ≤ dim }
    requires few { dim ≤ 64 }
    requires above { 1 ≤ live.now.height }
    requires dim { (P.shelf pages.old).dim ≡ dim }
    requires dimension { (R.M.space (R.metric ruler.old)).dimension ≡ dim }
    requires pages { live.now.pages ≡ (P.shelf pages.old).pages }
    ensures metric { R.metric ruler.new ≡ R.metric ruler.old }
    ensures same { HoldsSame (P.shelf pages.old) (P.shelf pages.new) }
    ensures keeps { P.keeps pages.old pages.new }
    ensures no_fault { OnOk result ((P.shelf pages.new).faults ≡ (P.shelf pages.old).faults) }
    ensures ok { IfOk result (λ part. IsTrue (P.shelf pages.old).is_known →
        part_told (R.M.space (R.metric ruler.old)) (P.shelf pages.old).read live.now place (inner_of entry.entry) ≡ Ok (met_in part)) }
    ensures err { IfErr result (IsWalkFault (P.shelf pages.old) (P.shelf pages.new)
        (part_told (R.M.space (R.metric ruler.old)) (P.shelf pages.old).read live.now place (inner_of entry.entry))) }
    ensures all_asked { (P.shelf pages.new).asked ≤ (P.shelf pages.old).asked + max 1 live.now.pages }
    ensures all_reads { (P.shelf pages.new).reads ≤ (P.shelf pages.old).reads + max 1 live.now.pages }
{
    let mut visits = visits_for(alloc, live)?;
    let root = Spot {
        page: live.root,
        level: live.height,
        least: 0,
        dim,
    };
    walk_entry(alloc, pages, ruler, &mut visits, &root, place, entry)?;
    Ok(Part {
        pages: visits.pages.into_numbers(),
        ids: visits.ids.into_numbers(),
    })
}

// Notes numbers that are below the limit and were not met before. Stops, and returns false, at the first other one.
fn note_all(met: &mut Met, numbers: &[u32]) -> Result<bool, AllocError>
    ensures limit { met.new.limit ≡ met.old.limit }
    ensures all { IfOk result (λ all. all ≡ true → met.new.met ≡ met.old.met ++ numbers.now) }
    ensures none { IfOk result (λ all. all ≡ false → AreNew met.old numbers.now → ⊥) }
{
    for number in numbers {
        if !met.is_new(*number) {
            return Ok(false);
        }
        met.add(*number)?;
    }
    Ok(true)
}

// Notes what a part met. Returns false where some of it is out of bounds or was met before.
fn note_part(visits: &mut Visits, part: &Part) -> Result<bool, AllocError>
    ensures pages_limit { visits.new.pages.limit ≡ visits.old.pages.limit }
    ensures ids_limit { visits.new.ids.limit ≡ visits.old.ids.limit }
    ensures pages { IfOk result (λ all. all ≡ true → visits.new.pages.met ≡ visits.old.pages.met ++ part.now.pages.items) }
    ensures ids { IfOk result (λ all. all ≡ true → visits.new.ids.met ≡ visits.old.ids.met ++ part.now.ids.items) }
    ensures none { IfOk result (λ all. all ≡ false → AreNew visits.old.pages part.now.pages.items →
        AreNew visits.old.ids part.now.ids.items → ⊥) }
{
    if !note_all(&mut visits.pages, &part.pages)? {
        return Ok(false);
    }
    note_all(&mut visits.ids, &part.ids)
}

/// Returns the numbers of a tree whose root's entries were each audited by themselves, without a fault. Returns `None` exactly
/// where two of them met the same page or object, one met the root, what they met is out of the slot's bounds, or they met another
/// number of objects than the slot tells.
pub fn join_parts(alloc: Global, live: &Live, parts: &[Part]) -> Result<Option<Audited>, AllocError>
    ensures apart { IfOk result (λ joined. MatchOption joined (AreApart live.now parts.now → ⊥) (λ a. AreApart live.now parts.now)) }
    ensures objects { IfOk result (λ joined. IfSome joined (λ a. a.objects ≡ live.now.count)) }
    ensures nodes { IfOk result (λ joined. IfSome joined (λ a. a.nodes ≡ length (live.now.root ∷ pages_met parts.now))) }
{
    let mut visits = visits_for(alloc, live)?;
    if !note_all(&mut visits.pages, &[live.root])? {
        return Ok(None);
    }
    for part in parts {
        if !note_part(&mut visits, part)? {
            return Ok(None);
        }
    }
    if visits.ids.len() != live.count {
        return Ok(None);
    }
    Ok(Some(Audited {
        objects: live.count,
        nodes: visits.pages.len(),
    }))
}
