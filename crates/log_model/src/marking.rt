//! Sets the least marks of a node, and computes one distance for each entry that the parent test leaves.

ghost use Rattle.std.specs.Prelude.{◌≡◌, ℕ, ◌++◌, ◌≤◌, ◌<◌, true, false, length, slice_index_or, IfOk, OnOk};
ghost use Rattle.metric_laws.specs.Counts.{count_up};
ghost use Rattle.tree_shape.specs.declared.entry.LeafEntry.{LeafEntry};
ghost use Rattle.tree_shape.specs.declared.entry.InnerEntry.{InnerEntry};
ghost use Rattle.log_model.specs.Counts.{measured_by};
ghost use Rattle.log_model.specs.Walk.{search_at, parent_skips, leaf_marks, inner_marks, inner_needs};
ghost use Rattle.log_model.specs.Met.{leaf_tagged};

use crate::{Mark, Need, NodeMarks, TaggedHit};
use metric_laws::{Ruler, centre_test, parent_test};
use scan_model::Hit;
use std::alloc::{AllocError, Global};
use tree_shape::{InnerEntries, InnerView, LeafEntries, LeafView};

/// The query point and the radius that a walk prunes by.
#[derive(Clone, Copy)]
pub struct Probe<'a> {
    /// The query's point.
    pub q: &'a [u32],
    /// The radius that prunes.
    pub rho: u64,
}

/// Returns whether the parent test (VLDB 1997, section 3.2) rules out an entry. `above` is the distance of the query to the routing
/// object above. An entry of the root has none, and is never ruled out by this test.
pub fn is_ruled_out(above: Option<u64>, stored: u64, rho: u64, radius: u64) -> bool
    ensures { result ≡ parent_skips above stored rho radius }
{
    match above {
        None => false,
        Some(dist) => parent_test(dist, stored, rho, radius),
    }
}

/// Returns the first object from object `from` on that the parent test does not rule out, or the number of objects. Without a distance
/// above it rules out none.
// The test rules most objects out, so this loop writes nothing.
#[inline(always)]
pub fn next_object(above: Option<u64>, rho: u64, objects: &LeafView, from: usize) -> usize
    requires { from ≤ length objects.now }
    ensures low { from ≤ result }
    ensures high { result ≤ length objects.now }
    ensures ruled_out { (k : ℕ) (e : LeafEntry) → from ≤ k → k < result →
        parent_skips above (slice_index_or objects.now k e).parent rho 0 ≡ true }
    ensures next { (e : LeafEntry) → result < length objects.now →
        parent_skips above (slice_index_or objects.now result e).parent rho 0 ≡ false }
{
    let Some(dist) = above else {
        return from;
    };
    let mut at = from;
    while at < objects.len() {
        if !parent_test(dist, objects.at(at).parent, rho, 0) {
            return at;
        }
        at += 1;
    }
    at
}

/// Returns the first subtree from subtree `from` on that the parent test does not rule out, or the number of subtrees.
#[inline(always)]
pub fn next_subtree(above: Option<u64>, rho: u64, subtrees: &InnerView, from: usize) -> usize
    requires { from ≤ length subtrees.now }
    ensures low { from ≤ result }
    ensures high { result ≤ length subtrees.now }
    ensures ruled_out { (k : ℕ) (e : InnerEntry) → from ≤ k → k < result →
        parent_skips above (slice_index_or subtrees.now k e).parent rho (slice_index_or subtrees.now k e).radius ≡ true }
    ensures next { (e : InnerEntry) → result < length subtrees.now →
        parent_skips above (slice_index_or subtrees.now result e).parent rho (slice_index_or subtrees.now result e).radius ≡ false }
{
    let Some(dist) = above else {
        return from;
    };
    let mut at = from;
    while at < subtrees.len() {
        let entry = subtrees.at(at);
        if !parent_test(dist, entry.parent, rho, entry.radius) {
            return at;
        }
        at += 1;
    }
    at
}

// Returns the least marks of a leaf's entries, and appends the objects that are marked Near to `tagged`.
pub(crate) fn mark_leaf<R: Ruler>(
    alloc: Global,
    ruler: &mut R,
    probe: Probe,
    above: Option<u64>,
    entries: &LeafEntries,
    tagged: &mut Vec<TaggedHit>,
) -> Result<NodeMarks, AllocError>
    ensures metric { R.metric ruler.new ≡ R.metric ruler.old }
    ensures counted { OnOk result
        (R.used ruler.new ≡ count_up (R.used ruler.old)
        (measured_by (leaf_marks (search_at (R.M.space (R.metric ruler.old)) probe.entry.q.now probe.entry.rho) above
        entries.now))) }
    ensures marks { IfOk result (λ marks.
        marks ≡ leaf_marks (search_at (R.M.space (R.metric ruler.old)) probe.entry.q.now probe.entry.rho) above entries.now) }
    ensures tagged { OnOk result
        (tagged.new.items ≡ tagged.old.items ++ leaf_tagged
        (search_at (R.M.space (R.metric ruler.old)) probe.entry.q.now probe.entry.rho) above entries.now) }
{
    let objects = entries.seen();
    let mut marks = NodeMarks::all_skipped(alloc, objects.len())?;
    let mut at = next_object(above, probe.rho, &objects, 0);
    while at < objects.len() {
        let entry = objects.at(at);
        let dist = ruler.dist(entry.point, probe.q);
        if centre_test(dist, probe.rho, 0) {
            marks.set(at, Mark::Far);
        } else {
            marks.set(at, Mark::Near);
            tagged.push(TaggedHit {
                hit: Hit { id: entry.id, dist },
                tag: entry.tag,
            })?;
        }
        at = next_object(above, probe.rho, &objects, at + 1);
    }
    Ok(marks)
}

// Returns the least marks of an inner node's entries, and appends the subtrees that are marked Near to the needs.
pub(crate) fn mark_inner<R: Ruler>(
    alloc: Global,
    ruler: &mut R,
    probe: Probe,
    above: Option<u64>,
    entries: &InnerEntries,
    needs: &mut Vec<Need>,
) -> Result<NodeMarks, AllocError>
    ensures metric { R.metric ruler.new ≡ R.metric ruler.old }
    ensures counted { OnOk result
        (R.used ruler.new ≡ count_up (R.used ruler.old)
        (measured_by (inner_marks (search_at (R.M.space (R.metric ruler.old)) probe.entry.q.now probe.entry.rho) above
        entries.now))) }
    ensures marks { IfOk result (λ marks.
        marks ≡ inner_marks (search_at (R.M.space (R.metric ruler.old)) probe.entry.q.now probe.entry.rho) above entries.now) }
    ensures needs { OnOk result
        (needs.new.items ≡ needs.old.items ++ inner_needs
        (search_at (R.M.space (R.metric ruler.old)) probe.entry.q.now probe.entry.rho) above entries.now) }
{
    let subtrees = entries.seen();
    let mut marks = NodeMarks::all_skipped(alloc, subtrees.len())?;
    let mut at = next_subtree(above, probe.rho, &subtrees, 0);
    while at < subtrees.len() {
        let entry = subtrees.at(at);
        let dist = ruler.dist(entry.point, probe.q);
        if centre_test(dist, probe.rho, entry.radius) {
            marks.set(at, Mark::Far);
        } else {
            marks.set(at, Mark::Near);
            needs.push(Need {
                page: entry.child,
                above: Some(dist),
            })?;
        }
        at = next_subtree(above, probe.rho, &subtrees, at + 1);
    }
    Ok(marks)
}
