// The least marks of an opened node, and the pairs that they leave.
ghost use Rattle.std.specs.Prelude.{◌≡◌, ℕ, ◌++◌, ◌+◌, ◌-◌, ◌≤◌, ◌<◌, [], ◌∷◌, true, false, length, replicate, slice_index_or, IfOk, OnOk};
ghost use Rattle.tree_shape.specs.declared.entry.LeafEntry.{LeafEntry};
ghost use Rattle.tree_shape.specs.declared.entry.InnerEntry.{InnerEntry};
ghost use Rattle.metric_laws.specs.Counts.{CountsUpTo};
ghost use Rattle.tree_shape.specs.Entries.{inner_of, leaf_of};
ghost use Rattle.log_model.specs.Counts.{entry_count, measured_by};
ghost use Rattle.log_model.specs.Items.{IsItemOf, item_at};
ghost use Rattle.log_model.specs.declared.marks.Mark.TheVariants.{Skip, Near};
ghost use Rattle.log_model.specs.JoinWalk.{object_entry, subtree_entry, entries_of, far_stored, is_object, join_skips, other, radius_of};
ghost use Rattle.log_model.specs.JoinSteps.{search_within, apart_from, hits_among, needs_among};
ghost use Rattle.metric_join.specs.Steps.{measured_at, marks_for, pairs_for, TakesEntries, CountsMarks};

use log_model::{JoinNeed, JoinProbe, Mark, Matches, entry_count, is_far, is_skipped};
use metric_laws::Ruler;
use std::alloc::{AllocError, Global};
use tree_shape::{InnerEntries, InnerRef, InnerView, LeafEntries, LeafRef, LeafView, Node};

/// The result of opening a pair.
#[derive(Drop)]
pub struct Opening {
    /// One mark for each entry of the node.
    pub marks: Vec<Mark>,
    /// The pairs of the entries that are marked Near, in the node's order.
    pub matches: Matches,
}

// What was found for an entry that is not skipped.
#[derive(Clone, Copy)]
struct Marked {
    // Its least mark.
    mark: Mark,
    // Its distance from the other item, where that has a centre.
    apart: Option<u64>,
}

// Returns the least mark of an entry that is not skipped, by its distance.
fn measured_mark<R: Ruler>(ruler: &mut R, probe: &JoinProbe, point: &[u32], radius: u64) -> Marked
    ensures metric { R.metric ruler.new ≡ R.metric ruler.old }
    ensures counted { CountsUpTo (R.used ruler.old) (R.used ruler.new) 1 }
    ensures mark { result.mark ≡ measured_at (search_within (R.M.space (R.metric ruler.old)) probe.now.rho)
        probe.now.need.now point.now radius }
    ensures apart { result.apart ≡ apart_from (R.M.space (R.metric ruler.old)) probe.now.need.now point.now }
{
    let apart = probe.apart_from(ruler, point);
    let mark = if is_far(apart, probe.rho, radius, probe.reach) {
        Mark::Far
    } else {
        Mark::Near
    };
    Marked { mark, apart }
}

impl Opening {
    // Makes an opening of no entries yet, with room for `entries` marks. Its pairs reuse the memory of `needs`, which is empty.
    fn new(alloc: Global, entries: usize, needs: Vec<JoinNeed>) -> Result<Self, AllocError>
        requires { needs.items ≡ [] }
        ensures marks { IfOk result (λ opening. opening.marks.items ≡ []) }
        ensures hits { IfOk result (λ opening. opening.matches.hits.items ≡ []) }
        ensures needs { IfOk result (λ opening. opening.matches.needs.items ≡ []) }
    {
        Ok(Opening {
            marks: Vec::with_capacity(alloc, entries)?,
            matches: Matches {
                hits: Vec::new(alloc),
                needs,
            },
        })
    }

    // Marks entries Skip until `entries` are marked.
    fn skip_up_to(&mut self, entries: usize) -> Result<(), AllocError>
        requires { length self.old.marks.items ≤ entries }
        ensures marks { OnOk result
            (self.new.marks.items ≡ self.old.marks.items ++ replicate (entries - length self.old.marks.items) Skip) }
        ensures matches { self.new.matches ≡ self.old.matches }
    {
        self.marks.resize(entries, Mark::Skip)
    }
}

// Returns the first object from object `from` on that its stored distance does not rule out, or the number of objects. Stored distances
// rule most objects out, so this loop writes nothing, and the work for the others stands apart.
#[inline(always)]
fn next_object(probe: &JoinProbe, objects: &LeafView, from: usize) -> usize
    requires { from ≤ length objects.now }
    ensures low { from ≤ result }
    ensures high { result ≤ length objects.now }
    ensures ruled_out { (k : ℕ) (e : LeafEntry) → from ≤ k → k < result →
        join_skips probe.now.rho probe.now.need.now (object_entry (slice_index_or objects.now k e)) ≡ true }
    ensures next { (e : LeafEntry) → result < length objects.now →
        join_skips probe.now.rho probe.now.need.now (object_entry (slice_index_or objects.now result e)) ≡ false }
{
    let mut at = from;
    while at < objects.len() {
        if !is_skipped(
            probe.need.apart,
            objects.at(at).parent,
            probe.rho,
            0,
            probe.reach,
        ) {
            return at;
        }
        at += 1;
    }
    at
}

// Returns the first subtree from subtree `from` on that its stored distance does not rule out, or the number of subtrees.
#[inline(always)]
fn next_subtree(probe: &JoinProbe, subtrees: &InnerView, from: usize) -> usize
    requires { from ≤ length subtrees.now }
    ensures low { from ≤ result }
    ensures high { result ≤ length subtrees.now }
    ensures ruled_out { (k : ℕ) (e : InnerEntry) → from ≤ k → k < result →
        far_stored probe.now.need.now.apart (slice_index_or subtrees.now k e).parent probe.now.rho
        ((slice_index_or subtrees.now k e).radius + radius_of (other probe.now.need.now)) ≡ true }
    ensures next { (e : InnerEntry) → result < length subtrees.now →
        far_stored probe.now.need.now.apart (slice_index_or subtrees.now result e).parent probe.now.rho
        ((slice_index_or subtrees.now result e).radius + radius_of (other probe.now.need.now)) ≡ false }
{
    let mut at = from;
    while at < subtrees.len() {
        let entry = subtrees.at(at);
        if !is_skipped(
            probe.need.apart,
            entry.parent,
            probe.rho,
            entry.radius,
            probe.reach,
        ) {
            return at;
        }
        at += 1;
    }
    at
}

// Marks object `index`, which is not skipped, and adds its pair where it is marked Near.
#[inline(never)]
fn measure_object<R: Ruler>(
    ruler: &mut R,
    probe: &JoinProbe,
    index: usize,
    entry: LeafRef,
    opening: &mut Opening,
) -> Result<(), AllocError>
    requires item { IsItemOf probe.now.node.now index (object_entry (leaf_of entry)).item }
    requires unskipped { far_stored probe.now.need.now.apart (leaf_of entry).parent probe.now.rho
        (radius_of (other probe.now.need.now)) ≡ false }
    ensures metric { R.metric ruler.new ≡ R.metric ruler.old }
    ensures counted { OnOk result (CountsMarks (R.used ruler.old) (R.used ruler.new) opening.old.marks.items opening.new.marks.items) }
    ensures taken { OnOk result (TakesEntries (search_within (R.M.space (R.metric ruler.old)) probe.now.rho) probe.now.need.now
        (object_entry (leaf_of entry.entry) ∷ []) opening.old opening.new) }
{
    let marked = measured_mark(ruler, probe, entry.point, 0);
    opening.marks.push(marked.mark)?;
    if let Mark::Near = marked.mark {
        opening
            .matches
            .add_object(probe, index, entry.id, marked.apart)?;
    }
    Ok(())
}

// Marks subtree `index`, which is not skipped, and adds its pair where it is marked Near.
#[inline(never)]
fn measure_subtree<R: Ruler>(
    ruler: &mut R,
    probe: &JoinProbe,
    index: usize,
    entry: InnerRef,
    opening: &mut Opening,
) -> Result<(), AllocError>
    requires within { index < entry_count probe.now.node.now }
    requires subtree { is_object (item_at probe.now.node.now index) ≡ false }
    requires unskipped { far_stored probe.now.need.now.apart (inner_of entry).parent probe.now.rho
        ((inner_of entry).radius + radius_of (other probe.now.need.now)) ≡ false }
    ensures metric { R.metric ruler.new ≡ R.metric ruler.old }
    ensures counted { OnOk result (CountsMarks (R.used ruler.old) (R.used ruler.new) opening.old.marks.items opening.new.marks.items) }
    ensures taken { (level : ℕ) → item_at probe.now.node.now index ≡ (subtree_entry level (inner_of entry.entry)).item →
        OnOk result (TakesEntries (search_within (R.M.space (R.metric ruler.old)) probe.now.rho) probe.now.need.now
        (subtree_entry level (inner_of entry.entry) ∷ []) opening.old opening.new) }
{
    let marked = measured_mark(ruler, probe, entry.point, entry.radius);
    opening.marks.push(marked.mark)?;
    if let Mark::Near = marked.mark {
        opening.matches.add_subtree(probe, index, marked.apart)?;
    }
    Ok(())
}

// Marks the entries of the opened leaf.
fn mark_leaf<R: Ruler>(
    ruler: &mut R,
    probe: &JoinProbe,
    entries: &LeafEntries,
    opening: &mut Opening,
) -> Result<(), AllocError>
    requires leaf { probe.now.node.now ≡ Node.Leaf entries.now }
    requires none { opening.old.marks.items ≡ [] }
    ensures metric { R.metric ruler.new ≡ R.metric ruler.old }
    ensures counted { OnOk result (CountsMarks (R.used ruler.old) (R.used ruler.new) opening.old.marks.items opening.new.marks.items) }
    ensures taken { OnOk result (TakesEntries (search_within (R.M.space (R.metric ruler.old)) probe.now.rho) probe.now.need.now
        (entries_of probe.now.node.now) opening.old opening.new) }
{
    let objects = entries.seen();
    let mut at = 0;
    while at < objects.len() {
        let next = next_object(probe, &objects, at);
        opening.skip_up_to(next)?;
        if next == objects.len() {
            return Ok(());
        }
        measure_object(ruler, probe, next, objects.at(next), opening)?;
        at = next + 1;
    }
    Ok(())
}

// Marks the entries of the opened inner node.
fn mark_inner<R: Ruler>(
    ruler: &mut R,
    probe: &JoinProbe,
    entries: &InnerEntries,
    opening: &mut Opening,
) -> Result<(), AllocError>
    requires inner { (level : ℕ) × (probe.now.node.now ≡ Node.Inner level entries.now) }
    requires none { opening.old.marks.items ≡ [] }
    ensures metric { R.metric ruler.new ≡ R.metric ruler.old }
    ensures counted { OnOk result (CountsMarks (R.used ruler.old) (R.used ruler.new) opening.old.marks.items opening.new.marks.items) }
    ensures taken { OnOk result (TakesEntries (search_within (R.M.space (R.metric ruler.old)) probe.now.rho) probe.now.need.now
        (entries_of probe.now.node.now) opening.old opening.new) }
{
    let subtrees = entries.seen();
    let mut at = 0;
    while at < subtrees.len() {
        let next = next_subtree(probe, &subtrees, at);
        opening.skip_up_to(next)?;
        if next == subtrees.len() {
            return Ok(());
        }
        measure_subtree(ruler, probe, next, subtrees.at(next), opening)?;
        at = next + 1;
    }
    Ok(())
}

/// Opens the node of a pair's item of greater rank: returns its least marks, and the pairs that they leave. The pairs reuse the
/// memory of `needs`, which is empty.
pub fn open_node<R: Ruler>(
    ruler: &mut R,
    probe: &JoinProbe,
    needs: Vec<JoinNeed>,
) -> Result<Opening, AllocError>
    requires { needs.items ≡ [] }
    ensures metric { R.metric ruler.new ≡ R.metric ruler.old }
    ensures counted { IfOk result (λ opening. CountsUpTo (R.used ruler.old) (R.used ruler.new) (measured_by opening.marks.items)) }
    ensures marks { IfOk result (λ opening.
        opening.marks.items ≡ marks_for (search_within (R.M.space (R.metric ruler.old)) probe.now.rho) probe.now.need.now
        (entries_of probe.now.node.now)) }
    ensures hits { IfOk result (λ opening.
        opening.matches.hits.items ≡ hits_among
        (pairs_for (search_within (R.M.space (R.metric ruler.old)) probe.now.rho) probe.now.need.now
        (entries_of probe.now.node.now))) }
    ensures needs { IfOk result (λ opening.
        opening.matches.needs.items ≡ needs_among
        (pairs_for (search_within (R.M.space (R.metric ruler.old)) probe.now.rho) probe.now.need.now
        (entries_of probe.now.node.now))) }
{
    let node = probe.node.as_ref();
    let mut opening = Opening::new(probe.alloc, entry_count(node), needs)?;
    match node {
        Node::Leaf(entries) => mark_leaf(ruler, probe, entries, &mut opening)?,
        Node::Inner { entries, .. } => mark_inner(ruler, probe, entries, &mut opening)?,
    }
    Ok(opening)
}
