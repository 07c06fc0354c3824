// Checks the marks of one record of a join against its node.
ghost use Rattle.std.specs.Prelude.{◌≡◌, ℕ, ◌++◌, ◌+◌, ◌<◌, ◌≤◌, ◌^◌, true, false, [], ◌∷◌, length, slice_index_or, OnOk, IfOk, IfNone};
ghost use Rattle.log_model.specs.declared.marks.Mark.TheVariants.{Skip, Near};
ghost use Rattle.tree_shape.specs.declared.entry.LeafEntry.{LeafEntry};
ghost use Rattle.tree_shape.specs.declared.entry.InnerEntry.{InnerEntry};
ghost use Rattle.metric_laws.specs.Counts.{CountsUpTo};
ghost use Rattle.tree_shape.specs.Entries.{leaf_of, inner_of};
ghost use Rattle.log_model.specs.Counts.{entry_count, measured_by};
ghost use Rattle.log_model.specs.Items.{item_at};
ghost use Rattle.log_model.specs.Walk.{near_ones};
ghost use Rattle.log_model.specs.JoinWalk.{allows_entry, far_stored, id_of, is_object, other, radius_of, object_entry, subtree_entry, join_hits, join_needs, within_apart};
ghost use Rattle.log_model.specs.JoinSteps.{apart_from, search_within, hits_among, needs_among, paired};
ghost use Rattle.log_verify.specs.JoinJudged.{join_wrong_in};
ghost use Rattle.log_verify.specs.JoinSteps.{object_pair, subtree_pair};

use log_model::{JoinProbe, Mark, Matches, is_far, is_skipped};
use metric_laws::Ruler;
use std::alloc::AllocError;
use tree_shape::{InnerEntries, InnerRef, InnerView, LeafEntries, LeafRef, LeafView, Node};

// The result for an entry and its mark.
#[derive(Clone, Copy)]
pub struct JoinChecked {
    // Whether the mark is allowed.
    pub allowed: bool,
    // The distance of an entry marked Near from the other item, where that has a centre.
    pub apart: Option<u64>,
}

// Returns whether two objects are an answer, by their distance.
fn is_within(apart: Option<u64>, rho: u64) -> bool
    ensures { result ≡ within_apart apart rho }
{
    match apart {
        None => false,
        Some(dist) => dist <= rho,
    }
}

// Returns the distance of an entry's point from the other item, where that has a centre. It is separate from the loops over entries,
// because most entries are skipped.
#[inline(never)]
fn apart_from<R: Ruler>(ruler: &mut R, probe: &JoinProbe, point: &[u32]) -> Option<u64>
    ensures metric { R.metric ruler.new ≡ R.metric ruler.old }
    ensures value { result ≡ apart_from (R.M.space (R.metric ruler.old)) probe.now.need.now point.now }
    ensures counted { CountsUpTo (R.used ruler.old) (R.used ruler.new) 1 }
{
    probe.apart_from(ruler, point)
}

// Returns the first object from object `from` on that is not rightly marked Skip, or the number of objects. Most objects are rightly
// marked Skip, so this loop does nothing else.
fn pass_objects(probe: &JoinProbe, objects: &LeafView, marks: &[Mark], from: usize) -> usize
    requires long { length marks.now ≡ length objects.now }
    requires within { from ≤ length objects.now }
    ensures low { from ≤ result }
    ensures high { result ≤ length objects.now }
    ensures marks { (k : ℕ) → from ≤ k → k < result → slice_index_or marks.now k Skip ≡ Skip }
    ensures skipped { (k : ℕ) (e : LeafEntry) → from ≤ k → k < result →
        far_stored probe.now.need.now.apart (slice_index_or objects.now k e).parent probe.now.rho
        (0 + radius_of (other probe.now.need.now)) ≡ true }
{
    let mut at = from;
    while at < objects.len() {
        let Mark::Skip = marks[at] else {
            return at;
        };
        if !is_skipped(
            probe.need.apart,
            objects.at(at).parent,
            probe.rho,
            0,
            probe.reach,
        ) {
            return at;
        }
        at += 1;
    }
    at
}

// Returns the first subtree from subtree `from` on that is not rightly marked Skip, or the number of subtrees.
fn pass_subtrees(probe: &JoinProbe, subtrees: &InnerView, marks: &[Mark], from: usize) -> usize
    requires long { length marks.now ≡ length subtrees.now }
    requires within { from ≤ length subtrees.now }
    ensures low { from ≤ result }
    ensures high { result ≤ length subtrees.now }
    ensures marks { (k : ℕ) → from ≤ k → k < result → slice_index_or marks.now k Skip ≡ Skip }
    ensures skipped { (k : ℕ) (e : InnerEntry) → from ≤ k → k < result →
        far_stored probe.now.need.now.apart (slice_index_or subtrees.now k e).parent probe.now.rho
        ((slice_index_or subtrees.now k e).radius + radius_of (other probe.now.need.now)) ≡ true }
{
    let mut at = from;
    while at < subtrees.len() {
        let Mark::Skip = marks[at] else {
            return at;
        };
        let entry = subtrees.at(at);
        if !is_skipped(
            probe.need.apart,
            entry.parent,
            probe.rho,
            entry.radius,
            probe.reach,
        ) {
            return at;
        }
        at += 1;
    }
    at
}

// Checks the mark of an object.
fn check_object<R: Ruler>(
    ruler: &mut R,
    probe: &JoinProbe,
    entry: LeafRef,
    mark: Mark,
) -> JoinChecked
    ensures metric { R.metric ruler.new ≡ R.metric ruler.old }
    ensures allowed { result.allowed ≡ allows_entry (search_within (R.M.space (R.metric ruler.old)) probe.now.rho) probe.now.need.now
        (object_entry (leaf_of entry.entry)) mark }
    ensures apart { mark ≡ Near →
        result.apart ≡ (object_pair (R.M.space (R.metric ruler.old)) probe.now.need.now (leaf_of entry.entry)).apart }
    ensures counted { CountsUpTo (R.used ruler.old) (R.used ruler.new) (measured_by (mark ∷ [])) }
{
    match mark {
        Mark::Skip => JoinChecked {
            allowed: is_skipped(probe.need.apart, entry.parent, probe.rho, 0, probe.reach),
            apart: None,
        },
        Mark::Far => JoinChecked {
            allowed: is_far(
                apart_from(ruler, probe, entry.point),
                probe.rho,
                0,
                probe.reach,
            ),
            apart: None,
        },
        Mark::Near => {
            let apart = apart_from(ruler, probe, entry.point);
            JoinChecked {
                allowed: !probe.other().is_object() || is_within(apart, probe.rho),
                apart,
            }
        }
    }
}

// Checks the mark of a subtree.
fn check_subtree<R: Ruler>(
    ruler: &mut R,
    probe: &JoinProbe,
    level: u8,
    entry: InnerRef,
    mark: Mark,
) -> JoinChecked
    ensures metric { R.metric ruler.new ≡ R.metric ruler.old }
    ensures allowed { result.allowed ≡ allows_entry (search_within (R.M.space (R.metric ruler.old)) probe.now.rho) probe.now.need.now
        (subtree_entry level (inner_of entry.entry)) mark }
    ensures apart { mark ≡ Near →
        result.apart ≡ (subtree_pair (R.M.space (R.metric ruler.old)) probe.now.need.now level (inner_of entry.entry)).apart }
    ensures counted { CountsUpTo (R.used ruler.old) (R.used ruler.new) (measured_by (mark ∷ [])) }
{
    match mark {
        Mark::Skip => JoinChecked {
            allowed: is_skipped(
                probe.need.apart,
                entry.parent,
                probe.rho,
                entry.radius,
                probe.reach,
            ),
            apart: None,
        },
        Mark::Far => JoinChecked {
            allowed: is_far(
                apart_from(ruler, probe, entry.point),
                probe.rho,
                entry.radius,
                probe.reach,
            ),
            apart: None,
        },
        Mark::Near => JoinChecked {
            allowed: true,
            apart: apart_from(ruler, probe, entry.point),
        },
    }
}

// Adds the pair of object `index`, whose id is `id`, where it is marked Near.
fn name_object(
    probe: &JoinProbe,
    named: &mut Matches,
    index: usize,
    id: u32,
    mark: Mark,
    apart: Option<u64>,
) -> Result<(), AllocError>
    requires within { index < entry_count probe.now.node.now }
    requires object { is_object (item_at probe.now.node.now index) ≡ true }
    requires id { id_of (item_at probe.now.node.now index) ≡ id }
    ensures hits { OnOk result (named.new.hits.items ≡ named.old.hits.items ++ hits_among
        (near_ones (paired probe.now.need.now (item_at probe.now.node.now index) apart ∷ []) (mark ∷ []))) }
    ensures needs { OnOk result (named.new.needs.items ≡ named.old.needs.items ++ needs_among
        (near_ones (paired probe.now.need.now (item_at probe.now.node.now index) apart ∷ []) (mark ∷ []))) }
{
    match mark {
        Mark::Near => named.add_object(probe, index, id, apart),
        Mark::Skip | Mark::Far => Ok(()),
    }
}

// Adds the pair of subtree `index`, where it is marked Near.
fn name_subtree(
    probe: &JoinProbe,
    named: &mut Matches,
    index: usize,
    mark: Mark,
    apart: Option<u64>,
) -> Result<(), AllocError>
    requires within { index < entry_count probe.now.node.now }
    requires subtree { is_object (item_at probe.now.node.now index) ≡ false }
    ensures hits { OnOk result (named.new.hits.items ≡ named.old.hits.items ++ hits_among
        (near_ones (paired probe.now.need.now (item_at probe.now.node.now index) apart ∷ []) (mark ∷ []))) }
    ensures needs { OnOk result (named.new.needs.items ≡ named.old.needs.items ++ needs_among
        (near_ones (paired probe.now.need.now (item_at probe.now.node.now index) apart ∷ []) (mark ∷ []))) }
{
    match mark {
        Mark::Near => named.add_subtree(probe, index, apart),
        Mark::Skip | Mark::Far => Ok(()),
    }
}

// Returns the first entry whose mark is not allowed. Where there is none, adds the pairs of the entries that are marked Near.
fn check_leaf<R: Ruler>(
    ruler: &mut R,
    probe: &JoinProbe,
    entries: &LeafEntries,
    marks: &[Mark],
    named: &mut Matches,
) -> Result<Option<u32>, AllocError>
    requires leaf { probe.now.node.now ≡ Node.Leaf entries.now }
    requires long { length marks.now ≡ length entries.now }
    requires few { length entries.now < 2 ^ 32 }
    ensures metric { R.metric ruler.new ≡ R.metric ruler.old }
    ensures wrong { IfOk result (λ w.
        w ≡ join_wrong_in (search_within (R.M.space (R.metric ruler.old)) probe.now.rho) probe.now.need.now
        (Node.Leaf entries.now) marks.now) }
    ensures hits { IfOk result (λ w.
        IfNone w (named.new.hits.items ≡ named.old.hits.items ++ join_hits
        (search_within (R.M.space (R.metric ruler.old)) probe.now.rho) probe.now.need.now (Node.Leaf entries.now) marks.now)) }
    ensures needs { IfOk result (λ w.
        IfNone w (named.new.needs.items ≡ named.old.needs.items ++ join_needs
        (search_within (R.M.space (R.metric ruler.old)) probe.now.rho) probe.now.need.now (Node.Leaf entries.now) marks.now)) }
    ensures few_counted { CountsUpTo (R.used ruler.old) (R.used ruler.new) (measured_by marks.now) }
{
    let objects = entries.seen();
    let mut at = pass_objects(probe, &objects, marks, 0);
    while at < objects.len() {
        let entry = objects.at(at);
        let checked = check_object(ruler, probe, entry, marks[at]);
        if !checked.allowed {
            return Ok(Some(at as u32));
        }
        name_object(probe, named, at, entry.id, marks[at], checked.apart)?;
        at = pass_objects(probe, &objects, marks, at + 1);
    }
    Ok(None)
}

// Returns the first entry whose mark is not allowed. Where there is none, adds the pairs of the entries that are marked Near.
fn check_inner<R: Ruler>(
    ruler: &mut R,
    probe: &JoinProbe,
    level: u8,
    entries: &InnerEntries,
    marks: &[Mark],
    named: &mut Matches,
) -> Result<Option<u32>, AllocError>
    requires inner { probe.now.node.now ≡ Node.Inner level entries.now }
    requires long { length marks.now ≡ length entries.now }
    requires few { length entries.now < 2 ^ 32 }
    ensures metric { R.metric ruler.new ≡ R.metric ruler.old }
    ensures wrong { IfOk result (λ w.
        w ≡ join_wrong_in (search_within (R.M.space (R.metric ruler.old)) probe.now.rho) probe.now.need.now
        (Node.Inner level entries.now) marks.now) }
    ensures hits { IfOk result (λ w.
        IfNone w (named.new.hits.items ≡ named.old.hits.items ++ join_hits
        (search_within (R.M.space (R.metric ruler.old)) probe.now.rho) probe.now.need.now
        (Node.Inner level entries.now) marks.now)) }
    ensures needs { IfOk result (λ w.
        IfNone w (named.new.needs.items ≡ named.old.needs.items ++ join_needs
        (search_within (R.M.space (R.metric ruler.old)) probe.now.rho) probe.now.need.now
        (Node.Inner level entries.now) marks.now)) }
    ensures few_counted { CountsUpTo (R.used ruler.old) (R.used ruler.new) (measured_by marks.now) }
{
    let subtrees = entries.seen();
    let mut at = pass_subtrees(probe, &subtrees, marks, 0);
    while at < subtrees.len() {
        let entry = subtrees.at(at);
        let checked = check_subtree(ruler, probe, level, entry, marks[at]);
        if !checked.allowed {
            return Ok(Some(at as u32));
        }
        name_subtree(probe, named, at, marks[at], checked.apart)?;
        at = pass_subtrees(probe, &subtrees, marks, at + 1);
    }
    Ok(None)
}

// Returns the first entry of the opened node whose mark is not allowed. Where there is none, adds the answers and the pairs that the
// marks name.
pub fn check_node<R: Ruler>(
    ruler: &mut R,
    probe: &JoinProbe,
    marks: &[Mark],
    named: &mut Matches,
) -> Result<Option<u32>, AllocError>
    requires long { length marks.now ≡ entry_count probe.now.node.now }
    requires few { entry_count probe.now.node.now < 2 ^ 32 }
    ensures metric { R.metric ruler.new ≡ R.metric ruler.old }
    ensures wrong { IfOk result (λ w.
        w ≡ join_wrong_in (search_within (R.M.space (R.metric ruler.old)) probe.now.rho) probe.now.need.now probe.now.node.now
        marks.now) }
    ensures hits { IfOk result (λ w.
        IfNone w (named.new.hits.items ≡ named.old.hits.items ++ join_hits
        (search_within (R.M.space (R.metric ruler.old)) probe.now.rho) probe.now.need.now probe.now.node.now marks.now)) }
    ensures needs { IfOk result (λ w.
        IfNone w (named.new.needs.items ≡ named.old.needs.items ++ join_needs
        (search_within (R.M.space (R.metric ruler.old)) probe.now.rho) probe.now.need.now probe.now.node.now marks.now)) }
    ensures few_counted { CountsUpTo (R.used ruler.old) (R.used ruler.new) (measured_by marks.now) }
{
    match probe.node.as_ref() {
        Node::Leaf(entries) => check_leaf(ruler, probe, entries, marks, named),
        Node::Inner { level, entries } => {
            check_inner(ruler, probe, *level, entries, marks, named)
        }
    }
}
