// The lines of an opened node.
ghost use Rattle.std.specs.Prelude.{◌≡◌, ◌≤◌, ◌++◌, ◌+◌, ◌<◌, ◌^◌, [], length, map, reverse, if◌then◌else◌, OnOk, IfOk};
ghost use Rattle.std.specs.Option.{is_none};
ghost use Rattle.log_model.specs.Counts.{entry_count};
ghost use Rattle.log_model.specs.JoinWalk.{allows_entry, centre_of, join_needs, object_entry, other, subtree_entry};
ghost use Rattle.log_verify.specs.Judged.{first_wrong};
ghost use Rattle.log_verify.specs.JoinJudged.{join_wrong_in};
ghost use Rattle.job_show.specs.Walks.{marked_lines, with_marks};
ghost use Rattle.job_show.specs.Steps.{AreSmall};
ghost use Rattle.job_show_joins.specs.Walks.{coming_at, item_name, measured_beside, pair_entry_line, pair_line, pair_lines, pairs_coming};
ghost use Rattle.job_show_joins.specs.Steps.{search_by};

use crate::PairComing;
use crate::entries::{PairGauge, name_object, name_subtree, show_object, show_subtree};
use crate::shown::PairWalk;
use fault_lines::push_numbered;
use job_join::side_name;
use job_show::{Counts, count_marks, push_indent};
use log_model::{Item, JoinNeed, Mark};
use std::alloc::AllocError;
use tree_shape::{InnerEntries, LeafEntries, Node};

// Appends the name of an item.
fn push_item(item: &Item, out: &mut Vec<u8>) -> Result<(), AllocError>
    ensures { OnOk result (out.new.items ≡ out.old.items ++ item_name item.now) }
{
    if item.is_object() {
        push_numbered(b"object ", u64::from(item.id()), out)
    } else {
        push_numbered(b"node ", u64::from(item.page()), out)
    }
}

// Appends the line of an opened node beside the other item.
fn push_pair(coming: &PairComing, level: u8, out: &mut Vec<u8>) -> Result<(), AllocError>
    ensures { OnOk result (out.new.items ≡ out.old.items ++ pair_line coming.now level) }
{
    let need = &coming.need;
    push_indent(coming.depth, out)?;
    out.extend_from_slice(side_name(need.opens_right()))?;
    push_numbered(b" node ", u64::from(need.opened().page()), out)?;
    push_numbered(b" level ", u64::from(level), out)?;
    out.extend_from_slice(b" with ")?;
    push_item(need.other(), out)?;
    out.extend_from_slice(b"\n")
}

// Appends the lines of a leaf's entries, and the pairs that their marks need. Returns whether all marks are allowed.
// Clauses: what is asked of the caller (`leaf`, `long`, `deep`); what is appended (`lines`, `needs`); the answer (`allowed`); what stays
// (`stack`, `counts`, `measured`).
fn show_leaf(
    gauge: PairGauge,
    entries: &LeafEntries,
    marks: &[Mark],
    walk: &mut PairWalk,
) -> Result<bool, AllocError>
    requires leaf { gauge.node.now ≡ Node.Leaf entries.now }
    requires long { length marks.now ≡ length entries.now }
    requires deep { gauge.coming.now.depth + 1 < 2 ^ 32 }
    ensures lines { OnOk result (walk.new.lines.items ≡ walk.old.lines.items ++ marked_lines
        (pair_entry_line (search_by gauge.entry.search) gauge.entry.coming.now) 0 (map object_entry entries.now) marks.now) }
    ensures allowed { IfOk result (λ allowed. allowed ≡ is_none (first_wrong
        (allows_entry (search_by gauge.entry.search) gauge.entry.coming.now.need) (map object_entry entries.now) marks.now 0)) }
    ensures needs { OnOk result (walk.new.named.needs.items ≡ walk.old.named.needs.items ++
        join_needs (search_by gauge.entry.search) gauge.entry.coming.now.need (Node.Leaf entries.now) marks.now) }
    ensures stack { walk.new.stack.items ≡ walk.old.stack.items }
    ensures counts { walk.new.counts ≡ walk.old.counts }
    ensures measured { walk.new.measured ≡ walk.old.measured }
{
    let mut allowed = true;
    for i in 0..entries.len() {
        let entry = entries.at(i);
        let tested = show_object(gauge, i as u64, entry, marks[i], &mut walk.lines)?;
        name_object(gauge, i, entry.id, marks[i], tested.apart, &mut walk.named)?;
        allowed &= tested.allowed;
    }
    Ok(allowed)
}

// Appends the lines of the entries of an inner node of level `level`, and the pairs that their marks need. Returns whether all marks
// are allowed.
// Clauses: what is asked of the caller (`inner`, `long`, `deep`); what is appended (`lines`, `needs`); the answer (`allowed`); what stays
// (`stack`, `counts`, `measured`).
fn show_inner(
    gauge: PairGauge,
    level: u8,
    entries: &InnerEntries,
    marks: &[Mark],
    walk: &mut PairWalk,
) -> Result<bool, AllocError>
    requires inner { gauge.node.now ≡ Node.Inner level entries.now }
    requires long { length marks.now ≡ length entries.now }
    requires deep { gauge.coming.now.depth + 1 < 2 ^ 32 }
    ensures lines { OnOk result (walk.new.lines.items ≡ walk.old.lines.items ++ marked_lines
        (pair_entry_line (search_by gauge.entry.search) gauge.entry.coming.now) 0 (map (subtree_entry level) entries.now)
        marks.now) }
    ensures allowed { IfOk result (λ allowed. allowed ≡ is_none (first_wrong
        (allows_entry (search_by gauge.entry.search) gauge.entry.coming.now.need) (map (subtree_entry level) entries.now)
        marks.now 0)) }
    ensures needs { OnOk result (walk.new.named.needs.items ≡ walk.old.named.needs.items ++
        join_needs (search_by gauge.entry.search) gauge.entry.coming.now.need (Node.Inner level entries.now) marks.now) }
    ensures stack { walk.new.stack.items ≡ walk.old.stack.items }
    ensures counts { walk.new.counts ≡ walk.old.counts }
    ensures measured { walk.new.measured ≡ walk.old.measured }
{
    let mut allowed = true;
    for i in 0..entries.len() {
        let entry = entries.at(i);
        let tested = show_subtree(gauge, level, i as u64, entry, marks[i], &mut walk.lines)?;
        name_subtree(gauge, i, marks[i], tested.apart, &mut walk.named)?;
        allowed &= tested.allowed;
    }
    Ok(allowed)
}

// Appends the lines of a node, and collects the pairs that its marks need. Returns whether all marks are allowed.
fn show_entries(gauge: PairGauge, marks: &[Mark], walk: &mut PairWalk) -> Result<bool, AllocError>
    requires long { length marks.now ≡ entry_count gauge.node.now }
    requires deep { gauge.coming.now.depth + 1 < 2 ^ 32 }
    ensures lines { OnOk result (walk.new.lines.items ≡ walk.old.lines.items ++
        pair_lines (search_by gauge.entry.search) gauge.entry.coming.now gauge.entry.node.now marks.now) }
    ensures allowed { IfOk result (λ allowed. allowed ≡ is_none
        (join_wrong_in (search_by gauge.entry.search) gauge.entry.coming.now.need gauge.entry.node.now marks.now)) }
    ensures needs { OnOk result (walk.new.named.needs.items ≡
        join_needs (search_by gauge.entry.search) gauge.entry.coming.now.need gauge.entry.node.now marks.now) }
    ensures stack { walk.new.stack.items ≡ walk.old.stack.items }
    ensures counts { walk.new.counts ≡ walk.old.counts }
    ensures measured { walk.new.measured ≡ walk.old.measured }
{
    walk.named.needs.clear();
    walk.named.hits.clear();
    match gauge.node.as_ref() {
        Node::Leaf(entries) => {
            push_pair(gauge.coming, 0, &mut walk.lines)?;
            show_leaf(gauge, entries, marks, walk)
        }
        Node::Inner { level, entries } => {
            push_pair(gauge.coming, *level, &mut walk.lines)?;
            show_inner(gauge, *level, entries, marks, walk)
        }
    }
}

// Returns the number of the distances of a node's entries from the other item.
fn measured_beside(item: &Item, marks: &[Mark]) -> u64
    requires { length marks.now ≤ 32 }
    ensures value { result ≡ measured_beside (centre_of item.now) marks.now }
    ensures few { result ≤ 64 }
{
    if item.centre().is_none() {
        return 0;
    }
    let none = Counts {
        opened: 0,
        skips: 0,
        fars: 0,
        nears: 0,
    };
    let counts = count_marks(none, marks);
    counts.fars + counts.nears
}

// Puts the needed pairs on the stack at this depth, so that the first of them is on top.
fn put_on_top(
    stack: &mut Vec<PairComing>,
    needs: &mut Vec<JoinNeed>,
    depth: u32,
) -> Result<(), AllocError>
    ensures { OnOk result (reverse stack.new.items ≡ map (coming_at depth) needs.old.items ++ reverse stack.old.items) }
{
    while let Some(need) = needs.pop() {
        stack.push(PairComing { need, depth })?;
    }
    Ok(())
}

// Goes on to the pairs that the node needs, which stand at this depth, or ends the walk.
fn go_on(walk: &mut PairWalk, depth: u32, goes: bool) -> Result<(), AllocError>
    ensures stack { OnOk result (reverse walk.new.stack.items ≡
        (if goes then map (coming_at depth) walk.old.named.needs.items ++ reverse walk.old.stack.items else [])) }
    ensures lines { walk.new.lines.items ≡ walk.old.lines.items }
    ensures counts { walk.new.counts ≡ walk.old.counts }
    ensures measured { walk.new.measured ≡ walk.old.measured }
{
    if !goes {
        walk.stack.clear();
        return Ok(());
    }
    put_on_top(&mut walk.stack, &mut walk.named.needs, depth)
}

// Shows a node. The walk goes on to the pairs that its marks need, where each mark is allowed.
// Clauses: what is asked of the caller (`long`, `short`, `deep`, `small`, `room`); what changes (`lines`, `counts`, `measured`, `few`,
// `stack`).
pub fn show_node(gauge: PairGauge, marks: &[Mark], walk: &mut PairWalk) -> Result<(), AllocError>
    requires long { length marks.now ≡ entry_count gauge.node.now }
    requires short { length marks.now ≤ 32 }
    requires deep { gauge.coming.now.depth + 1 < 2 ^ 32 }
    requires small { AreSmall (with_marks marks.now walk.old.counts) }
    requires room { walk.old.measured + 64 < 2 ^ 64 }
    ensures lines { OnOk result (walk.new.lines.items ≡ walk.old.lines.items ++
        pair_lines (search_by gauge.entry.search) gauge.entry.coming.now gauge.entry.node.now marks.now) }
    ensures counts { OnOk result (walk.new.counts ≡ with_marks marks.now walk.old.counts) }
    ensures measured { OnOk result (walk.new.measured ≡ walk.old.measured +
        measured_beside (centre_of (other gauge.entry.coming.now.need)) marks.now) }
    ensures few { OnOk result (walk.new.measured ≤ walk.old.measured + 64) }
    ensures stack { OnOk result (reverse walk.new.stack.items ≡ (if is_none
        (join_wrong_in (search_by gauge.entry.search) gauge.entry.coming.now.need gauge.entry.node.now marks.now)
        then pairs_coming (search_by gauge.entry.search) gauge.entry.coming.now gauge.entry.node.now marks.now
        ++ reverse walk.old.stack.items
        else [])) }
{
    let allowed = show_entries(gauge, marks, walk)?;
    walk.counts = count_marks(walk.counts, marks);
    walk.measured += measured_beside(gauge.coming.need.other(), marks);
    go_on(walk, gauge.coming.depth + 1, allowed)
}
