// The lines of an opened node.
ghost use Rattle.std.specs.Prelude.{◌≡◌, ◌++◌, ◌+◌, ◌<◌, ◌^◌, [], ◌∷◌, length, reverse, if◌then◌else◌, OnOk, IfOk};
ghost use Rattle.std.specs.Option.{is_none};
ghost use Rattle.log_model.specs.Counts.{entry_count};
ghost use Rattle.log_model.specs.Walk.{allows_object, allows_subtree, near_ones};
ghost use Rattle.log_verify.specs.Judged.{first_wrong, first_wrong_in};
ghost use Rattle.job_show.specs.Walks.{coming_from, comings_of, marked_lines, node_line, node_lines, object_line, subtree_line, with_marks};
ghost use Rattle.job_show.specs.Steps.{AreSmall, search_by};

use crate::entries::{Gauge, push_indent, show_object, show_subtree};
use crate::shown::Walk;
use crate::{Coming, Counts};
use fault_lines::push_numbered;
use log_model::{Mark, Need};
use std::alloc::AllocError;
use tree_shape::{InnerEntries, LeafEntries, Node};

// Appends the line of an opened node.
fn push_node(depth: u32, page: u32, level: u8, out: &mut Vec<u8>) -> Result<(), AllocError>
    ensures { OnOk result (out.new.items ≡ out.old.items ++ node_line depth page level) }
{
    push_indent(depth, out)?;
    push_numbered(b"node ", u64::from(page), out)?;
    push_numbered(b" level ", u64::from(level), out)?;
    out.extend_from_slice(b"\n")
}

// Appends the lines of a leaf's entries, and returns whether all marks are allowed.
fn show_leaf(
    gauge: Gauge,
    coming: Coming,
    entries: &LeafEntries,
    marks: &[Mark],
    out: &mut Vec<u8>,
) -> Result<bool, AllocError>
    requires long { length marks.now ≡ length entries.now }
    requires deep { coming.depth + 1 < 2 ^ 32 }
    ensures lines { OnOk result (out.new.items ≡ out.old.items ++
        marked_lines (object_line (search_by gauge.entry) coming) 0 entries.now marks.now) }
    ensures allowed { IfOk result (λ allowed. allowed ≡
        is_none (first_wrong (allows_object (search_by gauge.entry) coming.need.above) entries.now marks.now 0)) }
{
    let mut allowed = true;
    for i in 0..entries.len() {
        let is_allowed = show_object(gauge, coming, i as u64, entries.at(i), marks[i], out)?;
        allowed &= is_allowed;
    }
    Ok(allowed)
}

// Appends `item` where its entry is marked Near.
fn push_near(items: &mut Vec<Coming>, mark: Mark, item: Coming) -> Result<(), AllocError>
    ensures { OnOk result (items.new.items ≡ items.old.items ++ near_ones (item ∷ []) (mark ∷ [])) }
{
    match mark {
        Mark::Near => items.push(item)?,
        Mark::Skip | Mark::Far => {}
    }
    Ok(())
}

// Appends the lines of an inner node's entries, and the pages that their marks need. Returns whether all marks are allowed.
fn show_inner(
    gauge: Gauge,
    coming: Coming,
    entries: &InnerEntries,
    marks: &[Mark],
    walk: &mut Walk,
) -> Result<bool, AllocError>
    requires long { length marks.now ≡ length entries.now }
    requires deep { coming.depth + 1 < 2 ^ 32 }
    ensures lines { OnOk result (walk.new.lines.items ≡ walk.old.lines.items ++
        marked_lines (subtree_line (search_by gauge.entry) coming) 0 entries.now marks.now) }
    ensures allowed { IfOk result (λ allowed. allowed ≡
        is_none (first_wrong (allows_subtree (search_by gauge.entry) coming.need.above) entries.now marks.now 0)) }
    ensures needs { OnOk result (walk.new.needs.items ≡ walk.old.needs.items ++
        comings_of (search_by gauge.entry) coming entries.now marks.now) }
    ensures stack { walk.new.stack.items ≡ walk.old.stack.items }
    ensures counts { walk.new.counts ≡ walk.old.counts }
{
    let mut allowed = true;
    for i in 0..entries.len() {
        let entry = entries.at(i);
        let tested = show_subtree(gauge, coming, i as u64, entry, marks[i], &mut walk.lines)?;
        let below = Coming {
            need: Need {
                page: entry.child,
                above: Some(tested.dist),
            },
            depth: coming.depth + 1,
        };
        push_near(&mut walk.needs, marks[i], below)?;
        allowed &= tested.allowed;
    }
    Ok(allowed)
}

// Appends the lines of a node, and collects the pages that its marks need. Returns whether all marks are allowed.
fn show_entries(
    gauge: Gauge,
    coming: Coming,
    node: &Node,
    marks: &[Mark],
    walk: &mut Walk,
) -> Result<bool, AllocError>
    requires long { length marks.now ≡ entry_count node.now }
    requires deep { coming.depth + 1 < 2 ^ 32 }
    ensures lines { OnOk result (walk.new.lines.items ≡ walk.old.lines.items ++
        node_lines (search_by gauge.entry) coming node.now marks.now) }
    ensures allowed { IfOk result (λ allowed. allowed ≡ is_none
        (first_wrong_in (search_by gauge.entry) coming.need.above node.now marks.now)) }
    ensures needs { OnOk result (walk.new.needs.items ≡ coming_from (search_by gauge.entry) coming node.now marks.now) }
    ensures stack { walk.new.stack.items ≡ walk.old.stack.items }
    ensures counts { walk.new.counts ≡ walk.old.counts }
{
    walk.needs.clear();
    match node {
        Node::Leaf(entries) => {
            push_node(coming.depth, coming.need.page, 0, &mut walk.lines)?;
            show_leaf(gauge, coming, entries, marks, &mut walk.lines)
        }
        Node::Inner { level, entries } => {
            push_node(coming.depth, coming.need.page, *level, &mut walk.lines)?;
            show_inner(gauge, coming, entries, marks, walk)
        }
    }
}

/// Returns the counts with those of one opened node more.
pub fn count_marks(counts: Counts, marks: &[Mark]) -> Counts
    requires { AreSmall (with_marks marks.now counts) }
    ensures { result ≡ with_marks marks.now counts }
{
    let mut counted = counts;
    counted.opened += 1;
    for mark in marks {
        match mark {
            Mark::Skip => counted.skips += 1,
            Mark::Far => counted.fars += 1,
            Mark::Near => counted.nears += 1,
        }
    }
    counted
}

// Puts the needed pages on the stack, so that the first of them is on top.
fn put_on_top(stack: &mut Vec<Coming>, needs: &mut Vec<Coming>) -> Result<(), AllocError>
    ensures { OnOk result (reverse stack.new.items ≡ needs.old.items ++ reverse stack.old.items) }
{
    while let Some(coming) = needs.pop() {
        stack.push(coming)?;
    }
    Ok(())
}

// Goes on to the pages that the node needs, or ends the walk.
fn go_on(walk: &mut Walk, goes: bool) -> Result<(), AllocError>
    ensures stack { OnOk result (reverse walk.new.stack.items ≡
        (if goes then walk.old.needs.items ++ reverse walk.old.stack.items else [])) }
    ensures lines { walk.new.lines.items ≡ walk.old.lines.items }
    ensures counts { walk.new.counts ≡ walk.old.counts }
{
    if !goes {
        walk.stack.clear();
        return Ok(());
    }
    put_on_top(&mut walk.stack, &mut walk.needs)
}

// Shows a node. The walk goes on to the pages that its marks need, where each mark is allowed.
pub fn show_node(
    gauge: Gauge,
    coming: Coming,
    node: &Node,
    marks: &[Mark],
    walk: &mut Walk,
) -> Result<(), AllocError>
    requires long { length marks.now ≡ entry_count node.now }
    requires deep { coming.depth + 1 < 2 ^ 32 }
    requires small { AreSmall (with_marks marks.now walk.old.counts) }
    ensures lines { OnOk result (walk.new.lines.items ≡ walk.old.lines.items ++
        node_lines (search_by gauge.entry) coming node.now marks.now) }
    ensures counts { OnOk result (walk.new.counts ≡ with_marks marks.now walk.old.counts) }
    ensures stack { OnOk result (reverse walk.new.stack.items ≡
        (if is_none (first_wrong_in (search_by gauge.entry) coming.need.above node.now marks.now)
        then coming_from (search_by gauge.entry) coming node.now marks.now ++ reverse walk.old.stack.items else [])) }
{
    let allowed = show_entries(gauge, coming, node, marks, walk)?;
    walk.counts = count_marks(walk.counts, marks);
    go_on(walk, allowed)
}
