//! The tree of all rows. Several workers make the subtrees of the root's groups apart from one another.

ghost use Rattle.std.specs.Prelude.{◌≡◌, ℕ, ◌+◌, ◌-◌, ◌≤◌, ◌<◌, ◌^◌, ◌++◌, All, IfSome, Some, length, slice_index_or, IfOk, OnOk};
ghost use Rattle.tree_growth.specs.Bulk.{groups_at};
ghost use Rattle.bulk_load.specs.Sets.{load_by, page_by, IsValidLoad, IsSetFor, IsGroupFor};
ghost use Rattle.bulk_load.specs.Postorder.{is_top, last_of, nodes_at};
ghost use Rattle.bulk_load.specs.Apart.{IsMadeOf, AreMadeOf};

use crate::crew::{Alone, Crew};
use crate::moving::add_nodes;
use crate::subtree::{Loading, Set, add_subtree, group_entry_of, groups_in, push_inner};
use metric_laws::Metric;
use page_store::Numbering;
use par_work::{in_turn, share};
use std::alloc::{AllocError, Global};
use std::thread::Threads;
use tree_growth::Group;
use tree_shape::{InnerEntry, Node};

/// What a worker makes of a group.
#[derive(Drop)]
pub struct Made {
    /// The group's entry, whose child has no page yet.
    pub entry: InnerEntry,
    /// The nodes of the group's subtree, numbered from 0.
    pub nodes: Vec<Node>,
}

// Makes one worker's part: the entry and the nodes of `group`.
fn made_of<M: Metric>(
    alloc: Global,
    loading: &Loading<'_, M>,
    set: &Set<'_>,
    group: &Group,
) -> Result<Made, AllocError>
    requires load { IsValidLoad (load_by (M.space loading.now.metric) loading.now) }
    requires rows { length loading.now.rows.now.points ≤ 2 ^ 24 }
    requires seed { IfSome set.now.seed (λ k. k < length loading.now.rows.now.points) }
    requires level { (1 ≤ set.now.level) × (set.now.level ≤ 14) }
    requires group { IsGroupFor (load_by (M.space loading.now.metric) loading.now) (set.now.level - 1) group.now }
    ensures { IfOk result (IsMadeOf (load_by (M.space loading.now.metric) loading.now) set.now.seed (set.now.level - 1) group.now) }
{
    let alone = Loading {
        metric: loading.metric,
        workers: 1,
        rows: loading.rows,
        tags: loading.tags,
        fill: loading.fill,
        numbering: Numbering {
            numbers: &[],
            first: 0,
        },
    };
    let below = Set {
        level: set.level - 1,
        seed: Some(group.seed),
        places: group.members.as_slice(),
    };
    let mut nodes = Vec::new(alloc);
    add_subtree(&Alone, alloc, &alone, &below, &mut nodes)?;
    let entry = group_entry_of(alloc, loading, set.seed, group, 0)?;
    Ok(Made { entry, nodes })
}

/// Makes the parts of all `groups` of `set`, by several threads.
#[tactic(auto, using(crate::proofs::Moved::all_made))]
pub fn made_by_threads<R: Threads + Sync, M: Metric>(
    rt: &R,
    alloc: Global,
    loading: &Loading<'_, M>,
    set: &Set<'_>,
    groups: &[Group],
) -> Result<Vec<Result<Made, AllocError>>, AllocError>
    requires load { IsValidLoad (load_by (M.space loading.now.metric) loading.now) }
    requires rows { length loading.now.rows.now.points ≤ 2 ^ 24 }
    requires workers { (1 ≤ loading.now.workers) × (loading.now.workers ≤ 64) }
    requires seed { IfSome set.now.seed (λ k. k < length loading.now.rows.now.points) }
    requires level { (1 ≤ set.now.level) × (set.now.level ≤ 14) }
    requires groups { All (IsGroupFor (load_by (M.space loading.now.metric) loading.now) (set.now.level - 1)) groups.now }
    ensures { IfOk result (λ parts. AreMadeOf (load_by (M.space loading.now.metric) loading.now) set.now.seed
        (set.now.level - 1) groups.now parts.items) }
{
    let work = |i: usize| -> Result<Made, AllocError>
        requires load { IsValidLoad (load_by (M.space loading.now.metric) loading.now) }
        requires rows { length loading.now.rows.now.points ≤ 2 ^ 24 }
        requires seed { IfSome set.now.seed (λ k. k < length loading.now.rows.now.points) }
        requires level { (1 ≤ set.now.level) × (set.now.level ≤ 14) }
        requires groups { All (IsGroupFor (load_by (M.space loading.now.metric) loading.now) (set.now.level - 1)) groups.now }
        requires inside { i < length groups.now }
        ensures { (g : Group) → IfOk result
            (IsMadeOf (load_by (M.space loading.entry.now.metric) loading.entry.now) set.entry.now.seed (set.entry.now.level - 1)
            (slice_index_or groups.entry.now i g)) }
    { made_of(alloc, loading, set, &groups[i]) };
    share(rt, alloc, groups.len(), loading.workers, &work)
}

// Makes the parts of all `groups` of `set`, by the caller alone.
#[tactic(auto, using(crate::proofs::Moved::all_made))]
fn made_in_turn<M: Metric>(
    alloc: Global,
    loading: &Loading<'_, M>,
    set: &Set<'_>,
    groups: &[Group],
) -> Result<Vec<Result<Made, AllocError>>, AllocError>
    requires load { IsValidLoad (load_by (M.space loading.now.metric) loading.now) }
    requires rows { length loading.now.rows.now.points ≤ 2 ^ 24 }
    requires seed { IfSome set.now.seed (λ k. k < length loading.now.rows.now.points) }
    requires level { (1 ≤ set.now.level) × (set.now.level ≤ 14) }
    requires groups { All (IsGroupFor (load_by (M.space loading.now.metric) loading.now) (set.now.level - 1)) groups.now }
    ensures { IfOk result (λ parts. AreMadeOf (load_by (M.space loading.now.metric) loading.now) set.now.seed
        (set.now.level - 1) groups.now parts.items) }
{
    let work = |i: usize| -> Result<Made, AllocError>
        requires load { IsValidLoad (load_by (M.space loading.now.metric) loading.now) }
        requires rows { length loading.now.rows.now.points ≤ 2 ^ 24 }
        requires seed { IfSome set.now.seed (λ k. k < length loading.now.rows.now.points) }
        requires level { (1 ≤ set.now.level) × (set.now.level ≤ 14) }
        requires groups { All (IsGroupFor (load_by (M.space loading.now.metric) loading.now) (set.now.level - 1)) groups.now }
        requires inside { i < length groups.now }
        ensures { (g : Group) → IfOk result
            (IsMadeOf (load_by (M.space loading.entry.now.metric) loading.entry.now) set.entry.now.seed (set.entry.now.level - 1)
            (slice_index_or groups.entry.now i g)) }
    { made_of(alloc, loading, set, &groups[i]) };
    in_turn(alloc, groups.len(), &work)
}

// Makes the parts of all `groups` of `set`, by the crew or else by the caller alone.
fn all_made<W: Crew<M>, M: Metric>(
    crew: &W,
    alloc: Global,
    loading: &Loading<'_, M>,
    set: &Set<'_>,
    groups: &[Group],
) -> Result<Vec<Result<Made, AllocError>>, AllocError>
    requires ready { W.ready crew.now }
    requires load { IsValidLoad (load_by (M.space loading.now.metric) loading.now) }
    requires rows { length loading.now.rows.now.points ≤ 2 ^ 24 }
    requires workers { (1 ≤ loading.now.workers) × (loading.now.workers ≤ 64) }
    requires seed { IfSome set.now.seed (λ k. k < length loading.now.rows.now.points) }
    requires level { (1 ≤ set.now.level) × (set.now.level ≤ 14) }
    requires groups { All (IsGroupFor (load_by (M.space loading.now.metric) loading.now) (set.now.level - 1)) groups.now }
    ensures { IfOk result (λ parts. AreMadeOf (load_by (M.space loading.now.metric) loading.now) set.now.seed
        (set.now.level - 1) groups.now parts.items) }
{
    match crew.made(alloc, loading, set, groups)? {
        Some(parts) => Ok(parts),
        None => made_in_turn(alloc, loading, set, groups),
    }
}

/// Appends the nodes of the tree of `set` as `add_subtree` does, by as many workers as the load has.
/// Clauses: what is asked of the caller (`ready`, `load`, `rows`, `workers`, `first`, `seed`, `set`, `level`, `few`); the answer (`page`);
/// what changes (`nodes`).
pub fn add_tree<W: Crew<M>, M: Metric>(
    crew: &W,
    alloc: Global,
    loading: &Loading<'_, M>,
    set: &Set<'_>,
    nodes: &mut Vec<Node>,
) -> Result<u32, AllocError>
    requires ready { W.ready crew.now }
    requires load { IsValidLoad (load_by (M.space loading.now.metric) loading.now) }
    requires rows { length loading.now.rows.now.points ≤ 2 ^ 24 }
    requires workers { (1 ≤ loading.now.workers) × (loading.now.workers ≤ 64) }
    requires first { loading.now.numbering.first ≤ 2 ^ 24 }
    requires seed { IfSome set.now.seed (λ k. k < length loading.now.rows.now.points) }
    requires set { IsSetFor (load_by (M.space loading.now.metric) loading.now) (is_top set.now.seed) set.now.level set.now.places.now }
    requires level { set.now.level ≤ 14 }
    requires few { length nodes.old.items + length (nodes_at (load_by (M.space loading.now.metric) loading.now)
        (page_by loading.now) set.now.level set.now.seed set.now.places.now (length nodes.old.items)) ≤ 2 ^ 26 }
    ensures page { IfOk result (λ page. page ≡ last_of (page_by loading.now) (length nodes.old.items)
        (nodes_at (load_by (M.space loading.now.metric) loading.now) (page_by loading.now) set.now.level set.now.seed
        set.now.places.now (length nodes.old.items))) }
    ensures nodes { OnOk result (nodes.new.items ≡ nodes.old.items
        ++ nodes_at (load_by (M.space loading.now.metric) loading.now) (page_by loading.now) set.now.level set.now.seed
        set.now.places.now (length nodes.old.items)) }
{
    if loading.workers == 1 || set.level == 0 {
        return add_subtree(crew, alloc, loading, set, nodes);
    }
    let groups = groups_in(crew, alloc, loading, set)?;
    let parts = all_made(crew, alloc, loading, set, groups.as_slice())?;
    let mut entries = Vec::with_capacity(alloc, groups.len())?;
    for part in parts {
        let made = part?;
        let mut entry = made.entry;
        entry.child = add_nodes(alloc, &loading.numbering, made.nodes, nodes)?;
        entries.push(entry)?;
    }
    let page = push_inner(loading, set.level, entries, nodes)?;
    Ok(page)
}
