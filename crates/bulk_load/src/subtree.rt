//! The nodes of a set's subtree.

ghost use Rattle.std.specs.Prelude.{◌≡◌, ℕ, ◌+◌, ◌≤◌, ◌<◌, ◌^◌, ◌++◌, ◌∷◌, [], All, IfSome, length, map, IfOk, OnOk};
ghost use Rattle.metric_laws.specs.Space.{bound};
ghost use Rattle.tree_shape.specs.declared.entry.Node.TheVariants.{Leaf, Inner};
ghost use Rattle.tree_shape.specs.Tree.{parent_distance};
ghost use Rattle.tree_growth.specs.Bulk.{point_of, radius_of, groups_at};
ghost use Rattle.bulk_load.specs.Sets.{load_by, page_by, IsValidLoad, IsSetFor};
ghost use Rattle.bulk_load.specs.Postorder.{is_top, seed_point, leaf_entry, group_entry, last_of, nodes_at};

use crate::crew::Scout;
use crate::grouping::groups;
use metric_laws::{Metric, Point, Rows};
use page_store::Numbering;
use std::alloc::{AllocError, Global};
use tree_growth::Group;
use tree_shape::{Bounds, InnerEntries, InnerEntry, LeafEntries, LeafEntry, Node};

/// What a load works with.
#[derive(Clone, Copy)]
pub struct Loading<'a, M: Metric> {
    pub metric: M,
    /// The number of threads that compute distances.
    pub workers: usize,
    pub rows: &'a Rows,
    /// A tag for each row.
    pub tags: &'a [u64],
    /// How many entries a node may have.
    pub fill: Bounds,
    /// Which pages the nodes get.
    pub numbering: Numbering<'a>,
}

/// The rows of a subtree.
#[derive(Clone, Copy)]
pub struct Set<'a> {
    /// The level of the subtree's root.
    pub level: u32,
    /// The row whose point is the routing point above, unless the subtree is the whole tree.
    pub seed: Option<u32>,
    /// The places of the rows, which ascend.
    pub places: &'a [u32],
}

// Returns the parent distance of `p`: its distance to the point of `seed`, and 0 without a seed.
fn parent_of<M: Metric>(loading: &Loading<'_, M>, seed: Option<u32>, p: &[u32]) -> u64
    requires seed { IfSome seed (λ k. k < length loading.now.rows.now.points) }
    ensures { result ≡ parent_distance (M.space loading.now.metric)
        (seed_point (load_by (M.space loading.now.metric) loading.now) seed) p.now }
{
    match seed {
        Some(row) => loading.metric.dist(p, loading.rows.point(row as usize)),
        None => 0,
    }
}

// Makes the entry of `row` in a leaf.
fn leaf_entry_of<M: Metric>(
    alloc: Global,
    loading: &Loading<'_, M>,
    seed: Option<u32>,
    row: u32,
) -> Result<LeafEntry, AllocError>
    requires seed { IfSome seed (λ k. k < length loading.now.rows.now.points) }
    requires row { row < length loading.now.rows.now.points }
    requires tags { length loading.now.tags.now ≡ length loading.now.rows.now.points }
    ensures { IfOk result (λ e. e ≡ leaf_entry (load_by (M.space loading.now.metric) loading.now) seed row) }
{
    let p = loading.rows.point(row as usize);
    let parent = parent_of(loading, seed, p);
    let point = Point::new(alloc, p)?;
    Ok(LeafEntry {
        id: row,
        tag: loading.tags[row as usize],
        parent,
        point,
    })
}

// Makes the entries of a leaf.
fn leaf_entries<M: Metric>(
    alloc: Global,
    loading: &Loading<'_, M>,
    set: &Set<'_>,
) -> Result<Vec<LeafEntry>, AllocError>
    requires seed { IfSome set.now.seed (λ k. k < length loading.now.rows.now.points) }
    requires places { All (λ k. k < length loading.now.rows.now.points) set.now.places.now }
    requires tags { length loading.now.tags.now ≡ length loading.now.rows.now.points }
    ensures { IfOk result (λ es. es.items ≡
        map (leaf_entry (load_by (M.space loading.now.metric) loading.now) set.now.seed) set.now.places.now) }
{
    let mut entries = Vec::with_capacity(alloc, set.places.len())?;
    for row in set.places {
        let entry = leaf_entry_of(alloc, loading, set.seed, *row)?;
        entries.push(entry)?;
    }
    Ok(entries)
}

// Returns the greatest distance of a member's point to the point of `seed`.
fn radius<M: Metric>(loading: &Loading<'_, M>, seed: u32, members: &[u32]) -> u64
    requires seed { seed < length loading.now.rows.now.points }
    requires members { All (λ k. k < length loading.now.rows.now.points) members.now }
    ensures { let L = load_by (M.space loading.now.metric) loading.now in result ≡ radius_of L (point_of L seed) members.now }
{
    let centre = loading.rows.point(seed as usize);
    let mut greatest = 0;
    for row in members {
        let dist = loading
            .metric
            .dist(loading.rows.point(*row as usize), centre);
        greatest = greatest.max(dist);
    }
    greatest
}

/// Makes the entry of `group`, where the root of its subtree stands on `page`.
pub fn group_entry_of<M: Metric>(
    alloc: Global,
    loading: &Loading<'_, M>,
    seed: Option<u32>,
    group: &Group,
    page: u32,
) -> Result<InnerEntry, AllocError>
    requires seed { IfSome seed (λ k. k < length loading.now.rows.now.points) }
    requires own { group.now.seed < length loading.now.rows.now.points }
    requires members { All (λ k. k < length loading.now.rows.now.points) group.now.members }
    ensures { IfOk result (λ e. e ≡ group_entry (load_by (M.space loading.now.metric) loading.now) seed group.now page) }
{
    let p = loading.rows.point(group.seed as usize);
    let parent = parent_of(loading, seed, p);
    let radius = radius(loading, group.seed, group.members.as_slice());
    let point = Point::new(alloc, p)?;
    Ok(InnerEntry {
        child: page,
        radius,
        parent,
        point,
    })
}

// Appends `node` to `nodes`, and returns its page.
fn push_node<M: Metric>(
    loading: &Loading<'_, M>,
    node: Node,
    nodes: &mut Vec<Node>,
) -> Result<u32, AllocError>
    requires first { loading.now.numbering.first ≤ 2 ^ 24 }
    requires few { length nodes.old.items < 2 ^ 26 }
    ensures page { IfOk result (λ page. page ≡ page_by loading.now (length nodes.old.items)) }
    ensures nodes { OnOk result (nodes.new.items ≡ nodes.old.items ++ node ∷ []) }
{
    let page = loading.numbering.page_at(nodes.len());
    nodes.push(node)?;
    Ok(page)
}

/// Appends the node of a set above level 0 to `nodes`, and returns its page.
pub fn push_inner<M: Metric>(
    loading: &Loading<'_, M>,
    level: u32,
    entries: Vec<InnerEntry>,
    nodes: &mut Vec<Node>,
) -> Result<u32, AllocError>
    requires level { level ≤ 14 }
    requires first { loading.now.numbering.first ≤ 2 ^ 24 }
    requires few { length nodes.old.items < 2 ^ 26 }
    ensures page { IfOk result (λ page. page ≡ page_by loading.now (length nodes.old.items)) }
    ensures nodes { OnOk result (nodes.new.items ≡ nodes.old.items ++ Inner level entries.items ∷ []) }
{
    let node = Node::Inner {
        level: level as u8,
        entries: InnerEntries::new(entries),
    };
    push_node(loading, node, nodes)
}

/// Returns the groups of a set above level 0.
pub fn groups_in<W: Scout<M>, M: Metric>(
    crew: &W,
    alloc: Global,
    loading: &Loading<'_, M>,
    set: &Set<'_>,
) -> Result<Vec<Group>, AllocError>
    requires ready { W.ready crew.now }
    requires load { IsValidLoad (load_by (M.space loading.now.metric) loading.now) }
    requires rows { length loading.now.rows.now.points < 2 ^ 32 }
    requires workers { (1 ≤ loading.now.workers) × (loading.now.workers ≤ 64) }
    requires set { IsSetFor (load_by (M.space loading.now.metric) loading.now) (is_top set.now.seed) set.now.level set.now.places.now }
    requires level { (1 ≤ set.now.level) × (set.now.level ≤ 14) }
    ensures { IfOk result (λ gs. gs.items ≡ groups_at (load_by (M.space loading.now.metric) loading.now)
        (is_top set.now.seed) set.now.level set.now.places.now) }
{
    groups(
        crew,
        alloc,
        loading.metric,
        loading.workers,
        loading.rows,
        set.places,
        set.level,
        set.seed.is_none(),
        &loading.fill,
    )
}

/// Appends the nodes of the subtree of `set` to `nodes`, children before their parent, and returns the page of the subtree's root.
/// Clauses: what is asked of the caller (`ready`, `load`, `rows`, `workers`, `first`, `seed`, `set`, `level`, `few`); the answer (`page`);
/// what changes (`nodes`).
pub fn add_subtree<W: Scout<M>, M: Metric>(
    crew: &W,
    alloc: Global,
    loading: &Loading<'_, M>,
    set: &Set<'_>,
    nodes: &mut Vec<Node>,
) -> Result<u32, AllocError>
    requires ready { W.ready crew.now }
    requires load { IsValidLoad (load_by (M.space loading.now.metric) loading.now) }
    requires rows { length loading.now.rows.now.points < 2 ^ 32 }
    requires workers { (1 ≤ loading.now.workers) × (loading.now.workers ≤ 64) }
    requires first { loading.now.numbering.first ≤ 2 ^ 24 }
    requires seed { IfSome set.now.seed (λ k. k < length loading.now.rows.now.points) }
    requires set { IsSetFor (load_by (M.space loading.now.metric) loading.now) (is_top set.now.seed) set.now.level set.now.places.now }
    requires level { set.now.level ≤ 14 }
    requires few { length nodes.old.items + length (nodes_at (load_by (M.space loading.now.metric) loading.now)
        (page_by loading.now) set.now.level set.now.seed set.now.places.now (length nodes.old.items)) ≤ 2 ^ 26 }
    ensures page { IfOk result (λ page. page ≡ last_of (page_by loading.now) (length nodes.old.items)
        (nodes_at (load_by (M.space loading.now.metric) loading.now) (page_by loading.now) set.now.level set.now.seed
        set.now.places.now (length nodes.old.items))) }
    ensures nodes { OnOk result (nodes.new.items ≡ nodes.old.items
        ++ nodes_at (load_by (M.space loading.now.metric) loading.now) (page_by loading.now) set.now.level set.now.seed
        set.now.places.now (length nodes.old.items)) }
{
    if set.level == 0 {
        let entries = leaf_entries(alloc, loading, set)?;
        return push_node(loading, Node::Leaf(LeafEntries::new(entries)), nodes);
    }
    let groups = groups_in(crew, alloc, loading, set)?;
    let mut entries = Vec::with_capacity(alloc, groups.len())?;
    for group in groups {
        let below = Set {
            level: set.level - 1,
            seed: Some(group.seed),
            places: group.members.as_slice(),
        };
        let page = add_subtree(crew, alloc, loading, &below, nodes)?;
        let entry = group_entry_of(alloc, loading, set.seed, &group, page)?;
        entries.push(entry)?;
    }
    let page = push_inner(loading, set.level, entries, nodes)?;
    Ok(page)
}
