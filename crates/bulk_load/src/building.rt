//! The tree of a load.

ghost use Rattle.std.specs.Prelude.{◌≡◌, ◌≢◌, ◌↔◌, ◌+◌, ◌-◌, ◌*◌, ◌^◌, ◌≤◌, ◌<◌, ◌∷◌, [], All, Err, IsTrue, IfOk, IfErr, None, length};
ghost use Rattle.tree_growth.specs.Bulk.{height_of, places_from};
ghost use Rattle.tree_shape.specs.Tree.{Nodes, IsSoundTree};
ghost use Rattle.node_page.specs.Heads.{IsValidHead};
ghost use Rattle.node_page.specs.Opening.{IsValidLive};
ghost use Rattle.page_store.specs.Staging.{pages_of};
ghost use Rattle.page_store.specs.Numbers.{AreNumbers};
ghost use Rattle.page_store.specs.Placing.{AreOutside, IsPlacement};
ghost use Rattle.page_store.specs.Succession.{StandsByItself};
ghost use Rattle.bulk_load.specs.Causes.{HasBuildCause, node_count};
ghost use Rattle.bulk_load.specs.Loaded.{HasLoaded, Stand};
ghost use Rattle.bulk_load.specs.Postorder.{last_of};
ghost use Rattle.bulk_load.specs.Sets.{load_by, page_by, IsValidLoad, top_height, top_nodes};

use crate::BuildFault;
use crate::crew::Crew;
use crate::sharing::add_tree;
use crate::subtree::{Loading, Set};
use metric_laws::{Metric, Rows};
use node_page::Head;
use page_store::{NewTree, Numbering, Placed, RoomFault, settle};
use std::alloc::{AllocError, Global};
use tree_shape::{LAST_GENERATION, Live, fill};

// Returns the least height of a tree with room for `count` objects, at most `most` entries to a node.
fn height_for(most: usize, count: usize) -> u32
    requires most { (2 ≤ most) × (most ≤ 32) }
    requires count { count ≤ 2 ^ 24 }
    ensures { result ≡ height_of most count }
{
    let mut height = 0;
    let mut room = most;
    while room < count {
        room *= most;
        height += 1;
    }
    height
}

// Returns the places of `count` rows.
fn all_places(alloc: Global, count: usize) -> Result<Vec<u32>, AllocError>
    requires { count < 2 ^ 32 }
    ensures { IfOk result (λ places. places.items ≡ places_from 0 count) }
{
    let mut places = Vec::with_capacity(alloc, count)?;
    for row in 0..count {
        places.push(row as u32)?;
    }
    Ok(places)
}

// Makes the tree of all rows, in place of one that has no objects.
// Clauses: what is asked of the caller (`ready`, `load`, `some`, `few`, `workers`, `first`); the answer (`nodes`, `root`, `height`,
// `added`, `left`).
fn new_tree<W: Crew<M>, M: Metric>(
    crew: &W,
    alloc: Global,
    loading: &Loading<'_, M>,
    live: &Live,
) -> Result<NewTree, AllocError>
    requires ready { W.ready crew.now }
    requires load { IsValidLoad (load_by (M.space loading.now.metric) loading.now) }
    requires some { 0 < length loading.now.rows.now.points }
    requires few { length loading.now.rows.now.points ≤ 2 ^ 24 }
    requires workers { (1 ≤ loading.now.workers) × (loading.now.workers ≤ 64) }
    requires first { loading.now.numbering.first ≤ 2 ^ 24 }
    ensures nodes { IfOk result (λ tree.
        tree.nodes.items ≡ top_nodes (load_by (M.space loading.now.metric) loading.now) (page_by loading.now)) }
    ensures root { IfOk result (λ tree. tree.root ≡ last_of (page_by loading.now) 0 tree.nodes.items) }
    ensures height { IfOk result (λ tree. tree.height ≡ top_height (load_by (M.space loading.now.metric) loading.now)) }
    ensures added { IfOk result (λ tree. tree.added ≡ length loading.now.rows.now.points) }
    ensures left { IfOk result (λ tree. tree.left.items ≡ live.now.root ∷ []) }
{
    let places = all_places(alloc, loading.rows.len())?;
    let set = Set {
        level: height_for(loading.fill.most, loading.rows.len()),
        seed: None,
        places: places.as_slice(),
    };
    let mut nodes = Vec::new(alloc);
    let root = add_tree(crew, alloc, loading, &set, &mut nodes)?;
    let left = vec![in alloc; live.root]?;
    Ok(NewTree {
        nodes,
        root,
        height: set.level,
        added: loading.rows.len() as u32,
        left,
    })
}

/// Makes the nodes of the tree of `rows` with `tags`, for a commit to an index that has no objects. Row i gets the id i. The rows
/// alone settle the tree: any number of workers gives the same. New nodes get the pages `numbers`, in order, and then those from
/// the file's end on. Children are numbered before their parent, in order of groups.
/// Clauses: what is asked of the caller (`ready`, `head`, `live`, `empty`, `dimension`, `some`, `few`, `is_point`, `tags`, `workers`,
/// `numbers`); what the commit needs (`placement`, `many`, `apart`); the answer (`by_itself`, `left`, `loaded`); the cause of an error
/// (`worn`, `cause`).
/// Arguments: `crew` and `workers` do the work in the space of `metric`, `head`, `live` and `numbers` are the file and its free pages, and
/// `rows` and `tags` are the objects.
pub fn build<W: Crew<M>, M: Metric>(
    crew: &W,
    alloc: Global,
    metric: M,
    workers: usize,
    head: &Head,
    live: &Live,
    numbers: &[u32],
    rows: &Rows,
    tags: &[u64],
) -> Result<Placed, BuildFault>
    requires ready { W.ready crew.now }
    requires head { IsValidHead head.now }
    requires live { IsValidLive head.now.limit (live.now.pages * 4096) live.now }
    requires empty { live.now.count ≡ 0 }
    requires dimension { (M.space metric).dimension ≡ head.now.dim }
    requires some { 0 < length rows.now.points }
    requires few { length rows.now.points ≤ head.now.limit }
    requires is_point { All (λ p. IsTrue ((M.space metric).is_point p)) rows.now.points }
    requires tags { length tags.now ≡ length rows.now.points }
    requires workers { (1 ≤ workers) × (workers ≤ 64) }
    requires numbers { AreNumbers live.now.pages numbers.now }

    // What is placed can be committed.
    ensures placement { IfOk result (IsPlacement head.now live.now numbers.now (length rows.now.points)) }
    ensures many { IfOk result (λ placed. length placed.staged ≡ node_count (M.space metric) rows.now.points tags.now) }
    ensures apart { IfOk result (λ placed. (old : Nodes) → IsSoundTree (M.space metric) old live.now →
        AreOutside old live.now numbers.now → AreOutside old live.now (pages_of placed.staged)) }

    // What is placed is a tree by itself, and the old root is left.
    ensures by_itself { IfOk result StandsByItself }
    ensures left { IfOk result (λ placed. placed.left ≡ live.now.root ∷ []) }

    // What is placed is the tree of the rows.
    ensures loaded { IfOk result (λ placed. (new : Nodes) → Stand placed.staged new →
        HasLoaded (M.space metric) rows.now.points tags.now live.now numbers.now placed new) }

    // Why it is refused.
    ensures worn { (result ≡ Err BuildFault.Worn) ↔ (live.now.generation ≡ 2 ^ 48 - 1) }
    ensures cause { IfErr result (HasBuildCause (M.space metric) rows.now.points tags.now numbers.now live.now) }
{
    if live.generation == LAST_GENERATION {
        return Err(BuildFault::Worn);
    }
    let loading = Loading {
        metric,
        workers,
        rows,
        tags,
        fill: fill(head.dim),
        numbering: Numbering {
            numbers,
            first: live.pages,
        },
    };
    let tree = new_tree(crew, alloc, &loading, live)?;
    match settle(alloc, &loading.numbering, live, tree) {
        Ok(placed) => Ok(placed),
        Err(RoomFault::NoRoom { pages, needed }) => Err(BuildFault::NoRoom { pages, needed }),
        Err(RoomFault::Memory) => Err(BuildFault::Memory),
    }
}
