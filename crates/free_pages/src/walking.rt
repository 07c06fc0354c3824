// The walk of the live tree.
ghost use Rattle.std.specs.Prelude.{◌≡◌, ◌≤◌, ◌<◌, ◌+◌, ◌^◌, ◌++◌, [], ◌∷◌, map, length, reverse, IfOk, IfErr, OnOk, false, List, ℕ, slice_index_or};
ghost use Rattle.tree_shape.specs.declared.live.Live.{Live};
ghost use Rattle.page_store.specs.Shelf.{Shelf, HoldsSame};
ghost use Rattle.free_pages.specs.Opened.{IsUnderWay};
ghost use Rattle.page_store.specs.Tours.{children};
ghost use Rattle.free_pages.specs.Walk.{tree_walk, IsWalkFault};

use page_store::{PageFault, Pages};
use std::alloc::{AllocError, Global};
use tree_shape::{InnerEntries, Live, Node};

/// A walk by child numbers.
#[derive(Drop)]
pub struct Walk {
    /// Whether each page was opened.
    pub opened: Vec<bool>,
    /// How many pages were opened.
    pub count: usize,
    /// The pages that were named and are still to come, the next one last.
    pub coming: Vec<u32>,
}

// Pushes the children of `entries`, the first one topmost.
fn put_on_top(coming: &mut Vec<u32>, entries: &InnerEntries) -> Result<(), AllocError>
    ensures { OnOk result (reverse coming.new.items ≡ map (λ e. e.child) entries.now ++ reverse coming.old.items) }
{
    for index in (0..entries.len()).rev() {
        coming.push(entries.at(index).child)?;
    }
    Ok(())
}

// Pushes the pages that `node` names.
fn name_children(coming: &mut Vec<u32>, node: &Node) -> Result<(), AllocError>
    ensures { OnOk result (reverse coming.new.items ≡ children node.now ++ reverse coming.old.items) }
{
    match node {
        Node::Leaf(_) => Ok(()),
        Node::Inner { entries, .. } => put_on_top(coming, entries),
    }
}

// Returns whether `page` was opened.
fn is_opened(opened: &[bool], page: u32) -> bool
    ensures { result ≡ slice_index_or opened.now page false }
{
    let page = page as usize;
    page < opened.len() && opened[page]
}

// Begins a walk at the root.
fn begin(alloc: Global, live: &Live) -> Result<Walk, AllocError>
    ensures few { IfOk result (λ walk. length walk.opened.items < 2 ^ 32) }
    ensures begun { IfOk result (λ walk. (s : Shelf) → IsUnderWay s s live.now walk.count walk.opened.items (reverse walk.coming.items)) }
{
    Ok(Walk {
        opened: vec![in alloc; false; live.pages as usize]?,
        count: 0,
        coming: vec![in alloc; live.root]?,
    })
}

// Opens a page that the walk reaches.
// Clauses: what is asked of the caller (`limit`, `few`); what changes (`opened`, `one`); what stays (`same`, `keeps`, `flags`); the cost
// (`asked`, `reads`); the cause of an error (`err`); faults of the devices (`no_fault`).
fn visit<P: Pages>(
    alloc: Global,
    pages: &mut P,
    walk: &mut Walk,
    page: u32,
) -> Result<(), PageFault>
    requires limit { length walk.old.opened.items ≡ (P.shelf pages.old).pages }
    requires few { walk.old.count ≤ length walk.old.opened.items }
    ensures same { HoldsSame (P.shelf pages.old) (P.shelf pages.new) }
    ensures keeps { P.keeps pages.old pages.new }
    ensures opened { OnOk result ((old : Shelf) (t : Live) →
        IsUnderWay old (P.shelf pages.old) t walk.old.count walk.old.opened.items (page ∷ reverse walk.old.coming.items) →
        IsUnderWay old (P.shelf pages.new) t walk.new.count walk.new.opened.items (reverse walk.new.coming.items)) }
    ensures no_fault { OnOk result ((P.shelf pages.new).faults ≡ (P.shelf pages.old).faults) }
    ensures one { OnOk result (walk.new.count ≡ walk.old.count + 1) }
    ensures flags { length walk.new.opened.items ≡ length walk.old.opened.items }
    ensures err { IfErr result (λ fault. (old : Shelf) (t : Live) (coming : List ℕ) →
        IsUnderWay old (P.shelf pages.old) t walk.old.count walk.old.opened.items (page ∷ coming) →
        IsWalkFault old (P.shelf pages.new) (tree_walk old.read t) fault) }
    ensures asked { (P.shelf pages.new).asked ≤ (P.shelf pages.old).asked + 1 }
    ensures reads { (P.shelf pages.new).reads ≤ (P.shelf pages.old).reads + 1 }
{
    if is_opened(walk.opened.as_slice(), page) {
        return Err(PageFault::Repeats(page));
    }
    let node = pages.node(alloc, page, None)?;
    name_children(&mut walk.coming, node.as_ref())?;
    walk.opened[page as usize] = true;
    walk.count += 1;
    Ok(())
}

/// Walks the live tree in pre-order, and opens each of its pages once.
/// Clauses: what is asked of the caller (`pages`); the answer (`ok`, `few`); what stays (`same`, `keeps`); the cost (`asked`, `reads`); the
/// cause of an error (`err`); faults of the devices (`no_fault`).
pub fn walk_tree<P: Pages>(alloc: Global, pages: &mut P, live: &Live) -> Result<Walk, PageFault>
    requires pages { live.now.pages ≡ (P.shelf pages.old).pages }
    ensures same { HoldsSame (P.shelf pages.old) (P.shelf pages.new) }
    ensures keeps { P.keeps pages.old pages.new }
    ensures few { IfOk result (λ walk. length walk.opened.items < 2 ^ 32) }
    ensures no_fault { OnOk result ((P.shelf pages.new).faults ≡ (P.shelf pages.old).faults) }
    ensures ok { IfOk result (λ walk. IsUnderWay (P.shelf pages.old) (P.shelf pages.new) live.now walk.count walk.opened.items []) }
    ensures err { IfErr result (IsWalkFault (P.shelf pages.old) (P.shelf pages.new) (tree_walk (P.shelf pages.old).read live.now)) }
    ensures asked { 1 ≤ live.now.pages → (P.shelf pages.new).asked ≤ (P.shelf pages.old).asked + live.now.pages }
    ensures reads { 1 ≤ live.now.pages → (P.shelf pages.new).reads ≤ (P.shelf pages.old).reads + live.now.pages }
{
    let mut walk = begin(alloc, live)?;
    while let Some(page) = walk.coming.pop() {
        visit(alloc, pages, &mut walk, page)?;
    }
    Ok(walk)
}
