// The shape of a tree, by a walk in pre-order.
ghost use Rattle.std.specs.Prelude.{◌≡◌, ◌≤◌, ◌+◌, ◌++◌, [], ◌∷◌, map, length, reverse, Some, IsTrue, IfOk, IfErr, OnOk};
ghost use Rattle.metric_laws.specs.Counts.{next_count, count_up, CountsUpTo};
ghost use Rattle.metric_laws.specs.Space.{Space};
ghost use Rattle.tree_shape.specs.Entries.{inner_of};
ghost use Rattle.tree_shape.specs.Tree.{IsSoundTree, inner_entries};
ghost use Rattle.page_store.specs.Reading.{nodes_of};
ghost use Rattle.page_store.specs.Shelf.{HoldsSame, HasPageCause, IsPassing};
ghost use Rattle.page_store.specs.Tours.{HasTourCause};
ghost use Rattle.log_model.specs.Counts.{entry_count};
ghost use Rattle.tree_outline.specs.Shapes.{root_named, named_by, line_of, tree_lines, DrawsTo, IsCounted, IsDrawn};

use metric_laws::{Listed, Point};
use page_store::{PageFault, Pages};
use std::alloc::{AllocError, Global};
use tree_shape::{InnerEntries, InnerRef, Live, Node};

/// A node of an index's tree.
#[derive(Drop)]
pub struct ShapeLine {
    /// The node's level: 0 for a leaf.
    pub level: u8,
    /// The number of entries.
    pub entries: u32,
    /// The routing point of the entry that names it; the root has none.
    pub centre: Option<Point>,
    /// The covering radius of that entry.
    pub radius: Option<u64>,
}

/// The tree of an index.
#[derive(Drop)]
pub struct Shape {
    /// The root's level.
    pub height: u32,
    /// The number of objects.
    pub objects: u32,
    /// The number of nodes.
    pub nodes: u32,
    /// The nodes, in pre-order.
    pub lines: Listed<ShapeLine>,
}

/// A node that a walk still has to open, as the entry above it names it.
#[derive(Drop)]
pub struct Named {
    /// The node's page.
    pub page: u32,
    /// The routing point of the entry; the root has none.
    pub centre: Option<Point>,
    /// The covering radius of the entry.
    pub radius: Option<u64>,
}

// Makes the node that an entry names.
fn named_by(alloc: Global, entry: InnerRef) -> Result<Named, AllocError>
    ensures { IfOk result (λ named. named ≡ named_by (inner_of entry.entry)) }
{
    let centre = Point::new(alloc, entry.point)?;
    Ok(Named {
        page: entry.child,
        centre: Some(centre),
        radius: Some(entry.radius),
    })
}

// Pushes the nodes that `entries` name, the first one topmost.
fn put_on_top(
    alloc: Global,
    coming: &mut Vec<Named>,
    entries: &InnerEntries,
) -> Result<(), AllocError>
    ensures { OnOk result (reverse coming.new.items ≡ map named_by entries.now ++ reverse coming.old.items) }
{
    for index in (0..entries.len()).rev() {
        let named = named_by(alloc, entries.at(index))?;
        coming.push(named)?;
    }
    Ok(())
}

// Makes the line of a node.
fn line_of(named: Named, node: &Node) -> ShapeLine
    requires { entry_count node.now ≤ 32 }
    ensures { result ≡ line_of named node.now }
{
    let (level, entries) = match node {
        Node::Leaf(entries) => (0, entries.len()),
        Node::Inner { level, entries } => (*level, entries.len()),
    };
    ShapeLine {
        level,
        entries: entries as u32,
        centre: named.centre,
        radius: named.radius,
    }
}

// Pushes the nodes that the entries of an inner node name, the first one topmost. A leaf names none.
fn name_children(alloc: Global, coming: &mut Vec<Named>, node: &Node) -> Result<(), AllocError>
    ensures { OnOk result (reverse coming.new.items ≡ map named_by (inner_entries (Some node.now)) ++ reverse coming.old.items) }
{
    match node {
        Node::Leaf(_) => Ok(()),
        Node::Inner { entries, .. } => put_on_top(alloc, coming, entries),
    }
}

// Opens a node.
fn draw<P: Pages>(
    alloc: Global,
    pages: &mut P,
    named: Named,
    lines: &mut Vec<ShapeLine>,
    coming: &mut Vec<Named>,
) -> Result<(), PageFault>
    ensures same { HoldsSame (P.shelf pages.old) (P.shelf pages.new) }
    ensures keeps { P.keeps pages.old pages.new }
    ensures asked { (P.shelf pages.new).asked ≡ next_count (P.shelf pages.old).asked }
    ensures reads { (P.shelf pages.new).reads ≤ (P.shelf pages.old).reads + 1 }
    ensures no_fault { OnOk result ((P.shelf pages.new).faults ≡ (P.shelf pages.old).faults) }
    ensures drawn { OnOk result (IsDrawn (P.shelf pages.old) named lines.old.items lines.new.items (reverse coming.old.items)
        (reverse coming.new.items)) }
    ensures cause { IfErr result (HasPageCause (P.shelf pages.old) (P.shelf pages.new) named.page) }
{
    let node = pages.node(alloc, named.page, None)?;
    if lines.push(line_of(named, node.as_ref())).is_err() {
        return Err(PageFault::Memory);
    }
    name_children(alloc, coming, node.as_ref())?;
    Ok(())
}

/// Walks the live tree in pre-order by its child numbers. After as many pages as the file has, one more is refused unasked.
/// Clauses: the answer (`counted`, `lines`, `walk`); what stays (`same`, `keeps`); the cost (`asked_once`, `read_once`, `asked`, `reads`);
/// the cause of an error (`cause`, `sound`); faults of the devices (`no_fault`).
pub fn shape_of<P: Pages>(alloc: Global, pages: &mut P, live: &Live) -> Result<Shape, PageFault>
    ensures same { HoldsSame (P.shelf pages.old) (P.shelf pages.new) }
    ensures keeps { P.keeps pages.old pages.new }
    ensures counted { IfOk result (IsCounted live.now) }
    ensures asked_once { IfOk result (λ shape. (P.shelf pages.new).asked ≡ count_up (P.shelf pages.old).asked (length shape.lines)) }
    ensures read_once { IfOk result (λ shape. (P.shelf pages.new).reads ≤ (P.shelf pages.old).reads + length shape.lines) }
    // Whatever the result, at most as many pages are asked for, and read, as the file has.
    ensures asked { CountsUpTo (P.shelf pages.old).asked (P.shelf pages.new).asked live.now.pages }
    ensures reads { (P.shelf pages.new).reads ≤ (P.shelf pages.old).reads + live.now.pages }
    ensures no_fault { OnOk result ((P.shelf pages.new).faults ≡ (P.shelf pages.old).faults) }
    ensures lines { IfOk result (λ shape. IsTrue (P.shelf pages.old).is_known → (s : Space) →
        IsSoundTree s (nodes_of (P.shelf pages.old).read) live.now →
        shape.lines ≡ tree_lines (nodes_of (P.shelf pages.old).read) live.now) }
    ensures walk { IfOk result (λ shape. IsTrue (P.shelf pages.old).is_known →
        DrawsTo (nodes_of (P.shelf pages.old).read) (root_named live.now.root ∷ []) shape.lines []) }
    ensures cause { IfErr result (HasTourCause live.now (P.shelf pages.old) (P.shelf pages.new)) }
    ensures sound { IfErr result (λ fault. IsTrue (P.shelf pages.old).is_known → (s : Space) →
        IsSoundTree s (nodes_of (P.shelf pages.old).read) live.now → IsPassing fault) }
{
    let mut lines = Vec::new(alloc);
    let Ok(mut coming) = vec![in alloc;
        Named {
            page: live.root,
            centre: None,
            radius: None
        },
    ] else {
        return Err(PageFault::Memory);
    };
    let mut nodes = 0u32;
    while let Some(named) = coming.pop() {
        if nodes == live.pages {
            return Err(PageFault::Repeats(named.page));
        }
        draw(alloc, pages, named, &mut lines, &mut coming)?;
        nodes += 1;
    }
    Ok(Shape {
        height: live.height,
        objects: live.count,
        nodes,
        lines: Listed::new(lines),
    })
}
