//! What a join pairs.

ghost use Rattle.std.specs.Prelude.{◌≡◌, ◌+◌, ◌<◌, IfOk};
ghost use Rattle.std.specs.Option.{option_copied};
ghost use Rattle.log_model.specs.Counts.{entry_count};
ghost use Rattle.log_model.specs.Items.{item_at, seen_item};
ghost use Rattle.log_model.specs.JoinWalk.{rank_of, centre_of, radius_of, page_of, id_of, is_object};
ghost use Rattle.log_model.specs.SoundJoin.{root_item};

use std::alloc::AllocError;
use std::marker::Model;
use tree_shape::{InnerRef, LeafRef, Live, Node, Shared};

// Where the item stands.
#[derive(Drop)]
enum Held {
    // The root of a tree, which is not read yet.
    Root {
        // The root's page.
        page: u32,
        // The height plus 1.
        rank: u64,
    },
    // An entry of a node.
    Entry {
        // The node, which was read.
        node: Shared<Node>,
        // The place of the entry.
        index: usize,
    },
}

/// What a join pairs: a root, or an entry of a node that was read. The item holds that node, so another item of the node, or another
/// holder of the item, copies nothing. Contracts see the item.
#[derive(Drop)]
pub struct Item {
    held: Held,
}

impl Model for Item {
    ghost use Rattle.log_model.specs.Items.{Item as TheItem, held_item, IsHeld};

    ghost Value = { TheItem };

    ghost view = { λ i. held_item i.held };

    ghost invariant = { λ i. IsHeld i.held };
}

// The item, where it stands.
#[derive(Clone, Copy)]
enum Seen<'a> {
    // The root of a tree.
    Root {
        // The root's page.
        page: u32,
        // The height plus 1.
        rank: u64,
    },
    // An object of a leaf.
    Object(LeafRef<'a>),
    // A subtree that an inner node of this level names.
    Subtree(u8, InnerRef<'a>),
}

// Returns entry `index` of a node.
#[inline(always)]
fn entry_at(node: &Node, index: usize) -> Seen<'_>
    requires { index < entry_count node.now }
    ensures { seen_item result ≡ item_at node.now index }
{
    match node {
        Node::Leaf(entries) => Seen::Object(entries.at(index)),
        Node::Inner { level, entries } => Seen::Subtree(*level, entries.at(index)),
    }
}

impl Item {
    /// Returns the root of the live tree as an item.
    pub(crate) fn of_root(live: &Live) -> Self
        ensures { result ≡ root_item live.now }
    {
        Item {
            held: Held::Root {
                page: live.root,
                rank: u64::from(live.height) + 1,
            },
        }
    }

    /// Returns entry `index` of a node as an item, which holds the node.
    pub fn of_entry(node: &Shared<Node>, index: usize) -> Result<Self, AllocError>
        requires { index < entry_count node.now }
        ensures { IfOk result (λ item. item ≡ item_at node.now index) }
    {
        let node = node.share()?;
        Ok(Item {
            held: Held::Entry { node, index },
        })
    }

    /// Adds a holder of the same item.
    pub fn share(&self) -> Result<Self, AllocError>
        ensures { IfOk result (λ item. item ≡ self.now) }
    {
        match &self.held {
            Held::Root { page, rank } => Ok(Item {
                held: Held::Root {
                    page: *page,
                    rank: *rank,
                },
            }),
            Held::Entry { node, index } => Item::of_entry(node, *index),
        }
    }

    // Returns the item where it stands.
    #[inline(always)]
    fn seen(&self) -> Seen<'_>
        ensures { seen_item result ≡ self.now }
    {
        match &self.held {
            Held::Root { page, rank } => Seen::Root {
                page: *page,
                rank: *rank,
            },
            Held::Entry { node, index } => entry_at(node.as_ref(), *index),
        }
    }

    /// Returns the rank of a subtree, or 0 for an object.
    #[inline]
    pub(crate) fn rank(&self) -> u64
        ensures { result ≡ rank_of self.now }
    {
        match self.seen() {
            Seen::Root { rank, .. } => rank,
            Seen::Object(_) => 0,
            Seen::Subtree(level, _) => u64::from(level),
        }
    }

    /// Returns a subtree's routing point, if it has one, or an object's point.
    #[inline]
    pub fn centre(&self) -> Option<&[u32]>
        ensures { option_copied result ≡ centre_of self.now }
    {
        match self.seen() {
            Seen::Root { .. } => None,
            Seen::Object(entry) => Some(entry.point),
            Seen::Subtree(_, entry) => Some(entry.point),
        }
    }

    /// Returns the covering radius of a subtree, or 0 for an object.
    #[inline]
    pub fn radius(&self) -> u64
        ensures { result ≡ radius_of self.now }
    {
        match self.seen() {
            Seen::Root { .. } | Seen::Object(_) => 0,
            Seen::Subtree(_, entry) => entry.radius,
        }
    }

    /// Returns the page of a subtree, or 0 for an object.
    #[inline]
    pub fn page(&self) -> u32
        ensures { result ≡ page_of self.now }
    {
        match self.seen() {
            Seen::Root { page, .. } => page,
            Seen::Object(_) => 0,
            Seen::Subtree(_, entry) => entry.child,
        }
    }

    /// Returns the id of an object, or 0 for a subtree.
    #[inline]
    pub fn id(&self) -> u32
        ensures { result ≡ id_of self.now }
    {
        match self.seen() {
            Seen::Object(entry) => entry.id,
            Seen::Root { .. } | Seen::Subtree(..) => 0,
        }
    }

    /// Returns whether the item is an object.
    #[inline]
    pub fn is_object(&self) -> bool
        ensures { result ≡ is_object self.now }
    {
        match self.seen() {
            Seen::Object(_) => true,
            Seen::Root { .. } | Seen::Subtree(..) => false,
        }
    }
}
