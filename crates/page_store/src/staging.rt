ghost use Rattle.std.specs.Prelude.{◌≡◌, ◌<◌, ◌++◌, ◌==◌, [], ◌∷◌, length, slice_get, MatchOption, Some, None, OnOk, OnErr};
ghost use Rattle.page_store.specs.Staging.{IsFree, staged_for, AreApart};
ghost use Rattle.page_store.specs.declared.staging.StagedNode.{StagedNode};

use metric_laws::Listed;
use std::alloc::{AllocError, Global};
use std::marker::Model;
use tree_shape::{Live, Node};

/// A node for the next commit.
#[derive(Drop)]
pub struct StagedNode {
    /// The page that it will stand on.
    pub page: u32,
    /// What the page will hold.
    pub node: Node,
}

/// The new nodes of one commit, in the order of staging. No two are for the same page.
#[derive(Drop)]
pub struct Staged {
    nodes: Vec<StagedNode>,
}

impl Model for Staged {
    ghost use Rattle.std.specs.Prelude.{List};
    ghost use Rattle.page_store.specs.declared.staging.StagedNode.{StagedNode};
    ghost use Rattle.page_store.specs.Staging.{AreApart};

    ghost Value = { List StagedNode };

    ghost view = { λ s. s.nodes.items };

    ghost invariant = { λ s. AreApart s.nodes.items };
}

impl Staged {
    /// Makes an empty list of staged nodes.
    pub fn new(alloc: Global) -> Self
        ensures { result ≡ [] }
    {
        Staged {
            nodes: Vec::new(alloc),
        }
    }

    /// Stages `node` for page `page`.
    pub fn stage(&mut self, page: u32, node: Node) -> Result<(), AllocError>
        requires { IsFree self.old page }
        ensures ok { OnOk result (self.new ≡ self.old ++ record { page = page; node = node } ∷ []) }
        ensures err { OnErr result (self.new ≡ self.old) }
    {
        self.nodes.push(StagedNode { page, node })?;
        Ok(())
    }

    /// Returns the node that is staged for page `page`, if there is one.
    pub fn get(&self, page: u32) -> Option<&Node>
        ensures { MatchOption result (staged_for self.now page ≡ None) (λ node. staged_for self.now page ≡ Some node.now) }
    {
        for staged in &self.nodes {
            if staged.page == page {
                return Some(&staged.node);
            }
        }
        None
    }

    /// Returns the number of nodes. No two of them are staged for one page.
    pub fn len(&self) -> usize
        ensures len { result ≡ length self.now }
        ensures apart { AreApart self.now }
    {
        self.nodes.len()
    }

    /// Returns whether no node is staged.
    pub fn is_empty(&self) -> bool
        ensures { result ≡ (length self.now == 0) }
    {
        self.nodes.is_empty()
    }

    /// Returns what was staged as number `i`, counted from 0.
    pub fn at(&self, i: usize) -> &StagedNode
        requires { i < length self.now }
        ensures { slice_get self.now i ≡ Some result.now }
    {
        &self.nodes[i]
    }

    /// Returns the page of the node that was staged as number `i`, counted from 0.
    pub fn page_at(&self, i: usize) -> u32
        requires { i < length self.now }
        ensures { (s : StagedNode) → slice_get self.now i ≡ Some s → result ≡ s.page }
    {
        self.nodes[i].page
    }

    /// Returns the node that was staged as number `i`, counted from 0.
    pub fn node_at(&self, i: usize) -> &Node
        requires { i < length self.now }
        ensures { (s : StagedNode) → slice_get self.now i ≡ Some s → result.now ≡ s.node }
    {
        &self.nodes[i].node
    }
}

/// The result of an insertion or a bulk load.
#[derive(Drop)]
pub struct Placed {
    /// The new nodes.
    pub staged: Staged,
    /// The live tree that the new nodes make.
    pub next: Live,
    /// The pages of the old tree that are not in the new one.
    pub left: Listed<u32>,
}
