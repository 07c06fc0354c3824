ghost use Rattle.std.specs.Prelude.{◌≡◌, ◌⊎◌, ◌≤◌, ◌==◌, [], length, nat_eq, IfOk, MatchOption, MatchResult, Ok, None};
ghost use Rattle.std.specs.List.{IsDistinct};
ghost use Rattle.std.specs.Map.{keys_of};
ghost use Rattle.lru.specs.LruCache.{lru_cache};
ghost use Rattle.page_cache.specs.Keeping.{kept_node, used, without};

use lru::LruCache;
use page_store::SharedNode;
use std::alloc::{AllocError, Global};
use std::marker::Model;
use std::num::NonZeroUsize;

/// The number of cached nodes for a file whose pages are asked for again and again.
pub const KEPT_NODES: usize = 256;

/// A cache of the nodes of the pages that were used last. Contracts see the pairs of a page and its node, the last used first, and
/// the greatest number of pairs.
#[derive(Drop)]
pub struct Kept {
    nodes: LruCache<u32, SharedNode>,
    // The memory of a node that was dropped, for the node that is read next.
    spare: Option<Vec<u32>>,
}

impl Model for Kept {
    ghost use Rattle.page_cache.specs.Keeping.{Pairs};

    ghost Value = { Pairs };

    ghost view = { λ k. k.nodes };
}

// Returns the memory of a node that nobody else holds.
fn numbers_of(dropped: SharedNode) -> Option<Vec<u32>> {
    dropped.into_sole()?.into_numbers()
}

impl Kept {
    /// Makes an empty cache of at most `pages` nodes (at least 1). Memory for a node is taken when it comes.
    pub fn new(alloc: Global, pages: usize) -> Result<Self, AllocError>
        requires { 1 ≤ pages }
        ensures { IfOk result (λ kept. kept ≡ lru_cache [] pages) }
    {
        let most = NonZeroUsize::new(pages).unwrap();
        Ok(Kept {
            nodes: LruCache::sparse(alloc, most)?,
            spare: None,
        })
    }

    /// Returns the number of cached nodes. It is never more than the greatest number, and counts no page twice.
    pub fn len(&self) -> usize
        ensures len { result ≡ length self.now.entries }
        ensures few { length self.now.entries ≤ self.now.cap }
        ensures distinct { IsDistinct nat_eq (keys_of self.now.entries) }
    {
        self.nodes.len()
    }

    /// Returns whether no node is cached.
    pub fn is_empty(&self) -> bool
        ensures { result ≡ (length self.now.entries == 0) }
    {
        self.nodes.is_empty()
    }

    /// Drops the node of page `page`, if it is cached. Call this before the page is written anew.
    pub fn forget(&mut self, page: u32)
        ensures { self.new ≡ without self.old page }
    {
        // By the length no page is cached twice, so that no node of this page is left.
        let _len = self.nodes.len();
        drop(self.nodes.pop(&page));
    }

    // Returns the cached node of page `page`, which becomes the last used.
    pub(crate) fn share_of(&mut self, page: u32) -> Result<Option<SharedNode>, AllocError>
        ensures found { IfOk result (λ node. node ≡ kept_node self.old page) }
        ensures unkept { kept_node self.old page ≡ None → result ≡ Ok None }
        ensures kept { MatchResult result
            (λ found. MatchOption found (self.new ≡ self.old) (λ node. self.new ≡ used self.old page node))
            (λ _. self.new ≡ self.old) }
    {
        let Some(node) = self.nodes.peek(&page) else {
            return Ok(None);
        };
        let shared = node.share()?;
        self.nodes.promote(&page);
        Ok(Some(shared))
    }

    // Caches a page's node as the last used, unless memory runs out.
    pub(crate) fn keep(&mut self, page: u32, node: &SharedNode)
        ensures { (self.new ≡ used self.old page node.now) ⊎ (self.new ≡ self.old) }
    {
        let Ok(shared) = node.share() else {
            return;
        };
        if let Ok(Some((_, dropped))) = self.nodes.push(page, shared) {
            self.spare = numbers_of(dropped);
        }
    }

    // Returns the memory of a node that was dropped, for the node that is read next.
    pub(crate) fn take_spare(&mut self) -> Option<Vec<u32>>
        ensures { self.new ≡ self.old }
    {
        self.spare.take()
    }
}
