ghost use Rattle.std.specs.Prelude.{◌≡◌, ◌+◌, ◌≤◌, [], false, IfOk, IfErr, OnOk, IsSome, MatchResult, Some, None, Err};
ghost use Rattle.lru.specs.LruCache.{lru_cache};
ghost use Rattle.metric_laws.specs.Counts.{next_count};
ghost use Rattle.tree_shape.specs.declared.entry.Node.{Node as TheNode};
ghost use Rattle.page_store.specs.Reading.{is_within};
ghost use Rattle.page_store.specs.Shelf.{HoldsSame, IsNodeOf, HasPageCause};
ghost use Rattle.page_store.specs.declared.pages.PageFault.TheVariants.{Outside, Memory as NoMemory};
ghost use Rattle.page_cache.specs.Keeping.{kept_node, without, IsUsed, Agrees};
ghost use Rattle.page_cache.specs.Cache.{asked_for};

use crate::Kept;
use page_store::{PageFault, Pages, SharedNode};
use std::alloc::{AllocError, Global};
use std::marker::Model;

/// Pages behind a cache. It keeps the nodes that were asked for last, and gives them again without a request to the pages behind.
/// Contracts see the pages behind, the cached nodes, and how often a page was asked for here.
#[derive(Drop)]
pub struct Cached<P: Pages> {
    inner: P,
    kept: Kept,
    asked: u64,
}

impl<P: Pages> Model for Cached<P> {
    ghost use Rattle.page_cache.specs.Keeping.{Agrees};
    ghost use Rattle.page_cache.specs.Cache.{Cache};

    ghost Value = { Cache P };

    ghost view = { λ c. record { inner = c.inner; kept = c.kept; asked = c.asked } };

    ghost invariant = { λ c. Agrees c.kept (P.shelf c.inner) };
}

impl<P: Pages + Drop> Cached<P> {
    /// Puts an empty cache of at most `pages` nodes (at least 1) before `inner`. The count of requests is 0.
    pub fn new(alloc: Global, inner: P, pages: usize) -> Result<Self, AllocError>
        requires { 1 ≤ pages }
        ensures { IfOk result (λ cached. cached ≡ record { inner = inner; kept = lru_cache [] pages; asked = 0 }) }
    {
        let kept = Kept::new(alloc, pages)?;
        Ok(Cached::from_parts(inner, kept))
    }
}

impl<P: Pages> Cached<P> {
    /// Puts the cache `kept` before `inner`. Each of its nodes has to be what `inner` gives for its page. The count of requests is
    /// 0.
    pub fn from_parts(inner: P, kept: Kept) -> Self
        requires { Agrees kept (P.shelf inner) }
        ensures { result ≡ record { inner = inner; kept = kept; asked = 0 } }
    {
        Cached {
            inner,
            kept,
            asked: 0,
        }
    }

    /// Returns the pages behind and the cache. `from_parts` takes the cache again with these pages, or with others that give the
    /// same nodes.
    pub fn into_parts(self) -> (P, Kept)
        ensures inner { result.0 ≡ self.inner }
        ensures kept { result.1 ≡ self.kept }
        ensures agrees { Agrees result.1 (P.shelf result.0) }
    {
        let Cached { inner, kept, .. } = self;
        (inner, kept)
    }

    /// Returns the pages behind, and drops the cache.
    pub fn into_inner(self) -> P
        ensures { result ≡ self.inner }
    {
        let Cached { inner, .. } = self;
        inner
    }

    /// Sets the count of requests to 0.
    pub fn count_anew(&mut self)
        ensures { self.new ≡ record self.old { asked = 0 } }
    {
        self.asked = 0;
    }

    /// Drops the node of page `page`, if it is cached. The next request for the page goes to the pages behind.
    pub fn forget(&mut self, page: u32)
        ensures { self.new ≡ record self.old { kept = without self.old.kept page } }
    {
        self.kept.forget(page);
    }
}

impl<P: Pages> Pages for Cached<P> {
    ghost use Rattle.std.specs.Prelude.{◌≡◌, refl};
    ghost use Rattle.std.proofs.Common.{◌∙◌};
    ghost use Rattle.page_cache.specs.Cache.{asked_for};

    ghost shelf = { λ c. asked_for (P.shelf c.inner) c.asked };

    // What the pages behind keep, and the greatest number of cached nodes.
    ghost keeps = { λ c d. P.keeps c.inner d.inner × (d.kept.cap ≡ c.kept.cap) };

    ghost keeps_none = { λ c. (P.keeps_none c.inner, refl) };

    ghost keeps_both = { λ c d e first second. (P.keeps_both c.inner d.inner e.inner first.0 second.0, second.1 ∙ first.1) };

    /// Returns the node of a page: the cached one, or what the pages behind give, which is then cached. A refusal does not change
    /// the cache. Where memory for caching the node runs out, the cache does not change either. `Memory` comes also where a node has
    /// as many holders as can be counted.
    /// Clauses: the answer (`ok`, `hit`); what stays (`same`, `keeps`); what the cache holds (`kept`); the cost (`asked`, `reads`,
    /// `unread`, `unasked`, `asks`); the cause of an error (`cause`, `outside`); faults of the devices (`no_fault`).
    fn node(
        &mut self,
        alloc: Global,
        page: u32,
        spare: Option<Vec<u32>>,
    ) -> Result<SharedNode, PageFault>
        ensures ok { IfOk result (IsNodeOf (asked_for (P.shelf self.old.inner) self.old.asked) page) }
        ensures cause { IfErr result (HasPageCause (asked_for (P.shelf self.old.inner) self.old.asked)
            (asked_for (P.shelf self.new.inner) self.new.asked) page) }
        ensures no_fault { OnOk result ((P.shelf self.new.inner).faults ≡ (P.shelf self.old.inner).faults) }
        ensures outside { is_within (P.shelf self.old.inner).pages page ≡ false → result ≡ Err (Outside page) }
        ensures unread { is_within (P.shelf self.old.inner).pages page ≡ false →
            (P.shelf self.new.inner).reads ≡ (P.shelf self.old.inner).reads }
        ensures same { HoldsSame (asked_for (P.shelf self.old.inner) self.old.asked) (asked_for (P.shelf self.new.inner) self.new.asked) }
        ensures asked { self.new.asked ≡ next_count self.old.asked }
        ensures reads { (P.shelf self.new.inner).reads ≤ (P.shelf self.old.inner).reads + 1 }
        ensures keeps { P.keeps self.old.inner self.new.inner × (self.new.kept.cap ≡ self.old.kept.cap) }

        // The cached node is returned, unless its holders can't be counted. The pages behind are not asked.
        ensures hit { (node : TheNode) → kept_node self.old.kept page ≡ Some node →
            MatchResult result (λ answer. answer ≡ node) (λ fault. fault ≡ NoMemory) }
        ensures unasked { IsSome (kept_node self.old.kept page) → self.new.inner ≡ self.old.inner }

        // For another page they are asked once.
        ensures asks { kept_node self.old.kept page ≡ None → (P.shelf self.new.inner).asked ≡ next_count (P.shelf self.old.inner).asked }
        ensures kept { MatchResult result (IsUsed self.old.kept self.new.kept page) (λ _. self.new.kept ≡ self.old.kept) }
    {
        self.asked = self.asked.saturating_add(1);
        match self.kept.share_of(page) {
            Ok(Some(node)) => Ok(node),
            Ok(None) => {
                let spare = self.kept.take_spare().or(spare);
                let node = self.inner.node(alloc, page, spare)?;
                self.kept.keep(page, &node);
                Ok(node)
            }
            Err(_) => Err(PageFault::Memory),
        }
    }
}
