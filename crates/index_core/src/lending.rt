// The pages of an opened file, through its cache of nodes if there is one.
ghost use Rattle.std.specs.Prelude.{◌≡◌, ◌+◌, ◌≤◌, IfOk, IfErr, Err, false, None, Some};
ghost use Rattle.index_core.specs.Lending.{lent_inner, lent_kept, lent_shelf, KeptAgrees};

use page_cache::{Cached, Kept};
use page_store::{PageFault, Pages, SharedNode};
use std::alloc::Global;

/// Pages, with or without a cache of nodes.
#[derive(Drop)]
pub enum Lent<P: Pages> {
    /// The pages without a cache.
    Plain(P),
    /// The pages behind a cache.
    Behind(Cached<P>),
}

impl<P: Pages> Lent<P> {
    /// Makes pages of `inner`, behind the cache `kept` if there is one.
    pub fn of(inner: P, kept: Option<Kept>) -> Self
        requires agrees { KeptAgrees kept (P.shelf inner) }
        requires unasked { (P.shelf inner).asked ≡ 0 }
        ensures inner { lent_inner result ≡ inner }
        ensures kept { lent_kept result ≡ kept }
        ensures shelf { lent_shelf P.shelf result ≡ P.shelf inner }
    {
        match kept {
            None => Lent::Plain(inner),
            Some(kept) => Lent::Behind(Cached::from_parts(inner, kept)),
        }
    }

    /// Returns the pages and the cache as it is now.
    pub fn into_parts(self) -> (P, Option<Kept>)
        ensures inner { result.0 ≡ lent_inner self }
        ensures kept { result.1 ≡ lent_kept self }
        ensures agrees { KeptAgrees result.1 (P.shelf result.0) }
    {
        match self {
            Lent::Plain(inner) => (inner, None),
            Lent::Behind(cached) => {
                let (inner, kept) = cached.into_parts();
                (inner, Some(kept))
            }
        }
    }
}

impl<P: Pages> Pages for Lent<P> {
    ghost use Rattle.index_core.specs.Lending.{lent_inner, lent_kept, lent_shelf, SameRoom, same_room_by_none, same_room_by_both};

    ghost shelf = { λ l. lent_shelf P.shelf l };

    // What the pages keep across calls, and the capacity of the cache.
    ghost keeps = { λ l m. P.keeps (lent_inner l) (lent_inner m) × SameRoom (lent_kept l) (lent_kept m) };

    ghost keeps_none = { λ l. (P.keeps_none (lent_inner l), same_room_by_none (lent_kept l)) };

    ghost keeps_both = { λ l m n first second. (
      P.keeps_both (lent_inner l) (lent_inner m) (lent_inner n) first.0 second.0,
      same_room_by_both (lent_kept l) (lent_kept m) (lent_kept n) first.1 second.1,
    ) };

    fn node(
        &mut self,
        alloc: Global,
        page: u32,
        spare: Option<Vec<u32>>,
    ) -> Result<SharedNode, PageFault> {
        match self {
            Lent::Plain(inner) => inner.node(alloc, page, spare),
            Lent::Behind(cached) => cached.node(alloc, page, spare),
        }
    }
}
