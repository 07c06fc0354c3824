ghost use Rattle.std.specs.Prelude.{◌≡◌, IfOk};
ghost use Rattle.log_model.specs.Met.{hits_among};
ghost use Rattle.log_model.specs.Sound.{selected};

use crate::{JoinRecord, Record, TaggedHit, Traversal, select};
use metric_laws::Listed;
use scan_model::{Hit, Pair, Query};
use std::alloc::{AllocError, Global};
use tree_shape::Live;

/// A query, its answers, and each pruning decision of its search.
#[derive(Drop)]
pub struct Log {
    /// The generation of the tree that was searched.
    pub generation: u64,
    /// The page of that tree's root.
    pub root: u32,
    /// The query that was asked.
    pub query: Query,
    /// The answers, by distance, then by id.
    pub answers: Listed<Hit>,
    /// The nodes that were opened, in pre-order from the root.
    pub records: Listed<Record>,
}

/// A join of two trees, its answers, and each pruning decision of its walk.
#[derive(Drop)]
pub struct JoinLog {
    /// The generation of the left tree and the page of its root.
    pub left: (u64, u32),
    /// The generation of the right tree and the page of its root.
    pub right: (u64, u32),
    /// The join's radius.
    pub r: u64,
    /// The answers, by the left id, then by the right id.
    pub answers: Listed<Pair>,
    /// The nodes that were opened, in the order of the join's walk.
    pub records: Listed<JoinRecord>,
}

/// The result of a search: its hits, and the log that shows them.
#[derive(Drop)]
pub struct Found {
    /// The answers, by distance, then by id.
    pub hits: Listed<Hit>,
    /// The objects that the log marks Near, in the order of its walk, with their tags.
    pub tagged: Listed<TaggedHit>,
    /// The log of the search.
    pub log: Log,
}

/// The result of a join: its pairs, and the log that shows them.
#[derive(Drop)]
pub struct Joined {
    /// The answers, by the left id, then by the right id.
    pub pairs: Listed<Pair>,
    /// The log of the join.
    pub log: JoinLog,
}

// Returns the hits without their tags.
fn hits_among(alloc: Global, tagged: &[TaggedHit]) -> Result<Vec<Hit>, AllocError>
    ensures { IfOk result (λ hits. hits.items ≡ hits_among tagged.now) }
{
    tagged.iter().map(|one| one.hit).collect(alloc)
}

impl Found {
    /// Returns the result of the query `query` from its finished walk `walk` of the live tree.
    pub fn of(alloc: Global, live: &Live, query: Query, walk: Traversal) -> Result<Self, AllocError>
        ensures generation { IfOk result (λ found. found.log.generation ≡ live.now.generation) }
        ensures root { IfOk result (λ found. found.log.root ≡ live.now.root) }
        ensures query { IfOk result (λ found. found.log.query ≡ query) }
        ensures records { IfOk result (λ found. found.log.records ≡ walk.records.items) }
        ensures answers { IfOk result (λ found. found.log.answers ≡ selected query (hits_among walk.tagged.items)) }
        ensures tagged { IfOk result (λ found. found.tagged ≡ walk.tagged.items) }
        ensures hits { IfOk result (λ found. found.hits ≡ found.log.answers) }
    {
        let mut answers = hits_among(alloc, walk.tagged.as_slice())?;
        select(&query, &mut answers);
        let hits = answers.iter().copied().collect(alloc)?;
        Ok(Found {
            hits: Listed::new(hits),
            tagged: Listed::new(walk.tagged),
            log: Log {
                generation: live.generation,
                root: live.root,
                query,
                answers: Listed::new(answers),
                records: Listed::new(walk.records),
            },
        })
    }
}
