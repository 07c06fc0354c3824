ghost use Rattle.std.specs.Prelude.{◌≡◌, ◌⊎◌, ◌<◌, ℕ, length, Option, [], Some, IfOk, OnOk};
ghost use Rattle.std.specs.Option.{option_map};
ghost use Rattle.std.specs.Map.{lookup};
ghost use Rattle.nearest_search.specs.Seeing.{seen_on};
ghost use Rattle.nearest_search.specs.declared.kept.Turn.{Turn};
ghost use Rattle.nearest_search.specs.Keeping.{Grows, LiesWithin, SpansFit, blocks_of, is_turn, kept_seen, seen_at, sights_in};

use crate::seen::{Sheet, Sight};
use metric_laws::Listed;
use std::alloc::{AllocError, Global};
use std::collections::HashMap;
use std::mem;

/// An opening of a page. In a sound tree a page is opened once, so its hash is the page's alone.
#[derive(Clone, Copy, PartialEq, Eq)]
#[derive_where(Hash)]
pub struct Turn {
    /// The page.
    pub page: u32,
    /// The distance from the query's point to the routing point above. None stands above the root.
    #[derive_where(skip(Hash))]
    pub above: Option<u64>,
}

/// Where the sights of an opening stand: in one block, from one place up to another.
#[derive(Clone, Copy)]
pub struct Span {
    /// The number of the block.
    pub block: usize,
    pub from: usize,
    pub to: usize,
    /// The number of the node's entries.
    pub count: usize,
    /// Whether they are of a leaf's objects. If not, they are of an inner node's subtrees.
    pub is_leaf: bool,
}

/// The room for openings that is taken at once: many searches open no more pages.
const SOME_OPENINGS: usize = 224;

/// The room for more openings that is taken where that is used up, so that what is kept of them is moved once.
const MORE_OPENINGS: usize = 1568;

/// The sights of a block, of 40 KiB.
const BLOCK: usize = 1024;

// Makes room for more openings, where the room for some is used up.
fn make_more_room(spans: &mut HashMap<Turn, Span>) -> Result<(), AllocError>
    ensures { (turn : Turn) → lookup (is_turn turn) spans.new.entries ≡ lookup (is_turn turn) spans.old.entries }
{
    if spans.len() == SOME_OPENINGS {
        spans.reserve(MORE_OPENINGS)?;
    }
    Ok(())
}

/// What was seen at each opening of a page. Sights stand in blocks, so that few openings take memory of their own, and no sight is
/// copied where there are many.
#[derive(Drop)]
pub struct Kept {
    // The blocks before the last one.
    full: Vec<Listed<Sight>>,
    /// The last block. Sights are appended to it.
    pub last: Vec<Sight>,
    spans: HashMap<Turn, Span>,
}

impl Kept {
    /// Keeps nothing yet.
    pub fn new(alloc: Global) -> Result<Self, AllocError>
        ensures { IfOk result (λ kept. kept.spans.entries ≡ []) }
    {
        Ok(Kept {
            full: Vec::new(alloc),
            last: Vec::with_capacity(alloc, BLOCK)?,
            spans: HashMap::with_capacity(alloc, SOME_OPENINGS)?,
        })
    }

    /// Makes room for `count` more sights in the last block, or in a new one. Returns the number of the last block.
    pub fn make_room(&mut self, alloc: Global, count: usize) -> Result<usize, AllocError>
        ensures last { IfOk result (λ block. block ≡ length self.new.full.items) }
        ensures spans { self.new.spans ≡ self.old.spans }
        ensures grows { OnOk result (Grows (blocks_of self.old) (blocks_of self.new)) }
    {
        if BLOCK.saturating_sub(self.last.len()) < count {
            let next = Vec::with_capacity(alloc, BLOCK)?;
            let full = mem::replace(&mut self.last, next);
            self.full.push(Listed::new(full))?;
        }
        Ok(self.full.len())
    }

    // Returns the sights of a block.
    fn block(&self, number: usize) -> &[Sight]
        requires { number < length (blocks_of self.now) }
        ensures { result.now ≡ sights_in (blocks_of self.now) number }
    {
        if number < self.full.len() {
            self.full[number].as_slice()
        } else {
            self.last.as_slice()
        }
    }

    /// Returns what was seen at the opening `turn`, if it is kept.
    pub fn get(&self, turn: Turn) -> Option<Sheet<'_>>
        requires { SpansFit self.now }
        ensures { option_map seen_on result ≡ kept_seen self.now turn.page turn.above }
    {
        let Some(span) = self.spans.get(&turn) else {
            return None;
        };
        let sights = &self.block(span.block)[span.from..span.to];
        let count = span.count;
        if span.is_leaf {
            return Some(Sheet::Objects { count, sights });
        }
        Some(Sheet::Subtrees { count, sights })
    }

    /// Keeps where the sights of the opening `turn` stand.
    pub fn put(&mut self, turn: Turn, span: Span) -> Result<(), AllocError>
        requires fits { SpansFit self.old }
        requires within { LiesWithin (blocks_of self.old) span }
        ensures fits { OnOk result (SpansFit self.new) }
        ensures here { OnOk result (kept_seen self.new turn.page turn.above ≡ Some (seen_at (blocks_of self.old) span)) }
        ensures others { OnOk result ((page : ℕ) (above : Option ℕ) →
            ((page ≡ turn.page) × (above ≡ turn.above)) ⊎ (kept_seen self.new page above ≡ kept_seen self.old page above)) }
    {
        make_more_room(&mut self.spans)?;
        self.spans.insert(turn, span)?;
        Ok(())
    }
}
