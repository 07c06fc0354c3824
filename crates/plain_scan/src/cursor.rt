ghost use Rattle.std.specs.Prelude.{◌≡◌, length, min, take, drop, IfOk};
ghost use Rattle.rows_text.specs.Meaning.{advanced};

use scan_model::Hit;
use std::alloc::{AllocError, Global};
use std::marker::Model;

/// An open cursor: all hits of its query, and how many of them were given.
#[derive(Drop)]
pub struct OpenCursor {
    number: u32,
    hits: Vec<Hit>,
    tags: Vec<u64>,
    given: usize,
}

impl Model for OpenCursor {
    ghost use Rattle.std.specs.Prelude.{◌≡◌, ◌≤◌, length, drop};
    ghost use Rattle.rows_text.specs.Meaning.{Cursor};

    ghost Value = { Cursor };

    ghost view = { λ c. record { number = c.number; hits = drop c.given c.hits.items; tags = drop c.given c.tags.items } };

    ghost invariant = { λ c. (c.given ≤ length c.hits.items) × (length c.tags.items ≡ length c.hits.items) };
}

impl OpenCursor {
    /// Makes a cursor that has given nothing.
    pub fn new(number: u32, hits: Vec<Hit>, tags: Vec<u64>) -> Self
        requires { length tags.items ≡ length hits.items }
        ensures { result ≡ record { number = number; hits = hits.items; tags = tags.items } }
    {
        OpenCursor {
            number,
            hits,
            tags,
            given: 0,
        }
    }

    /// Returns the cursor's number.
    pub fn number(&self) -> u32
        ensures { result ≡ self.now.number }
    {
        self.number
    }

    // Returns how many hits are given next, where `n` are asked for.
    fn more(&self, n: u64) -> usize
        ensures { result ≡ min n (length self.now.hits) }
    {
        let left = self.hits.len() - self.given;
        if n < left as u64 { n as usize } else { left }
    }

    /// Copies the next `n` hits, or all that are left.
    pub fn next_hits(&self, alloc: Global, n: u64) -> Result<Vec<Hit>, AllocError>
        ensures { IfOk result (λ hits. hits.items ≡ take n self.now.hits) }
    {
        self.hits[self.given..self.given + self.more(n)]
            .iter()
            .copied()
            .collect(alloc)
    }

    /// Copies the tags of the next `n` hits, or of all that are left.
    pub fn next_tags(&self, alloc: Global, n: u64) -> Result<Vec<u64>, AllocError>
        ensures tags { IfOk result (λ tags. tags.items ≡ take n self.now.tags) }
        ensures count { IfOk result (λ tags. length tags.items ≡ length (take n self.now.hits)) }
    {
        self.tags[self.given..self.given + self.more(n)]
            .iter()
            .copied()
            .collect(alloc)
    }

    /// Drops the next `n` hits, where `number` is the cursor's number.
    pub fn advance(&mut self, number: u32, n: u64)
        ensures { self.new ≡ advanced number n self.old }
    {
        if self.number == number {
            self.given += self.more(n);
        }
    }
}
