ghost use Rattle.std.specs.Prelude.{◌≡◌, ◌≤◌, ◌<◌, ◌^◌, ◌∷◌, [], length, vec_len, slice_get, IfOk, IsNone, IfSome};
ghost use Rattle.seal_log.specs.Digests.{paired, levels_over, root_over};
ghost use Rattle.seal_log.specs.Paths.{partner_of, path_in};

use crate::digests::{pair_digest, root_digest};
use metric_laws::Listed;
use std::alloc::{AllocError, Global};
use std::marker::Model;

/// The digests of a file's pages, and those of all levels above them. Contracts see the digests of the pages.
#[derive(Drop)]
pub struct Tree {
    // From the pages' digests up to a level of one digest.
    levels: Vec<Listed<[u8; 32]>>,
    root: [u8; 32],
}

impl Model for Tree {
    ghost use Rattle.std.specs.Prelude.{List, ℕ};
    ghost use Rattle.seal_log.specs.Digests.{lowest, AreLevels};

    ghost Value = { List (List ℕ) };

    ghost view = { λ t. lowest t.levels.items };

    ghost invariant = { λ t. AreLevels t.levels.items t.root };
}

// Returns the first digest of the level above, and the rest of this level.
fn next_above(level: &[[u8; 32]]) -> Option<([u8; 32], &[[u8; 32]])>
    ensures none { IsNone result → level.now ≡ [] }
    ensures some { IfSome result (λ x. paired level.now ≡ x.0 ∷ paired x.1.now) }
    ensures shorter { IfSome result (λ x. length x.1.now < length level.now) }
{
    match level {
        [] => None,
        [last] => Some((*last, &level[1..])),
        [left, right, others @ ..] => Some((pair_digest(left, right), others)),
    }
}

// Returns the level above `level`: its digests paired from the left.
fn paired(alloc: Global, level: &[[u8; 32]]) -> Result<Vec<[u8; 32]>, AllocError>
    ensures { IfOk result (λ above. above.items ≡ paired level.now) }
{
    let mut above = Vec::with_capacity(alloc, level.len() / 2 + level.len() % 2)?;
    let mut rest = level;
    'pairs: while let Some(next) = next_above(rest) {
        let digest = next.0;
        above.push(digest)?;
        rest = next.1;
    }
    Ok(above)
}

// Returns the place of the partner of the digest at `place`.
#[tactic(auto, unfolding(crate::specs::Paths::partner_of))]
fn partner_of(place: usize) -> usize
    ensures { result ≡ partner_of place }
{
    if place % 2 == 1 { place - 1 } else { place + 1 }
}

// Returns the partner of the digest at `place`, if there is one.
fn partner_at(level: &[[u8; 32]], place: usize) -> Option<[u8; 32]>
    ensures { result ≡ slice_get level.now (partner_of place) }
{
    level.get(partner_of(place)).copied()
}

impl Tree {
    /// Makes the tree over the digests `leaves` of a file's pages.
    pub fn over(alloc: Global, leaves: Vec<[u8; 32]>) -> Result<Tree, AllocError>
        requires some { 1 ≤ vec_len leaves }
        requires few { vec_len leaves < 2 ^ 32 }
        ensures { IfOk result (λ tree. tree ≡ leaves.items) }
    {
        let pages = leaves.len() as u32;
        let mut levels = Vec::new(alloc);
        let mut level = leaves;
        'levels: while level.len() > 1 {
            let above = paired(alloc, &level)?;
            levels.push(Listed::new(level))?;
            level = above;
        }
        let root = root_digest(pages, &level[0]);
        levels.push(Listed::new(level))?;
        Ok(Tree { levels, root })
    }

    /// Returns the root digest of the file: of its number of pages and all its pages.
    pub fn root(&self) -> [u8; 32]
        ensures { result ≡ root_over self.now }
    {
        self.root
    }

    /// Returns the path of page `page`.
    pub fn path(&self, alloc: Global, page: u32) -> Result<Vec<[u8; 32]>, AllocError>
        ensures { IfOk result (λ path. path.items ≡ path_in (levels_over self.now) page) }
    {
        let mut path = Vec::new(alloc);
        let mut place = page as usize;
        'levels: for level in &self.levels {
            if let Some(partner) = partner_at(level.as_slice(), place) {
                path.push(partner)?;
            }
            place /= 2;
        }
        Ok(path)
    }

    /// Returns the number of the file's pages.
    pub fn pages(&self) -> u32
        ensures { result ≡ length self.now }
    {
        match self.levels.first() {
            None => 0,
            Some(leaves) => leaves.as_slice().len() as u32,
        }
    }
}
