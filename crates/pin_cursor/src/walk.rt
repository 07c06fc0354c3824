ghost use Rattle.std.specs.Prelude.{◌≡◌, ◌+◌, ◌<◌, ◌^◌, [], ◌∷◌, ◌++◌, OnOk};
ghost use Rattle.pin_cursor.specs.Cursor.{hit_of};

use crate::line::Line;
use crate::trial::Trial;
use crate::waiting::{Candidate, Subtree};
use crate::waits::{Candidates, Subtrees};
use scan_model::Hit;
use std::alloc::{AllocError, Global};

/// The state of a step in progress.
#[derive(Drop)]
pub struct Walk {
    /// The subtrees that are not opened yet.
    pub subtrees: Subtrees,
    /// The objects that were met and are not given yet.
    pub candidates: Candidates,
    /// The number of opened nodes, including those of earlier steps.
    pub opened: u32,
    /// The number of hits given, including those of earlier steps.
    pub given: u64,
    /// The hits of this step.
    pub hits: Vec<Hit>,
    /// The tags of these hits.
    pub tags: Vec<u64>,
}

impl Walk {
    /// Begins a step with the cursor's counts and with what waits in `subtrees` and `candidates`, which are empty from then on.
    pub fn begin(
        alloc: Global,
        subtrees: &mut Line<Subtree>,
        candidates: &mut Line<Candidate>,
        opened: u32,
        given: u64,
    ) -> Self
        ensures subtrees { (result.subtrees.handed ≡ subtrees.old.items) × (result.subtrees.waits ≡ subtrees.old.items) }
        ensures candidates { (result.candidates.handed ≡ candidates.old.items) × (result.candidates.waits ≡ candidates.old.items) }
        ensures empty { (subtrees.new.items ≡ []) × (candidates.new.items ≡ []) }
        ensures opened { result.opened ≡ opened }
        ensures given { result.given ≡ given }
        ensures hits { result.hits.items ≡ [] }
        ensures tags { result.tags.items ≡ [] }
    {
        Walk {
            subtrees: Trial::begin(alloc, subtrees),
            candidates: Trial::begin(alloc, candidates),
            opened,
            given,
            hits: Vec::new(alloc),
            tags: Vec::new(alloc),
        }
    }

    /// Gives a candidate as the next hit.
    pub fn give(&mut self, next: Candidate) -> Result<(), AllocError>
        requires { self.old.given + 1 < 2 ^ 64 }
        ensures subtrees { self.new.subtrees ≡ self.old.subtrees }
        ensures candidates { self.new.candidates ≡ self.old.candidates }
        ensures opened { self.new.opened ≡ self.old.opened }
        ensures given { OnOk result (self.new.given ≡ self.old.given + 1) }
        ensures hits { OnOk result (self.new.hits.items ≡ self.old.hits.items ++ hit_of next ∷ []) }
        ensures tags { OnOk result (self.new.tags.items ≡ self.old.tags.items ++ next.tag ∷ []) }
    {
        self.hits.push(Hit {
            id: next.id,
            dist: next.dist,
        })?;
        self.tags.push(next.tag)?;
        self.given += 1;
        Ok(())
    }
}
