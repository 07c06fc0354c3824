ghost use Rattle.std.specs.Prelude.{◌≡◌, ◌<◌, length, replicate, slice_set, IfOk};
ghost use Rattle.log_model.specs.declared.marks.Mark.TheVariants.{Skip};

use crate::Mark;
use smallvec::SmallVec;
use std::alloc::{AllocError, Global};
use std::marker::Model;

/// The most entries of a node on a page.
const ENTRIES: usize = 32;

/// As many marks.
const SKIPPED: [Mark; ENTRIES] = [Mark::Skip; ENTRIES];

/// The marks of a node's entries, in the node's order. The marks of a node on a page stand in the value itself, and more than that in
/// memory of their own. Contracts see the list of them.
#[derive(Drop)]
pub struct NodeMarks {
    // The node's marks, and after them any others, so that all marks of a page are set in one copy.
    marks: SmallVec<Mark, ENTRIES>,
    // The number of the node's marks.
    count: usize,
}

impl Model for NodeMarks {
    ghost use Rattle.std.specs.Prelude.{List, take, length, ◌≤◌};
    ghost use Rattle.log_model.specs.declared.marks.Mark.{Mark as TheMark};

    ghost Value = { List TheMark };

    ghost view = { λ m. take m.count m.marks.items };

    ghost invariant = { λ m. m.count ≤ length m.marks.items };
}

impl NodeMarks {
    /// Makes a copy of `marks`.
    pub fn from_slice(alloc: Global, marks: &[Mark]) -> Result<Self, AllocError>
        ensures { IfOk result (λ copy. copy ≡ marks.now) }
    {
        let count = marks.len();
        let marks = SmallVec::from_slice(alloc, marks)?;
        Ok(NodeMarks { marks, count })
    }

    /// Makes the marks of `count` entries that are all marked Skip.
    pub fn all_skipped(alloc: Global, count: usize) -> Result<Self, AllocError>
        ensures { IfOk result (λ marks. marks ≡ replicate count Skip) }
    {
        if count <= ENTRIES {
            let marks = SmallVec::from_buf(alloc, SKIPPED);
            return Ok(NodeMarks { marks, count });
        }
        let marks = SmallVec::from_elem(alloc, Mark::Skip, count)?;
        Ok(NodeMarks { marks, count })
    }

    /// Marks the entry at `index`.
    pub fn set(&mut self, index: usize, mark: Mark)
        requires { index < length self.old }
        ensures { self.new ≡ slice_set self.old index mark }
    {
        self.marks.as_mut_slice()[index] = mark;
    }

    /// Returns the marks.
    pub fn as_slice(&self) -> &[Mark]
        ensures { result.now ≡ self.now }
    {
        &self.marks.as_slice()[..self.count]
    }
}
