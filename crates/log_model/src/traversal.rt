//! The walk of a search that marks each node with the least marks.

ghost use Rattle.std.specs.Prelude.{◌≡◌, ◌≤◌, ◌++◌, [], ◌∷◌, length, take, drop, reverse, IfOk, OnOk};
ghost use Rattle.metric_laws.specs.Counts.{count_up};
ghost use Rattle.log_model.specs.Counts.{entry_count, measured_by};
ghost use Rattle.log_model.specs.Walk.{search_at, least_marks, root_need};
ghost use Rattle.log_model.specs.Steps.{TakesNode};

use crate::marking::{mark_inner, mark_leaf};
use crate::{Need, Probe, Record, TaggedHit};
use metric_laws::Ruler;
use std::alloc::{AllocError, Global};
use tree_shape::Node;

/// The needs that have room at once: in many walks no more wait.
const SOME_NEEDS: usize = 64;

/// The hits that have room at once: many walks name no more.
const SOME_HITS: usize = 16;

/// What a walk has named and recorded so far, and what it still has to open.
#[derive(Drop)]
pub struct Traversal {
    /// The objects that are marked Near, in the order of the walk.
    pub tagged: Vec<TaggedHit>,
    /// The opened nodes, in the order of the walk.
    pub records: Vec<Record>,
    /// The pages that the walk needs, the next one last.
    pub stack: Vec<Need>,
}

/// Returns the number of entries of a node.
pub fn entry_count(node: &Node) -> usize
    ensures { result ≡ entry_count node.now }
{
    match node {
        Node::Leaf(entries) => entries.len(),
        Node::Inner { entries, .. } => entries.len(),
    }
}

// Reverses the needs from place `from` on, so that the first of them is on top.
fn turn_over(stack: &mut Vec<Need>, from: usize)
    requires { from ≤ length stack.old.items }
    ensures { stack.new.items ≡ take from stack.old.items ++ reverse (drop from stack.old.items) }
{
    let (_, needs) = stack.split_at_mut(from);
    needs.reverse();
}

impl Traversal {
    /// Makes a walk that needs only the root, with room for `records` records at once.
    pub fn begin(alloc: Global, root: u32, records: usize) -> Result<Self, AllocError>
        ensures tagged { IfOk result (λ t. t.tagged.items ≡ []) }
        ensures records { IfOk result (λ t. t.records.items ≡ []) }
        ensures stack { IfOk result (λ t. t.stack.items ≡ root_need root ∷ []) }
    {
        let mut stack = Vec::with_capacity(alloc, SOME_NEEDS)?;
        stack.push(Need {
            page: root,
            above: None,
        })?;
        Ok(Traversal {
            tagged: Vec::with_capacity(alloc, SOME_HITS)?,
            records: Vec::with_capacity(alloc, records)?,
            stack,
        })
    }

    /// Processes the node of a needed page: appends its record with the least marks and the objects that they name, and puts the pages
    /// that they need on top of the stack.
    pub fn take_node<R: Ruler>(
        &mut self,
        alloc: Global,
        ruler: &mut R,
        probe: Probe,
        need: Need,
        node: &Node,
    ) -> Result<(), AllocError>
        ensures metric { R.metric ruler.new ≡ R.metric ruler.old }
        ensures counted { OnOk result
            (R.used ruler.new ≡ count_up (R.used ruler.old)
            (measured_by (least_marks (search_at (R.M.space (R.metric ruler.old)) probe.entry.q.now probe.entry.rho) need.above
            node.now))) }
        ensures taken { OnOk result (TakesNode (search_at (R.M.space (R.metric ruler.old)) probe.entry.q.now probe.entry.rho) need
            node.now self.old self.new) }
    {
        let marks = match node {
            Node::Leaf(entries) => {
                mark_leaf(alloc, ruler, probe, need.above, entries, &mut self.tagged)?
            }
            Node::Inner { entries, .. } => {
                let waiting = self.stack.len();
                let marks = mark_inner(alloc, ruler, probe, need.above, entries, &mut self.stack)?;
                turn_over(&mut self.stack, waiting);
                marks
            }
        };
        self.records.push(Record {
            page: need.page,
            marks,
        })?;
        Ok(())
    }
}
