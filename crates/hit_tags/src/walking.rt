// Walks along the records of a log.
ghost use Rattle.std.specs.Prelude.{◌≡◌, ◌++◌, ◌+◌, ◌≤◌, [], ◌∷◌, List, map, length, reverse, true, Some, None, IsTrue, IfOk, IfErr, OnOk};
ghost use Rattle.std.specs.List.{AllByRecursion};
ghost use Rattle.page_store.specs.Reading.{nodes_of};
ghost use Rattle.page_store.specs.Shelf.{HoldsSame};
ghost use Rattle.metric_laws.specs.Counts.{CountsUpTo};
ghost use Rattle.log_model.specs.Counts.{entry_count};
ghost use Rattle.log_model.specs.Walk.{near_ones};
ghost use Rattle.log_model.specs.Met.{met, near_objects, near_pages};
ghost use Rattle.hit_tags.specs.Tags.{HasTagsCause};
ghost use Rattle.log_model.specs.declared.marks.Record.{Record};
ghost use Rattle.hit_tags.specs.Wanted.{held, leaf_tag, TakesIn};
ghost use Rattle.hit_tags.specs.Steps.{HasFollowed};

use crate::wanted::Wanted;
use log_model::{Mark, Record, entry_count};
use page_store::{PageFault, Pages};
use scan_model::Hit;
use std::alloc::{AllocError, Global};
use tree_shape::{InnerEntries, LeafEntries, Node};

/// A walk from the root, in progress.
#[derive(Drop)]
pub struct Walk {
    /// The wanted tags.
    pub wanted: Wanted,
    /// The pages that are needed, the next one last.
    pub stack: Vec<u32>,
}

// Notes the objects that are marked Near.
fn note_near(wanted: &mut Wanted, entries: &LeafEntries, marks: &[Mark])
    ensures { TakesIn wanted.old (map leaf_tag (near_ones entries.now marks.now)) wanted.new }
{
    for index in 0..entries.len().min(marks.len()) {
        if marks[index] == Mark::Near {
            let object = entries.at(index);
            wanted.note(object.id, object.tag);
        }
    }
}

// Puts the pages of the subtrees that are marked Near on the stack, so that the first of them is on top.
fn push_near(stack: &mut Vec<u32>, entries: &InnerEntries, marks: &[Mark]) -> Result<(), AllocError>
    requires { length marks.now ≡ length entries.now }
    ensures { OnOk result (reverse stack.new.items ≡ map (λ e. e.child) (near_ones entries.now marks.now) ++ reverse stack.old.items) }
{
    for i in (0..entries.len()).rev() {
        if marks[i] == Mark::Near {
            stack.push(entries.at(i).child)?;
        }
    }
    Ok(())
}

impl Walk {
    /// Makes a walk that needs the root and has met none of the hits' ids.
    pub fn begin(alloc: Global, root: u32, hits: &[Hit]) -> Result<Self, AllocError>
        ensures stack { IfOk result (λ walk. walk.stack.items ≡ root ∷ []) }
        ensures wanted { IfOk result (λ walk. AllByRecursion (λ h. held walk.wanted h.id ≡ Some None) hits.now) }
    {
        Ok(Walk {
            wanted: Wanted::new(alloc, hits)?,
            stack: vec![in alloc; root]?,
        })
    }

    // Notes the objects of a node that are marked Near, and puts the pages of its subtrees that are marked Near on top of the stack.
    fn take_node(&mut self, node: &Node, marks: &[Mark]) -> Result<(), AllocError>
        requires { length marks.now ≡ entry_count node.now }
        ensures objects { OnOk result (TakesIn self.old.wanted (map leaf_tag (near_objects node.now marks.now)) self.new.wanted) }
        ensures pages { OnOk result (reverse self.new.stack.items ≡ near_pages node.now marks.now ++ reverse self.old.stack.items) }
    {
        match node {
            Node::Leaf(entries) => note_near(&mut self.wanted, entries, marks),
            Node::Inner { entries, .. } => push_near(&mut self.stack, entries, marks)?,
        }
        Ok(())
    }

    // Follows a record. Returns whether the walk goes on. It ends where no page is needed, and where the record names another page
    // than the next needed one or hasn't one mark for each of its node's entries.
    fn follow<P: Pages>(
        &mut self,
        alloc: Global,
        pages: &mut P,
        told: &Record,
    ) -> Result<bool, PageFault>
        ensures same { HoldsSame (P.shelf pages.old) (P.shelf pages.new) }
        ensures keeps { P.keeps pages.old pages.new }
        ensures asked { CountsUpTo (P.shelf pages.old).asked (P.shelf pages.new).asked 1 }
        ensures reads { (P.shelf pages.new).reads ≤ (P.shelf pages.old).reads + 1 }
        ensures no_fault { OnOk result ((P.shelf pages.new).faults ≡ (P.shelf pages.old).faults) }
        ensures ok { IfOk result (λ on. IsTrue (P.shelf pages.old).is_known →
            HasFollowed (nodes_of (P.shelf pages.old).read) self.old told.now self.new on) }
        ensures cause { IfErr result (λ fault. (rs : List Record) →
            HasTagsCause (P.shelf pages.old) (P.shelf pages.new) (reverse self.old.stack.items) (told.now ∷ rs) fault) }
    {
        let Some(page) = self.stack.pop() else {
            return Ok(false);
        };
        if told.page != page {
            return Ok(false);
        }
        let shared = pages.node(alloc, page, None)?;
        let node = shared.as_ref();
        let marks = told.marks.as_slice();
        if marks.len() != entry_count(node) {
            return Ok(false);
        }
        self.take_node(node, marks)?;
        Ok(true)
    }

    /// Follows the records as far as the walk goes.
    pub fn follow_all<P: Pages>(
        &mut self,
        alloc: Global,
        pages: &mut P,
        records: &[Record],
    ) -> Result<(), PageFault>
        ensures same { HoldsSame (P.shelf pages.old) (P.shelf pages.new) }
        ensures keeps { P.keeps pages.old pages.new }
        ensures asked { CountsUpTo (P.shelf pages.old).asked (P.shelf pages.new).asked (length records.now) }
        ensures reads { (P.shelf pages.new).reads ≤ (P.shelf pages.old).reads + length records.now }
        ensures no_fault { OnOk result ((P.shelf pages.new).faults ≡ (P.shelf pages.old).faults) }
        ensures ok { OnOk result (IsTrue (P.shelf pages.old).is_known → TakesIn self.old.wanted
            (map leaf_tag (met (nodes_of (P.shelf pages.old).read) (reverse self.old.stack.items) records.now)) self.new.wanted) }
        ensures cause { IfErr result (HasTagsCause (P.shelf pages.old) (P.shelf pages.new) (reverse self.old.stack.items) records.now) }
    {
        for told in records {
            if !self.follow(alloc, pages, told)? {
                return Ok(());
            }
        }
        Ok(())
    }
}
