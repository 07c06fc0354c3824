// Walks along the records of a log, as far as they lead, and shows each node.
ghost use Rattle.std.specs.Prelude.{◌≡◌, ◌⊎◌, ◌+◌, ◌-◌, ◌<◌, ◌≤◌, ◌^◌, ℕ, List, [], ◌∷◌, length, reverse, None, IsTrue, IfOk, IfSome, IfNone, IsErrOf, OnOk};
ghost use Rattle.std.specs.List.{AllByRecursion};
ghost use Rattle.outside_io.specs.Causes.{Rose};
ghost use Rattle.page_store.specs.Shelf.{HoldsSame};
ghost use Rattle.log_model.specs.declared.marks.Record.{Record};
ghost use Rattle.log_model.specs.Counts.{entry_count};
ghost use Rattle.job_show.specs.Walks.{node_told, none_counted, root_coming, shown, with_marks};
ghost use Rattle.job_show.specs.Steps.{AreSmall, AreUpTo, search_by, shown_then};

use crate::entries::Gauge;
use crate::nodes::show_node;
use crate::shown::Walk;
use crate::stops::stop_at;
use crate::{Coming, Counts};
use job_files::logs::LogStop;
use log_model::{Need, Record, entry_count};
use page_store::{Pages, SharedNode};
use std::alloc::{AllocError, Global};

impl Walk {
    /// Makes a walk that has shown nothing, and has the pages of `stack` to open, the next one last.
    pub fn begin(alloc: Global, stack: Vec<Coming>) -> Self
        ensures lines { result.lines.items ≡ [] }
        ensures counts { result.counts ≡ none_counted }
        ensures stack { result.stack ≡ stack }
    {
        Walk {
            lines: Vec::new(alloc),
            counts: Counts {
                opened: 0,
                skips: 0,
                fars: 0,
                nears: 0,
            },
            stack,
            needs: Vec::new(alloc),
        }
    }
}

// Makes a walk that has the root to open.
fn begin_at(alloc: Global, root: u32) -> Result<Walk, AllocError>
    ensures lines { IfOk result (λ walk. walk.lines.items ≡ []) }
    ensures counts { IfOk result (λ walk. walk.counts ≡ none_counted) }
    ensures stack { IfOk result (λ walk. walk.stack.items ≡ root_coming root ∷ []) }
{
    let need = Need {
        page: root,
        above: None,
    };
    let stack = vec![in alloc; Coming { need, depth: 0 }]?;
    Ok(Walk::begin(alloc, stack))
}

// Returns the node of a needed page, where the record `told` names the page and has one mark for each entry of its node.
fn node_told<P: Pages>(
    alloc: Global,
    pages: &mut P,
    page: u32,
    told: &Record,
) -> Result<Option<SharedNode>, LogStop>
    ensures same { HoldsSame (P.shelf pages.old) (P.shelf pages.new) }
    ensures keeps { P.keeps pages.old pages.new }
    ensures node { IfOk result (λ found. IsTrue (P.shelf pages.old).is_known → found ≡ node_told (P.shelf pages.old).read page told.now) }
    ensures long { IfOk result (λ found. IfSome found (λ node. length told.now.marks ≡ entry_count node)) }
    ensures disk { IsErrOf result LogStop.Disk → Rose (P.shelf pages.old).faults (P.shelf pages.new).faults }
    ensures not_sink { IsErrOf result LogStop.Sink → ⊥ }
{
    if told.page != page {
        return Ok(None);
    }
    let shared = match pages.node(alloc, page, None) {
        Ok(shared) => shared,
        Err(fault) => {
            stop_at(fault)?;
            return Ok(None);
        }
    };
    if told.marks.as_slice().len() != entry_count(shared.as_ref()) {
        return Ok(None);
    }
    Ok(Some(shared))
}

// Shows the next record. A record that does not lead on ends the walk.
// Clauses: what is asked of the caller (`deep`, `small`); what changes (`shown`, `depths`, `counts`); what stays (`same`, `keeps`); the
// cause of an error (`disk`, `not_sink`).
fn show_record<P: Pages>(
    alloc: Global,
    pages: &mut P,
    gauge: Gauge,
    told: &Record,
    walk: &mut Walk,
) -> Result<(), LogStop>
    requires deep { AreUpTo (2 ^ 32 - 2) (reverse walk.old.stack.items) }
    requires small { AreSmall (with_marks told.now.marks walk.old.counts) }
    ensures same { HoldsSame (P.shelf pages.old) (P.shelf pages.new) }
    ensures keeps { P.keeps pages.old pages.new }
    ensures shown { OnOk result (IsTrue (P.shelf pages.old).is_known → (rs : List Record) →
        shown_then walk.old (shown (search_by gauge.entry) (P.shelf pages.old).read (reverse walk.old.stack.items) (told.now ∷ rs))
        ≡ shown_then walk.new (shown (search_by gauge.entry) (P.shelf pages.old).read (reverse walk.new.stack.items) rs)) }
    ensures depths { OnOk result ((depth : ℕ) → AreUpTo depth (reverse walk.old.stack.items) →
        AreUpTo (depth + 1) (reverse walk.new.stack.items)) }
    ensures counts { OnOk result ((walk.new.counts ≡ walk.old.counts) ⊎ (walk.new.counts ≡ with_marks told.now.marks walk.old.counts)) }
    ensures disk { IsErrOf result LogStop.Disk → Rose (P.shelf pages.old).faults (P.shelf pages.new).faults }
    ensures not_sink { IsErrOf result LogStop.Sink → ⊥ }
{
    let Some(coming) = walk.stack.pop() else {
        return Ok(());
    };
    let Some(node) = node_told(alloc, pages, coming.need.page, told)? else {
        walk.stack.clear();
        return Ok(());
    };
    show_node(gauge, coming, node.as_ref(), told.marks.as_slice(), walk)?;
    Ok(())
}

// Shows the records of a walk from the root, as far as they lead.
// Clauses: what is asked of the caller (`few`, `marks`); the answer (`lines`, `counts`, `few`); what stays (`same`, `keeps`); the cause of
// an error (`disk`, `not_sink`).
pub fn show_records<P: Pages>(
    alloc: Global,
    pages: &mut P,
    gauge: Gauge,
    root: u32,
    records: &[Record],
) -> Result<Walk, LogStop>
    requires few { length records.now < 2 ^ 32 }
    requires marks { AllByRecursion (λ r. length r.marks ≤ 32) records.now }
    ensures same { HoldsSame (P.shelf pages.old) (P.shelf pages.new) }
    ensures keeps { P.keeps pages.old pages.new }
    ensures lines { IfOk result (λ walk. IsTrue (P.shelf pages.old).is_known → walk.lines.items ≡
        (shown (search_by gauge.entry) (P.shelf pages.old).read (root_coming root ∷ []) records.now).lines) }
    ensures counts { IfOk result (λ walk. IsTrue (P.shelf pages.old).is_known → walk.counts ≡
        (shown (search_by gauge.entry) (P.shelf pages.old).read (root_coming root ∷ []) records.now).counts) }
    ensures few { IfOk result (λ walk. walk.counts.fars + walk.counts.nears < 2 ^ 64) }
    ensures disk { IsErrOf result LogStop.Disk → Rose (P.shelf pages.old).faults (P.shelf pages.new).faults }
    ensures not_sink { IsErrOf result LogStop.Sink → ⊥ }
{
    let mut walk = begin_at(alloc, root)?;
    for told in records {
        show_record(alloc, pages, gauge, told, &mut walk)?;
    }
    Ok(walk)
}
