//! Writes the log of a search.

ghost use Rattle.std.specs.Prelude.{◌≡◌, ◌++◌, ◌<◌, [], ◌∷◌, All, map, reverse, IfOk, OnOk};
ghost use Rattle.nearest_search.specs.Seeing.{marks_seen, seen_near, seen_on, tagged_seen, need_seen};
ghost use Rattle.nearest_search.specs.Keeping.{kept_seen, IsFew, KeepsFew, SpansFit};
ghost use Rattle.nearest_search.specs.RebuiltLog.{TakesSeen, IsRebuiltLog};

use crate::kept::{Kept, Turn};
use crate::seen::{Sheet, Sight};
use log_model::{Mark, Need, NodeMarks, Record, TaggedHit, Traversal};
use scan_model::Hit;
use std::alloc::{AllocError, Global};
use tree_shape::Live;

// Returns the least marks of a leaf of `count` objects at the radius `rho`, and appends the objects that are marked Near
// to `tagged`.
fn mark_objects(
    alloc: Global,
    tagged: &mut Vec<TaggedHit>,
    rho: u64,
    count: usize,
    sights: &[Sight],
) -> Result<NodeMarks, AllocError>
    requires { All (λ x. x.place < count) sights.now }
    ensures tagged { OnOk result (tagged.new.items ≡ tagged.old.items ++ map tagged_seen (seen_near rho sights.now)) }
    ensures marks { IfOk result (λ marks. marks ≡ marks_seen rho count sights.now) }
{
    let mut marks = NodeMarks::all_skipped(alloc, count)?;
    for index in 0..sights.len() {
        let sight = sights[index];
        match sight.mark(rho) {
            Mark::Skip => {}
            Mark::Far => marks.set(sight.place as usize, Mark::Far),
            Mark::Near => {
                marks.set(sight.place as usize, Mark::Near);
                tagged.push(TaggedHit {
                    hit: Hit {
                        id: sight.name,
                        dist: sight.dist,
                    },
                    tag: sight.tag,
                })?;
            }
        }
    }
    Ok(marks)
}

// Pushes the subtrees of `sights` that are marked Near at the radius `rho` on the stack, so that the first of them is on top.
fn push_needs(stack: &mut Vec<Need>, rho: u64, sights: &[Sight]) -> Result<(), AllocError>
    ensures { OnOk result (reverse stack.new.items ≡ map need_seen (seen_near rho sights.now) ++ reverse stack.old.items) }
{
    for i in (0..sights.len()).rev() {
        let sight = sights[i];
        if !sight.is_near(rho) {
            continue;
        }
        stack.push(Need {
            page: sight.name,
            above: Some(sight.dist),
        })?;
    }
    Ok(())
}

// Returns the least marks of a node of `count` entries at the radius `rho`.
fn marks_at(
    alloc: Global,
    rho: u64,
    count: usize,
    sights: &[Sight],
) -> Result<NodeMarks, AllocError>
    requires { All (λ x. x.place < count) sights.now }
    ensures { IfOk result (λ marks. marks ≡ marks_seen rho count sights.now) }
{
    let mut marks = NodeMarks::all_skipped(alloc, count)?;
    for index in 0..sights.len() {
        let sight = sights[index];
        match sight.mark(rho) {
            Mark::Skip => {}
            Mark::Far => marks.set(sight.place as usize, Mark::Far),
            Mark::Near => marks.set(sight.place as usize, Mark::Near),
        }
    }
    Ok(marks)
}

// Appends the record of `page` with the marks of its entries.
fn push_record(records: &mut Vec<Record>, page: u32, marks: NodeMarks) -> Result<(), AllocError>
    ensures { OnOk result (records.new.items ≡ records.old.items ++ record { page = page; marks = marks } ∷ []) }
{
    records.push(Record { page, marks })?;
    Ok(())
}

// Takes in a needed page by what was seen of its entries, with the least marks at the radius `rho`.
fn take_seen(
    alloc: Global,
    walk: &mut Traversal,
    rho: u64,
    need: Need,
    sheet: Sheet,
) -> Result<(), AllocError>
    requires { IsFew (seen_on sheet) }
    ensures { OnOk result (TakesSeen rho need (seen_on sheet.entry) walk.old walk.new) }
{
    match sheet {
        Sheet::Objects { count, sights } => {
            let marks = mark_objects(alloc, &mut walk.tagged, rho, count, sights)?;
            push_record(&mut walk.records, need.page, marks)
        }
        Sheet::Subtrees { count, sights } => {
            push_needs(&mut walk.stack, rho, sights)?;
            let marks = marks_at(alloc, rho, count, sights)?;
            push_record(&mut walk.records, need.page, marks)
        }
    }
}

/// Walks over what is kept of the opened pages, with the least marks at the final radius `rho`. No page is read and no distance is
/// computed. There is room for `room` records at once.
pub fn rebuild_log(
    alloc: Global,
    rho: u64,
    live: &Live,
    kept: &Kept,
    room: usize,
) -> Result<Traversal, AllocError>
    requires fits { SpansFit kept.now }
    requires few { KeepsFew (kept_seen kept.now) }
    ensures { IfOk result (λ walk. IsRebuiltLog rho (kept_seen kept.now) live.now walk.records.items walk.tagged.items) }
{
    let mut walk = Traversal::begin(alloc, live.root, room)?;
    let mut opened = 0u32;
    while let Some(need) = walk.stack.pop() {
        if opened == live.pages {
            return Ok(walk);
        }
        let turn = Turn {
            page: need.page,
            above: need.above,
        };
        let Some(sheet) = kept.get(turn) else {
            return Ok(walk);
        };
        take_seen(alloc, &mut walk, rho, need, sheet)?;
        opened += 1;
    }
    Ok(walk)
}
