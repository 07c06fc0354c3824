// The queries of a session.
ghost use Rattle.std.specs.Prelude.{◌≡◌, ◌≤◌, false, IsTrue, IfOk};
ghost use Rattle.rows_text.specs.declared.command.Command.TheVariants as command;
ghost use Rattle.plain_scan.specs.OpenCursors.{OpenCursors};
ghost use Rattle.index_core.specs.Files.{OnlyReads};
ghost use Rattle.index_core.specs.Index.{MayGoOn};
ghost use Rattle.session_run.specs.Steps.{HasStepped, IsShownAs};

use crate::answer::{Answer, answer_of_fault};
use crate::stop::SessionStop;
use disk_model::Disk;
use hit_tags::found_tags;
use index_core::Index;
use log_model::Found;
use metric_laws::{Listed, Metric, Point};
use rows_text::Reply;
use std::alloc::{AllocError, Global};

// Returns the hits of `found`, with their tags where `show` asks for them, and their log.
fn found_answer(alloc: Global, show: bool, found: Found) -> Result<Answer, AllocError>
    ensures { IfOk result (IsShownAs show found) }
{
    let tags = if show {
        found_tags(alloc, &found)?
    } else {
        Vec::new(alloc)
    };
    Ok(Answer {
        reply: Reply::Hits {
            hits: found.hits,
            tags: Listed::new(tags),
        },
        log: Some(found.log),
    })
}

/// Answers with every object within `r` of `q`.
pub fn range<M: Metric, D: Disk>(
    alloc: Global,
    index: &mut Index<M>,
    disk: &mut D,
    show: bool,
    q: &Point,
    r: u64,
) -> Result<Answer, SessionStop>
    requires going { index.old.stopped ≡ false }
    requires stands { MayGoOn index.old (D.state disk.old) }
    requires point { IsTrue ((M.space index.old.file.metric).is_point q.now) }
    ensures stands { MayGoOn index.new (D.state disk.new) }
    ensures reads { OnlyReads index.old.file index.new.file (D.state disk.old) (D.state disk.new) }
    ensures rest { index.new ≡ record index.old { file = index.new.file } }
    ensures stepped { (cursors : OpenCursors) →
        HasStepped (M.space index.old.file.metric) show index.old index.new cursors cursors (D.state disk.old) (D.state disk.new)
        (command.Range r q.now) result }
{
    index.is_valid();
    match index.range(alloc, disk, q.as_slice(), r) {
        Ok(found) => Ok(found_answer(alloc, show, found)?),
        Err(fault) => answer_of_fault(fault),
    }
}

/// Answers with the `k` objects nearest to `q`.
pub fn nearest<M: Metric, D: Disk>(
    alloc: Global,
    index: &mut Index<M>,
    disk: &mut D,
    show: bool,
    q: &Point,
    k: u64,
) -> Result<Answer, SessionStop>
    requires going { index.old.stopped ≡ false }
    requires stands { MayGoOn index.old (D.state disk.old) }
    requires point { IsTrue ((M.space index.old.file.metric).is_point q.now) }
    requires some { 1 ≤ k }
    ensures stands { MayGoOn index.new (D.state disk.new) }
    ensures reads { OnlyReads index.old.file index.new.file (D.state disk.old) (D.state disk.new) }
    ensures rest { index.new ≡ record index.old { file = index.new.file } }
    ensures stepped { (cursors : OpenCursors) →
        HasStepped (M.space index.old.file.metric) show index.old index.new cursors cursors (D.state disk.old) (D.state disk.new)
        (command.Nearest k q.now) result }
{
    index.is_valid();
    match index.nearest(alloc, disk, q.as_slice(), k) {
        Ok(found) => Ok(found_answer(alloc, show, found)?),
        Err(fault) => answer_of_fault(fault),
    }
}
