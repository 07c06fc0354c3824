//! The job `session`: a script on an index.
ghost use Rattle.std.specs.Prelude.{◌≡◌, ◌≢◌, ◌⊎◌, ◌≤◌, ◌^◌, false, length, IsTrue, IfOk, IfErr, OnOk};
ghost use Rattle.std.specs.Io.KnownBytes.{IsAtEnd};
ghost use Rattle.outside_io.specs.Bytes.{TakesUpTo};
ghost use Rattle.outside_io.specs.Causes.{Rose};
ghost use Rattle.metric_mix.specs.MixKinds.{mix_kind, mix_dim};
ghost use Rattle.tree_shape.specs.Tree.{IsSoundTree};
ghost use Rattle.index_core.specs.Files.{nodes_on};
ghost use Rattle.index_core.specs.Index.{MayGoOn};
ghost use Rattle.std.specs.List.{AllByRecursion};
ghost use Rattle.session_run.specs.Session.{IsAsking};
ghost use Rattle.job_files.specs.Spaces.{space_of};
ghost use Rattle.session_run.specs.Job.{HasEnded, HasFinished, HasRefused, IsComplete, IsSessionStatus, LeavesAll, ReadsAsked, ReadsFew, RunsAsked, RunsOn, RunsSession, state_in};

use crate::requests::{Requests, ScriptBytes};
use crate::running::session;
use crate::stop::SessionStop;
use bulk_load::Crew;
use disk_model::Disk;
use index_core::Index;
use job_files::{
    FAULT_DISK, FAULT_MEMORY, MOST_INPUT, damaged_text, end_unread, end_with, open_index, space_of,
};
use metric_laws::Metric;
use metric_mix::MixSpace;
use node_page::laws::{fault_is_not_open, one_live_slot};
use outside_io::{Sink, Source, Status, read_all};
use page_cache::KEPT_NODES;
use std::alloc::Global;

// Ends a session that stopped for the reason `why`.
fn end_stopped<K: Sink>(alloc: Global, why: SessionStop, out: &mut K) -> Status
    ensures ended { HasEnded why (K.state out.old) (K.state out.new) result.0 }
    ensures later { (K.state out.old).faults ≤ (K.state out.new).faults }
{
    match why {
        SessionStop::Sink => Status(4),
        SessionStop::Disk => end_with(out, FAULT_DISK, 5),
        SessionStop::Memory => end_with(out, FAULT_MEMORY, 8),
        SessionStop::Damaged(fault) => match damaged_text(alloc, fault) {
            Ok(text) => end_with(out, &text, 9),
            Err(_) => end_with(out, FAULT_MEMORY, 8),
        },
    }
}

// Does what is asked on an opened index.
// Clauses: what is asked of the caller (`ready`, `going`, `stands`); what the session does, and what a crash may leave (`runs`); the cost
// (`reads`); the cause of each status (`finished`); faults of the devices (`later`, `out_later`, `log_later`).
// Arguments: `crew` does the work of loads, `opened` and `index` are the index and its file, `requests` and `show_tags` say what is asked,
// and `out` and `log_out` are written.
fn run_opened<W: Crew<MixSpace>, S: Requests, D: Disk, K: Sink, T: Sink>(
    crew: &W,
    alloc: Global,
    opened: &mut Index<MixSpace>,
    index: &mut D,
    show_tags: bool,
    requests: S,
    out: &mut K,
    log_out: &mut T,
) -> Status
    requires ready { W.ready crew.now }
    requires going { opened.old.stopped ≡ false }
    requires stands { MayGoOn opened.old (D.state index.old) }
    ensures runs { IsTrue (D.state index.old).is_known → mix_kind opened.old.file.metric ≡ opened.old.file.head.kind →
        mix_dim opened.old.file.metric ≡ opened.old.file.head.dim →
        IsSoundTree (space_of opened.old.file.head) (nodes_on opened.old.file (D.state index.old)) opened.old.file.live →
        RunsOn (LeavesAll opened.old.file.head (state_in opened.old.file.head opened.old.file.live (D.state index.old).bytes)
        (D.state index.old) (D.state index.new))
        show_tags (S.commands requests) opened.old.file.head opened.old.file.live (D.state index.old).bytes (D.state index.new)
        (K.state out.old) (K.state out.new) (T.state log_out.old) (T.state log_out.new) result.0 }
    ensures reads { result.0 ≡ 0 → IsTrue (D.state index.old).is_known →
        mix_kind opened.old.file.metric ≡ opened.old.file.head.kind → mix_dim opened.old.file.metric ≡ opened.old.file.head.dim →
        IsSoundTree (space_of opened.old.file.head) (nodes_on opened.old.file (D.state index.old)) opened.old.file.live →
        AllByRecursion IsAsking (S.commands requests opened.old.file.head.dim) →
        ReadsFew 0 (D.state index.old) (D.state index.new) (T.state log_out.old) (T.state log_out.new) }
    ensures finished { HasFinished opened.old.file.head (D.state index.old) (D.state index.new) (K.state out.old) (K.state out.new)
        (T.state log_out.old) (T.state log_out.new) result.0 }
    ensures later { (D.state index.old).faults ≤ (D.state index.new).faults }
    ensures out_later { (K.state out.old).faults ≤ (K.state out.new).faults }
    ensures log_later { (T.state log_out.old).faults ≤ (T.state log_out.new).faults }
{
    opened.is_valid();
    let Ok(commands) = requests.read(alloc, opened.metric().dimension()) else {
        return end_with(out, FAULT_MEMORY, 8);
    };
    let ended = session(
        crew, alloc, opened, index, &commands, show_tags, out, log_out,
    );
    match ended.stopped {
        None => Status(0),
        Some(why) => end_stopped(alloc, why, out),
    }
}

/// Opens the index, and does on it what is asked. Writes each reply to `out` and the log of each query to `log_out`. `crew` does the work
/// of loads, with `workers` workers, 1 to 64. The statuses are those of `run_session`, but 3 and 7, which are of its input.
/// Arguments: `crew` and `workers` do the work of loads, `index` is the file, `requests` and `show_tags` say what is asked, and `out` and
/// `log_out` are written.
pub fn run_requests<W: Crew<MixSpace>, S: Requests, D: Disk, K: Sink, T: Sink>(
    crew: &W,
    alloc: Global,
    index: &mut D,
    workers: usize,
    show_tags: bool,
    requests: S,
    out: &mut K,
    log_out: &mut T,
) -> Status
    requires ready { W.ready crew.now }
    requires some { 1 ≤ workers }
    requires many { workers ≤ 64 }
    ensures runs { RunsAsked show_tags (S.commands requests) (D.state index.old) (D.state index.new) (K.state out.old) (K.state out.new)
        (T.state log_out.old) (T.state log_out.new) result.0 }
    ensures reads { ReadsAsked (S.commands requests) (D.state index.old) (D.state index.new)
        (T.state log_out.old) (T.state log_out.new) result.0 }
    ensures ends { HasRefused (D.state index.old) (D.state index.new) (K.state out.old) (K.state out.new)
        (T.state log_out.old) (T.state log_out.new) result.0 }
    ensures out_later { (K.state out.old).faults ≤ (K.state out.new).faults }
    ensures log_later { (T.state log_out.old).faults ≤ (T.state log_out.new).faults }
{
    fault_is_not_open();
    one_live_slot();
    let (head, live) = match open_index(index, out) {
        Ok(opened) => opened,
        Err(status) => return status,
    };
    let mut opened = match Index::of_opened(index, head, live, space_of(&head)) {
        Ok(opened) => opened,
        Err(_) => return end_with(out, FAULT_DISK, 5),
    };
    opened.set_workers(workers);
    let Ok(()) = opened.use_cache(alloc, KEPT_NODES) else {
        return end_with(out, FAULT_MEMORY, 8);
    };
    run_opened(
        crew,
        alloc,
        &mut opened,
        index,
        show_tags,
        requests,
        out,
        log_out,
    )
}

/// Runs the script of `input` on the index. Writes each reply to `out` and the log of each query to `log_out`. `crew` does the work of
/// loads, with `workers` workers, 1 to 64. Status 3: the input could not be read; 4: a reply or a log could not be written; 5: the disk
/// failed; 6: the file is no index of version 2; 7: the input is longer than 2 ^ 26 bytes; 8: memory ran out; 9: a page of a file that
/// is not sound is damaged.
/// Clauses: what is asked of the caller (`ready`, `some`, `many`); what the session does, and what a crash may leave (`runs`); what is
/// taken of the input (`long`, `end`); which statuses come (`statuses`); when it succeeds (`complete`); the cause of an error (`input`,
/// `output`); faults of the devices (`counts`).
/// Arguments: `crew` and `workers` do the work of loads, `index` is the file, `input` and `show_tags` say what is asked, and `out` and
/// `log_out` are written.
pub fn run_session<W: Crew<MixSpace>, D: Disk, S: Source, K: Sink, T: Sink>(
    crew: &W,
    alloc: Global,
    index: &mut D,
    workers: usize,
    show_tags: bool,
    input: &mut S,
    out: &mut K,
    log_out: &mut T,
) -> Status
    requires ready { W.ready crew.now }
    requires some { 1 ≤ workers }
    requires many { workers ≤ 64 }
    ensures runs { RunsSession show_tags (S.left input.old) (D.state index.old) (D.state index.new) (K.state out.old)
        (K.state out.new) (T.state log_out.old) (T.state log_out.new) result.0 }
    ensures statuses { IsSessionStatus result.0 }
    // A failed read or write is reported only where the device's count of faults rose.
    ensures input { result.0 ≡ 3 → Rose (S.faults input.old) (S.faults input.new) }
    ensures output { result.0 ≡ 4 → Rose (K.state out.old).faults (K.state out.new).faults
        ⊎ Rose (T.state log_out.old).faults (T.state log_out.new).faults }
    // Status 7 comes exactly where more than 2 ^ 26 bytes were taken.
    ensures long { TakesUpTo (2 ^ 26) (S.left input.old) (S.left input.new) (result.0 ≡ 7) }
    // With no fault and an input within its limit a session on a sound file is done, unless memory runs out.
    ensures complete { IsComplete (S.left input.old) (D.state index.old)
        (Rose (S.faults input.old) (S.faults input.new) ⊎ (Rose (D.state index.old).faults (D.state index.new).faults
        ⊎ (Rose (K.state out.old).faults (K.state out.new).faults
        ⊎ Rose (T.state log_out.old).faults (T.state log_out.new).faults))) result.0 }
    // A session that is done has taken all input.
    ensures end { result.0 ≡ 0 → IsAtEnd (S.left input.new) }
    ensures counts { (S.faults input.old ≤ S.faults input.new) × ((K.state out.old).faults ≤ (K.state out.new).faults)
        × ((T.state log_out.old).faults ≤ (T.state log_out.new).faults) }
{
    match read_all(alloc, input, MOST_INPUT) {
        Ok(bytes) => run_requests(
            crew,
            alloc,
            index,
            workers,
            show_tags,
            ScriptBytes::new(&bytes),
            out,
            log_out,
        ),
        Err(why) => end_unread(why, out),
    }
}
