// Judges and shows the logs of two files' joins, frame by frame.
ghost use Rattle.std.specs.Prelude.{◌≡◌, ◌⊎◌, ◌≤◌, ◌∷◌, [], All, IsTrue, IfOk, IsErrOf};
ghost use Rattle.std.specs.Option.{is_none};
ghost use Rattle.outside_io.specs.Causes.{Rose};
ghost use Rattle.log_model.specs.Grammar.{IsValidJoinLog};
ghost use Rattle.log_verify.specs.JoinJudged.{names};
ghost use Rattle.prune_log.specs.Reading.{join_log_at, frames_at};
ghost use Rattle.job_files.specs.Logs.Jobs.{Puts, stop_of};
ghost use Rattle.job_files.specs.Logs.JobReports.{are_sound};
ghost use Rattle.job_show.specs.Steps.{space_in};
ghost use Rattle.job_show_joins.specs.Frames.{head_texts, shown_of};
ghost use Rattle.job_join.specs.Both.{HoldBoth, OneRose};
ghost use Rattle.job_show_joins.specs.Steps.{fault_by, said_by, text_by, texts_by, walk_shown};

use crate::entries::PairSearch;
use crate::shown::PairWalk;
use crate::texts::frame_text;
use crate::view::JoinView;
use crate::walking::show_records;
use job_files::logs::{LogStop, put, undecoded_text};
use job_join::first_join_fault;
use job_show::{Marks, end_text};
use log_model::JoinLog;
use metric_laws::BOUND;
use outside_io::{Sink, Status};
use page_store::Pages;
use prune_log::{LogFault, decode_join_frames};
use tree_shape::Live;

// Returns whether a log names the generation and the root of a live tree.
fn names(named: (u64, u32), live: &Live) -> bool
    ensures { result ≡ names named live.now }
{
    named.0 == live.generation && named.1 == live.root
}

// Shows the walk of a log. Nothing is shown where it names another tree. A log of 2^32 records or more, which needs more than the 2^30
// bytes that are read, is refused as if memory ran out.
fn show_walk<P: Pages, Q: Pages>(
    view: &JoinView,
    left: &mut P,
    right: &mut Q,
    log: &JoinLog,
) -> Result<PairWalk, LogStop>
    requires { IsValidJoinLog log.now }
    ensures same { HoldBoth (P.shelf left.old) (P.shelf left.new) (Q.shelf right.old) (Q.shelf right.new) }
    ensures left_keeps { P.keeps left.old left.new }
    ensures right_keeps { Q.keeps right.old right.new }
    ensures shown { IfOk result (λ walk. IsTrue (P.shelf left.old).is_known → IsTrue (Q.shelf right.old).is_known → walk_shown walk ≡
        shown_of (space_in view.now.space) (P.shelf left.old).read (Q.shelf right.old).read view.now.left view.now.right log.now) }
    ensures disk { IsErrOf result LogStop.Disk → OneRose (P.shelf left.old) (P.shelf left.new) (Q.shelf right.old) (Q.shelf right.new) }
    ensures not_sink { IsErrOf result LogStop.Sink → ⊥ }
{
    if !names(log.left, &view.left) || !names(log.right, &view.right) {
        return Ok(PairWalk::begin(view.alloc, Vec::new(view.alloc)));
    }
    let search = PairSearch {
        alloc: view.alloc,
        space: view.space,
        rho: log.r.min(BOUND),
    };
    let records = log.records.as_slice();
    if u32::try_from(records.len()).is_err() {
        return Err(LogStop::Memory);
    }
    let begun = PairWalk::begin_at(view.alloc, &view.left, &view.right)?;
    show_records(search, left, right, begun, records)
}

// Judges and shows the log of frame `frame`, and puts its text. Returns whether it has no fault.
// Clauses: what is asked of the caller (the one without a name); the answer (`sound`); what is written (`puts`); what stays (`same`,
// `left_keeps`, `right_keeps`); the cause of an error (`output`, `disk`); faults of the devices (`later`).
fn show_frame<P: Pages, Q: Pages, K: Sink>(
    view: &JoinView,
    left: &mut P,
    right: &mut Q,
    frame: u64,
    log: JoinLog,
    out: &mut K,
) -> Result<bool, LogStop>
    requires { IsValidJoinLog log }
    ensures same { HoldBoth (P.shelf left.old) (P.shelf left.new) (Q.shelf right.old) (Q.shelf right.new) }
    ensures left_keeps { P.keeps left.old left.new }
    ensures right_keeps { Q.keeps right.old right.new }
    ensures puts { IsTrue (P.shelf left.old).is_known → IsTrue (Q.shelf right.old).is_known →
        Puts (text_by view.now (P.shelf left.old).read (Q.shelf right.old).read frame log ∷ [])
        (K.state out.old).written (K.state out.new).written (stop_of result) }
    ensures sound { IfOk result (λ sound. IsTrue (P.shelf left.old).is_known → IsTrue (Q.shelf right.old).is_known →
        sound ≡ is_none (fault_by view.now (P.shelf left.old).read (Q.shelf right.old).read log)) }
    ensures later { (K.state out.old).faults ≤ (K.state out.new).faults }
    ensures output { IsErrOf result LogStop.Sink → Rose (K.state out.old).faults (K.state out.new).faults }
    ensures disk { IsErrOf result LogStop.Disk → OneRose (P.shelf left.old) (P.shelf left.new) (Q.shelf right.old) (Q.shelf right.new) }
{
    let fault = first_join_fault(
        view.alloc,
        view.space,
        left,
        right,
        &view.left,
        &view.right,
        &log,
    )?;
    let walk = show_walk(view, left, right, &log)?;
    let text = frame_text(view, frame, log, fault, &walk)?;
    put(out, &text)?;
    Ok(fault.is_none())
}

// Judges and shows the logs of all frames, and puts their texts. Returns whether none has a fault.
// Clauses: what is asked of the caller (the one without a name); the answer (`sound`); what is written (`puts`); what stays (`same`,
// `left_keeps`, `right_keeps`); the cause of an error (`output`, `disk`); faults of the devices (`later`).
fn show_frames<P: Pages, Q: Pages, K: Sink>(
    view: &JoinView,
    left: &mut P,
    right: &mut Q,
    logs: Vec<JoinLog>,
    out: &mut K,
) -> Result<bool, LogStop>
    requires { All IsValidJoinLog logs.items }
    ensures same { HoldBoth (P.shelf left.old) (P.shelf left.new) (Q.shelf right.old) (Q.shelf right.new) }
    ensures left_keeps { P.keeps left.old left.new }
    ensures right_keeps { Q.keeps right.old right.new }
    ensures puts { IsTrue (P.shelf left.old).is_known → IsTrue (Q.shelf right.old).is_known →
        Puts (texts_by view.now (P.shelf left.old).read (Q.shelf right.old).read 0 logs.items)
        (K.state out.old).written (K.state out.new).written (stop_of result) }
    ensures sound { IfOk result (λ sound. IsTrue (P.shelf left.old).is_known → IsTrue (Q.shelf right.old).is_known →
        sound ≡ are_sound (fault_by view.now (P.shelf left.old).read (Q.shelf right.old).read) logs.items) }
    ensures later { (K.state out.old).faults ≤ (K.state out.new).faults }
    ensures output { IsErrOf result LogStop.Sink → Rose (K.state out.old).faults (K.state out.new).faults }
    ensures disk { IsErrOf result LogStop.Disk → OneRose (P.shelf left.old) (P.shelf left.new) (Q.shelf right.old) (Q.shelf right.new) }
{
    let mut frame = 0;
    let mut sound = true;
    for log in logs {
        let is_sound = show_frame(view, left, right, frame, log, out)?;
        sound &= is_sound;
        frame += 1;
    }
    Ok(sound)
}

// Puts what stands above the texts on logs.
fn put_head<K: Sink>(marks: Marks, out: &mut K) -> Result<(), LogStop>
    ensures puts { Puts (head_texts marks) (K.state out.old).written (K.state out.new).written (stop_of result) }
    ensures later { (K.state out.old).faults ≤ (K.state out.new).faults }
    ensures output { IsErrOf result LogStop.Sink → Rose (K.state out.old).faults (K.state out.new).faults }
    ensures not_disk { IsErrOf result LogStop.Disk → ⊥ }
{
    match marks {
        Marks::Each => Ok(()),
        Marks::Count => put(
            out,
            b"frame opened left right skip far near distances verdict\n",
        ),
    }
}

// Shows the logs of all frames below what stands above them, and puts the line at the end. Returns whether no log has a fault.
// Clauses: what is asked of the caller (the one without a name); the answer (`sound`); what is written (`puts`); what stays (`same`,
// `left_keeps`, `right_keeps`); the cause of an error (`output`, `disk`); faults of the devices (`later`).
fn show_all<P: Pages, Q: Pages, K: Sink>(
    view: &JoinView,
    left: &mut P,
    right: &mut Q,
    logs: Vec<JoinLog>,
    out: &mut K,
) -> Result<bool, LogStop>
    requires { All IsValidJoinLog logs.items }
    ensures same { HoldBoth (P.shelf left.old) (P.shelf left.new) (Q.shelf right.old) (Q.shelf right.new) }
    ensures left_keeps { P.keeps left.old left.new }
    ensures right_keeps { Q.keeps right.old right.new }
    ensures puts { IsTrue (P.shelf left.old).is_known → IsTrue (Q.shelf right.old).is_known →
        Puts (said_by view.now (P.shelf left.old).read (Q.shelf right.old).read (Ok logs.items)).texts
        (K.state out.old).written (K.state out.new).written (stop_of result) }
    ensures sound { IfOk result (λ sound. IsTrue (P.shelf left.old).is_known → IsTrue (Q.shelf right.old).is_known →
        sound ≡ are_sound (fault_by view.now (P.shelf left.old).read (Q.shelf right.old).read) logs.items) }
    ensures later { (K.state out.old).faults ≤ (K.state out.new).faults }
    ensures output { IsErrOf result LogStop.Sink → Rose (K.state out.old).faults (K.state out.new).faults }
    ensures disk { IsErrOf result LogStop.Disk → OneRose (P.shelf left.old) (P.shelf left.new) (Q.shelf right.old) (Q.shelf right.new) }
{
    put_head(view.marks, out)?;
    let sound = show_frames(view, left, right, logs, out)?;
    put(out, end_text(sound))?;
    Ok(sound)
}

// Writes what is shown of the logs that `bytes` spell, and returns the status.
// Clauses: the answer (`status`); which statuses come (`statuses`); what is written (`puts`); what stays (`same`, `left_keeps`,
// `right_keeps`); the cause of an error (`output`, `disk`); faults of the devices (`later`).
pub fn show_bytes<P: Pages, Q: Pages, K: Sink>(
    view: &JoinView,
    left: &mut P,
    right: &mut Q,
    bytes: &[u8],
    out: &mut K,
) -> Result<Status, LogStop>
    ensures same { HoldBoth (P.shelf left.old) (P.shelf left.new) (Q.shelf right.old) (Q.shelf right.new) }
    ensures left_keeps { P.keeps left.old left.new }
    ensures right_keeps { Q.keeps right.old right.new }
    ensures puts { IsTrue (P.shelf left.old).is_known → IsTrue (Q.shelf right.old).is_known →
        Puts (said_by view.now (P.shelf left.old).read (Q.shelf right.old).read (frames_at join_log_at bytes.now)).texts
        (K.state out.old).written (K.state out.new).written (stop_of result) }
    ensures status { IfOk result (λ status. IsTrue (P.shelf left.old).is_known → IsTrue (Q.shelf right.old).is_known →
        status.0 ≡ (said_by view.now (P.shelf left.old).read (Q.shelf right.old).read (frames_at join_log_at bytes.now)).status) }
    ensures statuses { IfOk result (λ status. (status.0 ≡ 0) ⊎ (status.0 ≡ 1)) }
    ensures later { (K.state out.old).faults ≤ (K.state out.new).faults }
    ensures output { IsErrOf result LogStop.Sink → Rose (K.state out.old).faults (K.state out.new).faults }
    ensures disk { IsErrOf result LogStop.Disk → OneRose (P.shelf left.old) (P.shelf left.new) (Q.shelf right.old) (Q.shelf right.new) }
{
    let logs = match decode_join_frames(view.alloc, bytes) {
        Ok(logs) => logs,
        Err(LogFault::Memory) => return Err(LogStop::Memory),
        Err(fault) => {
            put(out, undecoded_text(fault))?;
            return Ok(Status(1));
        }
    };
    let sound = show_all(view, left, right, logs, out)?;
    Ok(Status(u8::from(!sound)))
}
