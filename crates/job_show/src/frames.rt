// Judges and shows the logs of a file, frame by frame.
ghost use Rattle.std.specs.Prelude.{◌≡◌, ◌⊎◌, ◌≤◌, ◌<◌, ◌+◌, ◌^◌, ◌∷◌, [], All, IsTrue, IfOk, IsErrOf};
ghost use Rattle.std.specs.Option.{is_none};
ghost use Rattle.outside_io.specs.Causes.{Rose};
ghost use Rattle.page_store.specs.Shelf.{HoldsSame};
ghost use Rattle.log_model.specs.Grammar.{IsValidLog, query_point};
ghost use Rattle.prune_log.specs.Reading.{log_at, frames_at};
ghost use Rattle.job_files.specs.Logs.Jobs.{Puts, stop_of};
ghost use Rattle.job_files.specs.Logs.JobReports.{are_sound, end_text};
ghost use Rattle.job_show.specs.Frames.{head_texts, names_tree, shown_of};
ghost use Rattle.job_show.specs.Steps.{fault_by, said_by, space_in, text_by, texts_by};

use crate::Marks;
use crate::entries::Gauge;
use crate::shown::Walk;
use crate::texts::frame_text;
use crate::view::View;
use crate::walking::show_records;
use job_files::logs::{LogStop, Report, first_fault, put, undecoded_text};
use log_model::{Log, radius_of};
use metric_laws::Metric;
use outside_io::{Sink, Status};
use page_store::Pages;
use prune_log::{LogFault, decode_frames};
use scan_model::Query;
use std::alloc::Global;

// Returns the query's point.
fn point_of(query: &Query) -> &[u32]
    ensures { result.now ≡ query_point query.now }
{
    match query {
        Query::Range { q, .. } => q.as_slice(),
        Query::Nearest { q, .. } => q.as_slice(),
    }
}

// Returns whether a log names the live tree, and its point is one of the space.
fn names_tree(view: &View, log: &Log) -> bool
    ensures { result ≡ names_tree (space_in view.now.space) view.now.live log.now }
{
    log.generation == view.live.generation
        && log.root == view.live.root
        && view.space.is_point(point_of(&log.query))
}

// Shows the walk of a log. Nothing is shown where it names another tree, or its point is not one of the space.
fn show_walk<P: Pages>(
    alloc: Global,
    view: &View,
    pages: &mut P,
    log: &Log,
) -> Result<Walk, LogStop>
    requires { IsValidLog log.now }
    ensures same { HoldsSame (P.shelf pages.old) (P.shelf pages.new) }
    ensures keeps { P.keeps pages.old pages.new }
    ensures lines { IfOk result (λ walk. IsTrue (P.shelf pages.old).is_known →
        walk.lines.items ≡ (shown_of (space_in view.now.space) (P.shelf pages.old).read view.now.live log.now).lines) }
    ensures counts { IfOk result (λ walk. IsTrue (P.shelf pages.old).is_known →
        walk.counts ≡ (shown_of (space_in view.now.space) (P.shelf pages.old).read view.now.live log.now).counts) }
    ensures few { IfOk result (λ walk. walk.counts.fars + walk.counts.nears < 2 ^ 64) }
    ensures disk { IsErrOf result LogStop.Disk → Rose (P.shelf pages.old).faults (P.shelf pages.new).faults }
    ensures not_sink { IsErrOf result LogStop.Sink → ⊥ }
{
    if !names_tree(view, log) {
        return Ok(Walk::begin(alloc, Vec::new(alloc)));
    }
    let gauge = Gauge {
        space: view.space,
        q: point_of(&log.query),
        rho: radius_of(&log.query, log.answers.as_slice()),
    };
    show_records(alloc, pages, gauge, view.live.root, log.records.as_slice())
}

// Judges and shows the log of frame `frame`, and puts its text. Returns whether it has no fault.
fn show_frame<P: Pages, K: Sink>(
    alloc: Global,
    view: &View,
    pages: &mut P,
    frame: u64,
    log: Log,
    out: &mut K,
) -> Result<bool, LogStop>
    requires { IsValidLog log }
    ensures same { HoldsSame (P.shelf pages.old) (P.shelf pages.new) }
    ensures keeps { P.keeps pages.old pages.new }
    ensures puts { IsTrue (P.shelf pages.old).is_known → Puts (text_by view.now (P.shelf pages.old).read frame log ∷ [])
        (K.state out.old).written (K.state out.new).written (stop_of result) }
    ensures sound { IfOk result (λ sound. IsTrue (P.shelf pages.old).is_known →
        sound ≡ is_none (fault_by view.now (P.shelf pages.old).read log)) }
    ensures later { (K.state out.old).faults ≤ (K.state out.new).faults }
    ensures output { IsErrOf result LogStop.Sink → Rose (K.state out.old).faults (K.state out.new).faults }
    ensures disk { IsErrOf result LogStop.Disk → Rose (P.shelf pages.old).faults (P.shelf pages.new).faults }
{
    let fault = first_fault(alloc, view.space, pages, &view.live, &log)?;
    let walk = show_walk(alloc, view, pages, &log)?;
    let text = frame_text(alloc, view, frame, log, fault, &walk)?;
    put(out, &text)?;
    Ok(fault.is_none())
}

// Judges and shows the logs of all frames, and puts their texts. Returns whether none has a fault.
fn show_frames<P: Pages, K: Sink>(
    alloc: Global,
    view: &View,
    pages: &mut P,
    logs: Vec<Log>,
    out: &mut K,
) -> Result<bool, LogStop>
    requires { All IsValidLog logs.items }
    ensures same { HoldsSame (P.shelf pages.old) (P.shelf pages.new) }
    ensures keeps { P.keeps pages.old pages.new }
    ensures puts { IsTrue (P.shelf pages.old).is_known → Puts (texts_by view.now (P.shelf pages.old).read 0 logs.items)
        (K.state out.old).written (K.state out.new).written (stop_of result) }
    ensures sound { IfOk result (λ sound. IsTrue (P.shelf pages.old).is_known →
        sound ≡ are_sound (fault_by view.now (P.shelf pages.old).read) logs.items) }
    ensures later { (K.state out.old).faults ≤ (K.state out.new).faults }
    ensures output { IsErrOf result LogStop.Sink → Rose (K.state out.old).faults (K.state out.new).faults }
    ensures disk { IsErrOf result LogStop.Disk → Rose (P.shelf pages.old).faults (P.shelf pages.new).faults }
{
    let mut frame = 0;
    let mut sound = true;
    for log in logs {
        let is_sound = show_frame(alloc, view, pages, frame, log, out)?;
        sound &= is_sound;
        frame += 1;
    }
    Ok(sound)
}

// Puts what stands above the texts on logs.
fn put_head<K: Sink>(marks: Marks, out: &mut K) -> Result<(), LogStop>
    ensures puts { Puts (head_texts marks) (K.state out.old).written (K.state out.new).written (stop_of result) }
    ensures later { (K.state out.old).faults ≤ (K.state out.new).faults }
    ensures output { IsErrOf result LogStop.Sink → Rose (K.state out.old).faults (K.state out.new).faults }
    ensures not_disk { IsErrOf result LogStop.Disk → ⊥ }
{
    match marks {
        Marks::Each => Ok(()),
        Marks::Count => put(out, b"frame opened nodes skip far near distances verdict\n"),
    }
}

/// Returns the line after all frames.
pub fn end_text(sound: bool) -> &'static [u8]
    ensures { result.now ≡ end_text Report.Verdicts sound }
{
    if sound {
        b"log accepted, file not audited\n"
    } else {
        b"log rejected\n"
    }
}

// Shows the logs of all frames below what stands above them, and puts the line at the end. Returns whether no log has a fault.
fn show_all<P: Pages, K: Sink>(
    alloc: Global,
    view: &View,
    pages: &mut P,
    logs: Vec<Log>,
    out: &mut K,
) -> Result<bool, LogStop>
    requires { All IsValidLog logs.items }
    ensures same { HoldsSame (P.shelf pages.old) (P.shelf pages.new) }
    ensures keeps { P.keeps pages.old pages.new }
    ensures puts { IsTrue (P.shelf pages.old).is_known → Puts (said_by view.now (P.shelf pages.old).read (Ok logs.items)).texts
        (K.state out.old).written (K.state out.new).written (stop_of result) }
    ensures sound { IfOk result (λ sound. IsTrue (P.shelf pages.old).is_known →
        sound ≡ are_sound (fault_by view.now (P.shelf pages.old).read) logs.items) }
    ensures later { (K.state out.old).faults ≤ (K.state out.new).faults }
    ensures output { IsErrOf result LogStop.Sink → Rose (K.state out.old).faults (K.state out.new).faults }
    ensures disk { IsErrOf result LogStop.Disk → Rose (P.shelf pages.old).faults (P.shelf pages.new).faults }
{
    put_head(view.marks, out)?;
    let sound = show_frames(alloc, view, pages, logs, out)?;
    put(out, end_text(sound))?;
    Ok(sound)
}

// Writes what is shown of the logs that `bytes` spell, and returns the status.
pub fn show_bytes<P: Pages, K: Sink>(
    alloc: Global,
    view: &View,
    pages: &mut P,
    bytes: &[u8],
    out: &mut K,
) -> Result<Status, LogStop>
    ensures same { HoldsSame (P.shelf pages.old) (P.shelf pages.new) }
    ensures keeps { P.keeps pages.old pages.new }
    ensures puts { IsTrue (P.shelf pages.old).is_known →
        Puts (said_by view.now (P.shelf pages.old).read (frames_at log_at bytes.now)).texts
        (K.state out.old).written (K.state out.new).written (stop_of result) }
    ensures status { IfOk result (λ status. IsTrue (P.shelf pages.old).is_known →
        status.0 ≡ (said_by view.now (P.shelf pages.old).read (frames_at log_at bytes.now)).status) }
    ensures statuses { IfOk result (λ status. (status.0 ≡ 0) ⊎ (status.0 ≡ 1)) }
    ensures later { (K.state out.old).faults ≤ (K.state out.new).faults }
    ensures output { IsErrOf result LogStop.Sink → Rose (K.state out.old).faults (K.state out.new).faults }
    ensures disk { IsErrOf result LogStop.Disk → Rose (P.shelf pages.old).faults (P.shelf pages.new).faults }
{
    let logs = match decode_frames(alloc, bytes) {
        Ok(logs) => logs,
        Err(LogFault::Memory) => return Err(LogStop::Memory),
        Err(fault) => {
            put(out, undecoded_text(fault))?;
            return Ok(Status(1));
        }
    };
    let sound = show_all(alloc, view, pages, logs, out)?;
    Ok(Status(u8::from(!sound)))
}
