ghost use Rattle.std.specs.Prelude.{◌≡◌, ◌≤◌, ◌<◌, ◌+◌, ◌^◌, length, false, All, MatchOption, None};
ghost use Rattle.rows_text.specs.Readable.{IsReadable};
ghost use Rattle.index_core.specs.Answers.{IsSoundOn};
ghost use Rattle.index_core.specs.Index.{MayGoOn};
ghost use Rattle.session_run.specs.Pinned.{AreKeptBy};
ghost use Rattle.session_run.specs.Session.{Grew, HasRun, HasStopCause, StandsBy, no_cursors, setting_of, state_on};
ghost use Rattle.session_run.specs.Steps.{HasTurned};
ghost use Rattle.session_run.specs.Turns.{held_on};

use crate::commands::step;
use crate::pinned::PinnedCursors;
use crate::stop::SessionStop;
use answer_texts::texts_of;
use bulk_load::Crew;
use disk_model::Disk;
use index_core::Index;
use metric_laws::Metric;
use outside_io::Sink;
use rows_text::Command;
use std::alloc::Global;

/// How a session ended.
#[derive(Clone, Copy, PartialEq, Eq)]
pub struct Ended {
    /// How many commands were acknowledged: the reply of each is written whole.
    pub acknowledged: u64,

    /// Why it ended before its script did.
    pub stopped: Option<SessionStop>,
}

// Carries out one command, and writes the frame of its log and its reply.
// Arguments: `crew` does the work of loads, `index`, `cursors` and `disk` may all change, `show` and `command` say what is asked, and `out`
// and `log_out` are written.
fn turn<W: Crew<M>, M: Metric, D: Disk, K: Sink, T: Sink>(
    crew: &W,
    alloc: Global,
    index: &mut Index<M>,
    cursors: &mut PinnedCursors,
    disk: &mut D,
    show: bool,
    command: &Command,
    out: &mut K,
    log_out: &mut T,
) -> Result<(), SessionStop>
    requires ready { W.ready crew.now }
    requires going { index.old.stopped ≡ false }
    requires stands { MayGoOn index.old (D.state disk.old) }
    requires numbers { cursors.old.next + 1 < 2 ^ 32 }
    requires kept { AreKeptBy (M.space index.old.file.metric) index.old cursors.old }
    requires readable { IsReadable (M.space index.old.file.metric).dimension command.now }
    ensures stands { MayGoOn index.new (D.state disk.new) }
    ensures turned { HasTurned (M.space index.old.file.metric) show index.old index.new cursors.old cursors.new (D.state disk.old)
        (D.state disk.new) command.now
        (K.state out.old) (K.state out.new) (T.state log_out.old) (T.state log_out.new) result }
{
    index.is_valid();
    let answer = step(crew, alloc, index, cursors, disk, show, command)?;
    let texts = texts_of(alloc, &answer.reply, &answer.log, show)?;
    Ok(texts.put(out, log_out)?)
}

/// Carries out each of `commands` in turn on `index`, and writes its reply to `out`, in one put and after its commit. The log of a
/// query that is answered is put to `log_out` before its reply, as one frame. A refusal doesn't end the session; the first
/// fault does.
///
/// A cursor goes through the tree of its opening and pins it. Cursors that are open when the commands are done are closed. After
/// a fault their pins stay with the index.
///
/// On a sound index each reply is that of a plain list, unless the file has no room or no further generation, and each log is the
/// least one. A crash at any moment leaves the objects after some first commands; at the end, at least those of the acknowledged
/// ones.
/// Clauses: what is asked of the caller (`ready`, `going`, `stands`, `few`, `readable`); what the session does, and what a crash may leave
/// (`run`); what stays (`stands`, `going`, `head`, `is_known`); what is written (`grew`, `log_grew`); the cause of an error (`cause`,
/// `damage`); faults of the devices (`later`, `out_later`, `log_later`).
/// Arguments: `crew` does the work of loads, `index` and `disk` are the index and its file, `commands` and `show` say what is asked, and
/// `out` and `log_out` are written.
pub fn session<W: Crew<M>, M: Metric, D: Disk, K: Sink, T: Sink>(
    crew: &W,
    alloc: Global,
    index: &mut Index<M>,
    disk: &mut D,
    commands: &[Command],
    show: bool,
    out: &mut K,
    log_out: &mut T,
) -> Ended
    requires ready { W.ready crew.now }
    requires going { index.old.stopped ≡ false }
    requires stands { MayGoOn index.old (D.state disk.old) }
    requires few { length commands.now < 2 ^ 32 }
    requires readable { All (IsReadable (M.space index.old.file.metric).dimension) commands.now }
    ensures stands { MayGoOn index.new (D.state disk.new) }
    ensures run { IsSoundOn (M.space index.old.file.metric) index.old.file (D.state disk.old) →
        HasRun (setting_of (M.space index.old.file.metric) index.old.file) index.old.file.head show commands.now
        (state_on index.old.file (D.state disk.old) no_cursors) (held_on index.old.file (D.state disk.old))
        (D.state disk.old) (D.state disk.new) (K.state out.old) (K.state out.new) (T.state log_out.old) (T.state log_out.new)
        result.acknowledged result.stopped (held_on index.new.file (D.state disk.new)) }
    ensures going { result.stopped ≡ None → index.new.stopped ≡ false }
    ensures head { result.stopped ≡ None → index.new.file.head ≡ index.old.file.head }
    ensures cause { MatchOption result.stopped (Unit {0}) (HasStopCause
        (IsSoundOn (M.space index.old.file.metric) index.old.file (D.state disk.old))
        (D.state disk.old) (D.state disk.new) (K.state out.old) (K.state out.new) (T.state log_out.old) (T.state log_out.new)) }
    // A page that is said to be damaged is one that child numbers lead to, and is damaged.
    ensures damage { MatchOption result.stopped (Unit {0}) (StandsBy index.old.file.head (D.state disk.new)) }
    ensures is_known { (D.state disk.new).is_known ≡ (D.state disk.old).is_known }
    ensures later { (D.state disk.old).faults ≤ (D.state disk.new).faults }
    ensures out_later { (K.state out.old).faults ≤ (K.state out.new).faults }
    ensures log_later { (T.state log_out.old).faults ≤ (T.state log_out.new).faults }
    // On any file the outputs only grow.
    ensures grew { Grew (K.state out.old) (K.state out.new) }
    ensures log_grew { Grew (T.state log_out.old) (T.state log_out.new) }
{
    index.is_valid();
    let mut cursors = PinnedCursors::new(alloc);
    let mut acknowledged = 0u64;
    for command in commands {
        if let Err(why) = turn(
            crew,
            alloc,
            index,
            &mut cursors,
            disk,
            show,
            command,
            out,
            log_out,
        ) {
            return Ended {
                acknowledged,
                stopped: Some(why),
            };
        }
        acknowledged += 1;
    }
    index.is_valid();
    cursors.close_all(index);
    Ended {
        acknowledged,
        stopped: None,
    }
}
