// One command of a session.
ghost use Rattle.std.specs.Prelude.{◌≡◌, ◌≤◌, ◌<◌, ◌+◌, ◌^◌, false, IsTrue};
ghost use Rattle.rows_text.specs.Meaning.{has_points_of};
ghost use Rattle.rows_text.specs.Readable.{IsReadable};
ghost use Rattle.index_core.specs.Index.{MayGoOn};
ghost use Rattle.session_run.specs.Pinned.{AreKeptBy};
ghost use Rattle.session_run.specs.Steps.{HasCarriedOut};

use crate::answer::{Answer, inserted, loaded};
use crate::pinned::PinnedCursors;
use crate::queries::{nearest, range};
use crate::stop::SessionStop;
use bulk_load::Crew;
use disk_model::Disk;
use index_core::Index;
use metric_laws::Metric;
use plain_scan::has_points_of;
use rows_text::{Command, Refusal, Reply};
use std::alloc::Global;

// Carries out `command`, where its points are points of the space.
// Clauses: what is asked of the caller (`ready`, `going`, `stands`, `numbers`, `kept`, `readable`, `points`); what the command does, and
// what a crash may leave (`done`); what stays (`stands`).
// Arguments: `crew` does the work of loads, `index`, `cursors` and `disk` may all change, and `show` and `command` say what is asked.
fn execute<W: Crew<M>, M: Metric, D: Disk>(
    crew: &W,
    alloc: Global,
    index: &mut Index<M>,
    cursors: &mut PinnedCursors,
    disk: &mut D,
    show: bool,
    command: &Command,
) -> Result<Answer, SessionStop>
    requires ready { W.ready crew.now }
    requires going { index.old.stopped ≡ false }
    requires stands { MayGoOn index.old (D.state disk.old) }
    requires numbers { cursors.old.next + 1 < 2 ^ 32 }
    requires kept { AreKeptBy (M.space index.old.file.metric) index.old cursors.old }
    requires readable { IsReadable (M.space index.old.file.metric).dimension command.now }
    requires points { IsTrue (has_points_of (M.space index.old.file.metric) command.now) }
    ensures stands { MayGoOn index.new (D.state disk.new) }
    ensures done { HasCarriedOut (M.space index.old.file.metric) show index.old index.new cursors.old cursors.new
        (D.state disk.old) (D.state disk.new) command.now result }
{
    index.is_valid();
    match command {
        Command::Insert(p) => inserted(index.insert(alloc, disk, p.as_slice())),
        Command::TagInsert { tag, p } => {
            inserted(index.insert_tagged(alloc, disk, p.as_slice(), *tag))
        }
        Command::Load(rows) => loaded(index.load(crew, alloc, disk, rows)),
        Command::TagLoad { tags, rows } => {
            loaded(index.load_tagged(crew, alloc, disk, rows, tags.as_slice()))
        }
        Command::Range { r, q } => range(alloc, index, disk, show, q, *r),
        Command::Nearest { k, q } => nearest(alloc, index, disk, show, q, *k),
        Command::Count => Ok(Answer::plain(Reply::Count(index.count()))),
        Command::Bad(why) => Ok(Answer::plain(Reply::Refused(*why))),
        Command::Cursor(q) => cursors.open(alloc, index, disk, show, q),
        Command::Next { cursor, n } => match cursors.advance(alloc, index, disk, *cursor, *n) {
            Ok(reply) => Ok(Answer::plain(reply)),
            Err(why) => Err(why),
        },
        Command::Close(cursor) => Ok(Answer::plain(cursors.close(index, *cursor))),
    }
}

/// Carries out `command`. Refuses a command with a point that is not in the space.
/// Arguments: `crew` does the work of loads, `index`, `cursors` and `disk` may all change, and `show` and `command` say what is asked.
pub fn step<W: Crew<M>, M: Metric, D: Disk>(
    crew: &W,
    alloc: Global,
    index: &mut Index<M>,
    cursors: &mut PinnedCursors,
    disk: &mut D,
    show: bool,
    command: &Command,
) -> Result<Answer, SessionStop>
    requires ready { W.ready crew.now }
    requires going { index.old.stopped ≡ false }
    requires stands { MayGoOn index.old (D.state disk.old) }
    requires numbers { cursors.old.next + 1 < 2 ^ 32 }
    requires kept { AreKeptBy (M.space index.old.file.metric) index.old cursors.old }
    requires readable { IsReadable (M.space index.old.file.metric).dimension command.now }
    ensures stands { MayGoOn index.new (D.state disk.new) }
    ensures done { HasCarriedOut (M.space index.old.file.metric) show index.old index.new cursors.old cursors.new
        (D.state disk.old) (D.state disk.new) command.now result }
{
    index.is_valid();
    if !has_points_of(&index.metric(), command) {
        return Ok(Answer::plain(Reply::Refused(Refusal::Unfit)));
    }
    execute(crew, alloc, index, cursors, disk, show, command)
}
