ghost use Rattle.std.specs.Prelude.{◌≡◌, ◌≤◌, ◌<◌, ◌+◌, ◌-◌, ◌^◌, length, OnOk, IsErrOf, All};
ghost use Rattle.metric_laws.specs.Counts.{count_up, next_count};
ghost use Rattle.outside_io.specs.Causes.{Rose};
ghost use Rattle.rows_text.specs.Meaning.{nothing_yet, replies, step};
ghost use Rattle.rows_text.specs.Readable.{IsReadable};
ghost use Rattle.rows_text.specs.Texts.{text};
ghost use Rattle.plain_scan.specs.declared.session.ScanStop.TheVariants as stop;
ghost use Rattle.plain_scan.specs.List.{IsListOf, state_of};
ghost use Rattle.plain_scan.specs.Written.{Puts, Writes, reply_texts};

use crate::list::PlainList;
use metric_laws::Metric;
use outside_io::{Failed, Sink};
use rows_text::{Command, reply_text};
use std::alloc::{AllocError, Global};

/// Why a run ended before its script did.
#[derive(Clone, Copy, PartialEq, Eq)]
pub enum ScanStop {
    /// Memory ran out.
    Memory,
    /// A reply could not be written.
    Sink,
}

impl From<AllocError> for ScanStop {
    ghost from_gives = { λ _ e. e ≡ stop.Memory };

    fn from(_error: AllocError) -> ScanStop {
        ScanStop::Memory
    }
}

impl From<Failed> for ScanStop {
    ghost from_gives = { λ _ e. e ≡ stop.Sink };

    fn from(_failed: Failed) -> ScanStop {
        ScanStop::Sink
    }
}

/// How a script is run on a plain list.
#[derive(Clone, Copy)]
pub struct Scan<M: Metric> {
    /// The metric of the space.
    pub metric: M,
    /// The greatest number of objects.
    pub limit: u32,
    /// Whether a hit is written with its tag.
    pub show_tags: bool,
}

// Carries out one command and writes its reply.
// Clauses: what is asked of the caller (`list`, `limit`, `numbers`, `readable`); what is written (`puts`); what changes (`state`); what
// stays (`list`); the numbers that cursors take (`numbers`); the cost (`one_put`); the cause of an error (`rose`); faults of the devices
// (`later`).
fn answer<M: Metric, K: Sink>(
    alloc: Global,
    scan: &Scan<M>,
    list: &mut PlainList,
    command: Command,
    out: &mut K,
) -> Result<(), ScanStop>
    requires list { IsListOf (M.space scan.now.metric) scan.now.limit list.old }
    requires limit { scan.now.limit < 2 ^ 32 - 1 }
    requires numbers { list.old.cursors.next + 1 < 2 ^ 32 }
    requires readable { IsReadable (M.space scan.now.metric).dimension command }
    ensures puts { Puts (K.state out.old).written (K.state out.new).written
        (text scan.now.show_tags (step (record { space = M.space scan.now.metric; limit = scan.now.limit })
        (state_of list.old) command).reply) result }
    ensures state { OnOk result
        (state_of list.new ≡ (step (record { space = M.space scan.now.metric; limit = scan.now.limit })
        (state_of list.old) command).state) }
    ensures list { IsListOf (M.space scan.now.metric) scan.now.limit list.new }
    ensures numbers { list.new.cursors.next ≤ list.old.cursors.next + 1 }
    ensures one_put { OnOk result (K.puts out.new ≡ next_count (K.puts out.old)) }
    ensures later { (K.state out.old).faults ≤ (K.state out.new).faults }
    ensures rose { IsErrOf result ScanStop.Sink → Rose (K.state out.old).faults (K.state out.new).faults }
{
    let reply = list.step(alloc, &scan.metric, scan.limit, command)?;
    let mut text = Vec::new(alloc);
    reply_text(&reply, scan.show_tags, &mut text)?;
    Ok(out.put(&text)?)
}

/// Carries out each command of a script in turn on an empty list, and writes its reply.
///
/// After [`ScanStop::Sink`] a front of the next reply may be written. [`ScanStop::Memory`] comes only where memory runs out.
pub fn run_script<M: Metric, K: Sink>(
    alloc: Global,
    scan: &Scan<M>,
    commands: Vec<Command>,
    out: &mut K,
) -> Result<(), ScanStop>
    requires limit { scan.now.limit < 2 ^ 32 - 1 }
    requires few { length commands.items < 2 ^ 32 }
    requires readable { All (IsReadable (M.space scan.now.metric).dimension) commands.items }
    ensures wrote { Writes (K.state out.old).written (K.state out.new).written
        (reply_texts (record { space = M.space scan.now.metric; limit = scan.now.limit }) scan.now.show_tags commands.items)
        result }
    // Each reply goes out whole in one put, so a reader of a pipe never sees a part of one.
    ensures puts { OnOk result (K.puts out.new ≡ count_up (K.puts out.old) (length commands.items)) }
    ensures later { (K.state out.old).faults ≤ (K.state out.new).faults }
    ensures rose { IsErrOf result ScanStop.Sink → Rose (K.state out.old).faults (K.state out.new).faults }
{
    let mut list = PlainList::new(alloc, scan.metric.dimension());
    for command in commands {
        answer(alloc, scan, &mut list, command, out)?;
    }
    Ok(())
}
