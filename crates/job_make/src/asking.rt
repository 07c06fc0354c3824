// Tries a generated index with eight queries.
ghost use Rattle.std.specs.Prelude.{◌≡◌, ◌≤◌, ◌<◌, ◌*◌, ◌^◌, true, false, length, All, IsTrue, IfOk, IfErr};
ghost use Rattle.outside_io.specs.Causes.{Rose};
ghost use Rattle.disk_model.specs.Disk.{IsUnchanged};
ghost use Rattle.log_model.specs.Grammar.{IsValidLog};
ghost use Rattle.log_model.specs.Sound.{IsSoundLog};
ghost use Rattle.page_store.specs.Reading.{nodes_of, reading};
ghost use Rattle.page_store.specs.Shelf.{IsPassing};
ghost use Rattle.index_core.specs.Answers.{HasSearched, IsSoundOn, points_on};
ghost use Rattle.index_core.specs.Files.{OnlyReads};
ghost use Rattle.index_core.specs.Index.{MayGoOn};
ghost use Rattle.job_make.specs.Asking.{HasAskCause, IsAnswered, IsReading, IsTally, page_fault, query_at};

use disk_model::Disk;
use index_core::{Index, IndexFault};
use log_model::laws::least_logs_are_sound;
use log_model::{Found, Log};
use log_verify::{Verdict, verify};
use metric_laws::{Meter, Metric, Rows};
use page_store::{DiskPages, PageFault};
use std::alloc::Global;
use tree_shape::Live;

/// The result of a query.
#[derive(Clone, Copy, PartialEq, Eq)]
pub struct Asked {
    /// The number of objects that were found.
    pub hits: u64,
    /// Whether the verifier accepted its log.
    pub accepted: bool,
}

/// The results of the eight queries.
#[derive(Clone, Copy, PartialEq, Eq)]
pub struct Tally {
    /// The number of objects that they found together.
    pub hits: u64,
    /// The number of their logs that the verifier accepted.
    pub accepted: u64,
}

// The number of queries that try a generated index.
const QUERIES: usize = 8;

/// Maps the fault of a search to that of a page.
pub fn page_fault(fault: IndexFault) -> PageFault
    requires { IsReading fault }
    ensures { result ≡ page_fault fault }
{
    match fault {
        IndexFault::Disk => PageFault::Disk,
        IndexFault::Damaged(fault) => fault,
        IndexFault::Memory => PageFault::Memory,
        _ => unreachable!(),
    }
}

// Runs query `t` at a point.
// Clauses: what is asked of the caller (`going`, `stands`, `point`); the answer (`searched`); what stays (`stands`, `reads`, `rest`); the
// cause of an error (`reading`, `disk`).
fn search<M: Metric, D: Disk>(
    alloc: Global,
    index: &mut Index<M>,
    disk: &mut D,
    q: &[u32],
    t: usize,
) -> Result<Found, IndexFault>
    requires going { index.old.stopped ≡ false }
    requires stands { MayGoOn index.old (D.state disk.old) }
    requires point { IsTrue ((M.space index.old.file.metric).is_point q.now) }
    ensures stands { MayGoOn index.new (D.state disk.new) }
    ensures reads { OnlyReads index.old.file index.new.file (D.state disk.old) (D.state disk.new) }
    ensures rest { index.new ≡ record index.old { file = index.new.file } }
    ensures searched { HasSearched (M.space index.old.file.metric) index.old.file (query_at t q.now)
        (D.state disk.old) (D.state disk.new) result }
    ensures reading { IfErr result IsReading }
    ensures disk { IfErr result (λ fault. fault ≡ IndexFault.Disk → Rose (D.state disk.old).faults (D.state disk.new).faults) }
{
    if t % 2 == 0 {
        return index.nearest(alloc, disk, q, 10);
    }
    index.range(alloc, disk, q, 1000)
}

// Returns whether the verifier accepts a log by the live tree of a file of version 2.
// Clauses: what is asked of the caller (`some`, `narrow`, `pages`, `valid`); the answer (`sound`); what stays (`same`); the cause of an
// error (`cause`, `passing`); faults of the devices (`later`).
fn is_accepted<M: Metric, D: Disk>(
    alloc: Global,
    disk: &mut D,
    metric: M,
    dim: u8,
    live: &Live,
    log: &Log,
) -> Result<bool, PageFault>
    requires some { 1 ≤ dim }
    requires narrow { dim ≤ 64 }
    requires pages { live.now.pages ≤ 2 ^ 24 }
    requires valid { IsValidLog log.now }
    ensures same { IsUnchanged (D.state disk.old) (D.state disk.new) }
    ensures later { (D.state disk.old).faults ≤ (D.state disk.new).faults }
    ensures sound { IfOk result (λ accepted. IsTrue (D.state disk.old).is_known →
        IsSoundLog (M.space metric) (nodes_of (reading dim live.now.pages (D.state disk.old).bytes)) live.now log.now →
        accepted ≡ true) }
    ensures cause { IfErr result (HasAskCause ⊥ (D.state disk.old) (D.state disk.new)) }
    ensures passing { IfErr result IsPassing }
{
    let mut pages = DiskPages::new(disk, dim, live.pages);
    let mut ruler = Meter::new(metric);
    match verify(alloc, &mut pages, &mut ruler, live, log) {
        Ok(_) => Ok(true),
        Err(Verdict::Memory) => Err(PageFault::Memory),
        Err(Verdict::Page(PageFault::Disk)) => Err(PageFault::Disk),
        Err(_) => Ok(false),
    }
}

// Runs query `t` at a point, and has its log checked.
// Clauses: what is asked of the caller (`going`, `stands`, `point`); the answer (`few`, `answered`); what stays (`stands`, `reads`,
// `rest`); the cause of an error (`cause`).
fn ask<M: Metric, D: Disk>(
    alloc: Global,
    index: &mut Index<M>,
    disk: &mut D,
    q: &[u32],
    t: usize,
) -> Result<Asked, PageFault>
    requires going { index.old.stopped ≡ false }
    requires stands { MayGoOn index.old (D.state disk.old) }
    requires point { IsTrue ((M.space index.old.file.metric).is_point q.now) }
    ensures stands { MayGoOn index.new (D.state disk.new) }
    ensures reads { OnlyReads index.old.file index.new.file (D.state disk.old) (D.state disk.new) }
    ensures rest { index.new ≡ record index.old { file = index.new.file } }
    ensures few { IfOk result (λ asked. asked.hits < 2 ^ 32) }
    ensures answered { IsSoundOn (M.space index.old.file.metric) index.old.file (D.state disk.old) →
        IfOk result (IsAnswered (M.space index.old.file.metric) (query_at t q.now) (points_on index.old.file (D.state disk.old))) }
    ensures cause { IfErr result (HasAskCause (IsSoundOn (M.space index.old.file.metric) index.old.file (D.state disk.old))
        (D.state disk.old) (D.state disk.new)) }
{
    index.is_valid();
    least_logs_are_sound();
    let found = match search(alloc, index, disk, q, t) {
        Ok(found) => found,
        Err(fault) => return Err(page_fault(fault)),
    };
    let live = index.live();
    let accepted = is_accepted(
        alloc,
        disk,
        index.metric(),
        index.head().dim,
        &live,
        &found.log,
    )?;
    Ok(Asked {
        hits: found.hits.as_slice().len() as u64,
        accepted,
    })
}

/// Runs eight queries at points of the rows, and has the log of each checked against the file. Query `t`, counted from 0, is at the
/// point of row `t * n / 8` of n rows. It asks for the 10 nearest objects where `t` is even, otherwise for all objects within 1000.
/// Clauses: what is asked of the caller (`going`, `stands`, `some`, `few`, `is_point`); the answer (`tallied`); what stays (`stands`,
/// `reads`, `rest`); the cause of an error (`cause`).
pub fn ask_all<M: Metric, D: Disk>(
    alloc: Global,
    index: &mut Index<M>,
    disk: &mut D,
    rows: &Rows,
) -> Result<Tally, PageFault>
    requires going { index.old.stopped ≡ false }
    requires stands { MayGoOn index.old (D.state disk.old) }
    requires some { 0 < length rows.now.points }
    requires few { length rows.now.points ≤ 2 ^ 24 }
    requires is_point { All (λ p. IsTrue ((M.space index.old.file.metric).is_point p)) rows.now.points }
    ensures stands { MayGoOn index.new (D.state disk.new) }
    ensures reads { OnlyReads index.old.file index.new.file (D.state disk.old) (D.state disk.new) }
    ensures rest { index.new ≡ record index.old { file = index.new.file } }
    ensures tallied { IsSoundOn (M.space index.old.file.metric) index.old.file (D.state disk.old) →
        points_on index.old.file (D.state disk.old) ≡ rows.now.points →
        IfOk result (IsTally (M.space index.old.file.metric) rows.now.points) }
    ensures cause { IfErr result (HasAskCause (IsSoundOn (M.space index.old.file.metric) index.old.file (D.state disk.old))
        (D.state disk.old) (D.state disk.new)) }
{
    let mut tally = Tally {
        hits: 0,
        accepted: 0,
    };
    for t in 0..QUERIES {
        let q = rows.point(t * rows.len() / QUERIES);
        let asked = ask(alloc, index, disk, q, t)?;
        tally.hits += asked.hits;
        tally.accepted += u64::from(asked.accepted);
    }
    Ok(tally)
}
