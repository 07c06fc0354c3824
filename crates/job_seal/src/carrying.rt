// Does the job `proof` on an index.
ghost use Rattle.std.specs.Prelude.{◌≡◌, ◌⊎◌, ◌++◌, ◌≤◌, ◌<◌, ◌^◌, List, ℕ, [], length, All, nat_lt, IsTrue, IfOk, IfErr, IsErrOf, OnOk, codes};
ghost use Rattle.std.specs.List.{list_all};
ghost use Rattle.std.specs.Io.KnownBytes.{Appends};
ghost use Rattle.outside_io.specs.Bytes.{AppendsPrefix};
ghost use Rattle.outside_io.specs.Causes.{Rose};
ghost use Rattle.outside_io.specs.Sinks.{Tells};
ghost use Rattle.disk_model.specs.Disk.{IsUnchanged};
ghost use Rattle.node_page.specs.Heads.{IsValidHead};
ghost use Rattle.log_model.specs.Grammar.{IsValidLog};
ghost use Rattle.prune_log.specs.Spelling.{frame_bytes};
ghost use Rattle.seal_log.specs.Carrying.{Carries};
ghost use Rattle.seal_log.specs.Digests.{leaf_digests};
ghost use Rattle.seal_log.specs.Laws.{CarriedLogsAreAccepted};
ghost use Rattle.job_files.specs.Lines.{not_index_text};
ghost use Rattle.job_files.specs.Jobs.{IsNoIndex};
ghost use Rattle.page_store.specs.Files.{IsLarge};
ghost use Rattle.job_seal.specs.Carries.{CarriesLogs, CarriesOn, EndsCarried, HasCarried, HasHalted, IsCarriedLogsStatus, IsCarryStatus, IsDone, IsKeptOf, IsRefusal, PutsLog, Stops, StopsCarrying, StopsLog, TellsLog, carried_end, carried_line, judged};

use crate::opening::open_small;
use crate::proof_lines::rejected_text;
use disk_model::Disk;
use job_files::logs::{
    LogStop, end_stopped, first_fault, push_frame, put, read_logs, undecoded_text,
};
use job_files::space_of;
use log_model::{Log, Record};
use log_verify::Verdict;
use node_page::Head;
use outside_io::{Sink, Source, Status};
use page_cache::laws::empty_cache_agrees;
use page_cache::{Cached, KEPT_NODES, Kept};
use page_store::DiskPages;
use prune_log::{LogFault, decode_frames, frame};
use seal_log::laws::carried_logs_are_accepted;
use seal_log::{ProofFault, SealFault, Tree, carry, seal};
use std::alloc::{AllocError, Global};
use tree_shape::Live;

// Returns the first fault of a log over an opened index, and the cache of its pages.
// Clauses: what is asked of the caller (`head`, `few`, `kept`, `valid`); the answer (`told`, `kept`); what stays (`same`); the cause of an
// error (`disk`, `not_sink`); faults of the devices (`later`).
fn judge_log<D: Disk>(
    alloc: Global,
    index: &mut D,
    opened: &(Head, Live),
    kept: Kept,
    log: &Log,
) -> Result<(Option<Verdict>, Kept), LogStop>
    requires head { IsValidHead opened.now.0 }
    requires few { opened.now.1.pages ≤ 262144 }
    requires kept { IsKeptOf (D.state index.old) opened.now.0 opened.now.1 kept }
    requires valid { IsValidLog log.now }
    ensures same { IsUnchanged (D.state index.old) (D.state index.new) }
    ensures told { IfOk result (λ x. IsTrue (D.state index.old).is_known →
        judged (D.state index.old).bytes opened.now.0 opened.now.1 log.now ≡ x.0) }
    ensures kept { IfOk result (λ x. IsKeptOf (D.state index.new) opened.now.0 opened.now.1 x.1) }
    ensures disk { IsErrOf result LogStop.Disk → Rose (D.state index.old).faults (D.state index.new).faults }
    ensures not_sink { IsErrOf result LogStop.Sink → ⊥ }
    ensures later { (D.state index.old).faults ≤ (D.state index.new).faults }
{
    let (head, live) = opened;
    let pages = DiskPages::new(index, head.dim, live.pages);
    let mut pages = Cached::from_parts(pages, kept);
    let judged = first_fault(alloc, space_of(head), &mut pages, live, log);
    let (inner, kept) = pages.into_parts();
    let _index = inner.disk;
    Ok((judged?, kept))
}

// Returns whether all records name pages of a file.
fn are_within(records: &[Record], pages: u32) -> bool
    ensures { result ≡ list_all (λ r. nat_lt r.page pages) records.now }
{
    records.iter().all(|record| record.page < pages)
}

// Returns the line of a carried log.
fn carried_text(alloc: Global, frame: u64) -> Result<Vec<u8>, AllocError>
    ensures { IfOk result (λ text. text.items ≡ carried_line frame) }
{
    let mut text = Vec::new(alloc);
    push_frame(frame, &mut text)?;
    text.extend_from_slice(b" carried\n")?;
    Ok(text)
}

// Returns the carried log of a log without a fault, as a frame. An accepted log names no page outside the file.
fn carried_frame<D: Disk>(
    alloc: Global,
    index: &mut D,
    tree: &Tree,
    log: &Log,
) -> Result<Vec<u8>, LogStop>
    requires some { 4 ≤ length tree.now }
    requires few { length tree.now ≤ 262144 }
    requires valid { IsValidLog log.now }
    ensures same { IsUnchanged (D.state index.old) (D.state index.new) }
    ensures carries { IfOk result (λ put. IsTrue (D.state index.old).is_known → (bytes : List ℕ)
        × Carries (D.state index.old).bytes tree.now log.now bytes × (put.items ≡ frame_bytes bytes)) }
    ensures disk { IsErrOf result LogStop.Disk → Rose (D.state index.old).faults (D.state index.new).faults }
    ensures not_sink { IsErrOf result LogStop.Sink → ⊥ }
    ensures later { (D.state index.old).faults ≤ (D.state index.new).faults }
{
    if !are_within(log.records.as_slice(), tree.pages()) {
        return Err(LogStop::Memory);
    }
    match carry(alloc, index, tree, log) {
        Ok(bytes) => {
            let mut put = Vec::new(alloc);
            frame(&bytes, &mut put)?;
            Ok(put)
        }
        Err(SealFault::Disk) => Err(LogStop::Disk),
        Err(SealFault::Memory) => Err(LogStop::Memory),
    }
}

// Returns the frame and the line of a log with its first fault or none, and whether it has none.
// Clauses: what is asked of the caller (`head`, `some`, `few`, `size`, `sealed`, `valid`, `told`); the answer (`texts`); what stays
// (`same`); the cause of an error (`disk`, `not_sink`); faults of the devices (`later`).
// Arguments: `index`, `opened` and `tree` are the file, its head and live slot, and its digests, and `number`, `log` and `found` are the
// frame's number, its log and the log's first fault or none.
fn log_texts<D: Disk>(
    alloc: Global,
    index: &mut D,
    opened: &(Head, Live),
    tree: &Tree,
    number: u64,
    log: &Log,
    found: Option<Verdict>,
) -> Result<(Vec<u8>, Vec<u8>, bool), LogStop>
    requires head { IsValidHead opened.now.0 }
    requires some { 4 ≤ opened.now.1.pages }
    requires few { opened.now.1.pages ≤ 262144 }
    requires size { length tree.now ≡ opened.now.1.pages }
    requires sealed { IsTrue (D.state index.old).is_known → tree.now ≡ leaf_digests (D.state index.old).bytes opened.now.1.pages }
    requires valid { IsValidLog log.now }
    requires told { IsTrue (D.state index.old).is_known → judged (D.state index.old).bytes opened.now.0 opened.now.1 log.now ≡ found }
    ensures same { IsUnchanged (D.state index.old) (D.state index.new) }
    ensures texts { IfOk result (λ x. IsTrue (D.state index.old).is_known →
        TellsLog (D.state index.old).bytes opened.now.0 opened.now.1 number log.now x.0.items x.1.items x.2) }
    ensures disk { IsErrOf result LogStop.Disk → Rose (D.state index.old).faults (D.state index.new).faults }
    ensures not_sink { IsErrOf result LogStop.Sink → ⊥ }
    ensures later { (D.state index.old).faults ≤ (D.state index.new).faults }
{
    if let Some(why) = found {
        let line = rejected_text(alloc, number, ProofFault::Verdict(why))?;
        return Ok((Vec::new(alloc), line, false));
    }
    let put = carried_frame(alloc, index, tree, log)?;
    Ok((put, carried_text(alloc, number)?, true))
}

// Puts the frame and then the line of a log. Returns whether it has no fault, and the cache of the pages.
// Clauses: what is asked of the caller (`head`, `some`, `few`, `size`, `sealed`, `kept`, `valid`); the answer (`kept`); what is written
// (`puts`, `stops`); what stays (`same`); the cause of an error (`disk`, `output`); faults of the devices (`later`, `out_later`,
// `log_later`).
// Arguments: `index`, `opened`, `tree` and `kept` are the file, its head and live slot, its digests and the cache of its pages, `number`
// and `log` are the frame, and `out` and `log_out` are written.
fn carry_log<D: Disk, K: Sink, L: Sink>(
    alloc: Global,
    index: &mut D,
    opened: &(Head, Live),
    tree: &Tree,
    kept: Kept,
    number: u64,
    log: &Log,
    out: &mut K,
    log_out: &mut L,
) -> Result<(bool, Kept), LogStop>
    requires head { IsValidHead opened.now.0 }
    requires some { 4 ≤ opened.now.1.pages }
    requires few { opened.now.1.pages ≤ 262144 }
    requires size { length tree.now ≡ opened.now.1.pages }
    requires sealed { IsTrue (D.state index.old).is_known → tree.now ≡ leaf_digests (D.state index.old).bytes opened.now.1.pages }
    requires kept { IsKeptOf (D.state index.old) opened.now.0 opened.now.1 kept }
    requires valid { IsValidLog log.now }
    ensures same { IsUnchanged (D.state index.old) (D.state index.new) }
    ensures puts { IfOk result (λ x. IsTrue (D.state index.old).is_known →
        PutsLog (D.state index.old).bytes opened.now.0 opened.now.1 number log.now x.0
        (L.state log_out.old).written (L.state log_out.new).written (K.state out.old).written (K.state out.new).written) }
    ensures stops { IfErr result (λ why. IsTrue (D.state index.old).is_known →
        StopsLog (D.state index.old).bytes opened.now.0 opened.now.1 number log.now why
        (L.state log_out.old).written (L.state log_out.new).written (K.state out.old).written (K.state out.new).written) }
    ensures kept { IfOk result (λ x. IsKeptOf (D.state index.new) opened.now.0 opened.now.1 x.1) }
    ensures disk { IsErrOf result LogStop.Disk → Rose (D.state index.old).faults (D.state index.new).faults }
    ensures output { IsErrOf result LogStop.Sink → Rose (K.state out.old).faults (K.state out.new).faults
        ⊎ Rose (L.state log_out.old).faults (L.state log_out.new).faults }
    ensures later { (D.state index.old).faults ≤ (D.state index.new).faults }
    ensures out_later { (K.state out.old).faults ≤ (K.state out.new).faults }
    ensures log_later { (L.state log_out.old).faults ≤ (L.state log_out.new).faults }
{
    let (found, kept) = judge_log(alloc, index, opened, kept, log)?;
    let (put, line, accepted) = log_texts(alloc, index, opened, tree, number, log, found)?;
    if log_out.put(&put).is_err() {
        return Err(LogStop::Sink);
    }
    match out.put(&line) {
        Ok(()) => Ok((accepted, kept)),
        Err(_) => Err(LogStop::Sink),
    }
}

// Puts the frames and the lines of logs. Returns whether none has a fault.
// Clauses: what is asked of the caller (`head`, `some`, `few`, `size`, `sealed`, `kept`, `valid`); what is written (`puts`, `stops`); what
// stays (`same`); the cause of an error (`disk`, `output`); faults of the devices (`later`, `out_later`, `log_later`).
// Arguments: `index`, `opened`, `tree` and `kept` are the file, its head and live slot, its digests and the cache of its pages, and `out`
// and `log_out` are written.
fn carry_all<D: Disk, K: Sink, L: Sink>(
    alloc: Global,
    index: &mut D,
    opened: &(Head, Live),
    tree: &Tree,
    mut kept: Kept,
    logs: Vec<Log>,
    out: &mut K,
    log_out: &mut L,
) -> Result<bool, LogStop>
    requires head { IsValidHead opened.now.0 }
    requires some { 4 ≤ opened.now.1.pages }
    requires few { opened.now.1.pages ≤ 262144 }
    requires size { length tree.now ≡ opened.now.1.pages }
    requires sealed { IsTrue (D.state index.old).is_known → tree.now ≡ leaf_digests (D.state index.old).bytes opened.now.1.pages }
    requires kept { IsKeptOf (D.state index.old) opened.now.0 opened.now.1 kept }
    requires valid { All IsValidLog logs.items }
    ensures same { IsUnchanged (D.state index.old) (D.state index.new) }
    ensures puts { IfOk result (λ accepted. IsTrue (D.state index.old).is_known →
        HasCarried (D.state index.old).bytes opened.now.0 opened.now.1 logs.items [] (length logs.items) accepted
        (L.state log_out.old).written (L.state log_out.new).written (K.state out.old).written (K.state out.new).written) }
    ensures stops { IfErr result (λ why. IsTrue (D.state index.old).is_known →
        StopsCarrying (D.state index.old).bytes opened.now.0 opened.now.1 logs.items why
        (L.state log_out.old).written (L.state log_out.new).written (K.state out.old).written (K.state out.new).written) }
    ensures disk { IsErrOf result LogStop.Disk → Rose (D.state index.old).faults (D.state index.new).faults }
    ensures output { IsErrOf result LogStop.Sink → Rose (K.state out.old).faults (K.state out.new).faults
        ⊎ Rose (L.state log_out.old).faults (L.state log_out.new).faults }
    ensures later { (D.state index.old).faults ≤ (D.state index.new).faults }
    ensures out_later { (K.state out.old).faults ≤ (K.state out.new).faults }
    ensures log_later { (L.state log_out.old).faults ≤ (L.state log_out.new).faults }
{
    let mut number = 0;
    let mut accepted = true;
    for log in logs {
        let (is_accepted, now_kept) = carry_log(
            alloc, index, opened, tree, kept, number, &log, out, log_out,
        )?;
        kept = now_kept;
        accepted &= is_accepted;
        number += 1;
    }
    Ok(accepted)
}

// Returns the last line for bytes that are logs.
fn carried_end(accepted: bool) -> &'static [u8]
    ensures { result.now ≡ carried_end accepted }
{
    if accepted {
        b"log carried\n"
    } else {
        b"log rejected\n"
    }
}

// Puts the frames and the lines of the logs that the bytes spell, and the last line. Judges all logs with one cache of pages.
// Returns the status.
// Clauses: what is asked of the caller (`head`, `some`, `few`, `size`, `sealed`); what is written (`ends`, `stops`); what stays (`same`);
// which statuses come (`statuses`); the cause of an error (`disk`, `output`); faults of the devices (`later`, `out_later`, `log_later`).
// Arguments: `index`, `opened` and `tree` are the file, its head and live slot, and its digests, `bytes` spell the logs, and `out` and
// `log_out` are written.
fn carry_bytes<D: Disk, K: Sink, L: Sink>(
    alloc: Global,
    index: &mut D,
    opened: &(Head, Live),
    tree: &Tree,
    bytes: &[u8],
    out: &mut K,
    log_out: &mut L,
) -> Result<Status, LogStop>
    requires head { IsValidHead opened.now.0 }
    requires some { 4 ≤ opened.now.1.pages }
    requires few { opened.now.1.pages ≤ 262144 }
    requires size { length tree.now ≡ opened.now.1.pages }
    requires sealed { IsTrue (D.state index.old).is_known → tree.now ≡ leaf_digests (D.state index.old).bytes opened.now.1.pages }
    ensures same { IsUnchanged (D.state index.old) (D.state index.new) }
    ensures ends { IfOk result (λ status. IsTrue (D.state index.old).is_known →
        EndsCarried (D.state index.old).bytes opened.now.0 opened.now.1 bytes.now
        (L.state log_out.old).written (L.state log_out.new).written (K.state out.old).written (K.state out.new).written status.0) }
    ensures stops { IfErr result (λ why. IsTrue (D.state index.old).is_known →
        Stops (D.state index.old).bytes opened.now.0 opened.now.1 bytes.now why
        (L.state log_out.old).written (L.state log_out.new).written (K.state out.old).written (K.state out.new).written) }
    ensures statuses { IfOk result (λ status. IsDone status.0) }
    ensures disk { IsErrOf result LogStop.Disk → Rose (D.state index.old).faults (D.state index.new).faults }
    ensures output { IsErrOf result LogStop.Sink → Rose (K.state out.old).faults (K.state out.new).faults
        ⊎ Rose (L.state log_out.old).faults (L.state log_out.new).faults }
    ensures later { (D.state index.old).faults ≤ (D.state index.new).faults }
    ensures out_later { (K.state out.old).faults ≤ (K.state out.new).faults }
    ensures log_later { (L.state log_out.old).faults ≤ (L.state log_out.new).faults }
{
    let logs = match decode_frames(alloc, bytes) {
        Ok(logs) => logs,
        Err(LogFault::Memory) => return Err(LogStop::Memory),
        Err(fault) => {
            put(out, undecoded_text(fault))?;
            return Ok(Status(1));
        }
    };
    empty_cache_agrees();
    let kept = Kept::new(alloc, KEPT_NODES)?;
    let accepted = carry_all(alloc, index, opened, tree, kept, logs, out, log_out)?;
    put(out, carried_end(accepted))?;
    Ok(Status(u8::from(!accepted)))
}

// Seals an opened index once, and puts the frames and the lines of the logs that the bytes spell. Returns the status.
// Clauses: what is asked of the caller (`head`, `some`, `few`); what is written (`ends`, `stops`); what stays (`same`); which statuses come
// (`statuses`); the cause of an error (`disk`, `output`); faults of the devices (`later`, `out_later`, `log_later`).
fn carry_opened<D: Disk, K: Sink, L: Sink>(
    alloc: Global,
    index: &mut D,
    opened: &(Head, Live),
    bytes: &[u8],
    out: &mut K,
    log_out: &mut L,
) -> Result<Status, LogStop>
    requires head { IsValidHead opened.now.0 }
    requires some { 4 ≤ opened.now.1.pages }
    requires few { opened.now.1.pages ≤ 262144 }
    ensures same { IsUnchanged (D.state index.old) (D.state index.new) }
    ensures ends { IfOk result (λ status. IsTrue (D.state index.old).is_known →
        EndsCarried (D.state index.old).bytes opened.now.0 opened.now.1 bytes.now
        (L.state log_out.old).written (L.state log_out.new).written (K.state out.old).written (K.state out.new).written status.0) }
    ensures stops { IfErr result (λ why. IsTrue (D.state index.old).is_known →
        Stops (D.state index.old).bytes opened.now.0 opened.now.1 bytes.now why
        (L.state log_out.old).written (L.state log_out.new).written (K.state out.old).written (K.state out.new).written) }
    ensures statuses { IfOk result (λ status. IsDone status.0) }
    ensures disk { IsErrOf result LogStop.Disk → Rose (D.state index.old).faults (D.state index.new).faults }
    ensures output { IsErrOf result LogStop.Sink → Rose (K.state out.old).faults (K.state out.new).faults
        ⊎ Rose (L.state log_out.old).faults (L.state log_out.new).faults }
    ensures later { (D.state index.old).faults ≤ (D.state index.new).faults }
    ensures out_later { (K.state out.old).faults ≤ (K.state out.new).faults }
    ensures log_later { (L.state log_out.old).faults ≤ (L.state log_out.new).faults }
{
    match seal(alloc, index, opened.1.pages) {
        Ok(tree) => carry_bytes(alloc, index, opened, &tree, bytes, out, log_out),
        Err(SealFault::Disk) => Err(LogStop::Disk),
        Err(SealFault::Memory) => Err(LogStop::Memory),
    }
}

// Opens an index, and puts the frames and the lines of the logs that the bytes spell.
// Clauses: what is written (`done`, `halted`, `not_index`, `long`); what stays (`same`, `kept`); which statuses come (`statuses`); the
// cause of an error (`disk`, `output`); faults of the devices (`later`, `out_later`, `log_later`).
fn carry_index<D: Disk, K: Sink, L: Sink>(
    alloc: Global,
    index: &mut D,
    bytes: &[u8],
    out: &mut K,
    log_out: &mut L,
) -> Status
    ensures same { IsUnchanged (D.state index.old) (D.state index.new) }
    ensures done { IsDone result.0 → IsTrue (D.state index.old).is_known → CarriesOn (D.state index.old).bytes bytes.now
        (L.state log_out.old).written (L.state log_out.new).written (K.state out.old).written (K.state out.new).written result.0 }
    ensures halted { IsTrue (D.state index.old).is_known → HasHalted (D.state index.old).bytes bytes.now (L.state log_out.old).written
        (L.state log_out.new).written (K.state out.old) (K.state out.new) result.0 }
    ensures not_index { result.0 ≡ 6 → (name : List ℕ) × Tells (K.state out.old) (K.state out.new) (not_index_text name)
        × (IsTrue (D.state index.old).is_known → IsNoIndex (D.state index.old).bytes name) }
    ensures long { result.0 ≡ 7 → Tells (K.state out.old) (K.state out.new) (codes "fault long\n")
        × (IsTrue (D.state index.old).is_known → IsLarge (D.state index.old).bytes) }
    ensures kept { (result.0 ≡ 6) ⊎ (result.0 ≡ 7) → log_out.new ≡ log_out.old }
    ensures statuses { IsCarryStatus result.0 }
    ensures disk { result.0 ≡ 5 → Rose (D.state index.old).faults (D.state index.new).faults }
    ensures output { result.0 ≡ 4 → Rose (K.state out.old).faults (K.state out.new).faults
        ⊎ Rose (L.state log_out.old).faults (L.state log_out.new).faults }
    ensures later { (D.state index.old).faults ≤ (D.state index.new).faults }
    ensures out_later { (K.state out.old).faults ≤ (K.state out.new).faults }
    ensures log_later { (L.state log_out.old).faults ≤ (L.state log_out.new).faults }
{
    let opened = match open_small(index, out) {
        Ok(opened) => opened,
        Err(status) => return status,
    };
    match carry_opened(alloc, index, &opened, bytes, out, log_out) {
        Ok(status) => status,
        Err(why) => end_stopped(why, out),
    }
}

/// Reads logs. For each log without a fault on the index it writes its carried log to `log_out`, as a frame, and then its line to
/// `out`. For another log it writes its first fault to `out`. The index is sealed once. Wherever the job stops, each line on `out`
/// has its whole frame on `log_out`. Status 1: a log is rejected, or the bytes are no logs; 3: they could not be read; 4: a frame or
/// a line could not be written; 5: the disk failed; 6: the file is no index of version 2; 7: there are more than 2^30 bytes of logs,
/// or the index has more than 262144 pages; 8: memory ran out. With status 3, 6 and 7 nothing is put to `log_out`. The index is not
/// changed.
pub fn carry_logs<D: Disk, S: Source, K: Sink, L: Sink>(
    alloc: Global,
    index: &mut D,
    log_in: &mut S,
    out: &mut K,
    log_out: &mut L,
) -> Status
    ensures carries { CarriesLogs (D.state index.old) (D.state index.new) (S.left log_in.old) (S.left log_in.new)
        (L.state log_out.old).written (L.state log_out.new).written (K.state out.old) (K.state out.new) result.0 }
    ensures kept { IsRefusal result.0 → log_out.new ≡ log_out.old }
    // A frame written for a sound log of a sound file is accepted under the file's root digest.
    ensures accepted { CarriedLogsAreAccepted }
    ensures statuses { IsCarriedLogsStatus result.0 }
    ensures input { result.0 ≡ 3 → Rose (S.faults log_in.old) (S.faults log_in.new) }
    ensures disk { result.0 ≡ 5 → Rose (D.state index.old).faults (D.state index.new).faults }
    ensures output { result.0 ≡ 4 → Rose (K.state out.old).faults (K.state out.new).faults
        ⊎ Rose (L.state log_out.old).faults (L.state log_out.new).faults }
    ensures counts { (S.faults log_in.old ≤ S.faults log_in.new) × ((K.state out.old).faults ≤ (K.state out.new).faults)
        × ((L.state log_out.old).faults ≤ (L.state log_out.new).faults) }
{
    carried_logs_are_accepted();
    match read_logs(alloc, log_in, out) {
        Ok(bytes) => carry_index(alloc, index, &bytes, out, log_out),
        Err(status) => status,
    }
}
