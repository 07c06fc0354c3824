// Does the job `gen`, and makes and fills an index, as `migrate` does too.
ghost use Rattle.std.specs.Prelude.{◌≡◌, ◌≢◌, ◌⊎◌, ◌++◌, ◌≤◌, ◌<◌, ◌^◌, false, length, All, IsTrue, IfOk, IfErr, OnOk};
ghost use Rattle.std.specs.List.{range_with_len};
ghost use Rattle.outside_io.specs.Causes.{Rose};
ghost use Rattle.metric_mix.specs.MixKinds.{mix_kind, mix_dim};
ghost use Rattle.node_page.specs.Heads.{IsValidHead};
ghost use Rattle.rows_text.specs.Texts.{counted};
ghost use Rattle.tree_outline.specs.Shapes.{tree_lines};
ghost use Rattle.index_core.specs.Answers.{IsSoundOn, points_on};
ghost use Rattle.index_core.specs.Files.{OnlyReads, nodes_on};
ghost use Rattle.index_core.specs.Index.{MayGoOn};
ghost use Rattle.job_make.specs.Asking.{HasAskCause, hits_of};
ghost use Rattle.job_files.specs.Spaces.{space_of};
ghost use Rattle.job_make.specs.Filling.{EndsUnfilled, IsFilled};
ghost use Rattle.job_make.specs.Generator.{generated_rows};
ghost use Rattle.job_make.specs.Jobs.{Generates, IsFillStatus, IsFilledSince, IsUnfilled, summary};

use crate::asking::{Tally, ask_all, page_fault};
use crate::filling::{FillFault, Objects, fill};
use crate::generator::generated_rows;
use bulk_load::Crew;
use disk_model::Disk;
use fault_lines::push_numbered;
use index_core::Index;
use job_files::{
    FAULT_DISK, FAULT_MEMORY, FAULT_NOT_EMPTY, end_at_page, end_unopened, end_with, put_line,
};
use metric_laws::{Metric, Rows};
use metric_mix::MixSpace;
use metric_mix::laws::vectors_fit;
use node_page::Head;
use outside_io::{Sink, Status};
use page_store::PageFault;
use shadow_root::{CreateFault, create};
use std::alloc::{AllocError, Global};
use tree_outline::Shape;

// Ends a job whose new index could not be filled.
fn end_unfilled<K: Sink>(alloc: Global, fault: FillFault, out: &mut K) -> Status
    ensures ends { EndsUnfilled fault (K.state out.old) (K.state out.new) result.0 }
    ensures later { (K.state out.old).faults ≤ (K.state out.new).faults }
{
    match fault {
        FillFault::Unopened(fault) => end_unopened(fault, out),
        FillFault::Changed => end_with(out, FAULT_NOT_EMPTY, 6),
        FillFault::Disk => end_with(out, FAULT_DISK, 5),
        FillFault::Damaged(page) => end_at_page(alloc, page, out),
        FillFault::Memory => end_with(out, FAULT_MEMORY, 8),
    }
}

/// Makes an index with this head in an empty file, and fills it with these objects. Otherwise it writes why not, and returns the
/// status: 5 where the disk failed; 6 where the file holds something, which stays as it is; 8 where memory ran out; 9 where a page
/// is damaged, which comes only on a disk that does not tell its bytes.
/// Clauses: what is asked of the caller (`ready`, `valid`, `version`, `some`, `many`, `is_point`, `few`, `tags`); when it succeeds
/// (`empty`); the answer (`filled`, `going`, `stands`, `head`, `kind`, `dim`); what a crash may leave (`since`); what stays (`silent`,
/// `is_known`); which statuses come (`statuses`); the cause of an error (`unfilled`); faults of the devices (`later`, `out_later`).
/// Arguments: `crew` and `workers` do the work, `disk` and `head` are the file to be made, `objects` goes into it, and `out` gets the line
/// on a refusal.
pub fn make_filled<W: Crew<MixSpace>, D: Disk, K: Sink>(
    crew: &W,
    alloc: Global,
    disk: &mut D,
    head: &Head,
    workers: usize,
    objects: &Objects,
    out: &mut K,
) -> Result<Index<MixSpace>, Status>
    requires ready { W.ready crew.now }
    requires valid { IsValidHead head.now }
    requires version { head.now.version ≡ 2 }
    requires some { 1 ≤ workers }
    requires many { workers ≤ 64 }
    requires is_point { All (λ p. IsTrue ((space_of head.now).is_point p)) objects.now.rows.points }
    requires few { length objects.now.rows.points ≤ head.now.limit }
    requires tags { length objects.now.tags.items ≡ length objects.now.rows.points }
    ensures empty { OnOk result (IsTrue (D.state disk.old).is_known → length (D.state disk.old).bytes ≡ 0) }
    ensures filled { IfOk result (λ index. IsTrue (D.state disk.old).is_known →
        IsFilled head.now objects.now.rows.points objects.now.tags.items (D.state disk.new) index) }
    ensures since { OnOk result (IsTrue (D.state disk.old).is_known →
        IsFilledSince head.now objects.now.rows.points objects.now.tags.items (D.state disk.new)) }
    ensures going { IfOk result (λ index. index.stopped ≡ false) }
    ensures stands { IfOk result (λ index. MayGoOn index (D.state disk.new)) }
    ensures head { IfOk result (λ index. index.file.head ≡ head.now) }
    ensures kind { IfOk result (λ index. mix_kind index.file.metric ≡ head.now.kind) }
    ensures dim { IfOk result (λ index. mix_dim index.file.metric ≡ head.now.dim) }
    ensures silent { OnOk result (out.new ≡ out.old) }
    ensures unfilled { IfErr result (λ status.
        IsUnfilled head.now objects.now.rows.points objects.now.tags.items (D.state disk.old) (D.state disk.new) (K.state out.old)
        (K.state out.new) status.0) }
    ensures statuses { IfErr result (λ status. (status.0 ≡ 5) ⊎ ((status.0 ≡ 6) ⊎ ((status.0 ≡ 8) ⊎ (status.0 ≡ 9)))) }
    ensures is_known { (D.state disk.new).is_known ≡ (D.state disk.old).is_known }
    ensures later { (D.state disk.old).faults ≤ (D.state disk.new).faults }
    ensures out_later { (K.state out.old).faults ≤ (K.state out.new).faults }
{
    let live = match create(disk, head) {
        Ok(live) => live,
        Err(CreateFault::NotEmpty) => return Err(end_with(out, FAULT_NOT_EMPTY, 6)),
        Err(CreateFault::Disk) => return Err(end_with(out, FAULT_DISK, 5)),
    };
    match fill(crew, alloc, disk, head, &live, workers, objects) {
        Ok(index) => Ok(index),
        Err(fault) => Err(end_unfilled(alloc, fault, out)),
    }
}

/// Appends a line with a word and a number.
pub fn push_counted(word: &[u8], n: u64, out: &mut Vec<u8>) -> Result<(), AllocError>
    ensures { OnOk result (out.new.items ≡ out.old.items ++ counted word.now n) }
{
    push_numbered(word, n, out)?;
    out.extend_from_slice(b"\n")
}

// Returns the lines on a generated index.
fn summary_text(alloc: Global, shape: &Shape, tally: Tally) -> Result<Vec<u8>, AllocError>
    ensures { IfOk result (λ text. text.items ≡ summary shape.now.objects shape.now.nodes shape.now.height tally.hits tally.accepted) }
{
    let mut text = Vec::new(alloc);
    push_counted(b"objects ", u64::from(shape.objects), &mut text)?;
    push_counted(b"nodes ", u64::from(shape.nodes), &mut text)?;
    push_counted(b"height ", u64::from(shape.height), &mut text)?;
    text.extend_from_slice(b"queries 8\n")?;
    push_counted(b"hits ", tally.hits, &mut text)?;
    push_counted(b"accepted ", tally.accepted, &mut text)?;
    Ok(text)
}

// Runs the eight queries, and makes the lines on the index.
fn summary_of<M: Metric, D: Disk>(
    alloc: Global,
    index: &mut Index<M>,
    disk: &mut D,
    rows: &Rows,
) -> Result<Vec<u8>, PageFault>
    requires going { index.old.stopped ≡ false }
    requires stands { MayGoOn index.old (D.state disk.old) }
    requires some { 0 < length rows.now.points }
    requires few { length rows.now.points ≤ 2 ^ 24 }
    requires is_point { All (λ p. IsTrue ((M.space index.old.file.metric).is_point p)) rows.now.points }
    ensures reads { OnlyReads index.old.file index.new.file (D.state disk.old) (D.state disk.new) }
    ensures text { IsSoundOn (M.space index.old.file.metric) index.old.file (D.state disk.old) →
        points_on index.old.file (D.state disk.old) ≡ rows.now.points →
        IfOk result (λ text. text.items ≡ summary index.old.file.live.count
        (length (tree_lines (nodes_on index.old.file (D.state disk.old)) index.old.file.live)) index.old.file.live.height
        (hits_of (M.space index.old.file.metric) rows.now.points 8) 8) }
    ensures cause { IfErr result (HasAskCause (IsSoundOn (M.space index.old.file.metric) index.old.file (D.state disk.old))
        (D.state disk.old) (D.state disk.new)) }
{
    let tally = ask_all(alloc, index, disk, rows)?;
    let shape = match index.shape(alloc, disk) {
        Ok(shape) => shape,
        Err(fault) => return Err(page_fault(fault)),
    };
    match summary_text(alloc, &shape, tally) {
        Ok(text) => Ok(text),
        Err(_) => Err(PageFault::Memory),
    }
}

/// What `gen` has to make.
#[derive(Clone, Copy, PartialEq, Eq)]
pub struct Generation {
    /// The head of the new index.
    pub head: Head,
    /// The number of rows to generate.
    pub count: u32,
    /// The seed of the generator.
    pub seed: u32,
    /// The number of threads for the load, 1 to 64.
    pub workers: usize,
}

// Returns the first `count` numbers from 0 on.
#[tactic(auto, using(crate::proofs::RowsMore::number_more))]
fn ids(alloc: Global, count: u32) -> Result<Vec<u64>, AllocError>
    ensures { IfOk result (λ ids. ids.items ≡ range_with_len 0 count) }
{
    let mut ids = Vec::new(alloc);
    for id in 0..count {
        ids.push(u64::from(id))?;
    }
    Ok(ids)
}

// Returns the generated rows as objects. The tag of each row is its number.
fn generated_objects(alloc: Global, asked: &Generation) -> Result<Objects, AllocError>
    ensures rows { IfOk result (λ o.
        o.rows ≡ record { dimension = asked.now.head.dim; points = generated_rows asked.now.seed asked.now.head.dim asked.now.count }) }
    ensures tags { IfOk result (λ o. o.tags.items ≡ range_with_len 0 asked.now.count) }
{
    let rows = generated_rows(alloc, asked.seed, asked.head.dim, asked.count)?;
    let tags = ids(alloc, asked.count)?;
    Ok(Objects { rows, tags })
}

/// Makes an index of generated rows in an empty file, runs eight queries, and has the log of each checked against the file. Writes
/// the number of objects, the number of nodes, the tree's height, and the results of the queries. Status 4: the lines could not be
/// written; 5: the disk failed; 6: the file holds something, and stays as it is; 8: memory ran out; 9: a page is damaged, which
/// comes only on a disk that does not tell its bytes.
/// Clauses: what is asked of the caller (`ready`, `valid`, `version`, `vectors`, `some`, `few`, `one_worker`, `many_workers`); what the
/// job does, and what a crash may leave (`generates`); which statuses come (`statuses`); the cause of an error (`rose`); faults of the
/// devices (`later`).
pub fn generate_index<W: Crew<MixSpace>, D: Disk, K: Sink>(
    crew: &W,
    alloc: Global,
    disk: &mut D,
    asked: &Generation,
    out: &mut K,
) -> Status
    requires ready { W.ready crew.now }
    requires valid { IsValidHead asked.now.head }
    requires version { asked.now.head.version ≡ 2 }
    requires vectors { (asked.now.head.kind ≢ 4) × (asked.now.head.kind ≢ 5) }
    requires some { 1 ≤ asked.now.count }
    requires few { asked.now.count ≤ asked.now.head.limit }
    requires one_worker { 1 ≤ asked.now.workers }
    requires many_workers { asked.now.workers ≤ 64 }
    ensures generates { Generates asked.now (D.state disk.old) (D.state disk.new) (K.state out.old) (K.state out.new) result.0 }
    ensures statuses { IsFillStatus result.0 }
    ensures later { (K.state out.old).faults ≤ (K.state out.new).faults }
    ensures rose { result.0 ≡ 4 → Rose (K.state out.old).faults (K.state out.new).faults }
{
    vectors_fit();
    let Ok(objects) = generated_objects(alloc, asked) else {
        return end_with(out, FAULT_MEMORY, 8);
    };
    let made = make_filled(crew, alloc, disk, &asked.head, asked.workers, &objects, out);
    let mut index = match made {
        Ok(index) => index,
        Err(status) => return status,
    };
    match summary_of(alloc, &mut index, disk, &objects.rows) {
        Ok(text) => put_line(out, &text, 0),
        Err(fault) => end_at_page(alloc, fault, out),
    }
}
