// Answers queries.
ghost use Rattle.std.specs.Prelude.{◌≡◌, ◌⊎◌, ◌≤◌, ◌^◌, ℕ, List, Ok, Some, length, IfOk, IfErr};
ghost use Rattle.node_page.specs.Heads.{IsValidHead};
ghost use Rattle.node_page.specs.Opening.{OpensTo};
ghost use Rattle.log_model.specs.Grammar.{IsValidLog};
ghost use Rattle.rows_text.specs.declared.command.Command.{Command};
ghost use Rattle.rows_text.specs.declared.command.Command.TheVariants as command;
ghost use Rattle.rows_text.specs.declared.reply.Reply.TheVariants as reply;
ghost use Rattle.job_files.specs.Jobs.{IsNoIndex};
ghost use Rattle.image_answers.specs.declared.outcome.Outcome.TheVariants as outcome;
ghost use Rattle.image_answers.specs.Outcomes.{IsValid};
ghost use Rattle.mtree_c.specs.Answers.{ComesTo, HandsAnswer, HasNoAnswer, IsUnanswered, frame_for, status_of};

use crate::rooms::put_hits;
use crate::{DAMAGED, MEMORY, NO_QUERY, SHORT};
use caller_ends::{Gathered, put_front};
use image_answers::{Outcome, nearest_outcome, range_outcome};
use job_files::{open_index, space_of};
use log_model::Log;
use metric_laws::{Listed, Point};
use node_page::Head;
use page_store::Image;
use prune_log::{encode_log, frame};
use rows_text::Reply;
use scan_model::Hit;
use slice_disk::SliceDisk;
use std::alloc::{AllocError, Global};
use tree_shape::Live;

/// An object in the answer to a query.
#[repr(C)]
#[derive(Clone, Copy, PartialEq, Eq)]
pub struct TaggedHit {
    /// The object's place in the order of acceptance, from 0.
    pub id: u32,
    /// Its distance from the query's point.
    pub distance: u64,
    /// Its tag.
    pub tag: u64,
}

/// The sizes of a query's answer.
#[repr(C)]
#[derive(Clone, Copy, PartialEq, Eq)]
pub struct Sizes {
    /// The number of hits.
    pub hits: usize,
    /// The bytes of the log's frame, or 0 where the caller has no buffer for it.
    pub log: usize,
}

/// The sizes of no answer.
const NOTHING: Sizes = Sizes { hits: 0, log: 0 };

// The answer to a query: the hits by distance, then by id, their tags, and the log that shows them.
#[derive(Drop)]
pub struct Answer {
    pub hits: Listed<Hit>,
    pub tags: Listed<u64>,
    pub log: Log,
}

/// Reads the head and the live slot of a file of version 2, or returns the status where it is none.
pub fn open_file(alloc: Global, file: &[u8]) -> Result<(Head, Live), u8>
    ensures opens { IfOk result (λ opened. OpensTo file.now opened.0 opened.1) }
    ensures version { IfOk result (λ opened. opened.0.version ≡ 2) }
    ensures head { IfOk result (λ opened. IsValidHead opened.0) }
    ensures pages { IfOk result (λ opened. opened.1.pages ≤ 2 ^ 24) }
    ensures status { IfErr result (λ status. (status ≡ 6) × ((name : List ℕ) × IsNoIndex file.now name)) }
{
    let mut disk = SliceDisk::new(file);
    let mut line = Gathered::new(alloc);
    match open_index(&mut disk, &mut line) {
        Ok(opened) => Ok(opened),
        Err(status) => Err(status.0),
    }
}

// Returns the answer in the outcome of a query, or the status where there is none.
pub fn answer_of(came: Result<Outcome, AllocError>) -> Result<Answer, u8>
    requires { IfOk came IsValid }
    ensures each { IfOk result (λ a. length a.tags ≡ length a.hits) }
    ensures log { IfOk result (λ a. IsValidLog a.log) }
    ensures answered { IfOk result (λ a. came ≡ Ok (outcome.Done (reply.Hits a.hits a.tags) (Some a.log))) }
    ensures unanswered { IfErr result (λ status. (status ≡ status_of came) × IsUnanswered came) }
{
    match came {
        Err(_) => Err(MEMORY),
        Ok(Outcome::Damaged(_)) => Err(DAMAGED),
        Ok(Outcome::Done { reply, log }) => match (reply, log) {
            (Reply::Hits { hits, tags }, Some(log)) => Ok(Answer { hits, tags, log }),
            _ => Err(NO_QUERY),
        },
    }
}

// Answers a range query on the bytes of a file, or returns the status where it has no answer.
fn range_answer(alloc: Global, file: &[u8], point: &[u32], radius: u64) -> Result<Answer, u8>
    ensures each { IfOk result (λ a. length a.tags ≡ length a.hits) }
    ensures log { IfOk result (λ a. IsValidLog a.log) }
    ensures answered { IfOk result (λ a. ComesTo file.now (command.Range radius point.now)
        (outcome.Done (reply.Hits a.hits a.tags) (Some a.log))) }
    ensures unanswered { IfErr result (HasNoAnswer file.now (command.Range radius point.now)) }
{
    let (head, live) = open_file(alloc, file)?;
    let Ok(point) = Point::new(alloc, point) else {
        return Err(MEMORY);
    };
    answer_of(range_outcome(
        alloc,
        Image::Whole(file),
        space_of(&head),
        &live,
        &point,
        radius,
    ))
}

// Answers a k-NN query on the bytes of a file, or returns the status where it has no answer.
fn nearest_answer(alloc: Global, file: &[u8], point: &[u32], count: u64) -> Result<Answer, u8>
    ensures each { IfOk result (λ a. length a.tags ≡ length a.hits) }
    ensures log { IfOk result (λ a. IsValidLog a.log) }
    ensures answered { IfOk result (λ a. ComesTo file.now (command.Nearest count point.now)
        (outcome.Done (reply.Hits a.hits a.tags) (Some a.log))) }
    ensures unanswered { IfErr result (HasNoAnswer file.now (command.Nearest count point.now)) }
{
    if count == 0 {
        return Err(NO_QUERY);
    }
    let (head, live) = open_file(alloc, file)?;
    let Ok(point) = Point::new(alloc, point) else {
        return Err(MEMORY);
    };
    answer_of(nearest_outcome(
        alloc,
        Image::Whole(file),
        space_of(&head),
        &live,
        &point,
        count,
    ))
}

// Returns the frame of a log, or nothing where there is no room at all.
fn frame_for(alloc: Global, log: &Log, room: &[u8]) -> Result<Vec<u8>, AllocError>
    requires { IsValidLog log.now }
    ensures { IfOk result (λ bytes. bytes.items ≡ frame_for room.now log.now) }
{
    let mut bytes = Vec::new(alloc);
    if !room.is_empty() {
        frame(&encode_log(alloc, log)?, &mut bytes)?;
    }
    Ok(bytes)
}

// Hands over the answer of a query, or its status.
fn hand_over(
    alloc: Global,
    answer: Result<Answer, u8>,
    hits: &mut [TaggedHit],
    log: &mut [u8],
    sizes: &mut Sizes,
) -> u8
    requires each { IfOk answer (λ a. length a.tags ≡ length a.hits) }
    requires log { IfOk answer (λ a. IsValidLog a.log) }
    ensures { (file : List ℕ) (c : Command) →
        IfOk answer (λ a. ComesTo file c (outcome.Done (reply.Hits a.hits a.tags) (Some a.log))) → IfErr answer (HasNoAnswer file c)
        → HandsAnswer file c hits.old hits.new log.old log.new sizes.new result }
{
    *sizes = NOTHING;
    let answer = match answer {
        Ok(answer) => answer,
        Err(status) => return status,
    };
    let Ok(frame) = frame_for(alloc, &answer.log, log) else {
        return MEMORY;
    };
    let found = answer.hits.as_slice();
    *sizes = Sizes {
        hits: found.len(),
        log: frame.len(),
    };
    if found.len() > hits.len() || frame.len() > log.len() {
        return SHORT;
    }
    put_hits(found, answer.tags.as_slice(), hits);
    put_front(&frame, log);
    0
}

/// Finds every object within `radius` of a point, by distance, then by id, in the bytes of an index file. Status 0: `sizes.hits`
/// hits stand at the front of `hits`, and where `log` is not empty, the frame of the log that shows them, of `sizes.log`
/// bytes, at the front of `log`; 2: the point is not in the file's space; 4: a buffer has no room for what `sizes` tells; 6:
/// the bytes are no index of version 2; 8: out of memory; 9: the search met a damaged page. Where the status isn't 0,
/// both buffers are left as they are.
/// Arguments: `point` and `radius` say what is asked of `file`, and `hits`, `log` and `sizes` are the caller's own buffers.
#[unsafe(no_mangle)]
pub extern "C" fn mtree_range(
    alloc: Global,
    file: &[u8],
    point: &[u32],
    radius: u64,
    hits: &mut [TaggedHit],
    log: &mut [u8],
    sizes: &mut Sizes,
) -> u8
    ensures { HandsAnswer file.now (command.Range radius point.now) hits.old hits.new log.old log.new sizes.new result }
{
    let answer = range_answer(alloc, file, point, radius);
    hand_over(alloc, answer, hits, log, sizes)
}

/// Finds the `count` objects nearest to a point, by distance, then by id. All else is as in [`mtree_range`], with status 2 also
/// where `count` is 0.
/// Arguments: `point` and `count` say what is asked of `file`, and `hits`, `log` and `sizes` are the caller's own buffers.
#[unsafe(no_mangle)]
pub extern "C" fn mtree_nearest(
    alloc: Global,
    file: &[u8],
    point: &[u32],
    count: u64,
    hits: &mut [TaggedHit],
    log: &mut [u8],
    sizes: &mut Sizes,
) -> u8
    ensures { HandsAnswer file.now (command.Nearest count point.now) hits.old hits.new log.old log.new sizes.new result }
{
    let answer = nearest_answer(alloc, file, point, count);
    hand_over(alloc, answer, hits, log, sizes)
}
