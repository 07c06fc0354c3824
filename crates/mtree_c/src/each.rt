// Answers a query for each of many points.
ghost use Rattle.std.specs.Prelude.{◌≡◌, ◌≤◌, ◌<◌, ◌+◌, ◌*◌, ◌^◌, ◌++◌, [], ◌∷◌, ◌↔◌, Ok, Some, true, false, IsTrue, IfOk, IfErr, OnOk, length, take, drop};
ghost use Rattle.page_store.specs.Images.{bytes_in};
ghost use Rattle.rows_text.specs.declared.reply.Reply.TheVariants as reply;
ghost use Rattle.image_answers.specs.declared.outcome.Outcome.TheVariants as outcome;
ghost use Rattle.image_answers.specs.Outcomes.{ArePagesOf, IsOutcomeOf};
ghost use Rattle.caller_ends.specs.Rooms.{StandAtFront};
ghost use Rattle.mtree_c.specs.Answers.{ComesTo, HasNoAnswer, tagged};
ghost use Rattle.mtree_c.specs.Each.{AnswersRows, AnswersTo, AsksSome, HandsEach, HasNoAnswers, IsOpened, command_of};

use crate::answering::{Answer, TaggedHit, answer_of, open_file};
use crate::{MEMORY, NO_QUERY, SHORT};
use image_answers::{Outcome, cached_pages, nearest_on, range_on};
use job_files::space_of;
use metric_laws::{Metric, Point};
use node_page::Head;
use page_cache::Mapped;
use page_store::{Image, ImagePages};
use scan_model::Hit;
use std::alloc::{AllocError, Global};
use tree_shape::Live;

/// The greatest number of nodes that a call keeps while it answers. They take some 64 MiB, at 4096 bytes each.
const NODES_OF_A_CALL: usize = 16_384;

/// What is asked about each point.
#[derive(Clone, Copy)]
pub enum Ask {
    /// The objects within this radius.
    Range(u64),
    /// This number of nearest objects.
    Nearest(u64),
}

// The answers to points: the hits of all of them, one after another, and the number of hits of each.
#[derive(Drop)]
pub struct Joined {
    hits: Vec<TaggedHit>,
    counts: Vec<usize>,
}

// Returns whether at least one of the nearest is asked for.
fn asks_some(ask: Ask) -> bool
    ensures some { result ≡ true → AsksSome ask }
    ensures none { result ≡ false → ask ≡ Ask.Nearest 0 }
{
    match ask {
        Ask::Range(_) => true,
        Ask::Nearest(count) => count > 0,
    }
}

// Returns whether `size` numbers are `rows` points of `dimension` numbers each.
fn are_rows(size: usize, rows: usize, dimension: usize) -> bool
    ensures { IsTrue result ↔ (size ≡ rows * dimension) }
{
    match rows.checked_mul(dimension) {
        Some(cells) => cells == size,
        None => false,
    }
}

// Returns point `i` of `points`, which have `dimension` numbers each and stand one after another.
fn row_of(points: &[u32], dimension: usize, i: usize) -> &[u32]
    requires { i * dimension + dimension ≤ length points.now }
    ensures { result.now ≡ take dimension (drop (i * dimension) points.now) }
{
    let start = i * dimension;
    &points[start..start + dimension]
}

// Returns the outcome of `ask` about `point`, with the tags of its hits.
fn outcome_of<M: Metric>(
    alloc: Global,
    pages: &mut Mapped<ImagePages<'_>>,
    metric: M,
    live: &Live,
    ask: Ask,
    point: &[u32],
) -> Result<Outcome, AllocError>
    requires few { live.now.pages ≤ 2 ^ 24 }
    requires some { AsksSome ask }
    requires pages { ArePagesOf (M.space metric) live.now (bytes_in pages.old.inner.image) pages.old }
    ensures whole { IfOk result (IsOutcomeOf (M.space metric) live.now (bytes_in pages.old.inner.image) (command_of ask point.now)) }
    ensures same { ArePagesOf (M.space metric) live.now (bytes_in pages.old.inner.image) pages.new }
{
    let point = Point::new(alloc, point)?;
    match ask {
        Ask::Range(radius) => range_on(alloc, pages, metric, live, &point, radius, true),
        Ask::Nearest(count) => nearest_on(alloc, pages, metric, live, &point, count, true),
    }
}

// Answers `ask` about `point` on the pages of a file, or returns the status where there is no answer.
fn answer_on(
    alloc: Global,
    pages: &mut Mapped<ImagePages<'_>>,
    opened: &(Head, Live),
    ask: Ask,
    point: &[u32],
) -> Result<Answer, u8>
    requires some { AsksSome ask }
    requires opened { IsOpened (bytes_in pages.old.inner.image) opened.now.0 opened.now.1 pages.old }
    ensures each { IfOk result (λ a. length a.tags ≡ length a.hits) }
    ensures answered { IfOk result (λ a. ComesTo (bytes_in pages.old.inner.image) (command_of ask point.now)
        (outcome.Done (reply.Hits a.hits a.tags) (Some a.log))) }
    ensures unanswered { IfErr result (HasNoAnswer (bytes_in pages.old.inner.image) (command_of ask point.now)) }
    ensures same { IsOpened (bytes_in pages.old.inner.image) opened.now.0 opened.now.1 pages.new }
{
    let (head, live) = opened;
    answer_of(outcome_of(alloc, pages, space_of(head), live, ask, point))
}

// Adds `hits` with their `tags` at the end of `all`.
fn push_hits(all: &mut Vec<TaggedHit>, hits: &[Hit], tags: &[u64]) -> Result<(), AllocError>
    requires { length tags.now ≡ length hits.now }
    ensures { OnOk result (all.new.items ≡ all.old.items ++ tagged hits.now tags.now) }
{
    for i in 0..hits.len() {
        all.push(TaggedHit {
            id: hits[i].id,
            distance: hits[i].dist,
            tag: tags[i],
        })?;
    }
    Ok(())
}

// Adds `answer`, which is to one more point, to `joined`. Drops its log.
fn push_answer(joined: &mut Joined, answer: Answer) -> Result<(), AllocError>
    requires { length answer.tags ≡ length answer.hits }
    ensures hits { OnOk result (joined.new.hits.items ≡ joined.old.hits.items ++ tagged answer.hits answer.tags) }
    ensures counts { OnOk result (joined.new.counts.items ≡ joined.old.counts.items ++ length answer.hits ∷ []) }
{
    let hits = answer.hits.as_slice();
    push_hits(&mut joined.hits, hits, answer.tags.as_slice())?;
    joined.counts.push(hits.len())?;
    Ok(())
}

// Answers `ask` about each of `rows` points on the pages of a file, or returns the status of the first that has no answer.
fn answer_rows(
    alloc: Global,
    pages: &mut Mapped<ImagePages<'_>>,
    opened: &(Head, Live),
    ask: Ask,
    points: &[u32],
    rows: usize,
) -> Result<Joined, u8>
    requires some { AsksSome ask }
    requires opened { IsOpened (bytes_in pages.old.inner.image) opened.now.0 opened.now.1 pages.old }
    requires long { length points.now ≡ rows * opened.now.0.dim }
    ensures answered { IfOk result (λ joined. AnswersRows (bytes_in pages.old.inner.image) ask points.now rows
        joined.hits.items joined.counts.items) }
    ensures unanswered { IfErr result (HasNoAnswers (bytes_in pages.old.inner.image) ask points.now rows) }
{
    let mut joined = Joined {
        hits: Vec::new(alloc),
        counts: Vec::new(alloc),
    };
    let dimension = usize::from(opened.0.dim);
    for i in 0..rows {
        let answer = answer_on(alloc, pages, opened, ask, row_of(points, dimension, i))?;
        if push_answer(&mut joined, answer).is_err() {
            return Err(MEMORY);
        }
    }
    Ok(joined)
}

// Answers `ask` about each of `rows` points on the bytes of a file, or returns the status where they have no answers.
fn answers_on(
    alloc: Global,
    file: &[u8],
    ask: Ask,
    points: &[u32],
    rows: usize,
) -> Result<Joined, u8>
    ensures answered { IfOk result (λ joined. AnswersRows file.now ask points.now rows joined.hits.items joined.counts.items) }
    ensures unanswered { IfErr result (HasNoAnswers file.now ask points.now rows) }
{
    if !asks_some(ask) {
        return Err(NO_QUERY);
    }
    let opened = open_file(alloc, file)?;
    if !are_rows(points.len(), rows, usize::from(opened.0.dim)) {
        return Err(NO_QUERY);
    }
    let (head, live) = &opened;
    let image = Image::Whole(file);
    let Ok(mut pages) = cached_pages(alloc, image, space_of(head), live, NODES_OF_A_CALL) else {
        return Err(MEMORY);
    };
    answer_rows(alloc, &mut pages, &opened, ask, points, rows)
}

// Puts `found` at the front of `room`, which has room for them.
fn put_found(found: &[TaggedHit], room: &mut [TaggedHit])
    requires { length found.now ≤ length room.old }
    ensures { StandAtFront found.now room.old room.new }
{
    let (front, _) = room.split_at_mut(found.len());
    front.copy_from_slice(found);
}

// Answers `ask` about each point, and hands the answers over.
// Arguments: `ask` and `points` say what is asked of `file`, and `hits`, `counts` and `size` are the caller's own buffers.
fn hand_each(
    alloc: Global,
    file: &[u8],
    ask: Ask,
    points: &[u32],
    hits: &mut [TaggedHit],
    counts: &mut [usize],
    size: &mut usize,
) -> u8
    ensures { HandsEach file.now ask points.now hits.old hits.new counts.old counts.new size.new result }
{
    *size = 0;
    let joined = match answers_on(alloc, file, ask, points, counts.len()) {
        Ok(joined) => joined,
        Err(status) => return status,
    };
    *size = joined.hits.len();
    if joined.hits.len() > hits.len() {
        return SHORT;
    }
    put_found(&joined.hits, hits);
    counts.copy_from_slice(&joined.counts);
    0
}

/// Finds every object within `radius` of each of many points, in the bytes of an index file. The points stand one after another in
/// `points`, and there are as many as `counts` has places. The nodes that the searches read are kept until the call ends. Status 0:
/// `counts[i]` is the number of hits of point i, the hits of all points stand one after another at the front of `hits`, each point's
/// by distance, then by id, and `size` is the number of all hits; 2: `points` has another size, or one of its points is not in the
/// file's space; 4: `hits` has no room for `size` hits; 6: the bytes are no index of version 2; 8: out of memory; 9: the search of
/// some point met a damaged page. Where the status isn't 0, both buffers are left as they are. Where it is neither 0 nor 4, `size` is
/// 0.
/// Arguments: `points` and `radius` say what is asked of `file`, and `hits`, `counts` and `size` are the caller's own buffers.
#[unsafe(no_mangle)]
pub extern "C" fn mtree_range_each(
    alloc: Global,
    file: &[u8],
    points: &[u32],
    radius: u64,
    hits: &mut [TaggedHit],
    counts: &mut [usize],
    size: &mut usize,
) -> u8
    ensures { HandsEach file.now (Ask.Range radius) points.now hits.old hits.new counts.old counts.new size.new result }
{
    hand_each(alloc, file, Ask::Range(radius), points, hits, counts, size)
}

/// Finds the `count` objects nearest to each of many points. All else is as in [`mtree_range_each`], with status 2 also where `count`
/// is 0.
/// Arguments: `points` and `count` say what is asked of `file`, and `hits`, `counts` and `size` are the caller's own buffers.
#[unsafe(no_mangle)]
pub extern "C" fn mtree_nearest_each(
    alloc: Global,
    file: &[u8],
    points: &[u32],
    count: u64,
    hits: &mut [TaggedHit],
    counts: &mut [usize],
    size: &mut usize,
) -> u8
    ensures { HandsEach file.now (Ask.Nearest count) points.now hits.old hits.new counts.old counts.new size.new result }
{
    hand_each(alloc, file, Ask::Nearest(count), points, hits, counts, size)
}
