//! Answers queries on a file in memory.

ghost use Rattle.std.specs.Prelude.{◌≡◌, ◌≤◌, ◌^◌, max, min, replicate, Some, None, true, IfOk};
ghost use Rattle.rows_text.specs.declared.command.Command.TheVariants as command;
ghost use Rattle.page_store.specs.Images.{bytes_in};
ghost use Rattle.image_answers.specs.Outcomes.{ArePagesOf, IsGivenOf, IsOutcomeOf, IsTagged, outcome_of_fault};

use crate::outcome::Outcome;
use hit_tags::found_tags;
use log_model::Found;
use metric_laws::{Listed, Meter, Metric, Point};
use nearest_search::nearest;
use page_cache::{KEPT_NODES, Mapped};
use page_store::{Image, ImagePages, PageFault};
use range_search::range;
use rows_text::{Refusal, Reply};
use std::alloc::{AllocError, Global};
use tree_shape::Live;

/// Returns the pages of an image, with none asked for yet.
pub fn pages_of<'a, M: Metric>(image: Image<'a>, metric: M, live: &Live) -> ImagePages<'a>
    requires { live.now.pages ≤ 2 ^ 24 }
    ensures image { result.image ≡ image.entry }
    ensures dim { result.dim ≡ (M.space metric).dimension }
    ensures pages { result.pages ≡ live.now.pages }
    ensures asked { result.asked ≡ 0 }
{
    ImagePages::of(image, metric.dimension() as u8, live.pages)
}

/// Returns the pages of an image behind a cache that holds nothing yet. It has a line for each page, and at most `nodes` lines.
pub fn cached_pages<'a, M: Metric>(
    alloc: Global,
    image: Image<'a>,
    metric: M,
    live: &Live,
    nodes: usize,
) -> Result<Mapped<ImagePages<'a>>, AllocError>
    requires pages { live.now.pages ≤ 2 ^ 24 }
    requires some { 1 ≤ nodes }
    ensures pages { IfOk result (ArePagesOf (M.space metric) live.now (bytes_in image.entry)) }
    ensures lines { IfOk result (λ mapped. mapped.lines ≡ replicate (max 1 (min nodes live.now.pages)) None) }
    ensures asked { IfOk result (λ mapped. mapped.asked ≡ 0) }
{
    let lines = nodes.min(live.pages as usize).max(1);
    Mapped::new(alloc, pages_of(image, metric, live), lines)
}

// Returns the outcome of a query that met a page without a node.
fn outcome_of_fault(fault: PageFault) -> Result<Outcome, AllocError>
    ensures { result ≡ outcome_of_fault fault }
{
    match fault {
        PageFault::Memory => Err(AllocError),
        fault => Ok(Outcome::Damaged(fault)),
    }
}

// Returns the outcome of what was found, with the tags `tags`.
fn answered(found: Found, tags: Vec<u64>) -> Outcome
    ensures { result ≡ Outcome.Done (Reply.Hits found.hits tags.items) (Some found.log) }
{
    Outcome::Done {
        reply: Reply::Hits {
            hits: found.hits,
            tags: Listed::new(tags),
        },
        log: Some(found.log),
    }
}

// Returns the outcome of what was found, with the tags of its hits where they are wanted.
fn tagged(alloc: Global, found: Found, tags: bool) -> Result<Outcome, AllocError>
    ensures { IfOk result (IsTagged tags found) }
{
    if !tags {
        return Ok(answered(found, Vec::new(alloc)));
    }
    let tags = found_tags(alloc, &found)?;
    Ok(answered(found, tags))
}

/// Finds all objects within `r` of `q`. No page is opened for tags. Where tags are not wanted, the hits have none.
/// Arguments: `pages`, `metric` and `live` are the opened file, `q` and `r` the query, and `tags` says whether tags are wanted.
pub fn range_on<M: Metric>(
    alloc: Global,
    pages: &mut Mapped<ImagePages<'_>>,
    metric: M,
    live: &Live,
    q: &Point,
    r: u64,
    tags: bool,
) -> Result<Outcome, AllocError>
    requires few { live.now.pages ≤ 2 ^ 24 }
    requires pages { ArePagesOf (M.space metric) live.now (bytes_in pages.old.inner.image) pages.old }
    ensures given { IfOk result (IsGivenOf tags (M.space metric) live.now (bytes_in pages.old.inner.image) (command.Range r q.now)) }
    ensures whole { tags ≡ true → IfOk result (IsOutcomeOf (M.space metric) live.now (bytes_in pages.old.inner.image)
        (command.Range r q.now)) }
    ensures same { ArePagesOf (M.space metric) live.now (bytes_in pages.old.inner.image) pages.new }
{
    if !metric.is_point(q.as_slice()) {
        return Ok(Outcome::refused(Refusal::Unfit));
    }
    pages.count_anew();
    let mut ruler = Meter::new(metric);
    match range(alloc, pages, &mut ruler, live, q.as_slice(), r) {
        Ok(found) => tagged(alloc, found, tags),
        Err(fault) => outcome_of_fault(fault),
    }
}

/// Finds the `k` objects nearest to `q`. No page is opened for tags. Where tags are not wanted, the hits have none.
/// Arguments: `pages`, `metric` and `live` are the opened file, `q` and `k` the query, and `tags` says whether tags are wanted.
pub fn nearest_on<M: Metric>(
    alloc: Global,
    pages: &mut Mapped<ImagePages<'_>>,
    metric: M,
    live: &Live,
    q: &Point,
    k: u64,
    tags: bool,
) -> Result<Outcome, AllocError>
    requires few { live.now.pages ≤ 2 ^ 24 }
    requires pages { ArePagesOf (M.space metric) live.now (bytes_in pages.old.inner.image) pages.old }
    requires some { 1 ≤ k }
    ensures given { IfOk result (IsGivenOf tags (M.space metric) live.now (bytes_in pages.old.inner.image) (command.Nearest k q.now)) }
    ensures whole { tags ≡ true → IfOk result (IsOutcomeOf (M.space metric) live.now (bytes_in pages.old.inner.image)
        (command.Nearest k q.now)) }
    ensures same { ArePagesOf (M.space metric) live.now (bytes_in pages.old.inner.image) pages.new }
{
    if !metric.is_point(q.as_slice()) {
        return Ok(Outcome::refused(Refusal::Unfit));
    }
    pages.count_anew();
    let mut ruler = Meter::new(metric);
    match nearest(alloc, pages, &mut ruler, live, q.as_slice(), k) {
        Ok(found) => tagged(alloc, found, tags),
        Err(fault) => outcome_of_fault(fault),
    }
}

/// Finds all objects within `r` of `q`, and their tags, from the pages of this image alone.
pub fn range_outcome<M: Metric>(
    alloc: Global,
    image: Image<'_>,
    metric: M,
    live: &Live,
    q: &Point,
    r: u64,
) -> Result<Outcome, AllocError>
    requires { live.now.pages ≤ 2 ^ 24 }
    ensures { IfOk result (IsOutcomeOf (M.space metric) live.now (bytes_in image.entry) (command.Range r q.now)) }
{
    let mut pages = cached_pages(alloc, image, metric, live, KEPT_NODES)?;
    range_on(alloc, &mut pages, metric, live, q, r, true)
}

/// Finds the `k` objects nearest to `q`, and their tags, from the pages of this image alone.
pub fn nearest_outcome<M: Metric>(
    alloc: Global,
    image: Image<'_>,
    metric: M,
    live: &Live,
    q: &Point,
    k: u64,
) -> Result<Outcome, AllocError>
    requires pages { live.now.pages ≤ 2 ^ 24 }
    requires some { 1 ≤ k }
    ensures { IfOk result (IsOutcomeOf (M.space metric) live.now (bytes_in image.entry) (command.Nearest k q.now)) }
{
    let mut pages = cached_pages(alloc, image, metric, live, KEPT_NODES)?;
    nearest_on(alloc, &mut pages, metric, live, q, k, true)
}
