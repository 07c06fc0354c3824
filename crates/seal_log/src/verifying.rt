// Judges a carried log.
ghost use Rattle.std.specs.Prelude.{◌≡◌, ◌⊎◌, ◌<◌, None, Some, IfOk, IfErr, OnOk, IsTrue};
ghost use Rattle.page_store.specs.Reading.{is_within};
ghost use Rattle.seal_log.specs.Judged.{fault_by, judged_fault};
ghost use Rattle.seal_log.specs.Laws.{ShowsAnswers};

use crate::{Carried, ProofFault};
use log_model::Log;
use log_verify::{Verdict, verify};
use metric_laws::{Listed, Meter, Metric, Point};
use page_store::{PageFault, Pages, SharedNode};
use scan_model::{Hit, Query};
use std::alloc::{AllocError, Global};

/// The pages of a carried file. Pages that aren't carried are zero.
#[derive(Drop)]
struct CarriedPages<'a> {
    carried: &'a Carried,
    // The number of requests for a node. The count stops at the greatest `u64`.
    asked: u64,
}

impl Pages for CarriedPages<'_> {
    ghost use Rattle.std.specs.Prelude.{◌≡◌};
    ghost use Rattle.page_store.specs.Shelves.{image_shelf};
    ghost use Rattle.seal_log.specs.Judged.{file_of};

    ghost shelf = { λ p. image_shelf p.carried.now.head.dim p.carried.now.live.pages (file_of p.carried.now) p.asked };

    ghost keeps = { λ p q. q.carried.now ≡ p.carried.now };

    ghost use Rattle.std.specs.Prelude.{refl};
    ghost use Rattle.std.proofs.Common.{◌∙◌};

    ghost keeps_none = { λ p. refl };

    ghost keeps_both = { λ p q r first second. second ∙ first };

    fn node(
        &mut self,
        alloc: Global,
        page: u32,
        _spare: Option<Vec<u32>>,
    ) -> Result<SharedNode, PageFault> {
        self.asked = self.asked.saturating_add(1);
        if !is_within(self.carried.live().pages, page) {
            return Err(PageFault::Outside(page));
        }
        self.carried.node_on(alloc, page)
    }
}

// Returns whether page `page` may hold a node.
#[tactic(auto, unfolding(page_store::specs::Reading::is_within))]
fn is_within(pages: u32, page: u32) -> bool
    ensures test { result ≡ is_within pages page }
    ensures below { IsTrue result → page < pages }
{
    page >= 3 && page < pages
}

/// What an accepted carried log shows.
#[derive(Drop)]
pub struct Proved {
    /// The query that was asked.
    pub query: Query,
    /// The answers, by distance, then by id.
    pub answers: Listed<Hit>,
}

// Copies a query.
fn copy_query(alloc: Global, query: &Query) -> Result<Query, AllocError>
    ensures { IfOk result (λ copy. copy ≡ query.now) }
{
    match query {
        Query::Range { q, r } => Ok(Query::Range {
            q: Point::new(alloc, q.as_slice())?,
            r: *r,
        }),
        Query::Nearest { q, k } => Ok(Query::Nearest {
            q: Point::new(alloc, q.as_slice())?,
            k: *k,
        }),
    }
}

// Copies a log's query and answers.
fn shown_by(alloc: Global, log: &Log) -> Result<Proved, AllocError>
    ensures { IfOk result (λ proved. (proved.query ≡ log.now.query) × (proved.answers ≡ log.now.answers)) }
{
    let query = copy_query(alloc, &log.query)?;
    let answers = Listed::new(Vec::from_slice(alloc, log.answers.as_slice())?);
    Ok(Proved { query, answers })
}

// Returns the fault of a carried log for a verdict. `Memory` is a fault of its own.
fn fault_by(verdict: Verdict) -> ProofFault
    ensures { result ≡ fault_by verdict }
{
    match verdict {
        Verdict::Memory => ProofFault::Memory,
        _ => ProofFault::Verdict(verdict),
    }
}

/// Accepts a carried log exactly where the page of each record of its log is carried and the log is sound on the carried file
/// in the metric's space. Otherwise returns the first fault: `Missing`, then `Verdict`.
///
/// What an accepted log shows: take any file that is sound in this space and whose pages have the root digest under which the log
/// was read. Then the answers are those of the plain scan of the file's points. Or else two different byte strings with one
/// SHA-256 digest are found: one of those that are hashed for the file, and one of those that are hashed to check the paths.
pub fn verify_carried<M: Metric>(
    alloc: Global,
    carried: &Carried,
    metric: M,
) -> Result<Proved, ProofFault>
    requires { (M.space metric).dimension ≡ carried.now.head.dim }
    ensures query { IfOk result (λ proved. proved.query ≡ carried.now.log.query) }
    ensures answers { IfOk result (λ proved. proved.answers ≡ carried.now.log.answers) }
    ensures faultless { OnOk result (judged_fault (M.space metric) carried.now ≡ None) }
    ensures shows { OnOk result (ShowsAnswers (M.space metric) carried.now) }
    ensures fault { IfErr result (λ fault. (fault ≡ ProofFault.Memory) ⊎ (judged_fault (M.space metric) carried.now ≡ Some fault)) }
{
    if let Some(fault) = carried.missing() {
        return Err(fault);
    }
    let mut pages = CarriedPages { carried, asked: 0 };
    let mut ruler = Meter::new(metric);
    match verify(
        alloc,
        &mut pages,
        &mut ruler,
        &carried.live(),
        carried.log(),
    ) {
        Ok(_) => {
            let proved = shown_by(alloc, carried.log())?;
            Ok(proved)
        }
        Err(verdict) => Err(fault_by(verdict)),
    }
}
