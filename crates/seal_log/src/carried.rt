ghost use Rattle.std.specs.Prelude.{◌≡◌, ◌⊎◌, ◌<◌, None, Some, IfOk, IfErr, OnOk};
ghost use Rattle.std.specs.List.{AllByRecursion, AllPairs};
ghost use Rattle.log_model.specs.Grammar.{IsValidLog};
ghost use Rattle.node_page.specs.Nodes.{IsValidNode, fault_in, node_in};
ghost use Rattle.node_page.specs.declared.node.Version.TheVariants.{Second};
ghost use Rattle.page_store.specs.Reading.{IsBytesFault};
ghost use Rattle.node_page.specs.Opening.{page_of, OpensTo};
ghost use Rattle.prune_log.specs.Laws.{SpellsLog};
ghost use Rattle.prune_log.specs.Reading.{log_fault};
ghost use Rattle.seal_log.specs.Spelling.{AreValid};
ghost use Rattle.seal_log.specs.Judged.{IsCarried, SpellsCarried, carried_file, file_of, parts_in, path_fault, slots_fault, after_log, parts_fault, reading_fault, proof_fault, missing_from};

use crate::opening::{live_of, read_head};
use crate::pages::{find_page, page_bytes};
use crate::parts::carried_at;
use crate::paths::leads_to;
use crate::{CarriedPage, Parts, ProofFault};
use log_model::{Log, Record};
use metric_laws::Listed;
use node_page::{Head, Version};
use page_store::{PageFault, SharedNode, node_on};
use prune_log::{LogFault, decode_log};
use std::alloc::Global;
use std::marker::Model;
use tree_shape::Live;

/// A carried log that was read. Each of its pages leads to one root digest, its first three pages open to a head and a live slot,
/// and its log has a spelling.
#[derive(Drop)]
pub struct Carried {
    root: [u8; 32],
    pages: Listed<CarriedPage>,
    head: Head,
    live: Live,
    log: Log,
}

impl Model for Carried {
    ghost use Rattle.seal_log.specs.Judged.{CarriedLog, IsCarried};

    ghost Value = { CarriedLog };

    ghost view = { λ c. record { root = c.root; carried = c.pages; head = c.head; live = c.live; log = c.log } };

    ghost invariant = { λ c. IsCarried (record { root = c.root; carried = c.pages; head = c.head; live = c.live; log = c.log }) };
}

impl Carried {
    /// Returns the head of the file.
    pub fn head(&self) -> Head
        ensures { result ≡ self.now.head }
    {
        self.head
    }

    /// Returns the live slot of the file.
    pub fn live(&self) -> Live
        ensures { result ≡ self.now.live }
    {
        self.live
    }

    /// Returns the carried log's log.
    pub fn log(&self) -> &Log
        ensures value { result.now ≡ self.now.log }
        ensures valid { IsValidLog result.now }
        // The carried log is valid too.
        ensures carried { IsCarried self.now }
    {
        &self.log
    }

    /// Returns the node on page `page` of the carried file.
    pub fn node_on(&self, alloc: Global, page: u32) -> Result<SharedNode, PageFault>
        requires { page < self.now.live.pages }
        ensures valid { IfOk result (IsValidNode self.now.head.dim) }
        ensures told { IfOk result (λ node. (fault_in Second self.now.head.dim (page_of (file_of self.now) page) ≡ None)
            × (node ≡ node_in Second self.now.head.dim (page_of (file_of self.now) page))) }
        ensures fault { IfErr result (IsBytesFault Second self.now.head.dim (page_of (file_of self.now) page) page) }
    {
        let bytes = page_bytes(self.pages.as_slice(), page);
        node_on(alloc, page, &bytes, self.head.dim, Version::Second, None)
    }

    /// Returns the fault of the first record whose page isn't carried.
    pub fn missing(&self) -> Option<ProofFault>
        ensures { result ≡ missing_from self.now.carried self.now.log.records 0 }
    {
        first_missing(self.pages.as_slice(), self.log.records.as_slice())
    }
}

// Returns the fault of the first record whose page isn't carried.
fn first_missing(carried: &[CarriedPage], records: &[Record]) -> Option<ProofFault>
    requires { AllPairs (λ p q. p.page < q.page) carried.now }
    ensures { result ≡ missing_from carried.now records.now 0 }
{
    for (i, record) in records.iter().enumerate() {
        if find_page(carried, record.page).is_none() {
            return Some(ProofFault::Missing(i as u64));
        }
    }
    None
}

// Returns the first page whose path doesn't lead to the root.
fn first_astray(root: &[u8; 32], pages: u32, carried: &[CarriedPage]) -> Option<ProofFault>
    requires { AllByRecursion (λ p. p.page < pages) carried.now }
    ensures { result ≡ path_fault root.now pages carried.now }
{
    for p in carried {
        if !leads_to(root, pages, p.page, p.bytes.as_slice(), p.path.as_slice()) {
            return Some(ProofFault::Path(p.page));
        }
    }
    None
}

// Returns the fault of a carried log for a fault met in reading it.
fn reading_fault(fault: LogFault) -> ProofFault
    ensures { result ≡ reading_fault fault }
{
    match fault {
        LogFault::Magic => ProofFault::Magic,
        LogFault::Version => ProofFault::Version,
        LogFault::Cut => ProofFault::Cut,
        LogFault::Order => ProofFault::Order,
        LogFault::Tail => ProofFault::Tail,
        LogFault::Memory => ProofFault::Memory,
        LogFault::Kind => ProofFault::Log(LogFault::Kind),
        LogFault::Mark => ProofFault::Log(LogFault::Mark),
    }
}

// Reads the log that `bytes` spells.
fn read_log(alloc: Global, bytes: &[u8]) -> Result<Log, ProofFault>
    ensures spells { IfOk result (SpellsLog bytes.now) }
    ensures faultless { OnOk result (after_log (log_fault bytes.now) ≡ None) }
    ensures fault { IfErr result (λ fault. (fault ≡ ProofFault.Memory) ⊎ (after_log (log_fault bytes.now) ≡ Some fault)) }
{
    match decode_log(alloc, bytes) {
        Ok(log) => Ok(log),
        Err(LogFault::Memory) => Err(ProofFault::Memory),
        Err(fault) => Err(ProofFault::Log(fault)),
    }
}

// Opens the carried pages as a file: returns its head and its live slot.
fn open_pages(pages: u32, carried: &[CarriedPage]) -> Result<(Head, Live), ProofFault>
    requires { AreValid (record { pages = pages; carried = carried.now }) }
    ensures opens { IfOk result (λ opened. OpensTo (carried_file pages carried.now) opened.0 opened.1) }
    ensures version { IfOk result (λ opened. opened.0.version ≡ 2) }
    ensures all { IfOk result (λ opened. opened.1.pages ≡ pages) }
    ensures faultless { OnOk result (slots_fault pages (carried_file pages carried.now) ≡ None) }
    ensures fault { IfErr result (λ fault. slots_fault pages (carried_file pages carried.now) ≡ Some fault) }
{
    let head = read_head(&page_bytes(carried, 0))?;
    match live_of(
        &page_bytes(carried, 1),
        &page_bytes(carried, 2),
        head.limit,
        pages,
    ) {
        Some(live) => Ok((head, live)),
        None => Err(ProofFault::Slot),
    }
}

// Checks that `parts` and the bytes `log` make a carried log under the root digest `root`, and returns it.
fn judge_parts(
    alloc: Global,
    root: &[u8; 32],
    parts: Parts,
    log: &[u8],
) -> Result<Carried, ProofFault>
    requires { AreValid parts }
    ensures root { IfOk result (λ c. c.root ≡ root.now) }
    ensures carried { IfOk result IsCarried }
    ensures parts { IfOk result (λ c. parts_in c ≡ parts) }
    ensures log { IfOk result (λ c. SpellsLog log.now c.log) }
    ensures faultless { OnOk result (parts_fault root.now parts log.now ≡ None) }
    ensures fault { IfErr result (λ fault. (fault ≡ ProofFault.Memory) ⊎ (parts_fault root.now parts log.now ≡ Some fault)) }
{
    let carried = parts.carried.as_slice();
    if let Some(fault) = first_astray(root, parts.pages, carried) {
        return Err(fault);
    }
    let (head, live) = open_pages(parts.pages, carried)?;
    let log = read_log(alloc, log)?;
    Ok(Carried {
        root: *root,
        pages: parts.carried,
        head,
        live,
        log,
    })
}

/// Reads a carried log whose pages are to lead to the root digest `root`. Otherwise returns its first fault in the order of
/// `ProofFault`; `Missing` and `Verdict` do not come. It asks for no more memory than the bytes that are left can fill.
pub fn read_proof(alloc: Global, bytes: &[u8], root: &[u8; 32]) -> Result<Carried, ProofFault>
    ensures root { IfOk result (λ c. c.root ≡ root.now) }
    ensures carried { IfOk result IsCarried }
    // The bytes spell the carried log that is returned.
    ensures spelled { IfOk result (SpellsCarried bytes.now) }
    ensures faultless { OnOk result (proof_fault root.now bytes.now ≡ None) }
    ensures fault { IfErr result (λ fault. (fault ≡ ProofFault.Memory) ⊎ (proof_fault root.now bytes.now ≡ Some fault)) }
{
    match carried_at(alloc, bytes) {
        Ok((parts, log)) => judge_parts(alloc, root, parts, log),
        Err(fault) => Err(reading_fault(fault)),
    }
}
