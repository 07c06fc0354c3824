ghost use Rattle.std.specs.Prelude.{◌≡◌, ◌+◌, ◌≤◌, replicate, length, false, IfOk, IfErr, OnOk, IsSome, MatchResult, Some, None, Err};
ghost use Rattle.metric_laws.specs.Counts.{next_count};
ghost use Rattle.tree_shape.specs.declared.entry.Node.{Node as TheNode};
ghost use Rattle.page_store.specs.Reading.{is_within};
ghost use Rattle.page_store.specs.Shelf.{HoldsSame, IsNodeOf, HasPageCause};
ghost use Rattle.page_store.specs.declared.pages.PageFault.TheVariants.{Outside, Memory as NoMemory};
ghost use Rattle.page_cache.specs.Cache.{asked_for};
ghost use Rattle.page_cache.specs.Lines.{IsAskedFor, held_node};

use crate::lines::Lines;
use page_store::{PageFault, Pages, SharedNode};
use std::alloc::{AllocError, Global};
use std::marker::Model;

/// Pages behind a direct-mapped cache. A page has the line whose number is the page's, modulo the number of lines, and a line holds
/// the node that was asked for last of those that have it. So with as many lines as there are pages, each node that was asked for
/// stays, and a request for it costs little. With few lines `Cached` keeps what serves more often.
/// Contracts see the pages behind, the lines, and how often a page was asked for here.
#[derive(Drop)]
pub struct Mapped<P: Pages> {
    inner: P,
    lines: Lines,
    asked: u64,
}

impl<P: Pages> Model for Mapped<P> {
    ghost use Rattle.page_cache.specs.Lines.{LinesAgree};
    ghost use Rattle.page_cache.specs.Mapped.{Mapped as TheMapped};

    ghost Value = { TheMapped P };

    ghost view = { λ m. record { inner = m.inner; lines = m.lines; asked = m.asked } };

    ghost invariant = { λ m. LinesAgree m.lines (P.shelf m.inner) };
}

impl<P: Pages + Drop> Mapped<P> {
    /// Puts `count` lines (at least 1), which hold nothing, before `inner`. The count of requests is 0.
    pub fn new(alloc: Global, inner: P, count: usize) -> Result<Self, AllocError>
        requires { 1 ≤ count }
        ensures { IfOk result (λ mapped. mapped ≡ record { inner = inner; lines = replicate count None; asked = 0 }) }
    {
        let lines = Lines::new(alloc, count)?;
        Ok(Mapped {
            inner,
            lines,
            asked: 0,
        })
    }
}

impl<P: Pages> Mapped<P> {
    /// Sets the count of requests to 0.
    pub fn count_anew(&mut self)
        ensures { self.new ≡ record self.old { asked = 0 } }
    {
        self.asked = 0;
    }
}

impl<P: Pages> Pages for Mapped<P> {
    ghost use Rattle.std.specs.Prelude.{◌≡◌, length, refl};
    ghost use Rattle.std.proofs.Common.{◌∙◌};
    ghost use Rattle.page_cache.specs.Cache.{asked_for};

    ghost shelf = { λ m. asked_for (P.shelf m.inner) m.asked };

    // What the pages behind keep, and the number of lines.
    ghost keeps = { λ m n. P.keeps m.inner n.inner × (length n.lines ≡ length m.lines) };

    ghost keeps_none = { λ m. (P.keeps_none m.inner, refl) };

    ghost keeps_both = { λ m n o first second. (P.keeps_both m.inner n.inner o.inner first.0 second.0, second.1 ∙ first.1) };

    /// Returns the node of a page: the one that its line holds, or what the pages behind give, which its line then holds. A refusal
    /// does not change the lines. `Memory` comes also where a node has as many holders as can be counted.
    /// Clauses: the answer (`ok`, `hit`); what stays (`same`, `keeps`); what the lines hold (`held`); the cost (`asked`, `reads`,
    /// `unread`, `unasked`, `asks`); the cause of an error (`cause`, `outside`); faults of the devices (`no_fault`).
    fn node(
        &mut self,
        alloc: Global,
        page: u32,
        spare: Option<Vec<u32>>,
    ) -> Result<SharedNode, PageFault>
        ensures ok { IfOk result (IsNodeOf (asked_for (P.shelf self.old.inner) self.old.asked) page) }
        ensures cause { IfErr result (HasPageCause (asked_for (P.shelf self.old.inner) self.old.asked)
            (asked_for (P.shelf self.new.inner) self.new.asked) page) }
        ensures no_fault { OnOk result ((P.shelf self.new.inner).faults ≡ (P.shelf self.old.inner).faults) }
        ensures outside { is_within (P.shelf self.old.inner).pages page ≡ false → result ≡ Err (Outside page) }
        ensures unread { is_within (P.shelf self.old.inner).pages page ≡ false →
            (P.shelf self.new.inner).reads ≡ (P.shelf self.old.inner).reads }
        ensures same { HoldsSame (asked_for (P.shelf self.old.inner) self.old.asked) (asked_for (P.shelf self.new.inner) self.new.asked) }
        ensures asked { self.new.asked ≡ next_count self.old.asked }
        ensures reads { (P.shelf self.new.inner).reads ≤ (P.shelf self.old.inner).reads + 1 }
        ensures keeps { P.keeps self.old.inner self.new.inner × (length self.new.lines ≡ length self.old.lines) }

        // The held node is returned, unless its holders can't be counted. The pages behind are not asked.
        ensures hit { (node : TheNode) → held_node self.old.lines page ≡ Some node →
            MatchResult result (λ answer. answer ≡ node) (λ fault. fault ≡ NoMemory) }
        ensures unasked { IsSome (held_node self.old.lines page) → self.new.inner ≡ self.old.inner }

        // For another page they are asked once.
        ensures asks { held_node self.old.lines page ≡ None → (P.shelf self.new.inner).asked ≡ next_count (P.shelf self.old.inner).asked }
        ensures held { MatchResult result (IsAskedFor self.old.lines self.new.lines page) (λ _. self.new.lines ≡ self.old.lines) }
    {
        self.asked = self.asked.saturating_add(1);
        match self.lines.share_of(page) {
            Ok(Some(node)) => Ok(node),
            Ok(None) => {
                let node = self.inner.node(alloc, page, spare)?;
                self.lines.hold(page, &node);
                Ok(node)
            }
            Err(_) => Err(PageFault::Memory),
        }
    }
}
