ghost use Rattle.std.specs.Prelude.{◌≡◌, ◌≤◌, ◌+◌, ℕ, List, [], ◌∷◌, map, length, vec_len, IsTrue, IfOk, IfErr, OnOk};
ghost use Rattle.std.specs.List.{AllZip};
ghost use Rattle.metric_laws.specs.Space.{Space};
ghost use Rattle.tree_shape.specs.declared.live.Live.{Live as TheLive};
ghost use Rattle.page_store.specs.Reading.{nodes_of};
ghost use Rattle.page_store.specs.Shelf.{HoldsSame, IsPassing};
ghost use Rattle.metric_laws.specs.Counts.{CountsUpTo};
ghost use Rattle.tree_shape.specs.Tree.{Nodes, IsSoundTree};
ghost use Rattle.log_model.specs.Met.{tagged_by};
ghost use Rattle.hit_tags.specs.Tags.{tag_among, met_tags, object_tags, IsOwnTag, IsShown, HasTagsCause};

use crate::walking::Walk;
use crate::wanted::Wanted;
use log_model::Found;
use page_store::{PageFault, Pages};
use std::alloc::{AllocError, Global};
use tree_shape::Live;

/// Returns the tag of each hit: the tag of the first object with its id that the walk of the live tree by the found log meets, or 0
/// where the walk meets none. Where the log shows the hits, these are the tags of the hits' objects.
///
/// The walk begins at the root and follows the log's records. Each record has to name the next needed page, and to have one mark for
/// each entry of its node. An object that is marked Near is met, and the node of a subtree that is marked Near is needed. The walk
/// ends where no record is left, or where a record names another page or has another number of marks. The tags are then those of
/// what it met. No distance is computed.
///
/// It asks for at most one page for each record. `Disk` comes where the disk failed, and `Repeats` and `Level` never come.
/// Clauses: the answer (`each`, `met`, `own`, `objects`); what stays (`same`, `keeps`); the cost (`asked`, `reads`); the cause of an error
/// (`cause`, `sound`); faults of the devices (`no_fault`).
pub fn tags_of<P: Pages>(
    alloc: Global,
    pages: &mut P,
    live: &Live,
    found: &Found,
) -> Result<Vec<u64>, PageFault>
    ensures same { HoldsSame (P.shelf pages.old) (P.shelf pages.new) }
    ensures keeps { P.keeps pages.old pages.new }
    ensures asked { CountsUpTo (P.shelf pages.old).asked (P.shelf pages.new).asked (length found.now.log.records) }
    ensures reads { (P.shelf pages.new).reads ≤ (P.shelf pages.old).reads + length found.now.log.records }
    ensures no_fault { OnOk result ((P.shelf pages.new).faults ≡ (P.shelf pages.old).faults) }

    ensures each { IfOk result (λ tags. vec_len tags ≡ length found.now.hits) }
    ensures met { IfOk result (λ tags. IsTrue (P.shelf pages.old).is_known →
        tags.items ≡ met_tags (nodes_of (P.shelf pages.old).read) live.now found.now) }
    // Whatever the log says, on a sound tree no hit gets another object's tag.
    ensures own { IfOk result (λ tags. IsTrue (P.shelf pages.old).is_known →
        (s : Space) → IsSoundTree s (nodes_of (P.shelf pages.old).read) live.now →
        AllZip (IsOwnTag (nodes_of (P.shelf pages.old).read) live.now) found.now.hits tags.items) }
    ensures objects { IfOk result (λ tags. IsTrue (P.shelf pages.old).is_known →
        (s : Space) → IsShown s (nodes_of (P.shelf pages.old).read) live.now found.now →
        tags.items ≡ object_tags (nodes_of (P.shelf pages.old).read) live.now found.now) }

    ensures cause { IfErr result (HasTagsCause (P.shelf pages.old) (P.shelf pages.new) (live.now.root ∷ []) found.now.log.records) }
    ensures sound { IfErr result (λ fault. IsTrue (P.shelf pages.old).is_known →
        (s : Space) → IsSoundTree s (nodes_of (P.shelf pages.old).read) live.now → IsPassing fault) }
{
    let hits = found.hits.as_slice();
    let mut walk = Walk::begin(alloc, live.root, hits)?;
    walk.follow_all(alloc, pages, found.log.records.as_slice())?;
    Ok(walk.wanted.tags(alloc, hits)?)
}

/// Returns the tag of each hit that a search found: the tag of the first of `found.tagged` with its id, or 0 where none has it. No page
/// is opened. Where `found.tagged` are the objects that the log's walk meets, these are the tags that `tags_of` gives.
/// Clauses: the answer (`first`, `met`).
pub fn found_tags(alloc: Global, found: &Found) -> Result<Vec<u64>, AllocError>
    ensures first { IfOk result (λ tags. tags.items ≡ map (λ h. tag_among h.id found.now.tagged) found.now.hits) }
    ensures met { IfOk result (λ tags. (s : Space) (q : List ℕ) (nodes : Nodes) (live : TheLive) →
        found.now.tagged ≡ tagged_by s q nodes live.root found.now.log.records → tags.items ≡ met_tags nodes live found.now) }
{
    let hits = found.hits.as_slice();
    let mut wanted = Wanted::new(alloc, hits)?;
    for one in found.tagged.as_slice() {
        wanted.note(one.hit.id, one.tag);
    }
    wanted.tags(alloc, hits)
}
