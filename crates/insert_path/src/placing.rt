ghost use Rattle.std.specs.Prelude.{◌≡◌, ◌≢◌, ◌↔◌, ◌+◌, ◌-◌, ◌*◌, ◌^◌, ◌≤◌, Err, IsTrue, IfOk, IfErr, OnOk};
ghost use Rattle.std.specs.List.{AllByRecursion};
ghost use Rattle.tree_growth.specs.Insertion.{rules};
ghost use Rattle.tree_shape.specs.Tree.{Nodes, IsSoundTree};
ghost use Rattle.node_page.specs.Heads.{IsValidHead};
ghost use Rattle.node_page.specs.Opening.{IsValidLive};
ghost use Rattle.page_store.specs.Reading.{IsWithin, nodes_of};
ghost use Rattle.page_store.specs.Staging.{pages_of};
ghost use Rattle.insert_path.specs.Causes.{HasAsked, HasPlaceCause, IsUndamaged};
ghost use Rattle.insert_path.specs.Placing.{HasWalked, HasInserted};
ghost use Rattle.page_store.specs.Numbers.{AreNumbers};
ghost use Rattle.page_store.specs.Placing.{AreOutside, IsOver, IsPlacement};
ghost use Rattle.page_store.specs.Succession.{TakesPlace};

use crate::PlaceFault;
use crate::growth::grow;
use crate::task::{NewObject, Task};
use metric_laws::Ruler;
use node_page::Head;
use page_store::{Numbering, Pages, Placed, RoomFault, settle};
use promote_split::Policy;
use std::alloc::Global;
use tree_shape::{LAST_GENERATION, Live, fill};

/// Inserts an object with the point `p` and the tag `tag` into the tree of a file, and returns the new nodes, for a commit. Its id
/// is the number of objects before. New nodes get the pages `numbers`, in order, and then those from the file's end on. They are
/// numbered from the leaf upward, the first half of a node before the second, a new root last.
/// Clauses: what is asked of the caller (`is_point`, `head`, `live`, `dimension`, `dim`, `pages`, `numbers`, `outside`); what the commit
/// needs (`placement`, `apart`); the pages that the new nodes replace (`left_within`, `takes_place`); the answer (`walked`, `inserted`);
/// what stays (`metric`, `keeps`); what stays, and the cost (`asked`); the cause of an error (`full`, `worn`, `cause`, `sound`); faults of
/// the devices (`no_fault`).
/// Arguments: `pages`, `head`, `live` and `numbers` are the file and its free pages, `ruler` measures in its space, and `p` and `tag` are
/// the object.
pub fn place<P: Pages, R: Ruler>(
    alloc: Global,
    pages: &mut P,
    ruler: &mut R,
    head: &Head,
    live: &Live,
    numbers: &[u32],
    p: &[u32],
    tag: u64,
) -> Result<Placed, PlaceFault>
    requires is_point { IsTrue ((R.M.space (R.metric ruler.old)).is_point p.now) }
    requires head { IsValidHead head.now }
    requires live { IsValidLive head.now.limit (live.now.pages * 4096) live.now }
    requires dimension { (R.M.space (R.metric ruler.old)).dimension ≡ head.now.dim }
    requires dim { (P.shelf pages.old).dim ≡ head.now.dim }
    requires pages { (P.shelf pages.old).pages ≡ live.now.pages }
    requires numbers { AreNumbers live.now.pages numbers.now }
    requires outside { IsTrue (P.shelf pages.old).is_known →
        IsSoundTree (R.M.space (R.metric ruler.old)) (nodes_of (P.shelf pages.old).read) live.now →
        AreOutside (nodes_of (P.shelf pages.old).read) live.now numbers.now }

    ensures metric { R.metric ruler.new ≡ R.metric ruler.old }
    ensures asked { HasAsked (live.now.height + 1) (P.shelf pages.old) (P.shelf pages.new) }
    ensures keeps { P.keeps pages.old pages.new }
    ensures no_fault { OnOk result ((P.shelf pages.new).faults ≡ (P.shelf pages.old).faults) }

    // What is placed can be committed.
    ensures placement { IfOk result (IsPlacement head.now live.now numbers.now 1) }
    ensures apart { IfOk result (λ placed. IsTrue (P.shelf pages.old).is_known →
        IsSoundTree (R.M.space (R.metric ruler.old)) (nodes_of (P.shelf pages.old).read) live.now →
        AreOutside (nodes_of (P.shelf pages.old).read) live.now (pages_of placed.staged)) }

    // Page by page, the new nodes take the place of what is left, also on a file that isn't sound.
    ensures left_within { IfOk result (λ placed. AllByRecursion (IsWithin live.now.pages) placed.left) }
    ensures takes_place { IfOk result (λ placed. IsTrue (P.shelf pages.old).is_known →
        TakesPlace (nodes_of (P.shelf pages.old).read) live.now placed) }

    // What is placed is the insertion's.
    ensures walked { IfOk result (λ placed. IsTrue (P.shelf pages.old).is_known →
        HasWalked (R.M.space (R.metric ruler.old)) (rules (R.M.space (R.metric ruler.old)) head.now.promote head.now.split)
        (P.shelf pages.old).read live.now (record { id = live.now.count; tag = tag; point = p.now }) placed) }
    ensures inserted { IfOk result (λ placed. IsTrue (P.shelf pages.old).is_known →
        IsSoundTree (R.M.space (R.metric ruler.old)) (nodes_of (P.shelf pages.old).read) live.now →
        (new : Nodes) → IsOver (nodes_of (P.shelf pages.old).read) live.now placed.staged new →
        HasInserted (R.M.space (R.metric ruler.old)) (rules (R.M.space (R.metric ruler.old)) head.now.promote head.now.split)
        (nodes_of (P.shelf pages.old).read) live.now (record { id = live.now.count; tag = tag; point = p.now }) placed new) }

    // Why it is refused.
    ensures full { (result ≡ Err PlaceFault.Full) ↔ (live.now.count ≡ head.now.limit) }
    ensures worn { (result ≡ Err PlaceFault.Worn) ↔ ((live.now.count ≢ head.now.limit) × (live.now.generation ≡ 2 ^ 48 - 1)) }
    ensures cause { IfErr result
        (HasPlaceCause (R.M.space (R.metric ruler.old)) (rules (R.M.space (R.metric ruler.old)) head.now.promote head.now.split)
        numbers.now live.now (record { id = live.now.count; tag = tag; point = p.now }) (P.shelf pages.old) (P.shelf pages.new)) }
    ensures sound { IfErr result (λ fault. IsTrue (P.shelf pages.old).is_known →
        IsSoundTree (R.M.space (R.metric ruler.old)) (nodes_of (P.shelf pages.old).read) live.now → IsUndamaged fault) }
{
    if live.count == head.limit {
        return Err(PlaceFault::Full);
    }
    if live.generation == LAST_GENERATION {
        return Err(PlaceFault::Worn);
    }
    let task = Task {
        policy: Policy {
            promote: head.promote,
            split: head.split,
        },
        bounds: fill(head.dim),
        numbering: Numbering {
            numbers,
            first: live.pages,
        },
        object: NewObject {
            id: live.count,
            tag,
            point: p,
        },
    };
    let grown = grow(alloc, pages, ruler, &task, live)?;
    match settle(alloc, &task.numbering, live, grown) {
        Ok(placed) => Ok(placed),
        Err(RoomFault::NoRoom { pages, needed }) => Err(PlaceFault::NoRoom { pages, needed }),
        Err(RoomFault::Memory) => Err(PlaceFault::Memory),
    }
}
