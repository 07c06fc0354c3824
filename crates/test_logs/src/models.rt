ghost use Rattle.std.specs.Prelude.{◌≡◌};
ghost use Rattle.log_model.specs.Counts.{entry_count};

use log_model::{
    Item, JoinNeed, JoinProbe, is_far, is_skipped, laws, put_hits_in_order, put_pairs_in_order,
    radius_of, select,
};
use metric_laws::{BOUND, Point};
use scan_model::{Hit, Pair, Query};
use std::process::Abort;
use tree_shape::{InnerEntries, InnerEntry, LeafEntries, LeafEntry, Live, Node, Shared};

// Ends a test in which `is_so` is false.
pub(crate) fn holds(rt: &impl Abort, is_so: bool) {
    assert!(rt; is_so);
}

#[test]
fn the_laws_hold(rt: HostRuntime) {
    laws::sound_logs_are_complete();
    laws::sound_join_logs_are_complete();
    laws::least_logs_are_sound();
    laws::least_join_logs_are_sound();
    laws::least_log_is_one();
    laws::least_join_log_is_one();
    assert!(rt; true);
}

// Lists four hits out of order, one of them twice.
const NAMED: [Hit; 4] = [
    Hit { id: 3, dist: 1 },
    Hit { id: 2, dist: 1 },
    Hit { id: 3, dist: 1 },
    Hit { id: 1, dist: 0 },
];

// Makes the query for the 2 nearest to 5.
fn nearest(rt: &(impl AllocGlobal + Abort)) -> Query {
    Query::Nearest {
        q: Point::new(rt.alloc(), &[5]).expect(rt, "memory"),
        k: 2,
    }
}

// Makes the query for what lies within 9 of 5.
fn range(rt: &(impl AllocGlobal + Abort)) -> Query {
    Query::Range {
        q: Point::new(rt.alloc(), &[5]).expect(rt, "memory"),
        r: 9,
    }
}

#[test]
fn answers_are_in_order_and_each_once(rt: HostRuntime) {
    let mut hits = NAMED.to_vec(rt.alloc()).expect(&rt, "memory");
    put_hits_in_order(&mut hits);
    holds(
        &rt,
        hits.as_slice() == [NAMED[3], NAMED[1], NAMED[0]].as_slice(),
    );
    let nearest = nearest(&rt);
    select(&nearest, &mut hits);
    let selected = [NAMED[3], NAMED[1]];
    holds(&rt, hits.as_slice() == selected.as_slice());
    holds(&rt, radius_of(&nearest, &selected) == 1);
    holds(&rt, radius_of(&nearest, &selected[..1]) == BOUND);
    holds(&rt, radius_of(&range(&rt), &selected) == 9);
}

const FIRST: Pair = Pair {
    left: 0,
    right: 7,
    dist: 9,
};

const SECOND: Pair = Pair {
    left: 1,
    right: 2,
    dist: 3,
};

#[test]
fn pairs_are_in_order_and_each_once(rt: HostRuntime) {
    let named = [SECOND, FIRST, SECOND];
    let mut pairs = named.to_vec(rt.alloc()).expect(&rt, "memory");
    put_pairs_in_order(&mut pairs);
    holds(&rt, pairs.as_slice() == [FIRST, SECOND].as_slice());
}

// States a tree of height 1, whose root is page 8.
const TREE: Live = Live {
    side: 0,
    generation: 1,
    root: 8,
    height: 1,
    count: 1,
    pages: 9,
};

// Makes a leaf that holds the object 7.
fn small_leaf(rt: &(impl AllocGlobal + Abort)) -> Node
    ensures { entry_count result ≡ 1 }
{
    let object = LeafEntry {
        id: 7,
        tag: 0,
        parent: 0,
        point: Point::new(rt.alloc(), &[5]).expect(rt, "memory"),
    };
    let objects = vec![in rt.alloc(); object].expect(rt, "memory");
    Node::Leaf(LeafEntries::new(objects))
}

// Makes an inner node of level 2 that names the subtree on page 3.
fn small_inner(rt: &(impl AllocGlobal + Abort)) -> Node
    ensures { entry_count result ≡ 1 }
{
    let subtree = InnerEntry {
        child: 3,
        radius: 9,
        parent: 0,
        point: Point::new(rt.alloc(), &[1]).expect(rt, "memory"),
    };
    let subtrees = vec![in rt.alloc(); subtree].expect(rt, "memory");
    Node::Inner {
        level: 2,
        entries: InnerEntries::new(subtrees),
    }
}

#[test]
fn the_item_of_greater_rank_is_opened(rt: HostRuntime) {
    let leaf = Shared::new(rt.alloc(), small_leaf(&rt)).expect(&rt, "memory");
    let inner = Shared::new(rt.alloc(), small_inner(&rt)).expect(&rt, "memory");
    let pair = JoinNeed {
        left: Item::of_entry(&leaf, 0).expect(&rt, "memory"),
        right: Item::of_entry(&inner, 0).expect(&rt, "memory"),
        apart: Some(4),
    };
    assert!(rt; pair.opens_right());
    assert!(rt; pair.opened().page() == 3);
    assert!(rt; pair.opened().radius() == 9);
    assert!(rt; pair.other().is_object());
    let roots = JoinNeed::of_roots(&TREE, &TREE);
    let probe = JoinProbe::new(rt.alloc(), &pair, &leaf, 9);
    let next = probe.with(roots.right, None).expect(&rt, "memory");
    assert!(rt; next.opens_right());
    assert!(rt; next.opened().page() == 8);
    assert!(rt; next.other().id() == 7);
    let tie = JoinNeed {
        left: pair.right,
        right: next.right,
        apart: None,
    };
    assert!(rt; !tie.opens_right());
    assert!(rt; tie.opened().page() == 3);
}

#[test]
fn pairs_at_the_bound_are_not_ruled_out(rt: HostRuntime) {
    assert!(rt; !is_far(Some(10), 5, 3, 2));
    assert!(rt; is_far(Some(11), 5, 3, 2));
    assert!(rt; !is_far(None, 0, 0, 0));
    assert!(rt; !is_skipped(Some(4), 14, 5, 3, 2));
    assert!(rt; is_skipped(Some(4), 15, 5, 3, 2));
    assert!(rt; !is_skipped(None, 15, 0, 0, 0));
}
