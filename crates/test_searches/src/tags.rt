use crate::given::{holds, leaves, torn_leaves};
use disk_model::{Disk, MemoryDisk};
use hit_tags::{found_tags, tags_of};
use log_model::{Found, Log, Mark, NodeMarks, Record, TaggedHit};
use metric_laws::{Listed, Meter, Point};
use node_page::NodeFault;
use page_store::{DiskPages, ImagePages, PageFault, Pages};
use range_search::range;
use scan_model::{Hit, Query};
use small_trees::{Entry, one_leaf};
use std::alloc::{AllocError, Global};
use std::process::Abort;
use tree_shape::Live;
use vector_kinds::L1;

// Describes the live tree of the numbers 0 to 32.
const NUMBERS: Live = Live {
    side: 0,
    generation: 34,
    root: 5,
    height: 1,
    count: 33,
    pages: 6,
};

// Describes a record: its page, the number of its marks, and the places from which and up to which they are Near.
type Marked = (u32, u8, u8, u8);

// Makes `count` marks, Near from place `from` up to place `to`.
fn marks_of(alloc: Global, count: u8, from: u8, to: u8) -> Result<Vec<Mark>, AllocError> {
    let mut marks = Vec::new(alloc);
    for i in 0..count {
        marks.push(if from <= i && i < to {
            Mark::Near
        } else {
            Mark::Far
        })?;
    }
    Ok(marks)
}

// Makes the records that are described.
fn records_of(rt: &(impl AllocGlobal + Abort), marked: &[Marked]) -> Vec<Record> {
    let mut records = Vec::new(rt.alloc());
    for (page, count, from, to) in marked {
        let marks = marks_of(rt.alloc(), *count, *from, *to).expect(rt, "memory");
        let record = Record {
            page: *page,
            marks: NodeMarks::from_slice(rt.alloc(), marks.as_slice()).expect(rt, "memory"),
        };
        records.push(record).expect(rt, "memory");
    }
    records
}

// Makes hits with these ids.
fn hits_of(alloc: Global, ids: &[u32]) -> Result<Vec<Hit>, AllocError> {
    let mut hits = Vec::new(alloc);
    for id in ids {
        hits.push(Hit { id: *id, dist: 0 })?;
    }
    Ok(hits)
}

// Describes an object that a search met: its id and its tag.
type Met = (u32, u64);

// Makes hits with these ids, each with its tag.
fn tagged_hits_of(alloc: Global, met: &[Met]) -> Result<Vec<TaggedHit>, AllocError> {
    let mut tagged = Vec::new(alloc);
    for (id, tag) in met {
        let hit = Hit { id: *id, dist: 0 };
        tagged.push(TaggedHit { hit, tag: *tag })?;
    }
    Ok(tagged)
}

// Makes hits with these ids, the objects that are met, and a log with the records that are described.
fn found_of(rt: &(impl AllocGlobal + Abort), ids: &[u32], met: &[Met], marked: &[Marked]) -> Found {
    let q = Point::new(rt.alloc(), &[0]).expect(rt, "memory");
    Found {
        hits: Listed::new(hits_of(rt.alloc(), ids).expect(rt, "memory")),
        tagged: Listed::new(tagged_hits_of(rt.alloc(), met).expect(rt, "memory")),
        log: Log {
            generation: 34,
            root: 5,
            query: Query::Range { q, r: 40 },
            answers: Listed::new(Vec::new(rt.alloc())),
            records: Listed::new(records_of(rt, marked)),
        },
    }
}

// Asks for the tags of hits with these ids, by the records that are described.
fn ask_tags<P: Pages>(
    rt: &(impl AllocGlobal + Abort),
    pages: &mut P,
    live: &Live,
    ids: &[u32],
    marked: &[Marked],
) -> Result<Vec<u64>, PageFault> {
    let found = found_of(rt, ids, &[], marked);
    tags_of(rt.alloc(), pages, live, &found)
}

// Says whether a call gave the tags, or the fault, of `wanted`.
fn are_tags(tags: &Result<Vec<u64>, PageFault>, wanted: &Result<&[u64], PageFault>) -> bool {
    match (tags, wanted) {
        (Ok(tags), Ok(wanted)) => tags.as_slice() == *wanted,
        (Err(fault), Err(wanted)) => fault == wanted,
        _ => false,
    }
}

// Checks the tags of hits with these ids.
fn check_tags<P: Pages>(
    rt: &(impl AllocGlobal + Abort),
    pages: &mut P,
    live: &Live,
    ids: &[u32],
    marked: &[Marked],
    wanted: &Result<&[u64], PageFault>,
) {
    let tags = ask_tags(rt, pages, live, ids, marked);
    holds(rt, are_tags(&tags, wanted));
}

// Describes the root with both of its children, and each leaf with some of its numbers.
const ROOT: Marked = (5, 2, 0, 2);

const LOW: Marked = (3, 16, 2, 5);

const HIGH: Marked = (4, 17, 0, 2);

// Checks the tags of 3, 17, 40 and 2 among the numbers 0 to 32, and that `asked` pages are asked for.
fn check_four(
    rt: &(impl AllocGlobal + Abort),
    bytes: &[u8],
    marked: &[Marked],
    wanted: &[u64],
    asked: u64,
) {
    let mut pages = ImagePages::new(bytes, 1, 6);
    let ids = [3, 17, 40, 2];
    check_tags(rt, &mut pages, &NUMBERS, &ids, marked, &Ok(wanted));
    holds(rt, pages.asked == asked);
}

#[test]
fn a_hit_has_the_tag_of_its_object_where_the_walk_meets_it(rt: HostRuntime) {
    let bytes = leaves(&rt, 4);
    let cases: &[(&[Marked], [u64; 4], u64)] = &[
        (&[ROOT, LOW, HIGH], [103, 117, 0, 102], 3),
        // Has a record more than the walk needs.
        (&[ROOT, LOW, HIGH, LOW], [103, 117, 0, 102], 3),
        // Is a log that is cut short.
        (&[ROOT, LOW], [103, 0, 0, 102], 2),
        (&[ROOT], [0, 0, 0, 0], 1),
        (&[], [0, 0, 0, 0], 0),
        // Has another page than the one that is needed, and then that one.
        (&[ROOT, HIGH, LOW], [0, 0, 0, 0], 1),
        (&[ROOT, LOW, ROOT, HIGH], [103, 0, 0, 102], 2),
        // Has one mark too few, and one too many.
        (&[ROOT, (3, 15, 2, 5), HIGH], [0, 0, 0, 0], 2),
        (&[ROOT, LOW, (4, 18, 0, 2)], [103, 0, 0, 102], 3),
        // Has nothing that is Near in the first leaf, or only the second leaf in the root.
        (&[ROOT, (3, 16, 0, 0), HIGH], [0, 117, 0, 0], 3),
        (&[(5, 2, 1, 2), HIGH], [0, 117, 0, 0], 2),
    ];
    for (marked, wanted, asked) in cases {
        check_four(&rt, &bytes, marked, wanted, *asked);
    }
}

// Makes the object `id` with this tag at 0.
fn object(id: u32, tag: u64) -> Entry {
    Entry {
        id,
        tag,
        parent: 0,
        point: 0,
    }
}

// Gives a leaf in which two objects have the id 7, and two the id 8.
fn twins(rt: &(impl AllocGlobal + Abort)) -> Vec<u8> {
    let objects = [object(7, 1), object(7, 2), object(8, 0), object(8, 3)];
    one_leaf(Vec::new(rt.alloc()), &objects).expect(rt, "memory")
}

// Describes the live tree of that leaf.
const TWINS: Live = Live {
    side: 0,
    generation: 34,
    root: 3,
    height: 0,
    count: 4,
    pages: 4,
};

// Checks the tags of 7, 8 and 7 in that leaf, by one record.
fn check_twins(rt: &(impl AllocGlobal + Abort), marked: Marked, wanted: &[u64]) {
    let bytes = twins(rt);
    let mut pages = ImagePages::new(&bytes, 1, 4);
    check_tags(rt, &mut pages, &TWINS, &[7, 8, 7], &[marked], &Ok(wanted));
}

#[test]
fn the_first_object_with_an_id_counts(rt: HostRuntime) {
    check_twins(&rt, (3, 4, 0, 4), &[1, 0, 1]);
    check_twins(&rt, (3, 4, 1, 4), &[2, 0, 2]);
}

// Checks the tag of 3 in an image of `count` pages.
fn check_three(
    rt: &(impl AllocGlobal + Abort),
    bytes: &[u8],
    count: u32,
    marked: &[Marked],
    wanted: &Result<&[u64], PageFault>,
) {
    let mut pages = ImagePages::new(bytes, 1, count.min(6));
    check_tags(rt, &mut pages, &NUMBERS, &[3], marked, wanted);
}

#[test]
fn a_page_that_gives_no_node_is_named(rt: HostRuntime) {
    let whole = leaves(&rt, 4);
    let outside = PageFault::Outside(5);
    check_three(&rt, &whole, 4, &[ROOT], &Err(outside));
    let torn = torn_leaves(&rt, 3 * 4096, 15);
    let bad = PageFault::Bad(3, NodeFault::Kind);
    check_three(&rt, &torn, 6, &[ROOT, LOW], &Err(bad));
    check_three(&rt, &torn, 6, &[ROOT], &Ok(&[0]));
}

// Makes a disk of the numbers 0 to 32 whose call 1 fails.
fn failing(rt: &(impl AllocGlobal + Abort)) -> MemoryDisk {
    let bytes = leaves(rt, 4);
    let room = bytes.len() as u64;
    let fails = vec![in rt.alloc(); 1].expect(rt, "memory");
    MemoryDisk::new(rt.alloc(), bytes, room, 100, fails, None).expect(rt, "memory")
}

// Checks that the tags of 3 and 17 are asked for in vain, and given when they are asked for again.
fn check_again<D: Disk>(rt: &(impl AllocGlobal + Abort), disk: &mut D) {
    let mut pages = DiskPages::new(disk, 1, 6);
    let marked = [ROOT, LOW, HIGH];
    let failed = Err(PageFault::Disk);
    check_tags(rt, &mut pages, &NUMBERS, &[3, 17], &marked, &failed);
    let given = Ok([103, 117].as_slice());
    check_tags(rt, &mut pages, &NUMBERS, &[3, 17], &marked, &given);
}

#[test]
fn a_read_that_fails(rt: HostRuntime) {
    let mut disk = failing(&rt);
    check_again(&rt, &mut disk);
}

// Checks the tags of hits with these ids, where a search met these objects.
fn check_found(rt: &(impl AllocGlobal + Abort), ids: &[u32], met: &[Met], wanted: &[u64]) {
    let found = found_of(rt, ids, met, &[]);
    let tags = found_tags(rt.alloc(), &found).expect(rt, "memory");
    holds(rt, tags.as_slice() == wanted);
}

#[test]
fn a_found_hit_has_the_tag_of_the_first_met_object_with_its_id(rt: HostRuntime) {
    let cases: &[(&[u32], &[Met], &[u64])] = &[
        // Has the hits in another order than the search met them.
        (
            &[3, 17, 2],
            &[(17, 117), (2, 102), (3, 103)],
            &[103, 117, 102],
        ),
        // Has two ids twice, each with two tags.
        (&[7, 8, 7], &[(7, 1), (8, 0), (7, 2), (8, 3)], &[1, 0, 1]),
        // Has an id that was not met, and nothing met.
        (&[3, 40], &[(3, 103)], &[103, 0]),
        (&[3], &[], &[0]),
    ];
    for (ids, met, wanted) in cases {
        check_found(&rt, ids, met, wanted);
    }
}

// Finds what lies within 2 of the number `q`.
fn find<P: Pages>(rt: &(impl AllocGlobal + Abort), pages: &mut P, live: &Live, q: u32) -> Found {
    let mut ruler = Meter::new(L1::new(1));
    assert!(rt; metric_laws::Ruler::is_point(&ruler, &[q]));
    assert!(rt; live.pages <= 100);
    range(rt.alloc(), pages, &mut ruler, live, &[q], 2).expect(rt, "found")
}

#[test]
fn a_search_gives_the_tags_of_its_log_without_a_page(rt: HostRuntime) {
    let bytes = leaves(&rt, 4);
    let mut pages = ImagePages::new(&bytes, 1, 6);
    let found = find(&rt, &mut pages, &NUMBERS, 17);
    let asked = pages.asked;
    let tags = found_tags(rt.alloc(), &found).expect(&rt, "memory");
    holds(&rt, pages.asked == asked);
    holds(&rt, tags.as_slice() == [117, 116, 118, 115, 119].as_slice());
    let walked = tags_of(rt.alloc(), &mut pages, &NUMBERS, &found);
    holds(&rt, are_tags(&walked, &Ok(tags.as_slice())));
}
