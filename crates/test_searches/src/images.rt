use crate::given::holds;
use image_answers::{Outcome, range_outcome};
use metric_laws::Point;
use page_store::Image;
use rows_text::{Reply, reply_text};
use std::alloc::{AllocError, Global};
use std::process::Abort;
use tree_shape::Live;
use vector_kinds::L1;

// Describes the live tree of an index of two objects, whose root is page 3.
const PAIR: Live = Live {
    side: 0,
    generation: 1,
    root: 3,
    height: 0,
    count: 2,
    pages: 4,
};

// Gives that index over points of one coordinate: the points 4 and 9, with the tags 7 and 8.
fn pair(alloc: Global) -> Result<Vec<u8>, AllocError> {
    let mut image = vec![in alloc; 0u8; 16384]?;
    let bytes = [
        (12291, 2),
        (12315, 7),
        (12327, 4),
        (12331, 1),
        (12339, 8),
        (12351, 9),
    ];
    for (at, byte) in &bytes {
        if *at < image.len() {
            image[*at] = *byte;
        }
    }
    Ok(image)
}

// Writes a reply that has hits, with their tags.
fn write_reply(reply: &Reply, text: &mut Vec<u8>) -> Result<(), AllocError> {
    if let Reply::Hits { hits, tags } = reply {
        if hits.as_slice().len() == tags.as_slice().len() {
            return reply_text(reply, true, text);
        }
    }
    Ok(())
}

// Writes an outcome: the reply with its tags, and a word where there is a log.
fn write_outcome(outcome: &Outcome, text: &mut Vec<u8>) -> Result<(), AllocError> {
    match outcome {
        Outcome::Done { reply, log } => {
            write_reply(reply, text)?;
            if log.is_some() {
                text.extend_from_slice(b"log")?;
            }
        }
        Outcome::Damaged(_) => text.extend_from_slice(b"damaged")?,
    }
    Ok(())
}

// Asks that index for what lies within `radius` of `q`.
fn ask(rt: &(impl AllocGlobal + Abort), q: u32, radius: u64) -> Outcome {
    let image = pair(rt.alloc()).expect(rt, "memory");
    let q = Point::new(rt.alloc(), &[q]).expect(rt, "memory");
    let image = Image::Whole(&image);
    range_outcome(rt.alloc(), image, L1::new(1), &PAIR, &q, radius).expect(rt, "memory")
}

// Checks the outcome of a range query, as it is written.
fn check_range(rt: &(impl AllocGlobal + Abort), q: u32, radius: u64, wanted: &str) {
    let outcome = ask(rt, q, radius);
    let mut text = Vec::new(rt.alloc());
    write_outcome(&outcome, &mut text).expect(rt, "memory");
    holds(rt, text.as_slice() == wanted.as_bytes());
}

#[test]
fn ranges(rt: HostRuntime) {
    check_range(&rt, 5, 0, "hits 0\nlog");
    check_range(&rt, 5, 1, "hits 1\n0 7 1\nlog");
    check_range(&rt, 8, 4, "hits 2\n1 8 1\n0 7 4\nlog");
    check_range(&rt, 0, 1 << 63, "hits 2\n0 7 4\n1 8 9\nlog");
}
