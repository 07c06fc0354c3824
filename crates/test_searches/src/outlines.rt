use crate::given::holds;
use page_store::{ImagePages, PageFault};
use std::process::Abort;
use tree_outline::{Shape, ShapeLine, shape_of};
use tree_shape::Live;

// Describes the live tree of a file of four pages, whose last page is its root.
const ROOT: Live = Live {
    side: 0,
    generation: 1,
    root: 3,
    height: 0,
    count: 0,
    pages: 4,
};

// Walks the tree with this root in a file of zeros, and counts the pages asked for.
fn shape_at(rt: &(impl AllocGlobal + Abort), root: u32) -> (Result<Shape, PageFault>, u64) {
    let bytes = vec![in rt.alloc(); 0u8; 16384].expect(rt, "memory");
    let mut pages = ImagePages::new(&bytes, 2, 4);
    let shape = shape_of(rt.alloc(), &mut pages, &Live { root, ..ROOT });
    (shape, pages.asked)
}

// Says whether `lines` are that of an empty leaf which is the root.
fn are_of_empty(lines: &[ShapeLine]) -> bool {
    match lines {
        [line] => {
            (line.level, line.entries) == (0, 0) && line.centre.is_none() && line.radius.is_none()
        }
        _ => false,
    }
}

#[test]
fn an_empty_root_has_one_line(rt: HostRuntime) {
    let (shape, asked) = shape_at(&rt, 3);
    let shape = shape.expect(&rt, "a shape");
    holds(&rt, (shape.height, shape.objects, shape.nodes) == (0, 0, 1));
    holds(&rt, asked == 1);
    holds(&rt, are_of_empty(shape.lines.as_slice()));
    let (outside, _) = shape_at(&rt, 4);
    holds(&rt, outside.err() == Some(PageFault::Outside(4)));
}
