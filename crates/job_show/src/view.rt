use crate::Marks;
use metric_mix::MixSpace;
use tree_shape::Live;

// What the logs of a file are shown by.
#[derive(Clone, Copy)]
pub struct View {
    // What is shown of the marks.
    pub marks: Marks,
    // The tree's space.
    pub space: MixSpace,
    // The live tree.
    pub live: Live,
    // The number of the tree's nodes, or `None` where the tree can't be walked.
    pub nodes: Option<u32>,
}
