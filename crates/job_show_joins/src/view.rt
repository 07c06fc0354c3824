use job_show::Marks;
use metric_mix::MixSpace;
use std::alloc::Global;
use tree_shape::Live;

// What the logs of a file are shown by.
#[derive(Clone, Copy)]
pub struct JoinView {
    // The allocator for texts and walks.
    pub alloc: Global,
    // What is shown of the marks.
    pub marks: Marks,
    // The space of both trees.
    pub space: MixSpace,
    // The left live tree.
    pub left: Live,
    // The right live tree.
    pub right: Live,
    // The numbers of the two trees' nodes, or `None` where a tree can't be walked.
    pub nodes: (Option<u32>, Option<u32>),
}
