use tree_shape::{Bounds, fill, laws};

#[test]
fn a_node_takes_what_a_page_holds(rt: HostRuntime) {
    assert!(rt; fill(1) == Bounds { most: 32, least: 6 });
    assert!(rt; fill(26) == Bounds { most: 32, least: 6 });
    assert!(rt; fill(27) == Bounds { most: 31, least: 6 });
    assert!(rt; fill(64) == Bounds { most: 14, least: 3 });
    laws::objects_fit();
    laws::same_subtree();
    laws::height_is_small();
    laws::same_objects();
    laws::sound_without_pages();
}
