use metric_laws::{BOUND, Listed, Point, Rows, cap, centre_test, laws, pair_test, parent_test};
use std::test::Fail;

#[test]
fn tests_rule_out_beyond_the_edge_alone(rt: HostRuntime) {
    assert!(rt; (centre_test(9, 4, 5), centre_test(10, 4, 5)) == (false, true));
    assert!(rt; (parent_test(1, 10, 4, 5), parent_test(0, 10, 4, 5)) == (false, true));
    assert!(rt; (parent_test(10, 1, 4, 5), parent_test(10, 0, 4, 5)) == (false, true));
    assert!(rt; (pair_test(12, 3, 4, 5), pair_test(13, 3, 4, 5)) == (false, true));
    assert!(rt; (cap(3, 4), cap(BOUND, 1)) == (7, 274877906944));
    laws::centre_test_rules_out();
    laws::parent_test_rules_out();
    laws::pair_test_rules_out();
}

#[test]
fn points_keep_their_coordinates(rt: HostRuntime) -> Result<(), Fail> {
    let coordinates = [7; 17];
    for some in [&coordinates[..1], &coordinates[..16], &coordinates[..]] {
        let point = Point::new(rt.alloc(), some)?;
        assert!(rt; point.as_slice() == some);
    }
    Ok(())
}

#[test]
fn rows_keep_their_points(rt: HostRuntime) -> Result<(), Fail> {
    let mut rows = Rows::new(rt.alloc(), 2);
    assert!(rt; rows.is_empty());
    rows.push(&[1, 2])?;
    rows.push(&[3, 4])?;
    assert!(rt; rows.len() == 2);
    assert!(rt; rows.point(0) == [1, 2].as_slice());
    assert!(rt; rows.point(1) == [3, 4].as_slice());
    Ok(())
}

#[test]
fn a_list_gives_its_items_back(rt: HostRuntime) -> Result<(), Fail> {
    let listed = Listed::new(vec![in rt.alloc(); 5u64, 6]?);
    assert!(rt; listed.as_slice() == [5, 6].as_slice());
    let items = listed.into_vec();
    assert!(rt; items.as_slice() == [5, 6].as_slice());
    Ok(())
}
