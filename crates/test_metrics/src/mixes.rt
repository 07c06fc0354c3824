use metric_laws::{Meter, Metric, Ruler};
use metric_mix::{Capped, Halves, Hausdorff, Joined, Joining, Kendall, MixSpace};
use std::test::Fail;
use vector_kinds::{Hamming, L1, SpaceFault};

/// The distance of two points, None where one of them doesn't fit.
fn distance<M: Metric>(metric: M, a: &[u32], b: &[u32]) -> Option<u64> {
    if metric.is_point(a) && metric.is_point(b) && metric.dimension() == a.len() {
        Some(metric.dist(a, b))
    } else {
        None
    }
}

fn measured<R: Ruler>(ruler: &mut R, a: &[u32], b: &[u32]) -> u64 {
    ruler.dist(a, b)
}

/// A kind, two lists and the distance, None where one of them is no point.
#[derive(Drop)]
struct Row<'a> {
    kind: u8,
    a: &'a [u32],
    b: &'a [u32],
    wanted: Option<u64>,
}

#[test]
fn distances_of_worked_points(rt: HostRuntime) -> Result<(), Fail> {
    let rows = [
        Row {
            kind: 1,
            a: &[1, 2, 3, 4],
            b: &[1, 0, 3, 0],
            wanted: Some(2),
        },
        Row {
            kind: 2,
            a: &[1, 2, 3, 4],
            b: &[1, 0, 3, 0],
            wanted: Some(6),
        },
        Row {
            kind: 3,
            a: &[1, 2, 3, 4],
            b: &[1, 0, 3, 0],
            wanted: Some(4),
        },
        Row {
            kind: 4,
            a: &[0, 1, 2, 3],
            b: &[1, 0, 3, 2],
            wanted: Some(2),
        },
        Row {
            kind: 4,
            a: &[0, 1, 2, 3],
            b: &[3, 2, 1, 0],
            wanted: Some(6),
        },
        Row {
            kind: 4,
            a: &[0, 1, 2],
            b: &[0, 0, 1],
            wanted: None,
        },
        Row {
            kind: 4,
            a: &[0, 1, 2],
            b: &[1, 2, 3],
            wanted: None,
        },
        Row {
            kind: 5,
            a: &[0, 10, 10],
            b: &[0, 4, 4],
            wanted: Some(6),
        },
        Row {
            kind: 5,
            a: &[0, 10, 10],
            b: &[5, 5, 5],
            wanted: Some(5),
        },
        Row {
            kind: 5,
            a: &[0, 10, 10],
            b: &[0, 0, 10],
            wanted: None,
        },
        Row {
            kind: 5,
            a: &[0, 10, 10],
            b: &[0, 10, 9],
            wanted: None,
        },
        Row {
            kind: 5,
            a: &[1, 2, 3],
            b: &[1, 2, 3],
            wanted: Some(0),
        },
        Row {
            kind: 6,
            a: &[1, 2, 7, 7],
            b: &[3, 2, 7, 8],
            wanted: Some(3),
        },
        Row {
            kind: 7,
            a: &[1, 2, 7, 7],
            b: &[3, 2, 7, 8],
            wanted: Some(2),
        },
        Row {
            kind: 8,
            a: &[0],
            b: &[100000],
            wanted: Some(65535),
        },
        Row {
            kind: 8,
            a: &[7],
            b: &[3],
            wanted: Some(4),
        },
    ];
    for row in &rows {
        let dim = u8::try_from(row.a.len()).map_err(|_| "too long")?;
        let space = MixSpace::new(row.kind, dim)?;
        assert!(rt;
            distance(space, row.a, row.b) == row.wanted,
            "kind {}",
            row.kind
        );
        assert!(rt;
            distance(space, row.b, row.a) == row.wanted,
            "kind {} turned",
            row.kind
        );
    }
    Ok(())
}

#[test]
fn each_metric_alone(rt: HostRuntime) {
    let (a, b) = ([1, 2, 7, 7], [3, 2, 7, 8]);
    assert!(rt; distance(Capped::new(L1::new(4), 2), &a, &b) == Some(2));
    assert!(rt;
        distance(
            Joined::new(L1::new(2), Hamming::new(2), Joining::Sum),
            &a,
            &b
        ) == Some(3)
    );
    assert!(rt;
        distance(
            Joined::new(L1::new(2), Hamming::new(2), Joining::Most),
            &a,
            &b
        ) == Some(2)
    );
    assert!(rt; distance(Halves::new(4).joined(Joining::Sum), &a, &b) == Some(3));
    assert!(rt; distance(Halves::new(4).joined(Joining::Most), &a, &b) == Some(2));
    assert!(rt; distance(Kendall::new(2), &[0, 1], &[1, 0]) == Some(1));
    assert!(rt; distance(Hausdorff::new(2), &[0, 9], &[4, 4]) == Some(5));
}

#[test]
fn a_sum_stops_at_the_greatest_distance(rt: HostRuntime) {
    let far = Joined::new(L1::new(32), L1::new(32), Joining::Sum);
    assert!(rt; distance(far, &[0; 64], &[4294967295; 64]) == Some(274877906880));
    let mut meter = Meter::new(Capped::new(far, 1));
    assert!(rt; measured(&mut meter, &[0; 64], &[4294967295; 64]) == 1);
    assert!(rt; meter.used() == 1);
}

#[test]
fn kinds_and_their_names(rt: HostRuntime) -> Result<(), Fail> {
    let names = [
        "hamming",
        "l1",
        "max",
        "kendall",
        "hausdorff",
        "mixsum",
        "mixmax",
        "l1cap",
    ];
    for (kind, name) in (1..9u8).zip(names) {
        let space = MixSpace::new(kind, 64)?;
        assert!(rt; space.kind() == kind);
        assert!(rt; space.dim() == 64);
        assert!(rt; space.name() == name);
    }
    Ok(())
}

#[test]
fn faults_of_a_kind_and_a_dimension(rt: HostRuntime) {
    let rows = [
        (0, 1, SpaceFault::Kind),
        (9, 0, SpaceFault::Kind),
        (4, 0, SpaceFault::Dim),
        (5, 65, SpaceFault::Dim),
        (6, 3, SpaceFault::Dim),
        (7, 1, SpaceFault::Dim),
        (7, 66, SpaceFault::Dim),
    ];
    for (kind, dim, fault) in rows {
        assert!(rt; MixSpace::new(kind, dim).err() == Some(fault));
    }
}
