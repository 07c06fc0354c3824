use metric_laws::{Meter, Metric, Ruler};
use std::test::Fail;
use vector_kinds::{Hamming, L1, Max, Space, SpaceFault};

/// Two points, and their distances by Hamming, L1 and the maximum.
#[derive(Drop)]
struct Row<'a> {
    a: &'a [u32],
    b: &'a [u32],
    distances: [u64; 3],
}

fn distance<M: Metric>(metric: M, a: &[u32], b: &[u32]) -> Option<u64> {
    if metric.is_point(a) && metric.is_point(b) && metric.dimension() == a.len() {
        Some(metric.dist(a, b))
    } else {
        None
    }
}

fn twice<R: Ruler>(ruler: &mut R, a: &[u32], b: &[u32]) -> Option<(u64, u64)> {
    if ruler.is_point(a) && ruler.is_point(b) {
        Some((ruler.dist(a, b), ruler.dist(b, a)))
    } else {
        None
    }
}

#[test]
fn distances_of_worked_points(rt: HostRuntime) -> Result<(), Fail> {
    let rows = [
        Row {
            a: &[0; 64],
            b: &[4294967295; 64],
            distances: [64, 274877906880, 4294967295],
        },
        // The greatest sum of 64 differences of 26 bits. With one more in each the sum would be 0 in 32 bits.
        Row {
            a: &[67108863; 64],
            b: &[0; 64],
            distances: [64, 4294967232, 67108863],
        },
        Row {
            a: &[67108864; 64],
            b: &[0; 64],
            distances: [64, 4294967296, 67108864],
        },
        Row {
            a: &[4294967295; 8],
            b: &[0, 1, 2, 3, 4, 5, 6, 7],
            distances: [8, 34359738332, 4294967295],
        },
        Row {
            a: &[9; 16],
            b: &[0, 1, 2, 3, 4, 5, 6, 7, 8, 9, 10, 11, 12, 13, 14, 15],
            distances: [15, 66, 9],
        },
        Row {
            a: &[3; 32],
            b: &[1; 32],
            distances: [32, 64, 2],
        },
        Row {
            a: &[67108864; 63],
            b: &[0; 63],
            distances: [63, 4227858432, 67108864],
        },
        Row {
            a: &[1, 2, 3, 4],
            b: &[1, 0, 3, 0],
            distances: [2, 6, 4],
        },
        Row {
            a: &[7],
            b: &[7],
            distances: [0, 0, 0],
        },
    ];
    for row in &rows {
        let dim = u8::try_from(row.a.len()).map_err(|_| "too long")?;
        for kind in 1..4u8 {
            let space = Space::new(kind, dim)?;
            assert!(rt; space.kind() == kind);
            assert!(rt; space.dim() == dim);
            let wanted = row.distances.get(usize::from(kind) - 1).copied();
            assert!(rt; distance(space, row.a, row.b) == wanted);
        }
    }
    Ok(())
}

#[test]
fn each_metric_alone(rt: HostRuntime) {
    let (a, b) = ([1, 2, 3, 4], [1, 0, 3, 0]);
    assert!(rt; distance(Hamming::new(4), &a, &b) == Some(2));
    assert!(rt; distance(L1::new(4), &a, &b) == Some(6));
    assert!(rt; distance(Max::new(4), &a, &b) == Some(4));
    assert!(rt;
        distance(L1::new(3), &a, &b) == None,
        "a point of three coordinates has no fourth"
    );
}

#[test]
fn a_meter_counts_what_it_measures(rt: HostRuntime) {
    let mut meter = Meter::new(L1::new(2));
    assert!(rt; twice(&mut meter, &[3, 4], &[0, 0]) == Some((7, 7)));
    assert!(rt; meter.used() == 2);
}

#[test]
fn faults_of_a_kind_and_a_dimension(rt: HostRuntime) {
    let rows = [
        (0, 1, SpaceFault::Kind),
        (4, 1, SpaceFault::Kind),
        (4, 0, SpaceFault::Kind),
        (1, 0, SpaceFault::Dim),
        (3, 65, SpaceFault::Dim),
    ];
    for (kind, dim, fault) in rows {
        assert!(rt; Space::new(kind, dim).err() == Some(fault));
    }
}
