//! The distances of a set's objects to its seeds.

ghost use Rattle.std.specs.Prelude.{◌≡◌, ◌<◌, ◌≤◌, ◌+◌, ◌++◌, All, [], length, map, slice_index, slice_index_or, true, IfOk, IfSome, OnOk};
ghost use Rattle.tree_growth.specs.Groups.{entry};
ghost use Rattle.tree_growth.specs.Groups.{nearer as nearer_of};
ghost use Rattle.bulk_load.specs.Measured.{AreMeasurable, measured_to, all_apart, points_of};

use metric_laws::{Metric, Point, Rows};
use std::alloc::{AllocError, Global};
use std::marker::Model;

/// Returns the points of `seeds`, which are places of `set`, a set of rows.
pub fn centres_at(
    alloc: Global,
    rows: &Rows,
    set: &[u32],
    seeds: &[u32],
) -> Result<Vec<Point>, AllocError>
    requires set { All (λ k. k < length rows.now.points) set.now }
    requires seeds { All (λ k. k < length set.now) seeds.now }
    ensures { IfOk result (λ v. v.items ≡ points_of (points_of rows.now.points set.now) seeds.now) }
{
    let mut centres = Vec::with_capacity(alloc, seeds.len())?;
    for seed in seeds {
        let row = set[*seed as usize] as usize;
        centres.push(Point::new(alloc, rows.point(row))?)?;
    }
    Ok(centres)
}

// Appends the distances from one seed to all seeds.
fn add_distances<M: Metric>(
    metric: M,
    from: &[u32],
    centres: &[Point],
    apart: &mut Vec<u64>,
) -> Result<(), AllocError>
    ensures { OnOk result (apart.new.items ≡ apart.old.items ++ map ((M.space metric).dist from.now) centres.now) }
{
    for to in centres {
        apart.push(metric.dist(from, to.as_slice()))?;
    }
    Ok(())
}

/// Returns the distances between `centres`: those of the first to all, of the second to all, and so on.
pub fn mutual_distances<M: Metric>(
    alloc: Global,
    metric: M,
    centres: &[Point],
) -> Result<Vec<u64>, AllocError>
    ensures { IfOk result (λ v. v.items ≡ all_apart (M.space metric) centres.now) }
{
    let mut apart = Vec::with_capacity(alloc, centres.len().saturating_mul(centres.len()))?;
    for from in centres {
        add_distances(metric, from.as_slice(), centres, &mut apart)?;
    }
    Ok(apart)
}

// Returns the nearer of seed `number` at `distance` and the nearest so far, `best`, as a distance and a number. `best` stays where
// both are as near.
fn nearer(distance: u64, number: usize, best: Option<(u64, usize)>) -> Option<(u64, usize)>
    ensures { result ≡ nearer_of true distance number best }
{
    match best {
        Some((least, _)) if distance >= least => best,
        _ => Some((distance, number)),
    }
}

/// The distances of one object to the seeds. Each is computed when it is asked for.
#[derive(Drop)]
pub struct Row<'a, M: Metric> {
    metric: M,
    object: &'a [u32],
    centres: &'a [Point],
    apart: &'a [u64],
}

impl<'a, M: Metric> Model for Row<'a, M> {
    ghost use Rattle.std.specs.Prelude.{List, ℕ, [], ◌∷◌, map};
    ghost use Rattle.bulk_load.specs.Measured.{AreMeasurable};

    ghost Value = { List ℕ };

    ghost view = { λ r. map ((M.space r.metric).dist r.object.now) r.centres.now };

    ghost invariant = { λ r. AreMeasurable (M.space r.metric) (r.object.now ∷ []) r.centres.now r.apart.now };
}

impl<'a, M: Metric> Row<'a, M> {
    /// Returns the distance of the object to the seed of `group`.
    pub fn far(&self, group: usize) -> u64
        requires { group < length self.now }
        ensures { result ≡ slice_index self.now group }
    {
        self.metric
            .dist(self.object, self.centres[group].as_slice())
    }

    // Returns the distance between the seeds of two groups. It is no more than by way of the object.
    fn apart(&self, first: usize, second: usize) -> u64
        requires first { first < length self.now }
        requires second { second < length self.now }
        ensures { result ≤ slice_index self.now first + slice_index self.now second }
    {
        self.apart[first * self.centres.len() + second]
    }

    /// Returns the nearer of two seeds: the nearest so far, `best`, as its distance and its group, and that of `group`. `best` stays
    /// where both are as near. The distance to the seed of `group` is not computed where the seeds are at least twice as far apart
    /// as the object is from the nearest so far: by the triangle inequality it is no less.
    pub fn nearer(&self, best: Option<(u64, usize)>, group: usize) -> Option<(u64, usize)>
        requires group { group < length self.now }
        requires best { IfSome best (λ b. (b.1 < length self.now) × (b.0 ≡ slice_index self.now b.1)) }
        ensures { result ≡ nearer_of true (slice_index self.now group) group best }
    {
        match best {
            Some((least, nearest)) if least <= self.apart(nearest, group) / 2 => best,
            _ => nearer(self.far(group), group, best),
        }
    }
}

/// The distances of a set's objects to its seeds. Each is computed when it is asked for, so that memory never holds a
/// table of them.
#[derive(Drop)]
pub struct Distances<'a, M: Metric> {
    metric: M,
    rows: &'a Rows,
    set: &'a [u32],
    centres: &'a [Point],
    apart: &'a [u64],
}

impl<'a, M: Metric> Model for Distances<'a, M> {
    ghost use Rattle.std.specs.Prelude.{◌<◌, All, length};
    ghost use Rattle.bulk_load.specs.Measured.{AreMeasurable, Measured, measured_to, points_of};

    ghost Value = { Measured };

    ghost view = { λ d. measured_to (M.space d.metric) (points_of d.rows.now.points d.set.now) d.centres.now };

    ghost invariant = { λ d. All (λ k. k < length d.rows.now.points) d.set.now
        × AreMeasurable (M.space d.metric) d.rows.now.points d.centres.now d.apart.now };
}

impl<'a, M: Metric> Distances<'a, M> {
    /// Makes the distances of `set`, places of `rows`, to `centres`, the points of its seeds, with `apart` as the distances between
    /// them.
    pub fn new(
        metric: M,
        rows: &'a Rows,
        set: &'a [u32],
        centres: &'a [Point],
        apart: &'a [u64],
    ) -> Self
        requires set { All (λ k. k < length rows.now.points) set.now }
        requires measurable { AreMeasurable (M.space metric) rows.now.points centres.now apart.now }
        ensures { result ≡ measured_to (M.space metric) (points_of rows.now.points set.now) centres.now }
    {
        Distances {
            metric,
            rows,
            set,
            centres,
            apart,
        }
    }

    /// Returns the number of objects.
    pub fn objects(&self) -> usize
        ensures { result ≡ length self.now.table }
    {
        self.set.len()
    }

    /// Returns the number of seeds.
    pub fn seeds(&self) -> usize
        ensures { result ≡ self.now.width }
    {
        self.centres.len()
    }

    /// Returns the distances of the object at `place`.
    pub fn of(&self, place: usize) -> Row<'_, M>
        requires { place < length self.now.table }
        ensures row { result ≡ slice_index_or self.now.table place [] }
        ensures len { length result ≡ self.now.width }
    {
        Row {
            metric: self.metric,
            object: self.rows.point(self.set[place] as usize),
            centres: self.centres,
            apart: self.apart,
        }
    }

    /// Returns the distance of the object at `place` to the seed of `group`.
    pub fn far(&self, place: usize, group: usize) -> u64
        requires place { place < length self.now.table }
        requires group { group < self.now.width }
        ensures { result ≡ entry self.now.table place group }
    {
        let row = self.of(place);
        row.far(group)
    }
}
