ghost use Rattle.std.specs.Prelude.{◌≡◌, ◌+◌, ◌*◌, ◌≤◌, ◌<◌, ◌++◌, ◌==◌, length, map, IfOk, OnOk};
ghost use Rattle.std.specs.List.{AllByRecursion};
ghost use Rattle.metric_laws.specs.Space.{bound};
ghost use Rattle.tree_growth.specs.Dealing.{Ball, Table, row, size, table_of};
ghost use Rattle.promote_split.specs.Tables.{IsTable, HasCounted};

use crate::Entry;
use metric_laws::Ruler;
use std::alloc::{AllocError, Global};
use std::marker::Model;

/// The radii of a node's entries and the distances between them, each computed once. Contracts see the two lists, the distances
/// row by row: a row has the distances of all entries to one.
#[derive(Drop)]
pub struct Matrix {
    radii: Vec<u64>,
    distances: Vec<u64>,
}

impl Model for Matrix {
    ghost Value = { Table };

    ghost view = { λ m. record { radii = m.radii.items; distances = m.distances.items } };

    ghost invariant = { λ m. IsTable (record { radii = m.radii.items; distances = m.distances.items }) };
}

// Appends the distances of the entries to one point.
fn push_row<R: Ruler, E: Entry>(
    ruler: &mut R,
    entries: &[E],
    to: &[u32],
    distances: &mut Vec<u64>,
) -> Result<(), AllocError>
    requires { AllByRecursion (λ d. d ≤ bound) distances.old.items }
    ensures metric { R.metric ruler.new ≡ R.metric ruler.old }
    ensures counted { OnOk result (HasCounted (length entries.now) (R.used ruler.old) (R.used ruler.new)) }
    ensures row { OnOk result (distances.new.items ≡ distances.old.items ++ map (λ (q : Ball).
        (R.M.space (R.metric ruler.old)).dist q.0 to.now) (map E.ball entries.now)) }
    ensures long { OnOk result (length distances.new.items ≡ length distances.old.items + length entries.now) }
    ensures within { AllByRecursion (λ d. d ≤ bound) distances.new.items }
{
    for entry in entries {
        distances.push(ruler.dist(entry.point(), to))?;
    }
    Ok(())
}

impl Matrix {
    /// Measures the entries of a node of n entries, by n * n distances.
    pub fn of<R: Ruler, E: Entry>(
        alloc: Global,
        ruler: &mut R,
        entries: &[E],
    ) -> Result<Self, AllocError>
        requires { AllByRecursion (λ e. (E.ball e).1 ≤ bound) entries.now }
        ensures metric { R.metric ruler.new ≡ R.metric ruler.old }
        ensures counted { OnOk result (HasCounted (length entries.now * length entries.now) (R.used ruler.old) (R.used ruler.new)) }
        ensures table { IfOk result (λ m. m ≡ table_of (R.M.space (R.metric ruler.old)) (map E.ball entries.now)) }
    {
        let mut radii = Vec::with_capacity(alloc, entries.len())?;
        for entry in entries {
            radii.push(entry.radius())?;
        }
        let mut distances = Vec::with_capacity(alloc, entries.len().saturating_mul(entries.len()))?;
        for centre in entries {
            push_row(ruler, entries, centre.point(), &mut distances)?;
        }
        Ok(Matrix { radii, distances })
    }

    /// Returns the number of entries.
    pub fn len(&self) -> usize
        ensures { result ≡ size self.now }
    {
        self.radii.len()
    }

    /// Returns whether there is no entry.
    pub fn is_empty(&self) -> bool
        ensures { result ≡ (size self.now == 0) }
    {
        self.radii.is_empty()
    }

    /// Returns the covering radii of the entries.
    pub fn radii(&self) -> &[u64]
        ensures radii { result.now ≡ self.now.radii }
        ensures within { AllByRecursion (λ d. d ≤ bound) result.now }
    {
        self.radii.as_slice()
    }

    /// Returns the distances of all entries to entry `to`.
    pub fn row(&self, to: usize) -> &[u64]
        requires { to < size self.now }
        ensures row { result.now ≡ row self.now to }
        ensures long { length result.now ≡ size self.now }
        ensures within { AllByRecursion (λ d. d ≤ bound) result.now }
    {
        let count = self.radii.len();
        let start = to * count;
        &self.distances[start..start + count]
    }
}
