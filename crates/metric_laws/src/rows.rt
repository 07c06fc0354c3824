ghost use Rattle.std.specs.Prelude.{◌≡◌, ◌==◌, ◌<◌, ◌++◌, [], ◌∷◌, slice_index_or, length, OnOk, OnErr};
ghost use Rattle.metric_laws.specs.Rows.{Table};

use std::alloc::{AllocError, Global};
use std::marker::Model;

/// Points of one length.
#[derive(Drop)]
pub struct Rows {
    cells: Vec<u32>,
    dimension: usize,
    count: usize,
}

impl Model for Rows {
    ghost use Rattle.std.specs.Prelude.{◌≡◌, ◌*◌, ◌<◌, ◌^◌, length};
    ghost use Rattle.metric_laws.specs.Rows.{Table, rows_of};

    ghost Value = { Table };

    ghost view = { λ r. record { dimension = r.dimension; points = rows_of r.dimension r.count r.cells.items } };

    ghost invariant = { λ r. r.count * r.dimension ≡ length r.cells.items };
}

impl Rows {
    pub fn new(alloc: Global, dimension: usize) -> Self
        ensures { result ≡ record { dimension = dimension; points = [] } }
    {
        Rows {
            cells: Vec::new(alloc),
            dimension,
            count: 0,
        }
    }

    pub fn push(&mut self, p: &[u32]) -> Result<(), AllocError>
        requires { length p.now ≡ self.old.dimension }
        ensures ok { OnOk result (self.new ≡ record self.old { points = self.old.points ++ p.now ∷ [] }) }
        ensures err { OnErr result (self.new ≡ self.old) }
    {
        let count = self.count.checked_add(1).ok_or(AllocError)?;
        self.cells.extend_from_slice(p)?;
        self.count = count;
        Ok(())
    }

    pub fn len(&self) -> usize
        ensures { result ≡ length self.now.points }
    {
        self.count
    }

    pub fn is_empty(&self) -> bool
        ensures { result ≡ (length self.now.points == 0) }
    {
        self.count == 0
    }

    pub fn point(&self, i: usize) -> &[u32]
        requires { i < length self.now.points }
        ensures { result.now ≡ slice_index_or self.now.points i [] }
    {
        let start = i * self.dimension;
        &self.cells[start..start + self.dimension]
    }
}
