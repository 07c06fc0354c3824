// Generates points.
ghost use Rattle.std.specs.Prelude.{◌≡◌, ◌≤◌, ◌<◌, ◌^◌, length, IfOk, OnOk};
ghost use Rattle.job_make.specs.Generator.{coordinate, generated_row, generated_rows};

use metric_laws::Rows;
use std::alloc::{AllocError, Global};

// Returns coordinate `j` of row `i`.
fn coordinate(seed: u32, i: u32, j: u8) -> u32
    ensures { result ≡ coordinate seed i j }
{
    let step = (u64::from(i) + 1) * (2 * u64::from(j) + 3) * 40_503;
    ((step + u64::from(seed) * 7_919) % 65_536) as u32
}

// Replaces `row` by row `i`.
#[tactic(auto, using(crate::proofs::RowsMore::coordinate_more, crate::proofs::RowsMore::row_length))]
fn fill_row(seed: u32, dim: u8, i: u32, row: &mut Vec<u32>) -> Result<(), AllocError>
    ensures row { OnOk result (row.new.items ≡ generated_row seed dim i) }
    ensures length { OnOk result (length row.new.items ≡ dim) }
{
    row.clear();
    for j in 0..dim {
        row.push(coordinate(seed, i, j))?;
    }
    Ok(())
}

/// Returns the first `count` rows of `dim` coordinates that the generator makes with the seed `seed`. Coordinate j of row i is `((i
/// + 1) * (2 * j + 3) * 40503 + seed * 7919) mod 65536`.
#[tactic(auto, using(crate::proofs::RowsMore::row_more))]
pub fn generated_rows(alloc: Global, seed: u32, dim: u8, count: u32) -> Result<Rows, AllocError>
    ensures points { IfOk result (λ rows. rows.points ≡ generated_rows seed dim count) }
    ensures dimension { IfOk result (λ rows. rows.dimension ≡ dim) }
{
    let mut rows = Rows::new(alloc, usize::from(dim));
    let mut row = Vec::new(alloc);
    for i in 0..count {
        fill_row(seed, dim, i, &mut row)?;
        rows.push(&row)?;
    }
    Ok(rows)
}
