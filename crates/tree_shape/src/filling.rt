ghost use Rattle.std.specs.Prelude.{◌≡◌, ◌≤◌};
ghost use Rattle.tree_shape.specs.Fill.{most_for, least_for};

/// How many entries a node may have.
#[derive(Clone, Copy, PartialEq, Eq)]
pub struct Bounds {
    /// The most entries of a node: as many as a page holds, and at most 32.
    pub most: usize,
    /// The least entries of a node that is not the root.
    pub least: usize,
}

/// The bytes of a page that entries may take.
const ROOM: usize = 4080;

/// The bytes of an entry besides its coordinates.
const ENTRY: usize = 20;

/// Returns how many entries a node over points of `dim` coordinates may have.
pub fn fill(dim: u8) -> Bounds
    requires some { 1 ≤ dim }
    requires few { dim ≤ 64 }
    ensures most { result.most ≡ most_for dim }
    ensures least { result.least ≡ least_for dim }
{
    let most = (ROOM / (ENTRY + 4 * usize::from(dim))).min(32);
    Bounds {
        most,
        least: (most + 1) / 5,
    }
}
