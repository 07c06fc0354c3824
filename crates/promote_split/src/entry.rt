ghost use Rattle.std.specs.Prelude.{◌≡◌, ℕ, refl};
ghost use Rattle.tree_growth.specs.Dealing.{Ball};

use tree_shape::{InnerEntry, LeafEntry};

/// The part of an entry that a split looks at.
pub trait Entry: Drop {
    /// The point, and the covering radius.
    ghost ball: { Self → Ball };

    /// The entry with another parent distance.
    ghost with_parent: { Self → ℕ → Self };

    /// Returns the entry's point.
    fn point(&self) -> &[u32]
        ensures { result.now ≡ (ball self.now).0 };

    /// Returns the covering radius, and 0 at a leaf.
    fn radius(&self) -> u64
        ensures { result ≡ (ball self.now).1 };

    /// Changes the parent distance, and nothing else.
    fn set_parent(&mut self, parent: u64)
        ensures { self.new ≡ with_parent self.old parent };

    /// Shows that the parent distance is no part of the ball.
    ghost same_ball: { (e : Self) (d : ℕ) → ball (with_parent e d) ≡ ball e };
}

impl Entry for LeafEntry {
    ghost ball = { λ e. (e.point, 0) };

    ghost with_parent = { λ e d. record e { parent = d } };

    fn point(&self) -> &[u32] {
        self.point.as_slice()
    }

    fn radius(&self) -> u64 {
        0
    }

    fn set_parent(&mut self, parent: u64) {
        self.parent = parent;
    }

    ghost same_ball = { λ e d. refl };
}

impl Entry for InnerEntry {
    ghost ball = { λ e. (e.point, e.radius) };

    ghost with_parent = { λ e d. record e { parent = d } };

    fn point(&self) -> &[u32] {
        self.point.as_slice()
    }

    fn radius(&self) -> u64 {
        self.radius
    }

    fn set_parent(&mut self, parent: u64) {
        self.parent = parent;
    }

    ghost same_ball = { λ e d. refl };
}
