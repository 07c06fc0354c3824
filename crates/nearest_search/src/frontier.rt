ghost use Rattle.std.specs.Prelude.{◌≡◌, IfSome, IfNone};
ghost use Rattle.nearest_search.specs.Queue.{IsNext, AllBeyond};

use crate::pending::Pending;
use crate::queue::MinQueue;

/// The subtrees that are not opened yet, the nearest first.
pub type Frontier = MinQueue<Pending>;

impl MinQueue<Pending> {
    /// Takes the nearest subtree, unless all are further than `rho`. A subtree at the distance `rho` is taken: it may hold an
    /// answer of a lower id.
    pub fn take_next(&mut self, rho: u64) -> Option<Pending>
        ensures some { IfSome result (λ x. IsNext rho self.old x self.new) }
        ensures none { IfNone result (AllBeyond rho self.new) }
        ensures same { IfNone result (self.new ≡ self.old) }
    {
        let Some(first) = self.first() else {
            return None;
        };
        if first.low > rho {
            return None;
        }
        self.take_first()
    }
}
