//! A line that is tried.

ghost use Rattle.std.specs.Prelude.{◌≡◌, ◌≤◌, [], ◌∷◌, ◌++◌, length, IfOk, IfSome, IfNone, OnOk};
ghost use Rattle.nearest_search.specs.Least.{IsLeast};
ghost use Rattle.pin_cursor.specs.Lines.{Tried, IsAscending, comes_first, line_of};

use crate::line::{Line, TellsApart};
use std::alloc::{AllocError, Global};
use std::marker::Model;

/// A line during a step, which can be taken back. It always has room to take back what was taken, and to keep what was added.
#[derive(Drop)]
pub struct Trial<T: TellsApart> {
    left: Line<T>,
    taken: Line<T>,
    added: Line<T>,
}

impl<T: TellsApart> Model for Trial<T> {
    ghost Value = { Tried T };

    ghost view = { λ t. record {
      handed = line_of T.cmp (t.left.items ++ t.taken.items);
      waits = line_of T.cmp (t.left.items ++ t.added.items);
    } };

    ghost invariant = { λ t. (length t.taken.items ≤ t.left.room) × (length t.added.items ≤ t.left.room) };
}

// Returns whether the first of `added` is less than the first of `left`. Anything comes before nothing.
fn comes_first<T: TellsApart + Drop>(added: &Line<T>, left: &Line<T>) -> bool
    ensures says { result ≡ comes_first T.cmp added.now.items left.now.items }
    ensures added { IsAscending T.cmp added.now.items }
    ensures left { IsAscending T.cmp left.now.items }
{
    match (added.first(), left.first()) {
        (Some(added), Some(left)) => added < left,
        (Some(_), None) => true,
        (None, _) => false,
    }
}

impl<T: TellsApart + Copy + Drop> Trial<T> {
    /// Begins with all that waits in `line`, which is empty from then on.
    pub fn begin(alloc: Global, line: &mut Line<T>) -> Self
        ensures handed { result.handed ≡ line.old.items }
        ensures waits { result.waits ≡ line.old.items }
        ensures empty { line.new.items ≡ [] }
    {
        Trial {
            left: line.take_all(alloc),
            taken: Line::new(alloc),
            added: Line::new(alloc),
        }
    }

    /// Returns the least of what waits, if there is one.
    pub fn first(&self) -> Option<&T>
        ensures some { IfSome result (λ x. IsLeast T.cmp x.now self.now.waits) }
        ensures none { IfNone result (self.now.waits ≡ []) }
    {
        if comes_first(&self.added, &self.left) {
            self.added.first()
        } else {
            self.left.first()
        }
    }

    /// Takes the least of what waits, if there is one.
    pub fn take_first(&mut self) -> Result<Option<T>, AllocError>
        ensures handed { self.new.handed ≡ self.old.handed }
        ensures some { IfOk result (λ taken. IfSome taken (λ x. self.old.waits ≡ x ∷ self.new.waits)) }
        ensures first { IfOk result (λ taken. IfSome taken (λ x. IsLeast T.cmp x self.old.waits)) }
        ensures none { IfOk result (λ taken. IfNone taken ((self.old.waits ≡ []) × (self.new.waits ≡ []))) }
    {
        if comes_first(&self.added, &self.left) {
            return Ok(self.added.take_first());
        }
        let Some(&first) = self.left.first() else {
            return Ok(None);
        };
        self.taken.add(first)?;
        Ok(self.left.take_first())
    }

    /// Adds `x`.
    pub fn add(&mut self, x: T) -> Result<(), AllocError>
        ensures handed { self.new.handed ≡ self.old.handed }
        ensures waits { OnOk result (self.new.waits ≡ line_of T.cmp (x ∷ self.old.waits)) }
    {
        self.left.reserve(self.added.len() + 1)?;
        self.added.add(x)?;
        Ok(())
    }

    /// Returns the line with what waits now.
    pub fn keep(self) -> Line<T>
        ensures { result.items ≡ self.waits }
    {
        let mut line = self.left;
        line.join(self.added);
        line
    }

    /// Returns the line as it was handed over.
    pub fn undo(self) -> Line<T>
        ensures { result.items ≡ self.handed }
    {
        let mut line = self.left;
        line.join(self.taken);
        line
    }
}
