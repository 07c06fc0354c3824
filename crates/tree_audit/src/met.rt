ghost use Rattle.std.specs.Prelude.{◌≡◌, ℕ, ◌≤◌, ◌<◌, ◌++◌, ◌==◌, ◌&&◌, nat_lt, not, [], ◌∷◌, length, IfOk, OnOk, OnErr};
ghost use Rattle.std.specs.List.{AllByRecursion};
ghost use Rattle.tree_shape.specs.Tree.{times};
ghost use Rattle.tree_audit.specs.Met.{AreFewer};

use std::alloc::{AllocError, Global};
use std::marker::Model;

/// Numbers below a limit that were met, in the order of meeting.
#[derive(Drop)]
pub struct Met {
    flags: Vec<bool>,
    numbers: Vec<u32>,
}

impl Model for Met {
    ghost use Rattle.std.specs.Prelude.{length};
    ghost use Rattle.tree_audit.specs.Met.{Numbers, IsFlagged};

    ghost Value = { Numbers };

    ghost view = { λ m. record { limit = length m.flags.items; met = m.numbers.items } };

    ghost invariant = { λ m. IsFlagged m.flags.items m.numbers.items };
}

impl Met {
    /// Begins with no number below `limit` met.
    pub fn new(alloc: Global, limit: u32) -> Result<Met, AllocError>
        ensures { IfOk result (λ m. m ≡ record { limit = limit; met = [] }) }
    {
        Ok(Met {
            flags: vec![in alloc; false; limit as usize]?,
            numbers: Vec::new(alloc),
        })
    }

    /// Returns the limit. Every number that was met is below it.
    pub fn limit(&self) -> u32
        ensures { result ≡ self.now.limit }
    {
        self.flags.len() as u32
    }

    /// Returns whether `number` was met.
    pub fn has(&self, number: u32) -> bool
        ensures { result ≡ not (times number self.now.met == 0) }
    {
        let number = number as usize;
        number < self.flags.len() && self.flags[number]
    }

    /// Notes `number`, which was not met before.
    pub fn add(&mut self, number: u32) -> Result<(), AllocError>
        requires small { number < self.old.limit }
        requires new { times number self.old.met ≡ 0 }
        ensures ok { OnOk result (self.new ≡ record self.old { met = self.old.met ++ number ∷ [] }) }
        ensures err { OnErr result (self.new ≡ self.old) }
        ensures fewer { OnOk result (AreFewer self.old → 0 < number → AreFewer self.new) }
    {
        self.numbers.push(number)?;
        self.flags[number as usize] = true;
        Ok(())
    }

    /// Returns the numbers that were met, in the order of meeting.
    pub fn into_numbers(self) -> Vec<u32>
        ensures { result.items ≡ self.met }
    {
        self.numbers
    }

    /// Returns whether `number` is below the limit and was not met.
    pub fn is_new(&self, number: u32) -> bool
        ensures { result ≡ (nat_lt number self.now.limit && (times number self.now.met == 0)) }
    {
        number < self.limit() && !self.has(number)
    }

    /// Returns how many numbers were met. No number was met twice, and each that was met is below the limit.
    pub fn len(&self) -> u32
        ensures len { result ≡ length self.now.met }
        ensures once { (number : ℕ) → times number self.now.met ≤ 1 }
        ensures small { AllByRecursion (λ number. number < self.now.limit) self.now.met }
    {
        self.numbers.len() as u32
    }
}
