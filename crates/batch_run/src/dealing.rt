//! Work whose places cost very different amounts, shared among workers.

ghost use Rattle.std.specs.Prelude.{◌≡◌, ℕ, ◌+◌, ◌-◌, ◌*◌, ◌/◌, ◌%◌, ◌<◌, ◌≤◌, ◌^◌, length, slice_get, Some, Ok, IfOk, IfNone, IfSome, vec_len};
ghost use Rattle.batch_run.specs.Dealing.{AreInOrder, AreSeated, place_of, shift_of, wound};

use par_work::share;
use std::alloc::{AllocError, Global};
use std::thread::Threads;

/// The dealing of places to workers, as cards are dealt. A round gives each worker one place, and who gets the first one
/// changes from round to round: so neither a stretch of dear places nor every n-th place goes to one worker alone.
///
/// A worker has a seat for each round. Those of the first worker come first.
#[derive(Clone, Copy)]
pub struct Deal {
    /// How many rounds there are, at least 1.
    pub rounds: usize,
    /// How many workers there are, at least 1.
    pub workers: usize,
}

impl Deal {
    /// Returns enough rounds to deal `count` places to `workers`.
    pub fn of(count: usize, workers: usize) -> Self
        requires some { 1 ≤ workers }
        requires few { workers ≤ 64 }
        requires count { count < 2 ^ 32 }
        ensures rounds { (1 ≤ result.rounds) × (result.rounds < 2 ^ 33) }
        ensures workers { result.workers ≡ workers }
        ensures whole { count ≤ result.rounds * workers }
    {
        Deal {
            rounds: count.div_ceil(workers).max(1),
            workers,
        }
    }

    // Returns the shift of the turns of `round`.
    fn shift(&self, round: usize) -> usize
        requires some { 1 ≤ self.now.workers }
        requires round { round < 2 ^ 33 }
        ensures is { result ≡ shift_of (record { rounds = self.now.rounds; workers = self.now.workers }) round }
        ensures below { result < self.now.workers }
    {
        (round + round / self.workers) % self.workers
    }

    /// Returns the place that is dealt to `seat`. In the last round it may be past the last place.
    pub fn place(&self, seat: usize) -> usize
        requires some { (1 ≤ self.now.rounds) × (1 ≤ self.now.workers) }
        requires few { (self.now.rounds < 2 ^ 33) × (self.now.workers ≤ 64) }
        requires seat { seat < self.now.rounds * self.now.workers }
        ensures { result ≡ place_of (record { rounds = self.now.rounds; workers = self.now.workers }) seat }
    {
        let round = seat % self.rounds;
        let turn = seat / self.rounds + self.shift(round);
        let turn = if turn < self.workers {
            turn
        } else {
            turn - self.workers
        };
        round * self.workers + turn
    }

    // Returns the worker that has the turn `turn` in a round with the shift `shift`.
    fn worker(&self, turn: usize, shift: usize) -> usize
        requires few { self.now.workers ≤ 64 }
        requires turn { turn < self.now.workers }
        requires shift { shift < self.now.workers }
        ensures below { result < self.now.workers }
        ensures is { wound self.now.workers (result + shift) ≡ turn }
    {
        if shift <= turn {
            return turn - shift;
        }
        turn + self.workers - shift
    }

    /// Returns the seat that `place` is dealt to.
    pub fn seat(&self, place: usize) -> usize
        requires some { (1 ≤ self.now.rounds) × (1 ≤ self.now.workers) }
        requires few { (self.now.rounds < 2 ^ 33) × (self.now.workers ≤ 64) }
        requires place { place < self.now.rounds * self.now.workers }
        ensures within { result < self.now.rounds * self.now.workers }
        ensures seat { place_of (record { rounds = self.now.rounds; workers = self.now.workers }) result ≡ place }
    {
        let round = place / self.workers;
        let shift = self.shift(round);
        let worker = self.worker(place % self.workers, shift);
        worker * self.rounds + round
    }
}

/// Returns what the seats hold, in the order of the places.
pub fn in_order<X: Drop>(
    alloc: Global,
    deal: &Deal,
    count: usize,
    seats: Vec<Option<Result<X, AllocError>>>,
) -> Result<Vec<X>, AllocError>
    requires some { (1 ≤ deal.now.rounds) × (1 ≤ deal.now.workers) }
    requires few { (deal.now.rounds < 2 ^ 33) × (deal.now.workers ≤ 64) }
    requires whole { count ≤ deal.now.rounds * deal.now.workers }
    requires seated { AreSeated (record { rounds = deal.now.rounds; workers = deal.now.workers }) count seats.items }
    ensures { IfOk result (λ v. AreInOrder (record { rounds = deal.now.rounds; workers = deal.now.workers }) count seats.items v.items) }
{
    let mut seats = seats;
    let mut all = Vec::with_capacity(alloc, count)?;
    for place in 0..count {
        let seat = deal.seat(place);
        match seats[seat].take() {
            Some(found) => all.push(found?)?,
            None => unreachable!(),
        }
    }
    Ok(all)
}

/// Runs the work at each place below `count` and returns the results in order, or fails when memory runs out at one of them. Each
/// worker gets places from all parts of the work, so that none waits long for the others.
pub fn share_evenly<
    R: Threads + Sync,
    X: Send + Drop,
    F: Fn(usize) -> Result<X, AllocError> + Sync,
>(rt: &R, alloc: Global, count: usize, workers: usize, work: &F) -> Result<Vec<X>, AllocError>
    requires calls { (i : ℕ) → i < count → F.pre work.now i }
    requires some { 1 ≤ workers }
    requires few { workers ≤ 64 }
    requires count { count < 2 ^ 32 }
    ensures len { IfOk result (λ v. vec_len v ≡ count) }
    ensures each { IfOk result (λ v. (i : ℕ) (x : X) → slice_get v.items i ≡ Some x → F.post work.now i (Ok x)) }
{
    let deal = Deal::of(count, workers);
    let seated = |seat: usize| -> Option<Result<X, AllocError>>
        requires { ((i : ℕ) → i < count → F.pre work.now i) × ((1 ≤ deal.rounds) × (1 ≤ deal.workers))
            × ((deal.rounds < 2 ^ 33) × (deal.workers ≤ 64)) × (seat < deal.rounds * deal.workers) }
        ensures { IfSome result (λ x.
            F.post work.entry.now (place_of (record { rounds = deal.rounds; workers = deal.workers }) seat) x)
            × IfNone result (count ≤ place_of (record { rounds = deal.rounds; workers = deal.workers }) seat) }
    {
        let place = deal.place(seat);
        if place < count {
            Some(work(place))
        } else {
            None
        }
    };
    let seats = share(rt, alloc, deal.rounds * deal.workers, workers, &seated)?;
    in_order(alloc, &deal, count, seats)
}
