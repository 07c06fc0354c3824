// Pages in ascending order.
ghost use Rattle.std.specs.Prelude.{◌≡◌, ◌≤◌, ◌<◌, ◌+◌, ◌^◌, ◌||◌, ℕ, List, length, IfOk, nat_lt};
ghost use Rattle.std.specs.List.{AllByRecursion};
ghost use Rattle.std.specs.List.Sorted.{IsNonDecreasing, IsPermutation};
ghost use Rattle.std.specs.VecDeque.{deque_capacity};
ghost use Rattle.tree_shape.specs.Tree.{times};
ghost use Rattle.page_store.specs.Numbers.{Ascends, AreNumbers};
ghost use Rattle.free_pages.specs.Keeping.{held_pages, is_among, is_pinned_below, put_by, with_page, with_pages, without_pin};
ghost use Rattle.free_pages.specs.Stored.{is_below, held_below, freed_below, IsPlace, IsPlaceBy, IsReleasing};
ghost use Rattle.free_pages.specs.declared.held.Held.{Held as HeldPage};
ghost use Rattle.free_pages.specs.Opened.{AreOpened};
ghost use Rattle.free_pages.specs.Walk.{outside_pages};

use crate::Held;
use std::alloc::{AllocError, Global};
use std::collections::VecDeque;

// Searches for `page`: `Ok` where it is in `free`, and else `Err` with the place where it belongs.
fn place_of(free: &VecDeque<u32>, page: u32) -> Result<usize, usize>
    requires { Ascends 0 free.now.items }
    ensures { IsPlace page free.now.items result }
{
    free.binary_search(&page)
}

/// Returns whether `page` is in `free`.
pub fn is_free(free: &VecDeque<u32>, page: u32) -> bool
    requires { Ascends 0 free.now.items }
    ensures { result ≡ is_among page free.now.items }
{
    place_of(free, page).is_ok()
}

/// Puts `page` in its place in `free`, which has room for it. A page that is there stays.
pub fn put_free(free: &mut VecDeque<u32>, page: u32)
    requires ascending { Ascends 0 free.old.items }
    requires room { length free.old.items < deque_capacity free.old }
    ensures items { free.new.items ≡ with_page page free.old.items }
    ensures capacity { deque_capacity free.old ≤ deque_capacity free.new }
{
    if let Err(place) = place_of(free, page) {
        let _ = free.insert(place, page);
    }
}

// Searches for `page`: `Ok` where it is in `held`, and else `Err` with the place where it belongs.
fn place_of_held(held: &VecDeque<Held>, page: u32) -> Result<usize, usize>
    requires { Ascends 0 (held_pages held.now.items) }
    ensures { IsPlaceBy (λ h. h.page) page held.now.items result }
{
    held.binary_search_by_key(&page, |held| held.page)
}

/// Returns whether `page` is in `held`.
pub fn is_held(held: &VecDeque<Held>, page: u32) -> bool
    requires { Ascends 0 (held_pages held.now.items) }
    ensures { result ≡ is_among page (held_pages held.now.items) }
{
    place_of_held(held, page).is_ok()
}

/// Puts `more` in its place in `held`, which has room for it. A page that is there stays as it is.
pub fn put_held(held: &mut VecDeque<Held>, more: Held)
    requires ascending { Ascends 0 (held_pages held.old.items) }
    requires room { length held.old.items < deque_capacity held.old }
    ensures items { held.new.items ≡ put_by (λ h. h.page) more held.old.items }
    ensures capacity { deque_capacity held.old ≤ deque_capacity held.new }
{
    if let Err(place) = place_of_held(held, more.page) {
        let _ = held.insert(place, more);
    }
}

// Returns the lesser of `pin` and the least pin so far.
fn lesser(least: Option<u64>, pin: u64) -> u64
    ensures { (generation : ℕ) → is_below (Some result) generation ≡ (is_below least generation || nat_lt pin generation) }
{
    match least {
        None => pin,
        Some(other) => other.min(pin),
    }
}

/// Returns the least of the pinned generations.
pub fn least_pin(pins: &[u64]) -> Option<u64>
    ensures { (generation : ℕ) → is_below result generation ≡ is_pinned_below generation pins.now }
{
    let mut least = None;
    for pin in pins {
        least = Some(lesser(least, *pin));
    }
    least
}

/// Returns whether the least pin is below `generation`.
pub fn is_below(least: Option<u64>, generation: u64) -> bool
    ensures { result ≡ is_below least generation }
{
    match least {
        None => false,
        Some(pin) => pin < generation,
    }
}

/// Takes out one pin of `generation`, if it is pinned.
pub fn take_out(pins: &mut Vec<u64>, generation: u64)
    ensures { pins.new.items ≡ without_pin generation pins.old.items }
{
    for place in 0..pins.len() {
        if pins[place] == generation {
            let _ = pins.remove(place);
            return;
        }
    }
}

// Sorts the pages in ascending order, in place.
fn sort_pages(free: &mut VecDeque<u32>)
    ensures permutation { IsPermutation free.old.items free.new.items }
    ensures sorted { IsNonDecreasing free.new.items }
    ensures capacity { deque_capacity free.old ≤ deque_capacity free.new }
{
    free.make_contiguous().sort_unstable();
}

// Moves the first held page to the back of its queue, where the least pin is below its generation, and else to the back of the
// free pages.
fn release_first(free: &mut VecDeque<u32>, held: &mut VecDeque<Held>, least: Option<u64>)
    requires { length free.old.items + length held.old.items ≤ deque_capacity free.old }
    ensures released { (old_free : List ℕ) (old_held : List HeldPage) (left : ℕ) →
        IsReleasing least old_free old_held free.old.items held.old.items (left + 1) →
        IsReleasing least old_free old_held free.new.items held.new.items left }
    ensures free_room { deque_capacity free.old ≤ deque_capacity free.new }
    ensures held_room { deque_capacity held.old ≤ deque_capacity held.new }
    ensures fewer { length free.new.items + length held.new.items ≤ length free.old.items + length held.old.items }
    ensures shorter { length held.new.items ≤ length held.old.items }
{
    if let Some(first) = held.pop_front() {
        if is_below(least, first.generation) {
            held.push_back_reserved(first);
        } else {
            free.push_back_reserved(first.page);
        }
    }
}

/// Frees each held page, unless the least pin is below its generation.
/// Clauses: what is asked of the caller (`free_ascend`, `held_ascend`, `apart`, `room`); what changes (`free`, `held`); room that is not
/// lost (`free_room`, `held_room`); lengths that do not grow (`fewer`, `shorter`).
pub fn release(free: &mut VecDeque<u32>, held: &mut VecDeque<Held>, least: Option<u64>)
    requires free_ascend { Ascends 0 free.old.items }
    requires held_ascend { Ascends 0 (held_pages held.old.items) }
    requires apart { AllByRecursion (λ h. times h.page free.old.items ≡ 0) held.old.items }
    requires room { length free.old.items + length held.old.items ≤ deque_capacity free.old }
    ensures free { free.new.items ≡ with_pages (freed_below least held.old.items) free.old.items }
    ensures held { held.new.items ≡ held_below least held.old.items }
    ensures free_room { deque_capacity free.old ≤ deque_capacity free.new }
    ensures held_room { deque_capacity held.old ≤ deque_capacity held.new }
    ensures fewer { length free.new.items + length held.new.items ≤ length free.old.items + length held.old.items }
    ensures shorter { length held.new.items ≤ length held.old.items }
{
    let count = held.len();
    for _ in 0..count {
        release_first(free, held, least);
    }
    sort_pages(free);
}

/// Returns the pages from 3 up that a walk didn't open.
pub fn unopened(alloc: Global, opened: &[bool], count: usize) -> Result<VecDeque<u32>, AllocError>
    requires { length opened.now < 2 ^ 32 }
    ensures outside { IfOk result (λ free. (tree : List ℕ) → AreOpened opened.now tree →
        free.items ≡ outside_pages (length opened.now) tree) }
    ensures numbers { IfOk result (λ free. AreNumbers (length opened.now) free.items) }
{
    let mut free = VecDeque::with_capacity(alloc, opened.len().saturating_sub(count))?;
    for page in 3..opened.len() {
        if !opened[page] {
            free.push_back(page as u32)?;
        }
    }
    Ok(free)
}
