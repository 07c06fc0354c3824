ghost use Rattle.std.specs.Prelude.{◌≡◌, ◌≤◌, ◌^◌};
ghost use Rattle.page_store.specs.Numbers.{number_at};

/// The pages that new nodes get.
#[derive(Clone, Copy)]
pub struct Numbering<'a> {
    /// Pages for the first new nodes, in strictly ascending order.
    pub numbers: &'a [u32],
    /// The page of the first new node beyond `numbers`; later nodes follow it.
    pub first: u32,
}

impl Numbering<'_> {
    /// Returns the page of the new node `place`, counted from 0.
    pub fn page_at(&self, place: usize) -> u32
        requires first { self.now.first ≤ 2 ^ 24 }
        requires few { place ≤ 2 ^ 26 }
        ensures { result ≡ number_at self.now.numbers.now self.now.first place }
    {
        if place < self.numbers.len() {
            self.numbers[place]
        } else {
            self.first + (place - self.numbers.len()) as u32
        }
    }
}
