ghost use Rattle.std.specs.Prelude.{◌≡◌, List};

use std::marker::Model;

/// A `Vec` that contracts see as the list of its items.
#[derive(Drop)]
pub struct Listed<T: Drop> {
    items: Vec<T>,
}

impl<T: Drop> Model for Listed<T> {
    ghost Value = { List T };

    ghost view = { λ l. l.items.items };
}

impl<T: Drop> Listed<T> {
    /// Makes the list of `items`.
    pub fn new(items: Vec<T>) -> Self
        ensures { result ≡ items.items }
    {
        Listed { items }
    }

    /// Returns the items.
    pub fn as_slice(&self) -> &[T]
        ensures { result.now ≡ self.now }
    {
        self.items.as_slice()
    }

    /// Gives the items back.
    pub fn into_vec(self) -> Vec<T>
        ensures { result.items ≡ self }
    {
        self.items
    }
}
