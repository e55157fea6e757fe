//! Lists in data types.
ghost use Rattle.std.specs.Prelude.{◌≡◌};

use std::marker::Model;

/// A vector that contracts see as the list of its items, and not as a place in memory.
#[derive(Debug, Drop)]
pub struct Listed<T> {
    inner: Vec<T>,
}

impl<T> Model for Listed<T> {
    ghost use Rattle.std.specs.Prelude.{List};

    ghost Value = { List T };

    ghost view = { λ s. s.inner.items };
}

impl<T> Listed<T> {
    /// The list of a vector's items. No item is copied or moved.
    pub fn of(items: Vec<T>) -> Listed<T>
        ensures { result ≡ items.items }
    {
        Listed { inner: items }
    }

    /// The items, in order.
    pub fn items(&self) -> &[T]
        ensures { result.now ≡ self.now }
    {
        self.inner.as_slice()
    }

    /// The vector of the items.
    pub fn into_items(self) -> Vec<T>
        ensures { result.items ≡ self }
    {
        let Listed { inner } = self;
        inner
    }
}
