//! How a value lies behind a lock.
ghost use Rattle.std.specs.Prelude.{◌≡◌, IfErr, IfOk};

use crate::chronicle::Chronicle;
use std::alloc::Global;

/// A value on the heap, so that a turn moves a pointer, and not the value.
pub(crate) struct Boxed<V> {
    pub held: Box<V>,
}

impl<V: Chronicle> Chronicle for Boxed<V> {
    type Entry = V::Entry;

    ghost entries = { λ b. V.entries b.held.value };

    ghost by = { V.by };
}

impl<V> Boxed<V> {
    /// Puts the value on the heap. It comes back where there is no memory for that.
    pub(crate) fn of(alloc: Global, value: V) -> Result<Boxed<V>, V>
        ensures held { IfOk result (λ boxed. boxed.held.value ≡ value) }
        ensures refused { IfErr result (λ back. back ≡ value) }
    {
        match Box::new(alloc, value) {
            Ok(held) => Ok(Boxed { held }),
            Err(failed) => Err(failed.value),
        }
    }

    /// Takes the value off the heap.
    pub(crate) fn into_value(self) -> V
        ensures { result ≡ self.held.value }
    {
        let Boxed { held } = self;
        Box::into_inner(held)
    }
}
