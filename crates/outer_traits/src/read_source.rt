//! A reader of std as a source.
ghost use Rattle.std.specs.Prelude.{◌≡◌};

use crate::failed::Failed;
use crate::source::Source;
use std::io::Read;
use std::marker::Model;
use std::snapshot::Snapshot;

/// Reads from any reader of std, and tells what std knows of the bytes that the reader has left: nothing, if nothing
/// was known of them as the reader was given. Contracts see that and the count of faults.
#[derive(Drop)]
pub struct ReadSource<R: Read> {
    inner: R,
    given: Snapshot<R>,
    faults: u64,
}

impl<R: Read> Model for ReadSource<R> {
    ghost use Rattle.outer_traits.specs.Streams.{StreamInput, known_since, StaysKnown};

    ghost Value = { StreamInput };

    ghost view = { λ s. record { left = known_since (R.remaining s.given.value) (R.remaining s.inner); faults = s.faults } };

    ghost invariant = { λ s. StaysKnown (R.remaining s.given.value) (R.remaining s.inner) };
}

impl<R: Read> ReadSource<R> {
    /// A source over a reader, without a fault so far.
    pub fn new(inner: R) -> ReadSource<R>
        ensures { result ≡ record { left = R.remaining inner; faults = 0 } }
    {
        let given = Snapshot::of(&inner);
        ReadSource {
            inner,
            given,
            faults: 0,
        }
    }
}

impl<R: Read> Source for ReadSource<R> {
    ghost left = { λ s. s.left };

    ghost faults = { λ s. s.faults };

    fn read(&mut self, into: &mut [u8]) -> Result<usize, Failed> {
        match self.inner.read(into) {
            Ok(count) => Ok(count),
            Err(_) => {
                self.faults = self.faults.saturating_add(1);
                Err(Failed)
            }
        }
    }
}
