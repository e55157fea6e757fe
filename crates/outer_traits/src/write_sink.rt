//! A writer of std as a sink.
ghost use Rattle.std.specs.Prelude.{◌≡◌, Some, IfSome};

use crate::failed::Failed;
use crate::sink::Sink;
use std::io::Write;
use std::marker::Model;
use std::snapshot::Snapshot;

/// Writes to any writer of std, and tells what std knows of the bytes that the writer holds: nothing, if nothing was
/// known of them as the writer was given. A writer that takes none of a piece has failed. Contracts see what is told
/// and the count of faults.
#[derive(Drop)]
pub struct WriteSink<W: Write> {
    inner: W,
    given: Snapshot<W>,
    faults: u64,
}

impl<W: Write> Model for WriteSink<W> {
    ghost use Rattle.outer_traits.specs.Streams.{StreamOutput, known_since, StaysKnown};

    ghost Value = { StreamOutput };

    ghost view = { λ s. record { taken = known_since (W.contents s.given.value) (W.contents s.inner); faults = s.faults } };

    ghost invariant = { λ s. StaysKnown (W.contents s.given.value) (W.contents s.inner) };
}

impl<W: Write> WriteSink<W> {
    /// A sink over a writer, without a fault so far.
    pub fn new(inner: W) -> WriteSink<W>
        ensures { result ≡ record { taken = W.contents inner; faults = 0 } }
    {
        let given = Snapshot::of(&inner);
        WriteSink {
            inner,
            given,
            faults: 0,
        }
    }

    /// The writer, which holds what the sink took.
    pub fn into_inner(self) -> W
        ensures { IfSome self.taken (λ bytes. W.contents result ≡ Some bytes) }
    {
        self.inner
    }
}

impl<W: Write> Sink for WriteSink<W> {
    ghost taken = { λ s. s.taken };

    ghost faults = { λ s. s.faults };

    fn write(&mut self, piece: &[u8]) -> Result<usize, Failed> {
        match self.inner.write(piece) {
            Ok(count) if count > 0 || piece.is_empty() => Ok(count),
            _ => {
                self.faults = self.faults.saturating_add(1);
                Err(Failed)
            }
        }
    }
}
