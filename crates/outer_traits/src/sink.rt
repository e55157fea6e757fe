//! Where bytes go.
ghost use Rattle.std.specs.Prelude.{◌≡◌, ◌≤◌, ◌<◌, ℕ, List, Option, length, take, OnOk, OnErr, IfOk};
ghost use Rattle.outer_traits.specs.Faults.{Rose};
ghost use Rattle.outer_traits.specs.Sinks.{Took, TookFront};

use crate::failed::Failed;

/// Takes bytes. It may tell those that it took.
pub trait Sink {
    /// The bytes that it took, if it tells them.
    ghost taken: { Self → Option (List ℕ) };

    /// How often it failed, up to 2^64 - 1.
    ghost faults: { Self → ℕ };

    /// Takes the first bytes of the piece, at least one where there is one, and says how many.
    /// A fault takes none.
    fn write(&mut self, piece: &[u8]) -> Result<usize, Failed>
        ensures bound { IfOk result (λ n. n ≤ length piece.now) }
        ensures some { IfOk result (λ n. 0 < length piece.now → 0 < n) }
        ensures took { IfOk result (λ n. Took (take n piece.now) (taken self.old) (taken self.new)) }
        ensures unchanged { OnErr result (taken self.new ≡ taken self.old) }
        ensures cause { OnErr result (Rose (faults self.old) (faults self.new)) }
        ensures quiet { OnOk result (faults self.new ≡ faults self.old) }
        ensures counts { faults self.old ≤ faults self.new };
}

/// Writes all of the bytes, or a front of them up to a fault.
pub fn write_whole<T: Sink>(out: &mut T, bytes: &[u8]) -> Result<(), Failed>
    ensures whole { OnOk result (Took bytes.now (T.taken out.old) (T.taken out.new)) }
    ensures front { OnErr result (TookFront bytes.now (T.taken out.old) (T.taken out.new)) }
    ensures cause { OnErr result (Rose (T.faults out.old) (T.faults out.new)) }
    ensures quiet { OnOk result (T.faults out.new ≡ T.faults out.old) }
    ensures counts { T.faults out.old ≤ T.faults out.new }
{
    let mut rest = bytes;
    while !rest.is_empty() {
        let count = out.write(rest)?;
        let (_, after) = rest.split_at(count);
        rest = after;
    }
    Ok(())
}
