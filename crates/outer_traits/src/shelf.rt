//! Where payloads lie.
ghost use Rattle.std.specs.Prelude.{◌≡◌, ◌≤◌, ◌<◌, ℕ, List, Option, option_map, length, take, OnOk, OnErr, IfOk, IfSome};
ghost use Rattle.outer_traits.specs.Faults.{Rose};
ghost use Rattle.outer_traits.specs.Shelves.{file_of, bytes_of, StandsAt};

use crate::failed::Failed;
use fw_base::Digest;

/// Holds files under digests. It may tell them, and no call changes them.
pub trait Shelf {
    /// Its files, if it tells them.
    ghost files: { Self → Option (List (List ℕ × List ℕ)) };

    /// How often it failed, up to 2^64 - 1.
    ghost faults: { Self → ℕ };

    /// How many bytes lie under the name; `None` where the name isn't there.
    fn length(&mut self, name: &Digest) -> Result<Option<u64>, Failed>
        ensures answer { IfOk result (λ answer. IfSome (files self.old) (λ all. answer ≡ option_map length (file_of all name.now))) }
        ensures unchanged { files self.new ≡ files self.old }
        ensures cause { OnErr result (Rose (faults self.old) (faults self.new)) }
        ensures quiet { OnOk result (faults self.new ≡ faults self.old) }
        ensures counts { faults self.old ≤ faults self.new };

    /// Puts the bytes from that place on at the front of `into` and says how many. None, for a slice
    /// that has room, comes at the file's end alone. A name that isn't there has no bytes.
    fn read(&mut self, name: &Digest, at: u64, into: &mut [u8]) -> Result<usize, Failed>
        ensures bound { IfOk result (λ n. n ≤ length into.new) }
        ensures bytes { IfOk result (λ n. IfSome (files self.old) (λ all. StandsAt (bytes_of all name.now) at (take n into.new))) }
        ensures ended { IfOk result (λ n. n ≡ 0 → 0 < length into.new → IfSome (files self.old) (λ all. length (bytes_of all name.now) ≤ at)) }
        ensures unchanged { files self.new ≡ files self.old }
        ensures cause { OnErr result (Rose (faults self.old) (faults self.new)) }
        ensures quiet { OnOk result (faults self.new ≡ faults self.old) }
        ensures counts { faults self.old ≤ faults self.new };
}
