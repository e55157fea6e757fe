//! Where bytes come from.
ghost use Rattle.std.specs.Prelude.{◌≡◌, ◌≤◌, ◌<◌, ℕ, List, Option, length, take, vec_len, OnOk, OnErr, IfOk, IsErrOf};
ghost use Rattle.outer_traits.specs.Faults.{Rose};
ghost use Rattle.outer_traits.specs.Sources.{Came, AtEnd, SomeCame, MoreCame};

use crate::failed::Failed;
use std::alloc::{AllocError, Global};
use thiserror::Error;

/// Gives bytes until its end. It may tell those that are left.
pub trait Source {
    /// The bytes that are left, if it tells them.
    ghost left: { Self → Option (List ℕ) };

    /// How often it failed, up to 2^64 - 1.
    ghost faults: { Self → ℕ };

    /// Puts the next bytes at the front of `into` and says how many. None, for a slice that has room,
    /// is the end of the input. After a fault it has left what it had.
    fn read(&mut self, into: &mut [u8]) -> Result<usize, Failed>
        ensures bound { IfOk result (λ n. n ≤ length into.new) }
        ensures came { IfOk result (λ n. Came (take n into.new) (left self.old) (left self.new)) }
        ensures ended { IfOk result (λ n. n ≡ 0 → 0 < length into.new → AtEnd (left self.new)) }
        ensures unchanged { OnErr result (left self.new ≡ left self.old) }
        ensures cause { OnErr result (Rose (faults self.old) (faults self.new)) }
        ensures quiet { OnOk result (faults self.new ≡ faults self.old) }
        ensures counts { faults self.old ≤ faults self.new };
}

/// Why a whole input was not read.
#[derive(Clone, Copy, Debug, PartialEq, Eq, Error)]
pub enum ReadStop {
    #[error("the input could not be read")]
    SourceFault,
    #[error("the input is too long")]
    TooLong,
    #[error("out of memory")]
    NoMemory,
}

impl From<Failed> for ReadStop {
    ghost use Rattle.std.specs.Prelude.{◌≡◌};
    ghost use Rattle.outer_traits.specs.declared.source.ReadStop.TheVariants.{SourceFault};

    ghost from_gives = { λ _ e. e ≡ SourceFault };

    fn from(_e: Failed) -> ReadStop {
        ReadStop::SourceFault
    }
}

impl From<AllocError> for ReadStop {
    ghost use Rattle.std.specs.Prelude.{◌≡◌};
    ghost use Rattle.outer_traits.specs.declared.source.ReadStop.TheVariants.{NoMemory};

    ghost from_gives = { λ _ e. e ≡ NoMemory };

    fn from(_e: AllocError) -> ReadStop {
        ReadStop::NoMemory
    }
}

// How many bytes are asked for at a time.
const PIECE: usize = 4096;

/// Reads an input to its end, if that comes within `limit` bytes.
///
/// `TooLong` comes as soon as more bytes than that came, `SourceFault` where a read failed before.
pub fn read_whole<S: Source>(
    alloc: Global,
    source: &mut S,
    limit: usize,
) -> Result<Vec<u8>, ReadStop>
    ensures whole { IfOk result (λ bytes. Came bytes.items (S.left source.old) (S.left source.new)) }
    ensures ended { OnOk result (AtEnd (S.left source.new)) }
    ensures within { IfOk result (λ bytes. vec_len bytes ≤ limit) }
    ensures too_long { IsErrOf result ReadStop.TooLong → MoreCame limit (S.left source.old) (S.left source.new) }
    ensures fault { IsErrOf result ReadStop.SourceFault → Rose (S.faults source.old) (S.faults source.new) }
    ensures quiet { OnOk result (S.faults source.new ≡ S.faults source.old) }
    ensures quiet_too_long { IsErrOf result ReadStop.TooLong → S.faults source.new ≡ S.faults source.old }
    ensures quiet_no_memory { IsErrOf result ReadStop.NoMemory → S.faults source.new ≡ S.faults source.old }
    ensures front { OnErr result (SomeCame (S.left source.old) (S.left source.new)) }
    ensures counts { S.faults source.old ≤ S.faults source.new }
{
    let mut buffer = [0u8; PIECE];
    read_by_pieces(alloc, source, limit, &mut buffer)
}

// Reads an input to its end by way of a buffer.
fn read_by_pieces<S: Source>(
    alloc: Global,
    source: &mut S,
    limit: usize,
    buffer: &mut [u8],
) -> Result<Vec<u8>, ReadStop>
    requires { 0 < length buffer.old }
    ensures whole { IfOk result (λ bytes. Came bytes.items (S.left source.old) (S.left source.new)) }
    ensures ended { OnOk result (AtEnd (S.left source.new)) }
    ensures within { IfOk result (λ bytes. vec_len bytes ≤ limit) }
    ensures too_long { IsErrOf result ReadStop.TooLong → MoreCame limit (S.left source.old) (S.left source.new) }
    ensures fault { IsErrOf result ReadStop.SourceFault → Rose (S.faults source.old) (S.faults source.new) }
    ensures quiet { OnOk result (S.faults source.new ≡ S.faults source.old) }
    ensures quiet_too_long { IsErrOf result ReadStop.TooLong → S.faults source.new ≡ S.faults source.old }
    ensures quiet_no_memory { IsErrOf result ReadStop.NoMemory → S.faults source.new ≡ S.faults source.old }
    ensures front { OnErr result (SomeCame (S.left source.old) (S.left source.new)) }
    ensures counts { S.faults source.old ≤ S.faults source.new }
{
    let mut bytes = Vec::new(alloc);
    loop {
        let count = source.read(buffer)?;
        if count == 0 {
            return Ok(bytes);
        }
        if count > limit - bytes.len() {
            return Err(ReadStop::TooLong);
        }
        bytes.extend_from_slice(&buffer[..count])?;
    }
}
