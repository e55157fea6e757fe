//! What the forms in memory share: the front of one slice goes to the front of another.
ghost use Rattle.std.specs.Prelude.{◌≡◌, min, length, take};

/// Copies as many bytes as both slices have, at most `most`, and says how many.
pub fn copy_front(from: &[u8], most: usize, into: &mut [u8]) -> usize
    ensures count { result ≡ min (min most (length into.old)) (length from.now) }
    ensures bytes { take result into.new ≡ take result from.now }
{
    let count = most.min(into.len()).min(from.len());
    into[..count].copy_from_slice(&from[..count]);
    count
}
