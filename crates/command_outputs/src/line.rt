//! Parts of lines.
ghost use Rattle.std.specs.Prelude.{◌≡◌, ◌++◌, OnOk};
ghost use Rattle.std.specs.Fmt.{decimal};

use std::alloc::AllocError;

/// Puts a word and a number behind the text.
pub fn put_count(out: &mut Vec<u8>, word: &[u8], count: usize) -> Result<(), AllocError>
    ensures { OnOk result (out.new.items ≡ out.old.items ++ word.now ++ decimal count) }
{
    out.extend_from_slice(word)?;
    let text = count.to_string(*out.allocator())?;
    out.extend_from_slice(text.as_bytes())
}
