//! The words of generated sites.
ghost use Rattle.std.specs.Prelude.{◌≡◌, ◌++◌, ◌∷◌, [], IfOk, IsOk, Ok, codes};
ghost use Rattle.std.specs.Fmt.{decimal};
ghost use Rattle.fw_base.specs.Names.{name_read};
ghost use Rattle.version_formats.specs.Versions.{version_read};
ghost use Rattle.site_making.specs.Made.{board_guid, new_version};

use client_scripts::parts::put_number;
use fw_base::{Name, NoMemory};
use guid_ids::{Guid, guid_of};
use std::alloc::Global;
use version_formats::Version;

/// The payload of the version that is installed.
pub(crate) const NEW_PAYLOAD: &[u8] = b"EMU1 01010000\n";

/// The image of each board at first.
pub(crate) const FIRST_IMAGE: &[u8] = b"EMU1 01000000\n";

/// The name that is written so.
pub(crate) fn name(word: &[u8]) -> Name
    requires { IsOk (name_read word.now) }
    ensures { result ≡ word.now }
{
    match Name::read(word) {
        Ok(name) => name,
        Err(_) => unreachable!(),
    }
}

/// The version that is written so.
pub(crate) fn version(word: &[u8]) -> Version
    requires { IsOk (version_read word.now) }
    ensures { result ≡ word.now }
{
    match Version::read(word) {
        Ok(version) => version,
        Err(_) => unreachable!(),
    }
}

/// The version that is installed.
pub(crate) fn new_version() -> Version
    ensures { result ≡ new_version }
{
    version(b"1.1.0")
}

/// What every board is.
pub(crate) fn board_guid() -> Guid
    ensures { result ≡ board_guid }
{
    guid_of(b"EMU\\BOARD")
}

/// A letter with a number behind it.
pub(crate) fn numbered(alloc: Global, letter: u8, number: u32) -> Result<Vec<u8>, NoMemory>
    ensures { IfOk result (λ text. text.items ≡ letter ∷ [] ++ decimal number) }
{
    let mut text = Vec::new(alloc);
    text.push(letter)?;
    put_number(&mut text, u64::from(number))?;
    Ok(text)
}

/// The same as a name.
pub(crate) fn numbered_name(alloc: Global, letter: u8, number: u32) -> Result<Name, NoMemory>
    requires { IsOk (name_read (letter ∷ [] ++ decimal number)) }
    ensures { IfOk result (λ name. name ≡ letter ∷ [] ++ decimal number) }
{
    let text = numbered(alloc, letter, number)?;
    Ok(name(&text))
}
