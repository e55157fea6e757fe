//! The texts of a machine's firmware from which hardware IDs are made.
ghost use Rattle.std.specs.Prelude.{◌≡◌};
ghost use Rattle.std.specs.List.{list_all};
ghost use Rattle.guid_ids.specs.Identifiers.{smbios_read, is_smbios_byte};

use fw_base::Line;
use std::marker::Model;

/// 0 to 255 bytes of printable ASCII, each 0x20 to 0x7E, kept inline. Contracts see the list of its
/// bytes.
#[derive(Clone, Copy, Debug, PartialEq, Eq)]
pub struct SmbiosText {
    text: Line,
}

impl Model for SmbiosText {
    ghost use Rattle.std.specs.Prelude.{List, ℕ};

    ghost Value = { List ℕ };

    ghost view = { λ s. s.text };

    ghost inverse = { λ xs. record { text = xs } };
}

impl SmbiosText {
    /// Reads a text. Longer ones, and those with another byte, give nothing.
    pub fn read(bytes: &[u8]) -> Option<SmbiosText>
        ensures { result ≡ smbios_read bytes.now }
    {
        if !all_printable(bytes) {
            return None;
        }
        match Line::read(bytes) {
            Ok(text) => Some(SmbiosText { text }),
            Err(_) => None,
        }
    }

    /// The bytes of the text.
    pub fn bytes(&self) -> &[u8]
        ensures { result.now ≡ self.now }
    {
        self.text.bytes()
    }
}

fn all_printable(bytes: &[u8]) -> bool
    ensures { result ≡ list_all is_smbios_byte bytes.now }
{
    bytes.iter().all(|b| 0x20 <= *b && *b <= 0x7e)
}
