//! Texts: what a GUID is made of.
ghost use Rattle.std.specs.Prelude.{◌≡◌, ◌≤◌, length};
ghost use Rattle.std.specs.List.{list_any};
ghost use Rattle.std.specs.Str.{is_utf8};
ghost use Rattle.command_words.specs.Texts.{text_read, is_text, is_control};

use std::marker::Model;

/// The most bytes of a text.
pub const TEXT_MAX: usize = 255;

/// 1 to 255 bytes of UTF-8 without a control byte, kept inline. Contracts see the list of its bytes.
#[derive(Clone, Copy, Debug)]
pub struct Text {
    bytes: [u8; 255],
    len: usize,
}

impl Model for Text {
    ghost use Rattle.std.specs.Prelude.{List, ℕ, length, take};
    ghost use Rattle.fw_base.specs.Padded.{IsPadded, padded};
    ghost use Rattle.fw_base.specs.Padded.{kept_again};

    ghost Value = { List ℕ };

    ghost view = { λ s. take s.len s.bytes };

    ghost invariant = { λ s. IsPadded 255 s.bytes s.len };

    ghost inverse = { λ xs. record { bytes = padded 255 xs; len = length xs } };

    ghost use Rattle.command_words.specs.declared.text.Text.TheInside.{Inside};

    ghost inverse_ok = { λ a h. kept_again {X = Inside} (λ b n. record { bytes = b; len = n }) 255 a.bytes a.len h };
}

impl Text {
    /// Reads a text.
    pub fn read(bytes: &[u8]) -> Option<Text>
        ensures { result ≡ text_read bytes.now }
    {
        if is_text(bytes) {
            Some(Text::keep(bytes))
        } else {
            None
        }
    }

    fn keep(bytes: &[u8]) -> Text
        requires { length bytes.now ≤ 255 }
        ensures { result ≡ bytes.now }
    {
        let mut kept = [0; 255];
        kept[..bytes.len()].copy_from_slice(bytes);
        Text {
            bytes: kept,
            len: bytes.len(),
        }
    }

    /// The bytes of the text.
    pub fn bytes(&self) -> &[u8]
        ensures { result.now ≡ self.now }
    {
        &self.bytes[..self.len]
    }
}

/// Whether bytes are a text.
pub fn is_text(bytes: &[u8]) -> bool
    ensures text { result ≡ is_text bytes.now }
{
    !bytes.is_empty() && bytes.len() <= TEXT_MAX && !has_control(bytes) && is_utf8(bytes)
}

fn has_control(bytes: &[u8]) -> bool
    ensures { result ≡ list_any is_control bytes.now }
{
    bytes.iter().any(|b| *b < 0x20 || *b == 0x7f)
}

fn is_utf8(bytes: &[u8]) -> bool
    ensures { result ≡ is_utf8 bytes.now }
{
    str::from_utf8(bytes).is_ok()
}
