//! Texts as JSON strings, byte by byte (RFC 8259, section 7).
//!
//! A name is a list of bytes to contracts, and not a text of UTF-8, so that it is escaped here and not by a writer of
//! texts. What is written is `quoted` of the kit's JSON, for any bytes.
ghost use Rattle.std.specs.Prelude.{◌≡◌, ◌<◌, ◌++◌, ◌∷◌, [], OnOk};
ghost use Rattle.std.specs.Char.{digit_char};
ghost use Rattle.json.specs.Print.{escape, escape_byte, escape_letter, quoted};

use std::alloc::AllocError;

/// Puts the bytes as a JSON string behind the text.
pub fn put_quoted(out: &mut Vec<u8>, bytes: &[u8]) -> Result<(), AllocError>
    ensures { OnOk result (out.new.items ≡ out.old.items ++ quoted bytes.now) }
{
    out.extend_from_slice(b"\"")?;
    put_escaped(out, bytes)?;
    out.extend_from_slice(b"\"")
}

fn put_escaped(out: &mut Vec<u8>, bytes: &[u8]) -> Result<(), AllocError>
    ensures { OnOk result (out.new.items ≡ out.old.items ++ escape bytes.now) }
{
    for byte in bytes {
        put_escaped_byte(out, *byte)?;
    }
    Ok(())
}

#[tactic(auto, unfolding(json::specs::Print::escape_byte))]
fn put_escaped_byte(out: &mut Vec<u8>, byte: u8) -> Result<(), AllocError>
    ensures { OnOk result (out.new.items ≡ out.old.items ++ escape_byte byte) }
{
    let letter = escape_letter(byte);
    if letter > 0 {
        out.extend_from_slice(&[b'\\', letter])
    } else if byte < 32 {
        out.extend_from_slice(&[
            b'\\',
            b'u',
            b'0',
            b'0',
            hex_digit(byte / 16),
            hex_digit(byte % 16),
        ])
    } else {
        out.extend_from_slice(&[byte])
    }
}

// The letter of the short escape, or 0 where there is none.
fn escape_letter(byte: u8) -> u8
    ensures { result ≡ escape_letter byte }
{
    match byte {
        b'"' | b'\\' => byte,
        8 => b'b',
        12 => b'f',
        b'\n' => b'n',
        b'\r' => b'r',
        b'\t' => b't',
        _ => 0,
    }
}

fn hex_digit(value: u8) -> u8
    requires { value < 16 }
    ensures { result ≡ digit_char value }
{
    if value < 10 {
        b'0' + value
    } else {
        b'a' + (value - 10)
    }
}
