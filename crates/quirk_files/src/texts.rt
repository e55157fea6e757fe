//! What stands between blanks and commas.
ghost use Rattle.std.specs.Prelude.{◌≡◌, ◌==◌, [], ◌∷◌, ◌++◌, if◌then◌else◌, map, IfOk, OnOk};
ghost use Rattle.std.specs.List.{list_all, slice_split};
ghost use Rattle.std.specs.Str.{is_utf8};
ghost use Rattle.quirk_files.specs.Texts.{elements_among, is_empty, is_blank, is_text, is_text_byte, trimmed, without_front, without_back};

use fw_base::NoMemory;
use std::alloc::Global;

/// Whether the line is text: UTF-8 without control bytes other than tabs.
pub fn is_text(line: &[u8]) -> bool
    ensures { result ≡ is_text line.now }
{
    has_text_bytes(line) && is_utf8(line)
}

fn has_text_bytes(line: &[u8]) -> bool
    ensures { result ≡ list_all is_text_byte line.now }
{
    line.iter().all(|b| is_text_byte(*b))
}

fn is_text_byte(b: u8) -> bool
    ensures { result ≡ is_text_byte b }
{
    !((b < 0x20 && b != b'\t') || b == 0x7f)
}

fn is_utf8(line: &[u8]) -> bool
    ensures { result ≡ is_utf8 line.now }
{
    str::from_utf8(line).is_ok()
}

/// The text without the spaces and tabs at both ends.
pub fn trimmed(text: &[u8]) -> &[u8]
    ensures { result.now ≡ trimmed text.now }
{
    without_back(without_front(text))
}

fn without_front(text: &[u8]) -> &[u8]
    ensures { result.now ≡ without_front text.now }
{
    let mut start = 0;
    while start < text.len() && is_blank(text[start]) {
        start += 1;
    }
    &text[start..]
}

fn without_back(text: &[u8]) -> &[u8]
    ensures { result.now ≡ without_back text.now }
{
    let mut end = text.len();
    while end > 0 && is_blank(text[end - 1]) {
        end -= 1;
    }
    &text[..end]
}

fn is_blank(b: u8) -> bool
    ensures { result ≡ is_blank b }
{
    b == b' ' || b == b'\t'
}

/// The parts of a text between separators.
pub fn parts(alloc: Global, text: &[u8], separator: u8) -> Result<Vec<&[u8]>, NoMemory>
    ensures { IfOk result (λ parts. map (λ part. part.now) parts.items ≡ slice_split (λ b. b == separator) text.now) }
{
    let parts = text.split(|b| *b == separator).collect(alloc)?;
    Ok(parts)
}

/// Puts the elements of a comma list behind others, of which these are the parts.
pub fn push_elements<'a>(elements: &mut Vec<&'a [u8]>, parts: &[&'a [u8]]) -> Result<(), NoMemory>
    ensures { OnOk result (map (λ element. element.now) elements.new.items ≡ map (λ element. element.now) elements.old.items ++ elements_among (map (λ part. part.now) parts.now)) }
{
    for part in parts {
        push_element(elements, trimmed(part))?;
    }
    Ok(())
}

fn push_element<'a>(elements: &mut Vec<&'a [u8]>, element: &'a [u8]) -> Result<(), NoMemory>
    ensures { OnOk result (map (λ element. element.now) elements.new.items ≡ map (λ element. element.now) elements.old.items ++ (if is_empty element.now then [] else element.now ∷ [])) }
{
    if !element.is_empty() {
        elements.push(element)?;
    }
    Ok(())
}
