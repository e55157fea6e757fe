//! The commands that take values alone. The words before `--` don't begin with `-` here.
ghost use Rattle.std.specs.Prelude.{◌≡◌, ◌+◌, ◌++◌, ◌&&◌, [], ◌∷◌, map, length, nat_le, true, if◌then◌else◌, Some, None, OnOk, IfOk};
ghost use Rattle.std.specs.List.{list_all};
ghost use Rattle.std.specs.Option.{option_copied};
ghost use Rattle.command_words.specs.Commands.{Reads, alone, explain_of, explained, ids_of, is_none, plan_of, sole_of, tag_of, tag_read, update_of};
ghost use Rattle.command_words.specs.Texts.{is_text};

use crate::command::{Command, WordsFault};
use crate::text::{Text, is_text};
use fw_base::{Listed, Name};
use std::alloc::{AllocError, Global};
use version_formats::Version;

/// The most texts of `ids`.
const TEXTS_MAX: usize = 64;

/// The most bytes of a tag from which those of a plan's installs are made.
const TAG_MAX: usize = 56;

/// Whether two lists have no word.
pub fn is_none(before: &[&[u8]], behind: &[&[u8]]) -> bool
    ensures { result ≡ is_none (map (λ word. word.now) before.now ++ map (λ word. word.now) behind.now) }
{
    match before {
        [] => match behind {
            [] => true,
            [_, ..] => false,
        },
        [_, ..] => false,
    }
}

/// The one word of three lists.
pub fn sole<'a>(front: &[&'a [u8]], more: &[&'a [u8]], behind: &[&'a [u8]]) -> Option<&'a [u8]>
    ensures { option_copied result ≡ sole_of (map (λ word. word.now) front.now ++ map (λ word. word.now) more.now ++ map (λ word. word.now) behind.now) }
{
    match front {
        [] => match more {
            [] => match behind {
                [] => None,
                [word, rest @ ..] => sole_if(word, is_none(&[], rest)),
            },
            [word, rest @ ..] => sole_if(word, is_none(rest, behind)),
        },
        [word, rest @ ..] => sole_if(word, rest.is_empty() && is_none(more, behind)),
    }
}

fn sole_if(word: &[u8], is_sole: bool) -> Option<&[u8]>
    ensures { option_copied result ≡ (if is_sole then Some word.now else None) }
{
    if is_sole { Some(word) } else { None }
}

/// A command that takes no value.
pub fn alone(command: Command, before: &[&[u8]], behind: &[&[u8]]) -> Option<Command>
    ensures { result ≡ alone command (map (λ word. word.now) before.now ++ map (λ word. word.now) behind.now) }
{
    if is_none(before, behind) {
        Some(command)
    } else {
        None
    }
}

/// A port and a version.
pub fn explain(before: &[&[u8]], behind: &[&[u8]]) -> Option<Command>
    ensures { result ≡ explain_of (map (λ word. word.now) before.now ++ map (λ word. word.now) behind.now) }
{
    match before {
        [] => match behind {
            [] => None,
            [port, rest @ ..] => explain_port(port, &[], rest),
        },
        [port, rest @ ..] => explain_port(port, rest, behind),
    }
}

/// A port, and what stands behind it.
fn explain_port(port: &[u8], before: &[&[u8]], behind: &[&[u8]]) -> Option<Command>
    ensures { result ≡ explain_of (port.now ∷ (map (λ word. word.now) before.now ++ map (λ word. word.now) behind.now)) }
{
    match before {
        [] => match behind {
            [] => None,
            [version, rest @ ..] => explain_version(port, version, &[], rest),
        },
        [version, rest @ ..] => explain_version(port, version, rest, behind),
    }
}

/// A port and a version, and what stands behind them.
fn explain_version(
    port: &[u8],
    version: &[u8],
    before: &[&[u8]],
    behind: &[&[u8]],
) -> Option<Command>
    ensures { result ≡ explain_of (port.now ∷ version.now ∷ (map (λ word. word.now) before.now ++ map (λ word. word.now) behind.now)) }
{
    if is_none(before, behind) {
        explained(port, version)
    } else {
        None
    }
}

fn explained(port: &[u8], version: &[u8]) -> Option<Command>
    ensures { result ≡ explained port.now version.now }
{
    let port = Name::read(port).ok()?;
    let version = Version::read(version).ok()?;
    Some(Command::Explain { port, version })
}

/// The tag from which those of the planned installs are made.
pub fn plan<'a>(before: &[&'a [u8]], behind: &[&'a [u8]]) -> Option<Command>
    ensures { result ≡ plan_of (map (λ word. word.now) before.now ++ map (λ word. word.now) behind.now) }
{
    let tag = tag(before, behind)?;
    Some(Command::Plan { tag })
}

/// The tag from which those of the installs are made that are planned and played.
pub fn update<'a>(before: &[&'a [u8]], behind: &[&'a [u8]]) -> Option<Command>
    ensures { result ≡ update_of (map (λ word. word.now) before.now ++ map (λ word. word.now) behind.now) }
{
    let tag = tag(before, behind)?;
    Some(Command::Update { tag })
}

/// The one word, where it is a tag.
fn tag<'a>(before: &[&'a [u8]], behind: &[&'a [u8]]) -> Option<Name>
    ensures { result ≡ tag_of (map (λ word. word.now) before.now ++ map (λ word. word.now) behind.now) }
{
    tag_in(sole(&[], before, behind)?)
}

/// A name that is short enough for a tag.
fn tag_in(word: &[u8]) -> Option<Name>
    ensures { result ≡ tag_read word.now }
{
    if word.len() <= TAG_MAX {
        Name::read(word).ok()
    } else {
        None
    }
}

/// 1 to 64 texts.
pub fn ids(alloc: Global, before: &[&[u8]], behind: &[&[u8]]) -> Result<Command, WordsFault>
    ensures { Reads (ids_of (map (λ word. word.now) before.now ++ map (λ word. word.now) behind.now)) result }
{
    if !are_texts(before, behind) {
        return Err(WordsFault::Usage);
    }
    Ok(Command::Ids {
        texts: Listed::of(texts(alloc, before, behind)?),
    })
}

/// Whether these are 1 to 64 texts.
fn are_texts(before: &[&[u8]], behind: &[&[u8]]) -> bool
    ensures { result ≡ (nat_le 1 (length before.now + length behind.now) && (nat_le (length before.now + length behind.now) 64 && (list_all is_text (map (λ word. word.now) before.now) && list_all is_text (map (λ word. word.now) behind.now)))) }
{
    let few = before.len() <= TEXTS_MAX && behind.len() <= TEXTS_MAX - before.len();
    few && !(before.is_empty() && behind.is_empty()) && all_texts(before) && all_texts(behind)
}

fn all_texts(words: &[&[u8]]) -> bool
    ensures { result ≡ list_all is_text (map (λ word. word.now) words.now) }
{
    are_all_texts(words)
}

fn are_all_texts(words: &[&[u8]]) -> bool
    ensures { result ≡ list_all (λ word. is_text word.now) words.now }
{
    words.iter().all(|word| is_text(word))
}

/// Words that are texts, as texts.
fn texts(alloc: Global, before: &[&[u8]], behind: &[&[u8]]) -> Result<Vec<Text>, AllocError>
    requires before { list_all is_text (map (λ word. word.now) before.now) ≡ true }
    requires behind { list_all is_text (map (λ word. word.now) behind.now) ≡ true }
    ensures { IfOk result (λ texts. texts.items ≡ map (λ word. word.now) before.now ++ map (λ word. word.now) behind.now) }
{
    let mut texts = Vec::new(alloc);
    push_texts(&mut texts, before)?;
    push_texts(&mut texts, behind)?;
    Ok(texts)
}

fn push_texts(texts: &mut Vec<Text>, words: &[&[u8]]) -> Result<(), AllocError>
    requires { list_all is_text (map (λ word. word.now) words.now) ≡ true }
    ensures { OnOk result (texts.new.items ≡ texts.old.items ++ map (λ word. word.now) words.now) }
{
    for word in words {
        push_text(texts, word)?;
    }
    Ok(())
}

fn push_text(texts: &mut Vec<Text>, word: &[u8]) -> Result<(), AllocError>
    requires { is_text word.now ≡ true }
    ensures { OnOk result (texts.new.items ≡ texts.old.items ++ word.now ∷ []) }
{
    match Text::read(word) {
        Some(text) => {
            texts.push(text)?;
            Ok(())
        }
        None => unreachable!(),
    }
}
