//! The words behind a command's name, parted at `--`.
ghost use Rattle.std.specs.Prelude.{◌≡◌, ◌≤◌, ◌+◌, drop, length, map, position};
ghost use Rattle.std.specs.List.{after_first, before_first, list_any, position_or_len};
ghost use Rattle.command_words.specs.Parts.{is_dashed, is_end};

/// The words before the first `--`, and those behind it.
#[derive(Clone, Copy)]
pub struct Parts<'a> {
    pub before: &'a [&'a [u8]],
    pub behind: &'a [&'a [u8]],
}

/// Parts words at the first `--`.
pub fn part<'a>(words: &'a [&'a [u8]]) -> Parts<'a>
    ensures before { map (λ word. word.now) result.before.now ≡ before_first is_end (map (λ word. word.now) words.now) }
    ensures behind { map (λ word. word.now) result.behind.now ≡ after_first is_end (map (λ word. word.now) words.now) }
{
    let at = end_place(words);
    let (before, _) = words.split_at(at);
    Parts {
        before,
        behind: words_behind(words, at),
    }
}

/// The place of the first `--`, or behind all words where there is none.
fn end_place(words: &[&[u8]]) -> usize
    ensures place { result ≡ position_or_len is_end (map (λ word. word.now) words.now) }
    ensures within { result ≤ length words.now }
{
    end_among(words).unwrap_or(words.len())
}

fn end_among(words: &[&[u8]]) -> Option<usize>
    ensures { result ≡ position (λ word. is_end word.now) words.now }
{
    words.iter().position(|word| is_end(word))
}

fn is_end(word: &[u8]) -> bool
    ensures { result ≡ is_end word.now }
{
    word == b"--".as_slice()
}

/// The words behind a place.
fn words_behind<'a>(words: &'a [&'a [u8]], at: usize) -> &'a [&'a [u8]]
    requires { at ≤ length words.now }
    ensures { map (λ word. word.now) result.now ≡ drop (at + 1) (map (λ word. word.now) words.now) }
{
    if at == words.len() {
        return &[];
    }
    let (_, behind) = words.split_at(at + 1);
    behind
}

/// Whether a word begins with `-`.
pub fn any_dashed(words: &[&[u8]]) -> bool
    ensures { result ≡ list_any is_dashed (map (λ word. word.now) words.now) }
{
    has_dashed(words)
}

fn has_dashed(words: &[&[u8]]) -> bool
    ensures { result ≡ list_any (λ word. is_dashed word.now) words.now }
{
    words.iter().any(|word| is_dashed(word))
}

fn is_dashed(word: &[u8]) -> bool
    ensures { result ≡ is_dashed word.now }
{
    word.starts_with(b"-")
}
