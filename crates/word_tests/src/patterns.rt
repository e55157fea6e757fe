//! Globs and regular expressions as they are read and matched, and each settled point.
use fw_patterns::*;
use std::alloc::Global;

/// A pattern, texts that it stands for, and texts that it does not stand for.
type Row = (
    &'static [u8],
    &'static [&'static [u8]],
    &'static [&'static [u8]],
);

/// Regular expressions without classes.
const REGEXES: [Row; 20] = [
    (
        b"BOT01.0[0-3]_*",
        &[b"BOT01.02_xx", b"BOT01.00", b"xBOT01x03__"],
        &[b"BOT01.04", b"BOT01.0", b"OT01.02", b""],
    ),
    (b"", &[b"", b"x"], &[]),
    (b"^$", &[b""], &[b"x"]),
    (b"^", &[b"", b"x"], &[]),
    (b"$", &[b"", b"x"], &[]),
    (b"a|b", &[b"a", b"xbx"], &[b"c", b""]),
    (b"a|", &[b"", b"c"], &[]),
    (b"|a", &[b"", b"c"], &[]),
    (b"a||b", &[b"", b"c"], &[]),
    (b"^a|b$", &[b"ax", b"xb", b"ab"], &[b"xa", b"bx"]),
    (b"^a$|^b$", &[b"a", b"b"], &[b"ab", b"xa", b"bx"]),
    (b"^a*$", &[b"", b"a", b"aaa"], &[b"aab", b"baa"]),
    (b"^a+$", &[b"a", b"aa"], &[b"", b"ab"]),
    (b"^ab?c$", &[b"ac", b"abc"], &[b"abbc", b"bc"]),
    (b"^ab+c$", &[b"abc", b"abbc"], &[b"ac", b"abb"]),
    (b"^ab*c$", &[b"ac", b"abbbc"], &[b"abb", b"adc"]),
    (b"a+b", &[b"aab", b"xab"], &[b"b", b"a"]),
    (b"^.*b.*$", &[b"b", b"xbx", b"bbb"], &[b"", b"x"]),
    (b"^.+.+$", &[b"ab", b"abc"], &[b"", b"a"]),
    (b"^a?a?a?aaa$", &[b"aaa", b"aaaaaa"], &[b"aa", b"aaaaaaa"]),
];

/// Regular expressions with classes and escapes.
const CLASSES: [Row; 21] = [
    (
        b"^.$",
        &[b"a", b"\n", b"\0", b"\x7f", b"\xff"],
        &[b"", b"ab"],
    ),
    (
        b"^[^a-c]$",
        &[b"d", b"`", b"\0", b"\xff"],
        &[b"a", b"b", b"c", b""],
    ),
    (b"^[a-c]$", &[b"a", b"b", b"c"], &[b"`", b"d", b"A", b""]),
    (b"^[a-a]$", &[b"a"], &[b"b", b"-"]),
    (b"^[abx-z]+$", &[b"abxyz"], &[b"c", b"w", b"-"]),
    (b"^[-a]$", &[b"-", b"a"], &[b"b"]),
    (b"^[a-]$", &[b"-", b"a"], &[b"b"]),
    (b"^[-]$", &[b"-"], &[b"a"]),
    (b"^[^-a]$", &[b"b", b"^"], &[b"-", b"a"]),
    (b"^[a-c-]$", &[b"-", b"b"], &[b"d"]),
    (b"^[--a]$", &[b"-", b"A", b"a"], &[b",", b"b"]),
    (b"^[+--]$", &[b"+", b",", b"-"], &[b"*", b"."]),
    (b"^[a^]$", &[b"a", b"^"], &[b"b"]),
    (b"^[a\\-c]$", &[b"a", b"-", b"c"], &[b"b", b"\\"]),
    (b"^[\\]-a]$", &[b"]", b"^", b"a"], &[b"\\", b"b"]),
    (b"^[\\^a]$", &[b"^", b"a"], &[b"b", b"\\"]),
    (b"^[.*+?(){}|$]$", &[b".", b"*", b"{", b"$"], &[b"a"]),
    (b"^\\.\\*\\\\\\$$", &[b".*\\$"], &[b"x*\\$", b".\\$"]),
    (b"a-b,c \"~", &[b"a-b,c \"~"], &[b"abc"]),
    (b"^\\^\\-\\_\\]\\|$", &[b"^-_]|"], &[b"^-_]"]),
    (b"^[ -~]*$", &[b"", b" any ~"], &[b"\x1f", b"\x7f"]),
];

const GLOBS: [Row; 10] = [
    (b"1.*", &[b"1.10", b"1."], &[b"11", b"x1.0", b"1"]),
    (b"", &[b""], &[b"x"]),
    (b"*", &[b"", b"x", b"\0\xff\n"], &[]),
    (b"?", &[b"x", b"\xff", b"\0"], &[b"", b"xy"]),
    (b"a?c*", &[b"abc", b"abcd", b"a\xffc"], &[b"ac", b"xabc"]),
    (b"?*?", &[b"ab", b"abc"], &[b"a", b""]),
    (b"**a", &[b"a", b"ba"], &[b"", b"ab"]),
    (b"*a*b", &[b"ab", b"xaxb", b"abab"], &[b"ba", b"aba"]),
    (
        b"(a|b)$^+{}.-",
        &[b"(a|b)$^+{}.-"],
        &[b"a", b"(a|b)$^+{}x-"],
    ),
    (b" ~", &[b" ~"], &[b"~"]),
];

/// Texts that are no regular expression, each with the place of its `OutOfProfile`.
const OUT_OF_PROFILE: [(&[u8], usize); 43] = [
    (b"(a|b)", 0),
    (b")", 0),
    (b"a{2}", 1),
    (b"}", 0),
    (b"]", 0),
    (b"[a]]", 3),
    (b"a**", 2),
    (b"a+?", 2),
    (b"a?*", 2),
    (b"*", 0),
    (b"+a", 0),
    (b"?", 0),
    (b"a|*", 2),
    (b"|+", 1),
    (b"^*", 1),
    (b"^+", 1),
    (b"^^", 1),
    (b"a^", 1),
    (b"a*^", 2),
    (b"|a^", 2),
    (b"$(", 0),
    (b"$*", 0),
    (b"$$", 0),
    (b"$a", 0),
    (b"a$^", 1),
    (b"a$\x01", 1),
    (b"a$[", 1),
    (b"a$\\", 1),
    (b"\\a", 0),
    (b"a\\ ", 1),
    (b"a\\\x80", 1),
    (b"[\\a]", 1),
    (b"[x\\\n]", 2),
    (b"[]", 1),
    (b"[]a]", 1),
    (b"[^]", 2),
    (b"[^]a]", 2),
    (b"[a[b]", 2),
    (b"[a-[", 3),
    (b"[a-c-e]", 4),
    (b"[a\x7f]", 2),
    (b"a\x1fb", 1),
    (b"\xc3\xa9", 0),
];

/// Texts that are no regular expression, each with the place of its `Unclosed`.
const UNCLOSED: [(&[u8], usize); 12] = [
    (b"[ab", 0),
    (b"[", 0),
    (b"[^", 0),
    (b"x[", 1),
    (b"[a-", 0),
    (b"[a-c-", 0),
    (b"[a-c", 0),
    (b"[a][b", 3),
    (b"\\", 0),
    (b"a\\", 1),
    (b"[a\\", 2),
    (b"[a-\\", 3),
];

/// Texts that are no regular expression, each with the place of its `BadRange`.
const BAD_RANGE: [(&[u8], usize); 7] = [
    (b"a[3-1]", 2),
    (b"[b-a", 1),
    (b"[z-a](", 1),
    (b"[xb-a]", 2),
    (b"[\\]-A]", 1),
    (b"[^b-a]", 2),
    (b"[a-cz-y]", 4),
];

/// Texts that are no glob, each with the place of its `OutOfProfile`.
const NO_GLOBS: [(&[u8], usize); 7] = [
    (b"a[b", 1),
    (b"a]", 1),
    (b"\\", 0),
    (b"a\x7f", 1),
    (b" \x1f", 1),
    (b"ab\0[", 2),
    (b"\xff", 0),
];

fn all(pattern: &Pattern, texts: &[&[u8]], stands: bool) -> bool {
    texts.iter().all(|text| pattern.matches(text) == stands)
}

fn regex_stands(alloc: Global, pattern: &[u8], text: &[u8]) -> Result<bool, PatternFault> {
    Ok(Pattern::regex(alloc, pattern)?.matches(text))
}

fn glob_stands(alloc: Global, pattern: &[u8], text: &[u8]) -> Result<bool, PatternFault> {
    Ok(Pattern::glob(alloc, pattern)?.matches(text))
}

/// Whether it stands for the first texts of the row and for none of the others.
fn tells_apart(pattern: &Pattern, row: &Row) -> bool {
    all(pattern, row.1, true) && all(pattern, row.2, false)
}

fn is_right_regex(alloc: Global, row: &Row) -> bool {
    match Pattern::regex(alloc, row.0) {
        Ok(pattern) => tells_apart(&pattern, row),
        Err(_) => false,
    }
}

fn is_right_glob(alloc: Global, row: &Row) -> bool {
    match Pattern::glob(alloc, row.0) {
        Ok(pattern) => tells_apart(&pattern, row),
        Err(_) => false,
    }
}

fn are_right_regexes(alloc: Global, rows: &[Row]) -> bool {
    for row in rows {
        if !is_right_regex(alloc, row) {
            return false;
        }
    }
    true
}

fn are_right_globs(alloc: Global, rows: &[Row]) -> bool {
    for row in rows {
        if !is_right_glob(alloc, row) {
            return false;
        }
    }
    true
}

#[test]
fn regexes_stand_for_their_texts(rt: HostRuntime) {
    assert!(rt; are_right_regexes(rt.alloc(), &REGEXES));
}

#[test]
fn classes_stand_for_their_bytes(rt: HostRuntime) {
    assert!(rt; are_right_regexes(rt.alloc(), &CLASSES));
}

#[test]
fn globs_stand_for_their_texts(rt: HostRuntime) {
    assert!(rt; are_right_globs(rt.alloc(), &GLOBS));
}

fn regex_fault(alloc: Global, text: &[u8]) -> Option<PatternFault> {
    Pattern::regex(alloc, text).err()
}

fn glob_fault(alloc: Global, text: &[u8]) -> Option<PatternFault> {
    Pattern::glob(alloc, text).err()
}

#[test]
fn the_first_byte_out_of_profile_is_answered(rt: HostRuntime) {
    for (text, at) in &OUT_OF_PROFILE {
        let fault = PatternFault::OutOfProfile { at: *at };
        assert_eq!(rt; regex_fault(rt.alloc(), text), Some(fault), "{text:?}");
    }
}

#[test]
fn what_is_not_closed_is_answered(rt: HostRuntime) {
    for (text, at) in &UNCLOSED {
        let fault = PatternFault::Unclosed { at: *at };
        assert_eq!(rt; regex_fault(rt.alloc(), text), Some(fault), "{text:?}");
    }
}

#[test]
fn the_first_bad_range_is_answered(rt: HostRuntime) {
    for (text, at) in &BAD_RANGE {
        let fault = PatternFault::BadRange { at: *at };
        assert_eq!(rt; regex_fault(rt.alloc(), text), Some(fault), "{text:?}");
    }
}

#[test]
fn the_first_byte_that_no_glob_has_is_answered(rt: HostRuntime) {
    for (text, at) in &NO_GLOBS {
        let fault = PatternFault::OutOfProfile { at: *at };
        assert_eq!(rt; glob_fault(rt.alloc(), text), Some(fault), "{text:?}");
    }
}

#[test]
fn a_pattern_has_at_most_255_bytes(rt: HostRuntime) {
    let long = PatternFault::TooLong { len: 256 };
    assert_eq!(rt; regex_fault(rt.alloc(), &[b'('; 256]), Some(long));
    assert_eq!(rt; glob_fault(rt.alloc(), &[b'['; 256]), Some(long));
}

#[test]
fn a_regex_of_255_bytes(rt: HostRuntime) {
    let text = [b'a'; 255];
    assert_eq!(rt; regex_stands(rt.alloc(), &text, &text), Ok(true));
    assert_eq!(rt; regex_stands(rt.alloc(), &text, &[b'a'; 254]), Ok(false));
}

#[test]
fn a_glob_of_255_bytes(rt: HostRuntime) {
    let any = [b'?'; 255];
    assert_eq!(rt; glob_stands(rt.alloc(), &any, &[b'x'; 255]), Ok(true));
    assert_eq!(rt; glob_stands(rt.alloc(), &any, &[b'x'; 256]), Ok(false));
    assert_eq!(rt;
        glob_stands(rt.alloc(), &[b'*'; 255], &[b'x'; 4096]),
        Ok(true)
    );
}

/// Patterns and a text that take 2 to the text's length where each way is tried.
#[test]
fn many_ways_take_no_more_time(rt: HostRuntime) {
    let text = [b'a'; 4096];
    let stars = b"^a*a*a*a*a*a*a*a*a*a*a*a*a*a*a*a*a*a*a*a*a*a*a*a*a*a*a*a*a*a*a*a*a*a*a*a*a*a*b$";
    assert_eq!(rt; regex_stands(rt.alloc(), stars, &text), Ok(false));
    let any = b".*.*.*.*.*.*.*.*.*.*.*.*.*.*.*.*.*.*.*.*.*.*.*.*.*.*.*.*.*.*.*.*.*.*.*.*[^a]";
    assert_eq!(rt; regex_stands(rt.alloc(), any, &text), Ok(false));
    let runs = b"*a*a*a*a*a*a*a*a*a*a*a*a*a*a*a*a*a*a*a*a*a*a*a*a*a*a*a*a*a*a*a*a*a*a*a*a*b";
    assert_eq!(rt; glob_stands(rt.alloc(), runs, &text), Ok(false));
}
