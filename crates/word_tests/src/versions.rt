//! Versions as outside examples have them.
use std::cmp::Ordering;
use std::test::Fail;
use version_formats::*;

/// Comparisons as fwupd 2.0.20 answers them.
const ANSWERED_BY_FWUPD: [&str; 90] = [
    "1.1.1.1.1.1.1.1.1.1.1.1.1.1.1.1.1.1.1.1.1.1.1.1.1.1.1.1.1.1.1.10 > 1.1.1.1.1.1.1.1.1.1.1.1.1.1.1.1.1.1.1.1.1.1.1.1.1.1.1.1.1.1.1.9",
    "1.0 < 1.0a",
    "1.2a03 < 1.2a3",
    "65535.65535 < 65536.0",
    "255.255.65535 > 255.255.65534",
    "99 < 100",
    ".b > .a",
    "1.0b > 1.0a",
    "1.+-1 > 1.0",
    "1 > 0",
    "abd > abc",
    "1.0 < 1a",
    "1.~.0 > 1.~",
    "1.0 < 1.+",
    "1.00 == 1.0",
    "RQR12.01_B0019 < RQR12.01_B0020",
    "1.8 == 1.08",
    "1.2.772 < 1.3.0",
    "1.0rc10 < 1.0rc9",
    "N1MET35W < N1MET36W",
    "1.2 < 1.2.0",
    "0x00000000 < 0xffffffff",
    "1.2~3.4 < 1.2.4",
    "1.0_1 > 1.0-1",
    "1.0~rc1.1 < 1.0.1",
    "a.0 == a.",
    "0xffffffff > 0x00000000",
    "1.0Z < 1.0a",
    "10 > 2a",
    "9 > 08",
    "BOT01.03_0001 > BOT01.02_0010",
    "1.0 < 1.0rc1",
    "1.0.2 < 1.0.10",
    "165.165.165.164 < 165.165.165.165",
    "1.3 > 1.-5",
    "1.0 > 1",
    "1.0a > 1.0a~1",
    "1.1.1.1.1.1.1.1.1.1.1.1.1.1.1.1.1.1.1.1.1.1.1.1.1.1.1.1.1.1.1.9 < 1.1.1.1.1.1.1.1.1.1.1.1.1.1.1.1.1.1.1.1.1.1.1.1.1.1.1.1.1.1.1.10",
    "1.0rc1 < 1.0rc2",
    "1.0~rc9 > 1.0~rc10",
    "165.165.165.165 > 165.165.165.164",
    "01.0 == 1.0",
    "1.10 > 1.9",
    "0 == 00",
    "1.10 == 1.010",
    "1.9.5 < 1.10.0",
    "ab < abc",
    "1.0~a > 1.0~",
    "1.0 < 1.0a~",
    "~ > ~~",
    "0x01020305 > 0x01020304",
    "1.-5 > 1.-10",
    "1.0 == 1.00",
    "1.0+git > 1.0",
    "1} > 1|",
    "0x10 < 10",
    "1b.0 > 1a.1",
    "1! > 1~",
    "6.18.44-fc-v595 > 6.18.44",
    "1.0.1 > 1.0~rc1.1",
    "1.2.3.4 > 1.2.3",
    "2 > 1.9.9",
    "1.0a > 1.0A",
    "1.2.3.4 > 0x01020304",
    "1.0 > 1.0~rc1",
    "0.3.3 < 0.3.22",
    "abc == abc",
    "a.10 > a.9",
    "1.0. > 1.0",
    "-10 < -5",
    ".a < .b",
    "1.0~~~ < 1.0~~",
    "GJET9WW > GJET75WW",
    "2.0.3 < 2.0.20",
    "1.0.9 < 1.1",
    "1.-1 < 1.-1a",
    "1.0~rc10 < 1.0~rc9",
    "1.0.0 < 1.0.0.0",
    "1.0a~ > 1.0",
    "~~ < ~",
    "00 == 0",
    "18446744073709551616 > 0",
    "0 < 4294967295",
    "1.0 < 1a.0",
    "1.2.3 == 1.2.3",
    "9223372036854775806 < 9223372036854775807",
    "0.0.0.0 == ...",
    "1.0a > 1.0a~",
    "1.-b > 1.-a",
    "1.0.0 < 1.1.0",
];

/// Leading zeros, long runs of digits, and `~`.
const OWN_ROWS: [&str; 6] = [
    "1.0~rc1 < 1.0",
    "1.0a > 1.0",
    "100000000000000000000000000000000000000000000000000000000000 > 99999999999999999999999999999999999999999999999999999999999",
    "999999999999999999999999999999999999999999999999999999999999 > 999999999999999999999999999999999999999999999999999999999998",
    "000000000000000000000000000000000000000000000000001234567890 == 1234567890",
    "1.777777777777777777777777777777777777777777777777777777777777 < 1.777777777777777777777777777777777777777777777777777777777778",
];

/// The texts of 0x01020304, 0 and 0xFFFFFFFF in each format.
const FORMATS: [&str; 13] = [
    "plain 16909060 0 4294967295",
    "number 16909060 0 4294967295",
    "pair 258.772 0.0 65535.65535",
    "triplet 1.2.772 0.0.0 255.255.65535",
    "quad 1.2.3.4 0.0.0.0 255.255.255.255",
    "bcd 1.2.3.4 0.0.0.0 165.165.165.165",
    "dell-bios 2.3.4 0.0.0 255.255.255",
    "dell-bios-msb 1.2.3 0.0.0 255.255.255",
    "surface-legacy 4.128.772 0.0.0 1023.4095.1023",
    "surface 1.515.4 0.0.0 255.65535.255",
    "intel-me 11.1.2.772 11.0.0.0 18.31.255.65535",
    "intel-me2 0.1.2.772 0.0.0.0 15.15.255.65535",
    "hex 0x01020304 0x00000000 0xffffffff",
];

fn order_word(order: Ordering) -> &'static str {
    match order {
        Ordering::Less => "<",
        Ordering::Equal => "==",
        Ordering::Greater => ">",
    }
}

/// The order of the two versions of a row, and the word that the row has for it.
fn compared(row: &str) -> Option<(&'static str, &'static str, &str)> {
    let (left, rest) = row.split_once(' ')?;
    let (word, right) = rest.split_once(' ')?;
    let left = Version::read(left.as_bytes()).ok()?;
    let right = Version::read(right.as_bytes()).ok()?;
    let forth = compare(&left, &right);
    let back = compare(&right, &left).reverse();
    Some((order_word(forth), order_word(back), word))
}

/// Whether the two versions of the row compare as it says, and turned round too.
fn is_compared_so(row: &str) -> bool {
    match compared(row) {
        Some((forth, back, want)) => forth == want && back == want,
        None => false,
    }
}

#[test]
fn versions_compare_as_fwupd_compares_them(rt: HostRuntime) {
    for row in &ANSWERED_BY_FWUPD {
        assert!(rt; is_compared_so(row), "{row}");
    }
}

#[test]
fn numbers_have_no_upper_bound(rt: HostRuntime) {
    for row in &OWN_ROWS {
        assert!(rt; is_compared_so(row), "{row}");
    }
}

/// Whether the row's format writes the row's three texts.
fn writes(row: &str) -> Option<bool> {
    let (word, texts) = row.split_once(' ')?;
    let (first, texts) = texts.split_once(' ')?;
    let (second, third) = texts.split_once(' ')?;
    let format = Format::read(word.as_bytes())?;
    Some(
        format.word() == word.as_bytes()
            && render(format, 0x0102_0304).bytes() == first.as_bytes()
            && render(format, 0).bytes() == second.as_bytes()
            && render(format, u32::MAX).bytes() == third.as_bytes(),
    )
}

#[test]
fn formats_write_their_table(rt: HostRuntime) {
    for row in &FORMATS {
        assert_eq!(rt; writes(row), Some(true), "{row}");
    }
}

#[test]
fn words_that_are_no_format(rt: HostRuntime) {
    assert_eq!(rt; Format::read(b"triplets"), None);
    assert_eq!(rt; Format::read(b"Plain"), None);
    assert_eq!(rt; Format::read(b""), None);
}

#[test]
fn a_version_has_1_to_64_bytes(rt: HostRuntime) {
    assert_eq!(rt; Version::read(b"").err(), Some(VersionFault::Empty));
    assert_eq!(rt; Version::read(&[b'1'; 64]).err(), None);
    assert_eq!(rt;
        Version::read(&[b' '; 65]).err(),
        Some(VersionFault::TooLong { len: 65 })
    );
}

#[test]
fn reading_names_the_first_bad_byte(rt: HostRuntime) {
    assert_eq!(rt;
        Version::read(b"1.0 \n").err(),
        Some(VersionFault::BadByte { at: 3 })
    );
    assert_eq!(rt;
        Version::read(b"1.\x7f").err(),
        Some(VersionFault::BadByte { at: 2 })
    );
}

#[test]
fn equal_versions_may_be_two_texts(rt: HostRuntime) -> Result<(), Fail> {
    let left = Version::read(b"01.0")?;
    let right = Version::read(b"1.0")?;
    assert_eq!(rt; compare(&left, &right), Ordering::Equal);
    assert!(rt; left != right);
    laws::order_of_versions();
    Ok(())
}
