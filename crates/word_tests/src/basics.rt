//! What no clause says: values from outside, and that each call succeeds.
use fw_base::{
    Line, LineFault, Listed, Name, NameFault, NoMemory, NumberFault, read_decimal, read_digest,
};
use std::test::Fail;

/// The last has 64 bytes, as many as a name may have.
const NAMES: [&[u8]; 3] = [
    b"usb1",
    b"!~",
    b"aaaaaaaaaaaaaaaaaaaaaaaaaaaaaaaaaaaaaaaaaaaaaaaaaaaaaaaaaaaaaaaa",
];

/// Whether the bytes are read as a name that has them.
fn is_name(bytes: &[u8]) -> bool {
    match Name::read(bytes) {
        Ok(name) => name.bytes() == bytes,
        Err(_) => false,
    }
}

#[test]
fn names_have_their_bytes(rt: HostRuntime) {
    for bytes in &NAMES {
        assert!(rt; is_name(bytes), "{bytes:?}");
    }
}

#[test]
fn bytes_that_no_name_may_have(rt: HostRuntime) {
    assert!(rt; Name::read(b"") == Err(NameFault::Empty));
    assert!(rt; Name::read(&[b' '; 65]) == Err(NameFault::TooLong { len: 65 }));
    assert!(rt; Name::read(b"ab c\n") == Err(NameFault::BadByte { at: 2 }));
    assert!(rt; Name::read(b"\x7f") == Err(NameFault::BadByte { at: 0 }));
}

/// Whether the bytes are read as a line that has them.
fn is_line(bytes: &[u8]) -> bool {
    match Line::read(bytes) {
        Ok(line) => line.bytes() == bytes,
        Err(_) => false,
    }
}

#[test]
fn lines_have_their_bytes(rt: HostRuntime) {
    assert!(rt; is_line(b""));
    assert!(rt; is_line(b"A hub \xc3\xa9"));
    assert!(rt; is_line(&[b' '; 255]));
}

#[test]
fn an_empty_line_is_read(rt: HostRuntime) {
    assert!(rt; Line::read(b"") == Ok(Line::empty()));
}

#[test]
fn bytes_that_no_line_may_have(rt: HostRuntime) {
    assert!(rt; Line::read(&[0; 256]) == Err(LineFault::TooLong { len: 256 }));
    assert!(rt; Line::read(b"a\tb") == Err(LineFault::BadByte { at: 1 }));
    assert!(rt; Line::read(b"\x7f") == Err(LineFault::BadByte { at: 0 }));
}

#[test]
fn numbers_up_to_the_last(rt: HostRuntime) {
    assert!(rt; read_decimal(b"0") == Ok(0));
    assert!(rt; read_decimal(b"18446744073709551615") == Ok(u64::MAX));
    assert!(rt; read_decimal(b"18446744073709551616") == Err(NumberFault::TooLarge));
    assert!(rt; read_decimal(b"99999999999999999999999") == Err(NumberFault::TooLarge));
}

#[test]
fn texts_that_are_no_numbers(rt: HostRuntime) {
    assert!(rt; read_decimal(b"") == Err(NumberFault::Empty));
    assert!(rt; read_decimal(b"00") == Err(NumberFault::BadByte { at: 0 }));
    assert!(rt; read_decimal(b"+1") == Err(NumberFault::BadByte { at: 0 }));
    assert!(rt; read_decimal(b"12 ") == Err(NumberFault::BadByte { at: 2 }));
}

/// The SHA-256 of no bytes.
const EMPTY: &[u8; 64] = b"e3b0c44298fc1c149afbf4c8996fb92427ae41e4649b934ca495991b7852b855";

/// The first and the last byte of the digest.
fn ends(text: &[u8]) -> Option<(u8, u8)> {
    match read_digest(text) {
        Some(digest) => Some((digest[0], digest[31])),
        None => None,
    }
}

#[test]
fn digests_in_lower_case(rt: HostRuntime) {
    assert_eq!(rt; ends(EMPTY), Some((0xe3, 0x55)));
    assert_eq!(rt;
        ends(b"3b0c44298fc1c149afbf4c8996fb92427ae41e4649b934ca495991b7852b855"),
        None
    );
    assert_eq!(rt;
        ends(b"E3B0C44298FC1C149AFBF4C8996FB92427AE41E4649B934CA495991B7852B855"),
        None
    );
}

#[test]
fn lists_of_their_items(rt: HostRuntime) -> Result<(), Fail> {
    let list = Listed::of([1, 2, 3].to_vec(rt.alloc())?);
    assert_eq!(rt; list.items(), [1, 2, 3].as_slice());
    assert_eq!(rt; list.into_items().as_slice(), [1, 2, 3].as_slice());
    assert!(rt; NoMemory::from(std::alloc::AllocError) == NoMemory);
    Ok(())
}
