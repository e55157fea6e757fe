//! JSON texts: which are read, and what is found in their values.
use json_values::{Scratch, Value, boolean, is_object, items, member, members, number, read, text};
use std::alloc::Global;
use std::test::Fail;

/// A text, and whether it is read.
const TEXTS: [(&[u8], bool); 16] = [
    (b"{}", true),
    (b" [1, -2, 3.5e2, true, null, \"a\"] ", true),
    (b"-0", true),
    (b"1e308", true),
    (b"18446744073709551616", true),
    (b"{\"a\":1,\"a\":2}", true),
    (b"\"\\u00e9\\n\"", true),
    (b"1e309", false),
    (b"{\"passed over\":[-1e400]}", false),
    (b"[1,]", false),
    (b"{} {}", false),
    (b"01", false),
    (b"[", false),
    (b"", false),
    (b"\"\xff\"", false),
    (b"\"\\ud800\"", false),
];

fn is_read(alloc: Global, bytes: &[u8]) -> bool {
    let mut scratch = Scratch::new(alloc);
    read(alloc, bytes, &mut scratch).is_ok()
}

#[test]
fn texts_are_read_or_refused(rt: HostRuntime) {
    for (bytes, want) in &TEXTS {
        assert_eq!(rt; is_read(rt.alloc(), bytes), *want, "{bytes:?}");
    }
}

/// So many lists in one another.
fn nested(alloc: Global, depth: usize) -> Result<Vec<u8>, Fail> {
    let mut bytes = Vec::new(alloc);
    for _ in 0..depth {
        bytes.push(b'[')?;
    }
    for _ in 0..depth {
        bytes.push(b']')?;
    }
    Ok(bytes)
}

#[test]
fn lists_nest_at_most_127_deep(rt: HostRuntime) -> Result<(), Fail> {
    let deep = nested(rt.alloc(), 127)?;
    assert!(rt; is_read(rt.alloc(), &deep));
    let deeper = nested(rt.alloc(), 128)?;
    assert!(rt; !is_read(rt.alloc(), &deeper));
    Ok(())
}

const OBJECT: &[u8] =
    b"{\"b\":7,\"a\":\"\\u0041B\",\"zero\":-0,\"on\":true,\"list\":[1,2],\"b\":8}";

#[test]
fn members_are_found(rt: HostRuntime) -> Result<(), Fail> {
    let mut scratch = Scratch::new(rt.alloc());
    let value = read(rt.alloc(), OBJECT, &mut scratch)?;
    assert!(rt; is_object(&value));
    assert_eq!(rt; member(&value, "b").and_then(number), Some(8));
    assert_eq!(rt; member(&value, "a").and_then(text), Some("AB"));
    assert_eq!(rt; member(&value, "zero").and_then(number), None);
    assert_eq!(rt; member(&value, "on").and_then(boolean), Some(true));
    assert!(rt; member(&value, "none").is_none());
    Ok(())
}

fn count_items(value: &Value) -> Option<usize> {
    match items(value) {
        None => None,
        Some(list) => Some(list.len()),
    }
}

fn count_members(alloc: Global, value: &Value) -> Result<Option<usize>, Fail> {
    match members(alloc, value)? {
        None => Ok(None),
        Some(all) => Ok(Some(all.len())),
    }
}

#[test]
fn each_member_and_each_item_comes_once(rt: HostRuntime) -> Result<(), Fail> {
    let mut scratch = Scratch::new(rt.alloc());
    let value = read(rt.alloc(), OBJECT, &mut scratch)?;
    assert_eq!(rt; count_members(rt.alloc(), &value)?, Some(5));
    assert_eq!(rt; member(&value, "list").and_then(count_items), Some(2));
    assert_eq!(rt; count_items(&value), None);
    Ok(())
}
