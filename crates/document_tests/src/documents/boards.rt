//! The boards.
use super::{BOARD, Frame, told, wrong_rows};
use std::alloc::Global;
use std::test::Fail;

const HEAD: &[&str] = &[
    r#""port":3 => boards 0 0 0 port: wrong-kind"#,
    r#""port":"" => boards 0 0 0 port: wrong-kind"#,
    r#""port":"a b" => boards 0 0 0 port: wrong-kind"#,
    r#""port":"0123456789ABCDEF0123456789abcdef01234567" => boards 0 0 0 port: wrong-kind"#,
    r#""port":"0123456789ABCDEF0123456789abcdef0123456" => read"#,
    r#""port":"2082b5e0-7a64-478a-b1b2-e3404fab6dad" => boards 0 0 0 port: wrong-kind"#,
    r#""physical":"" => boards 0 0 0 physical: wrong-kind"#,
    r#""physical":3 => boards 0 0 0 physical: wrong-kind"#,
    r#""physical":"\u007f" => boards 0 0 0 physical: wrong-kind"#,
    r#""physical":"\u0080" => read"#,
    r#""logical":"" => read"#,
    r#""logical":0 => boards 0 0 0 logical: wrong-kind"#,
    r#""logical":null => boards 0 0 0 logical: wrong-kind"#,
    r#""priority":0 => read"#,
    r#""priority":1000 => read"#,
    r#""priority":1001 => boards 0 0 0 priority: wrong-kind"#,
    r#""priority":-1 => boards 0 0 0 priority: wrong-kind"#,
    r#""priority":1.0 => boards 0 0 0 priority: wrong-kind"#,
    r#""plugin":"" => boards 0 0 0 plugin: wrong-kind"#,
    r#""plugin":[] => boards 0 0 0 plugin: wrong-kind"#,
    r#""name":"" => read"#,
    r#""name":"\n" => boards 0 0 0 name: wrong-kind"#,
    r#""vendor":"\u0000" => boards 0 0 0 vendor: wrong-kind"#,
    r#""vendor":null => boards 0 0 0 vendor: wrong-kind"#,
];

#[test]
fn what_stands_first_in_a_board(rt: HostRuntime) -> Result<(), Fail> {
    let wrong = wrong_rows(rt.alloc(), BOARD, HEAD)?;
    assert_eq!(rt; wrong.as_str(), "");
    Ok(())
}

const LISTS: &[&str] = &[
    r#""vendor-ids":[] => read"#,
    r#""vendor-ids":["a b"] => boards 0 0 0 vendor-ids: wrong-kind"#,
    r#""vendor-ids":"a" => boards 0 0 0 vendor-ids: wrong-kind"#,
    r#""instance-ids":[] => boards 0 0 0 instance-ids: wrong-kind"#,
    r#""instance-ids":[""] => boards 0 0 0 instance-ids: wrong-kind"#,
    r#""instance-ids":["a","a"] => read"#,
    r#""instance-ids":"a" => boards 0 0 0 instance-ids: wrong-kind"#,
    r#""loader-instance-ids":["b"] => read"#,
    r#""loader-instance-ids":[] => boards 0 0 0 loader-instance-ids: wrong-kind"#,
    r#""loader-instance-ids":[3] => boards 0 0 0 loader-instance-ids: wrong-kind"#,
    r#""counterparts":[] => read"#,
    r#""counterparts":["a"] => read"#,
    r#""counterparts":[""] => boards 0 0 0 counterparts: wrong-kind"#,
    r#""counterparts":null => boards 0 0 0 counterparts: wrong-kind"#,
    r#""flags":[] => read"#,
    r#""flags":["updatable","locked","updatable"] => read"#,
    r#""flags":["internal","require-ac","needs-bootloader","needs-reboot","wait-for-replug"] => read"#,
    r#""flags":["install-parent-first","emulated"] => read"#,
    r#""flags":["is-bootloader"] => boards 0 0 0 flags: wrong-kind"#,
    r#""flags":["~updatable"] => boards 0 0 0 flags: wrong-kind"#,
    r#""flags":[""] => boards 0 0 0 flags: wrong-kind"#,
    r#""flags":[1] => boards 0 0 0 flags: wrong-kind"#,
    r#""flags":"updatable" => boards 0 0 0 flags: wrong-kind"#,
];

#[test]
fn lists_of_a_board(rt: HostRuntime) -> Result<(), Fail> {
    let wrong = wrong_rows(rt.alloc(), BOARD, LISTS)?;
    assert_eq!(rt; wrong.as_str(), "");
    Ok(())
}

const NUMBERS: &[&str] = &[
    r#""version-format":"hex" => read"#,
    r#""version-format":"triple" => boards 0 0 0 version-format: wrong-kind"#,
    r#""version-format":3 => boards 0 0 0 version-format: wrong-kind"#,
    r#""protocol":"org.usb.dfu" => read"#,
    r#""protocol":"" => boards 0 0 0 protocol: wrong-kind"#,
    r#""protocol":null => boards 0 0 0 protocol: wrong-kind"#,
    r#""bootloader-version":"1" => read"#,
    r#""bootloader-version":"" => boards 0 0 0 bootloader-version: bad-version"#,
    r#""bootloader-version":1 => boards 0 0 0 bootloader-version: wrong-kind"#,
    r#""size-min":4194304,"size-max":0 => read"#,
    r#""size-min":4194305 => boards 0 0 0 size-min: wrong-kind"#,
    r#""size-max":4194304 => read"#,
    r#""size-max":4194305 => boards 0 0 0 size-max: wrong-kind"#,
    r#""duration":4294967295 => read"#,
    r#""duration":4294967296 => boards 0 0 0 duration: wrong-kind"#,
    r#""duration":0.5 => boards 0 0 0 duration: wrong-kind"#,
];

#[test]
fn versions_and_numbers_of_a_board(rt: HostRuntime) -> Result<(), Fail> {
    let wrong = wrong_rows(rt.alloc(), BOARD, NUMBERS)?;
    assert_eq!(rt; wrong.as_str(), "");
    Ok(())
}

const REST: &[&str] = &[
    r#""parent":"usb1" => boards 0 0 0 parent: bad-reference"#,
    r#""parent":"" => boards 0 0 0 parent: bad-reference"#,
    r#""parent":"a b" => boards 0 0 0 parent: bad-reference"#,
    r#""parent":1 => boards 0 0 0 parent: wrong-kind"#,
    r#""parent":null => boards 0 0 0 parent: wrong-kind"#,
    r#""image":"" => read"#,
    r#""image":"\u0000" => read"#,
    r#""image":null => boards 0 0 0 image: wrong-kind"#,
    r#""unreachable":true => read"#,
    r#""unreachable":1 => boards 0 0 0 unreachable: wrong-kind"#,
    r#""power-low":true => read"#,
    r#""power-low":1 => boards 0 0 0 power-low: wrong-kind"#,
    r#""lid":true => read"#,
    r#""lid":1 => boards 0 0 0 lid: wrong-kind"#,
    r#""faults":null => boards 0 0 0 faults: wrong-kind"#,
];

#[test]
fn what_stands_last_in_a_board(rt: HostRuntime) -> Result<(), Fail> {
    let wrong = wrong_rows(rt.alloc(), BOARD, REST)?;
    assert_eq!(rt; wrong.as_str(), "");
    Ok(())
}

/// Planned faults of the only board.
const PLAN: Frame = Frame {
    old: r#""image":"EMU1 01000000\n""#,
    front: r#""image":"","faults":["#,
    back: "]",
};

const PLANNED: &[&str] = &[
    r#"{"call":1,"fault":"failed"},{"call":4294967295,"fault":"stranger"} => read"#,
    r#"{"call":1,"fault":"torn"},{"call":2,"fault":"gone"} => read"#,
    r#"3 => boards 0 0 0 faults: wrong-kind"#,
    r#"{"fault":"torn"} => boards 0 0 0 faults: missing"#,
    r#"{"call":1} => boards 0 0 0 faults: missing"#,
    r#"{"call":0,"fault":"torn"} => boards 0 0 0 faults: wrong-kind"#,
    r#"{"call":4294967296,"fault":"torn"} => boards 0 0 0 faults: wrong-kind"#,
    r#"{"call":1.0,"fault":"torn"} => boards 0 0 0 faults: wrong-kind"#,
    r#"{"call":1,"fault":"burnt"} => boards 0 0 0 faults: wrong-kind"#,
    r#"{"call":2,"fault":"gone"},{"call":2,"fault":3} => boards 0 0 0 faults: repeated"#,
    r#"{"call":2,"fault":"gone"},{"call":1,"fault":"gone"} => boards 0 0 0 faults: repeated"#,
];

#[test]
fn planned_faults(rt: HostRuntime) -> Result<(), Fail> {
    let wrong = wrong_rows(rt.alloc(), PLAN, PLANNED)?;
    assert_eq!(rt; wrong.as_str(), "");
    Ok(())
}

/// Boards behind the only one.
const MORE: Frame = Frame {
    old: r#""image":"EMU1 01000000\n"}"#,
    front: r#""image":""}"#,
    back: "",
};

const SECOND: &[&str] = &[
    r#",3 => boards 1 0 0 entry: wrong-kind"#,
    r#",{"port":"usb1"} => boards 1 0 0 port: repeated"#,
    r#",{"port":"usb2"} => boards 1 0 0 physical: missing"#,
    r#",{"port":"usb2","physical":"p","plugin":"flash","instance-ids":["a"],"version-format":"plain","parent":"usb1","image":""} => read"#,
    r#",{"port":"usb2","physical":"p","plugin":"flash","instance-ids":["a"],"version-format":"plain","parent":"usb3","image":""},{"port":"usb3"} => boards 1 0 0 parent: bad-reference"#,
    r#",{"port":"usb2","physical":"p","plugin":"flash","instance-ids":["a"],"version-format":"plain","parent":"usb2","image":""} => boards 1 0 0 parent: bad-reference"#,
];

#[test]
fn boards_behind_the_first(rt: HostRuntime) -> Result<(), Fail> {
    let wrong = wrong_rows(rt.alloc(), MORE, SECOND)?;
    assert_eq!(rt; wrong.as_str(), "");
    Ok(())
}

/// Puts a member behind the others, whose value is the port of that number.
fn put_port(alloc: Global, boards: &mut String, member: &str, number: u64) -> Result<(), Fail> {
    let port = format!(in alloc; ",\"{member}\":\"usb{number}\"")?;
    boards.push_str(port.as_str())?;
    Ok(())
}

/// A board with the port of that number, attached to the one before it or to none.
fn one_more(alloc: Global, boards: &mut String, number: u64, chained: bool) -> Result<(), Fail> {
    boards.push_str(
        r#",{"physical":"p","plugin":"flash","instance-ids":["a"],"version-format":"plain","image":"""#,
    )?;
    if chained {
        put_port(alloc, boards, "parent", number.saturating_sub(1))?;
    }
    put_port(alloc, boards, "port", number)?;
    boards.push_str("}")?;
    Ok(())
}

fn with_boards(alloc: Global, more: u64, chained: bool) -> Result<String, Fail> {
    let mut boards = String::new(alloc);
    for i in 0..more {
        one_more(alloc, &mut boards, i.saturating_add(2), chained)?;
    }
    super::framed(alloc, MORE, boards.as_str())
}

/// How many boards there are more, whether they are chained, and what is told.
const CHAINS: [(u64, bool, &str); 5] = [
    (8, true, "read"),
    (9, true, "boards 9 0 0 parent: bad-reference"),
    (20, true, "boards 9 0 0 parent: bad-reference"),
    (255, false, "read"),
    (256, false, "document 0 0 0 boards: too-many"),
];

/// A board stands at most eight boards under the first of its chain.
#[test]
fn chains_of_boards(rt: HostRuntime) -> Result<(), Fail> {
    for (more, chained, want) in &CHAINS {
        let text = with_boards(rt.alloc(), *more, *chained)?;
        let answer = told(rt.alloc(), text.as_bytes())?;
        assert_eq!(rt; answer.as_str(), *want, "{more} more");
    }
    Ok(())
}
