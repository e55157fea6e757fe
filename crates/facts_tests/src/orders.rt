//! What no clause says: that each call succeeds, and arrangements worked out by hand.
use fw_base::{Listed, Name};
use plugin_order::{OrderFault, PluginSheet, arrange};
use std::alloc::Global;
use std::test::Fail;

fn list(alloc: Global, texts: &[&[u8]]) -> Result<Listed<Name>, Fail> {
    let mut names = Vec::new(alloc);
    for text in texts {
        names.push(Name::read(*text)?)?;
    }
    Ok(Listed::of(names))
}

type Texts = &'static [&'static [u8]];

/// A plugin's name, and those that it has a conflict with, that it comes after and before, and that it
/// is better than.
type Row = (&'static [u8], Texts, Texts, Texts, Texts);

fn stated(alloc: Global, row: &Row) -> Result<PluginSheet, Fail> {
    let (name, conflicts, after, before, better_than) = *row;
    Ok(PluginSheet {
        name: Name::read(name)?,
        conflicts: list(alloc, conflicts)?,
        after: list(alloc, after)?,
        before: list(alloc, before)?,
        better_than: list(alloc, better_than)?,
    })
}

fn stated_all(alloc: Global, rows: &[Row]) -> Result<Vec<PluginSheet>, Fail> {
    let mut sheets = Vec::new(alloc);
    for row in rows {
        sheets.push(stated(alloc, row)?)?;
    }
    Ok(sheets)
}

const THREE: [Row; 3] = [
    (b"a", &[], &[], &[], &[]),
    (b"b", &[], &[], &[b"a", b"nobody"], &[]),
    (b"c", &[], &[b"a"], &[], &[b"b"]),
];

#[test]
fn three_plugins(rt: HostRuntime) -> Result<(), Fail> {
    let sheets = stated_all(rt.alloc(), &THREE)?;
    assert_eq!(rt; sheets.len(), 3);
    let plan = arrange(rt.alloc(), sheets.as_slice())?;
    assert_eq!(rt; plan.order.items(), [1, 0, 2].as_slice());
    assert_eq!(rt; plan.enabled.items(), [true, true, true].as_slice());
    assert_eq!(rt; plan.priority.items(), [0, 0, 1].as_slice());
    Ok(())
}

const REPEATED: [Row; 3] = [
    (b"a", &[], &[], &[], &[]),
    (b"b", &[], &[], &[], &[]),
    (b"a", &[], &[], &[], &[]),
];

#[test]
fn a_repeated_name(rt: HostRuntime) -> Result<(), Fail> {
    let sheets = stated_all(rt.alloc(), &REPEATED)?;
    assert_eq!(rt; sheets.len(), 3);
    match arrange(rt.alloc(), sheets.as_slice()) {
        Err(fault) => assert!(rt; is_repeat(&fault, b"a")),
        Ok(_) => panic!(rt; "two plugins have one name"),
    }
    Ok(())
}

fn is_repeat(fault: &OrderFault, wanted: &[u8]) -> bool {
    match fault {
        OrderFault::DuplicateName { name } => name.bytes() == wanted,
        OrderFault::Cycle { .. } | OrderFault::NoMemory => false,
    }
}

/// Whether the plugins, 64 at most, are refused for the cycle of these names.
fn is_cycle(alloc: Global, rows: &[Row], wanted: &[&[u8]]) -> Result<bool, Fail> {
    let sheets = stated_all(alloc, rows)?;
    if sheets.len() > 64 {
        return Ok(false);
    }
    let wanted = list(alloc, wanted)?;
    match arrange(alloc, sheets.as_slice()) {
        Err(OrderFault::Cycle { names }) => Ok(names.items() == wanted.items()),
        _ => Ok(false),
    }
}

const CYCLE: [Row; 3] = [
    (b"d", &[], &[], &[b"b"], &[]),
    (b"b", &[], &[], &[b"c"], &[]),
    (b"c", &[], &[], &[b"d"], &[]),
];

const ALONE: [Row; 1] = [(b"a", &[], &[], &[], &[b"a"])];

#[test]
fn cycles_from_their_least_name(rt: HostRuntime) -> Result<(), Fail> {
    assert!(rt; is_cycle(rt.alloc(), &CYCLE, &[b"b", b"c", b"d"])?);
    assert!(rt; is_cycle(rt.alloc(), &ALONE, &[b"a"])?);
    Ok(())
}

// The second is disabled before its turn, so the third stays. The last has a conflict with an earlier
// plugin, and with itself.
const CONFLICTS: [Row; 4] = [
    (b"a", &[b"b"], &[], &[], &[]),
    (b"b", &[b"c"], &[], &[], &[]),
    (b"c", &[], &[], &[], &[]),
    (b"d", &[b"a", b"d"], &[], &[], &[]),
];

#[test]
fn conflicts_in_turn(rt: HostRuntime) -> Result<(), Fail> {
    let sheets = stated_all(rt.alloc(), &CONFLICTS)?;
    assert_eq!(rt; sheets.len(), 4);
    let plan = arrange(rt.alloc(), sheets.as_slice())?;
    assert_eq!(rt;
        plan.enabled.items(),
        [false, false, true, false].as_slice()
    );
    Ok(())
}

#[test]
fn a_copy_has_the_conflicts(rt: HostRuntime) -> Result<(), Fail> {
    let sheet = stated(rt.alloc(), &CONFLICTS[3])?;
    let copy = sheet.copy(rt.alloc())?;
    assert!(rt; copy.conflicts.items() == sheet.conflicts.items());
    Ok(())
}

fn octal(i: u8) -> Result<Name, Fail> {
    Ok(Name::read(&[b'p', b'0' + i / 8 % 8, b'0' + i % 8])?)
}

// The names before and behind the plugin of that number.
fn around(alloc: Global, number: u8) -> Result<(Vec<Name>, Vec<Name>), Fail> {
    let mut later = Vec::new(alloc);
    let mut earlier = Vec::new(alloc);
    for other in 0..64u8 {
        let name = octal(other)?;
        if number < other {
            later.push(name)?;
        } else if other < number {
            earlier.push(name)?;
        }
    }
    Ok((earlier, later))
}

fn sheet_with_all_rules(alloc: Global, number: u8) -> Result<PluginSheet, Fail> {
    let (earlier, later) = around(alloc, number)?;
    let again = later.clone()?;
    Ok(PluginSheet {
        name: octal(number)?,
        conflicts: Listed::of(Vec::new(alloc)),
        after: Listed::of(again),
        before: Listed::of(earlier),
        better_than: Listed::of(later),
    })
}

#[test]
fn sixty_four_with_all_rules(rt: HostRuntime) -> Result<(), Fail> {
    let mut sheets = Vec::new(rt.alloc());
    for number in 0..64u8 {
        sheets.push(sheet_with_all_rules(rt.alloc(), number)?)?;
    }
    assert_eq!(rt; sheets.len(), 64);
    let plan = arrange(rt.alloc(), sheets.as_slice())?;
    let last_first: Vec<u32> = (0..64).rev().collect(rt.alloc())?;
    assert!(rt; plan.order.items() == last_first.as_slice());
    assert!(rt; plan.priority.items() == last_first.as_slice());
    Ok(())
}
