//! The machine and the quirk files.
use super::{Frame, MACHINE, wrong_rows};
use std::test::Fail;

const KNOWN: &[&str] = &[
    r#""daemon":3 => machine 0 0 0 daemon: wrong-kind"#,
    r#""daemon":null => machine 0 0 0 daemon: wrong-kind"#,
    r#""daemon":"" => machine 0 0 0 daemon: bad-version"#,
    r#""daemon":"1 2" => machine 0 0 0 daemon: bad-version"#,
    r#""ids":{} => read"#,
    r#""ids":{"a":"1","b":"2"} => read"#,
    r#""ids":{"org.freedesktop.fwupd":"1"} => read"#,
    r#""ids":[] => machine 0 0 0 ids: wrong-kind"#,
    r#""ids":null => machine 0 0 0 ids: wrong-kind"#,
    r#""ids":{"":"1"} => machine 0 0 0 ids: wrong-kind"#,
    r#""ids":{"a b":"1"} => machine 0 0 0 ids: wrong-kind"#,
    r#""ids":{"a":""} => machine 0 0 0 ids: bad-version"#,
    r#""ids":{"a":1} => machine 0 0 0 ids: wrong-kind"#,
    // in the order of keys
    r#""ids":{"b":"","a":1} => machine 0 0 0 ids: wrong-kind"#,
    r#""ids":{"b":1,"a":""} => machine 0 0 0 ids: bad-version"#,
    r#""smbios":{} => read"#,
    r#""smbios":{"manufacturer":"m","family":"f","product":"p","sku":"s","x":1} => read"#,
    r#""smbios":[] => machine 0 0 0 smbios: wrong-kind"#,
    r#""smbios":{"manufacturer":1} => machine 0 0 0 smbios: wrong-kind"#,
    r#""smbios":{"family":null} => machine 0 0 0 smbios: wrong-kind"#,
    r#""smbios":{"product":"\u0080"} => machine 0 0 0 smbios: wrong-kind"#,
    r#""smbios":{"sku":"\t"} => machine 0 0 0 smbios: wrong-kind"#,
    r#""hardware":[] => read"#,
    r#""hardware":["2082B5E0-7a64-478a-b1b2-e3404fab6dad"] => read"#,
    r#""hardware":{} => machine 0 0 0 hardware: wrong-kind"#,
    r#""hardware":[3] => machine 0 0 0 hardware: wrong-kind"#,
    r#""hardware":["a"] => machine 0 0 0 hardware: bad-guid"#,
];

#[test]
fn what_is_known_of_the_machine(rt: HostRuntime) -> Result<(), Fail> {
    let wrong = wrong_rows(rt.alloc(), MACHINE, KNOWN)?;
    assert_eq!(rt; wrong.as_str(), "");
    Ok(())
}

const POWER: &[&str] = &[
    r#""on-ac":false => read"#,
    r#""on-ac":0 => machine 0 0 0 on-ac: wrong-kind"#,
    r#""power-low":true => read"#,
    r#""power-low":null => machine 0 0 0 power-low: wrong-kind"#,
    r#""lid-closed":true => read"#,
    r#""lid-closed":"" => machine 0 0 0 lid-closed: wrong-kind"#,
    r#""pool":0 => read"#,
    r#""pool":16384 => read"#,
    r#""pool":16385 => machine 0 0 0 pool: wrong-kind"#,
    r#""pool":-1 => machine 0 0 0 pool: wrong-kind"#,
    r#""pool":-0 => machine 0 0 0 pool: wrong-kind"#,
    r#""pool":1.0 => machine 0 0 0 pool: wrong-kind"#,
    r#""pool":1e2 => machine 0 0 0 pool: wrong-kind"#,
    r#""pool":18446744073709551615 => machine 0 0 0 pool: wrong-kind"#,
    r#""pool":18446744073709551616 => machine 0 0 0 pool: wrong-kind"#,
    r#""pool":"16" => machine 0 0 0 pool: wrong-kind"#,
    r#""pool":null => machine 0 0 0 pool: wrong-kind"#,
];

#[test]
fn the_power_of_the_machine_and_its_pool(rt: HostRuntime) -> Result<(), Fail> {
    let wrong = wrong_rows(rt.alloc(), MACHINE, POWER)?;
    assert_eq!(rt; wrong.as_str(), "");
    Ok(())
}

/// Quirk files of the document.
const FILES: Frame = Frame {
    old: r#""components":"#,
    front: r#""quirks":["#,
    back: r#"],"components":"#,
};

const QUIRKS: &[&str] = &[
    r#""[a]\nName=x" => read"#,
    r#""[a]\r\nName=x\r","" => read"#,
    r#""",3 => quirks 1 0 0 entry: wrong-kind"#,
    r#"{} => quirks 0 0 0 entry: wrong-kind"#,
    r#""a=b" => quirks 0 0 0 entry: bad-quirk 1 1"#,
    r#""\na=b" => quirks 0 0 0 entry: bad-quirk 1 2"#,
    r#""[a" => quirks 0 0 0 entry: bad-quirk 2 1"#,
    r#""","[a]\n\nb" => quirks 1 0 0 entry: bad-quirk 3 3"#,
    r#""\u0001" => quirks 0 0 0 entry: bad-quirk 4 1"#,
    r#""[a]\nb\n\u0001" => quirks 0 0 0 entry: bad-quirk 3 2"#,
    r#""[a]\n\u007f","b" => quirks 0 0 0 entry: bad-quirk 4 2"#,
];

#[test]
fn quirk_files(rt: HostRuntime) -> Result<(), Fail> {
    let wrong = wrong_rows(rt.alloc(), FILES, QUIRKS)?;
    assert_eq!(rt; wrong.as_str(), "");
    Ok(())
}
