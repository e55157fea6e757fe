//! Where several things are wrong, the first of them is told.
use super::{BOARD, MACHINE, SECTION, wrong_rows};
use std::test::Fail;

const SECTIONS: &[&str] = &[
    r#""boots":3,"clients":3,"boards":3,"components":3,"quirks":3,"machine":3,"format":3 => format 0 0 0 format: wrong-kind"#,
    r#""boots":3,"clients":3,"boards":3,"components":3,"quirks":3,"machine":{"pool":""} => machine 0 0 0 daemon: missing"#,
    r#""boots":3,"clients":3,"boards":3,"components":3,"quirks":[3] => quirks 0 0 0 entry: wrong-kind"#,
    r#""boots":3,"clients":3,"boards":3,"components":[3] => components 0 0 0 entry: wrong-kind"#,
    r#""boots":3,"clients":3,"boards":[3] => boards 0 0 0 entry: wrong-kind"#,
    r#""boots":3,"clients":[{},3] => clients 1 0 0 entry: wrong-kind"#,
];

#[test]
fn a_section_is_read_to_its_end(rt: HostRuntime) -> Result<(), Fail> {
    let wrong = wrong_rows(rt.alloc(), SECTION, SECTIONS)?;
    assert_eq!(rt; wrong.as_str(), "");
    Ok(())
}

const FIELDS: &[&str] = &[
    r#""pool":null,"lid-closed":0,"power-low":0,"on-ac":0,"hardware":0,"smbios":0,"ids":0 => machine 0 0 0 ids: wrong-kind"#,
    r#""pool":null,"lid-closed":0,"power-low":0,"on-ac":0,"hardware":0,"smbios":0 => machine 0 0 0 smbios: wrong-kind"#,
    r#""pool":null,"lid-closed":0,"power-low":0,"on-ac":0,"hardware":0 => machine 0 0 0 hardware: wrong-kind"#,
    r#""pool":null,"lid-closed":0,"power-low":0,"on-ac":0 => machine 0 0 0 on-ac: wrong-kind"#,
    r#""pool":null,"lid-closed":0,"power-low":0 => machine 0 0 0 power-low: wrong-kind"#,
    r#""pool":null,"lid-closed":0 => machine 0 0 0 lid-closed: wrong-kind"#,
];

#[test]
fn fields_of_the_machine_in_their_order(rt: HostRuntime) -> Result<(), Fail> {
    let wrong = wrong_rows(rt.alloc(), MACHINE, FIELDS)?;
    assert_eq!(rt; wrong.as_str(), "");
    Ok(())
}

const BOARD_FIELDS: &[&str] = &[
    r#""lid":1,"image":3,"duration":"","flags":3,"vendor":3,"logical":3,"physical":3,"port":3 => boards 0 0 0 port: wrong-kind"#,
    r#""lid":1,"image":3,"duration":"","flags":3,"vendor":3,"logical":3,"physical":3 => boards 0 0 0 physical: wrong-kind"#,
    r#""lid":1,"image":3,"duration":"","flags":3,"vendor":3,"logical":3 => boards 0 0 0 logical: wrong-kind"#,
    r#""lid":1,"image":3,"duration":"","flags":3,"vendor":3,"name":3,"plugin":3,"priority":"" => boards 0 0 0 priority: wrong-kind"#,
    r#""lid":1,"image":3,"duration":"","flags":3,"vendor":3,"name":3,"plugin":3 => boards 0 0 0 plugin: wrong-kind"#,
    r#""lid":1,"image":3,"duration":"","flags":3,"vendor":3,"name":3 => boards 0 0 0 name: wrong-kind"#,
    r#""lid":1,"image":3,"duration":"","flags":3,"vendor":3 => boards 0 0 0 vendor: wrong-kind"#,
    r#""flags":3,"counterparts":3,"loader-instance-ids":3,"instance-ids":3,"vendor-ids":3 => boards 0 0 0 vendor-ids: wrong-kind"#,
    r#""flags":3,"counterparts":3,"loader-instance-ids":3,"instance-ids":3 => boards 0 0 0 instance-ids: wrong-kind"#,
    r#""flags":3,"counterparts":3,"loader-instance-ids":3 => boards 0 0 0 loader-instance-ids: wrong-kind"#,
    r#""flags":3,"counterparts":3 => boards 0 0 0 counterparts: wrong-kind"#,
    r#""lid":1,"image":3,"duration":"","flags":3 => boards 0 0 0 flags: wrong-kind"#,
    r#""duration":"","size-max":"","size-min":"","bootloader-version":1,"protocol":1,"version-format":1 => boards 0 0 0 version-format: wrong-kind"#,
    r#""duration":"","size-max":"","size-min":"","bootloader-version":1,"protocol":1 => boards 0 0 0 protocol: wrong-kind"#,
    r#""duration":"","size-max":"","size-min":"","bootloader-version":1 => boards 0 0 0 bootloader-version: wrong-kind"#,
    r#""duration":"","size-max":"","size-min":"" => boards 0 0 0 size-min: wrong-kind"#,
    r#""duration":"","size-max":"" => boards 0 0 0 size-max: wrong-kind"#,
    r#""lid":1,"image":3,"parent":3,"duration":"" => boards 0 0 0 duration: wrong-kind"#,
    r#""lid":1,"image":3,"parent":3 => boards 0 0 0 parent: wrong-kind"#,
    r#""faults":3,"lid":1,"power-low":1,"unreachable":1,"image":3 => boards 0 0 0 image: wrong-kind"#,
    r#""faults":3,"lid":1,"power-low":1,"unreachable":1 => boards 0 0 0 unreachable: wrong-kind"#,
    r#""faults":3,"lid":1,"power-low":1 => boards 0 0 0 power-low: wrong-kind"#,
    r#""faults":3,"lid":1 => boards 0 0 0 lid: wrong-kind"#,
    r#""faults":3 => boards 0 0 0 faults: wrong-kind"#,
];

#[test]
fn fields_of_a_board_in_their_order(rt: HostRuntime) -> Result<(), Fail> {
    let wrong = wrong_rows(rt.alloc(), BOARD, BOARD_FIELDS)?;
    assert_eq!(rt; wrong.as_str(), "");
    Ok(())
}
