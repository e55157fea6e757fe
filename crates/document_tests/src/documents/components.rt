//! The components, at their places in the document.
use super::{Frame, wrong_rows};
use std::test::Fail;

/// Members of the only component, behind those that are there.
const COMPONENT: Frame = Frame {
    old: r#""size":14}]"#,
    front: r#""size":14}],"#,
    back: "",
};

const FIELDS: &[&str] = &[
    r#""id":3 => components 0 0 0 id: wrong-kind"#,
    r#""name":"\n" => components 0 0 0 name: wrong-kind"#,
    r#""provides":["x"] => components 0 0 0 provides: bad-guid"#,
    r#""requires":[{"tag":"client","text":"a"},3] => components 0 1 0 entry: wrong-kind"#,
    r#""requires":[{"tag":"x"}] => components 0 0 0 tag: wrong-kind"#,
    r#""requires":[{"tag":"hardware"}] => components 0 0 0 text: bad-guid"#,
    r#""requires":[{"tag":"firmware","depth":1}] => components 0 0 0 depth: wrong-kind"#,
    r#""requires":[{"tag":"firmware","version":"1"}] => components 0 0 0 compare: missing"#,
    r#""requires":[{"tag":"firmware","compare":"is","version":"1"}] => components 0 0 0 compare: bad-compare"#,
    r#""requires":[{"tag":"firmware","compare":"regex","version":"("}] => components 0 0 0 version: bad-pattern 0"#,
    r#""requires":[{"tag":"firmware","compare":"glob","version":"a["}] => components 0 0 0 version: bad-pattern 1"#,
    r#""custom":{"LVFS::UpdateProtocol":""} => components 0 0 0 custom: wrong-kind"#,
    r#""releases":[] => read"#,
    r#""releases":[3] => components 0 0 0 entry: wrong-kind"#,
    r#""releases":[{"version":""}] => components 0 0 0 version: bad-version"#,
    r#""releases":[{"version":"1","sha256":"0"}] => components 0 0 0 sha256: bad-digest"#,
];

#[test]
fn fields_of_a_component(rt: HostRuntime) -> Result<(), Fail> {
    let wrong = wrong_rows(rt.alloc(), COMPONENT, FIELDS)?;
    assert_eq!(rt; wrong.as_str(), "");
    Ok(())
}

/// The size of a release.
const SIZE: Frame = Frame {
    old: "14",
    front: "",
    back: "",
};

const SIZES: &[&str] = &[
    "0 => read",
    "4194304 => read",
    "4194305 => components 0 0 0 size: wrong-kind",
    "14.0 => components 0 0 0 size: wrong-kind",
];

#[test]
fn the_size_of_a_release(rt: HostRuntime) -> Result<(), Fail> {
    let wrong = wrong_rows(rt.alloc(), SIZE, SIZES)?;
    assert_eq!(rt; wrong.as_str(), "");
    Ok(())
}
