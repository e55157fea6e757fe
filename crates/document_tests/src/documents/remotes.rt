//! The remotes, at their places in the document.
use super::{Frame, SECTION, wrong_rows};
use std::test::Fail;

const FIELDS: &[&str] = &[
    r#""remotes":[] => read"#,
    r#""remotes":3 => document 0 0 0 remotes: wrong-kind"#,
    r#""boards":3,"remotes":3,"components":3 => document 0 0 0 components: wrong-kind"#,
    r#""boards":3,"remotes":3 => document 0 0 0 remotes: wrong-kind"#,
    r#""remotes":[3] => remotes 0 0 0 entry: wrong-kind"#,
    r#""remotes":[{}] => remotes 0 0 0 name: missing"#,
    r#""remotes":[{"name":""}] => remotes 0 0 0 name: wrong-kind"#,
    r#""remotes":[{"name":"local"}] => remotes 0 0 0 name: repeated"#,
    r#""remotes":[{"name":"a","components":[]},{"name":"b","components":[]}] => read"#,
    r#""remotes":[{"name":"a","components":[]},{"name":"a"}] => remotes 1 0 0 name: repeated"#,
    r#""remotes":[{"name":"a","order":1000,"enabled":false,"components":[]}] => read"#,
    r#""remotes":[{"name":"a","order":1001,"enabled":0}] => remotes 0 0 0 order: wrong-kind"#,
    r#""remotes":[{"name":"a","enabled":0}] => remotes 0 0 0 enabled: wrong-kind"#,
    r#""remotes":[{"name":"a"}] => remotes 0 0 0 components: missing"#,
    r#""remotes":[{"name":"a","components":{}}] => remotes 0 0 0 components: wrong-kind"#,
];

/// What stands in the components of the second remote, behind its first component.
const COMPONENTS: &[&str] = &[
    "3 => remotes 1 1 0 entry: wrong-kind",
    "{} => remotes 1 1 0 id: missing",
    r#"{"id":"x","provides":["x"]} => remotes 1 1 0 provides: bad-guid"#,
    r#"{"id":"x","provides":[],"requires":[{"tag":"client","text":"a"},3]} => remotes 1 1 1 entry: wrong-kind"#,
    r#"{"id":"x","provides":[],"requires":[{"tag":"client","text":"a"},{"tag":"x"}]} => remotes 1 1 1 tag: wrong-kind"#,
    r#"{"id":"x","provides":[],"releases":3} => remotes 1 1 0 releases: wrong-kind"#,
    r#"{"id":"x","provides":[],"releases":[3]} => remotes 1 1 0 entry: wrong-kind"#,
    r#"{"id":"x","provides":[],"releases":[{"version":""}]} => remotes 1 1 0 version: bad-version"#,
    r#"{"id":"x","provides":[],"releases":[]} => read"#,
];

/// The second remote of a document.
const SECOND: Frame = Frame {
    old: "}]]}]}",
    front: r#"}]]}],"remotes":[{"name":"a","components":[]},{"name":"b","components":[{"id":"x","provides":[],"releases":[]},"#,
    back: "]}]}",
};

#[test]
fn fields_of_a_remote(rt: HostRuntime) -> Result<(), Fail> {
    let wrong = wrong_rows(rt.alloc(), SECTION, FIELDS)?;
    assert_eq!(rt; wrong.as_str(), "");
    Ok(())
}

#[test]
fn components_of_a_remote(rt: HostRuntime) -> Result<(), Fail> {
    let wrong = wrong_rows(rt.alloc(), SECOND, COMPONENTS)?;
    assert_eq!(rt; wrong.as_str(), "");
    Ok(())
}
