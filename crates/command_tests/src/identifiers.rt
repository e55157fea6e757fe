//! What `ids` says.
use crate::outputs::are_named;
use std::test::Fail;

const NAMED: &[u8] = b"python.org 886313e1-3b8a-5372-9b90-0c9aee199e5d\n";

#[test]
fn texts_have_their_identifiers(rt: HostRuntime) -> Result<(), Fail> {
    assert!(rt; are_named(rt.alloc(), &[b"python.org"], NAMED)?);
    Ok(())
}
