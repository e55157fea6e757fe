//! What no clause says: that calls succeed.
use json_values::Scratch;
use release_catalogue::Word;
use site_scripts::{Ports, needed_here, whole_spot};
use std::test::Fail;

#[test]
fn a_port_is_found_by_its_place(rt: HostRuntime) -> Result<(), Fail> {
    let mut ports = Ports::new(rt.alloc());
    ports.add(b"usb1")?;
    ports.add(b"usb2")?;
    assert_eq!(rt; ports.place(b"usb2"), Some(1));
    assert_eq!(rt; ports.place(b"usb3"), None);
    assert!(rt; ports.has(b"usb1") && !ports.has(b""));
    Ok(())
}

#[test]
fn a_member_is_told_at_its_object(rt: HostRuntime) -> Result<(), Fail> {
    let mut scratch = Scratch::new(rt.alloc());
    let value = json_values::read(rt.alloc(), r#"{"call":1}"#.as_bytes(), &mut scratch)?;
    let spot = whole_spot();
    assert!(rt; needed_here(&value, spot, Word::Call).is_ok());
    assert!(rt; needed_here(&value, spot, Word::Fault).is_err());
    Ok(())
}
