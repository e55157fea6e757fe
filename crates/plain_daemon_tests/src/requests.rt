//! What the clients ask for.
use device_list::Selector;
use fw_base::Name;
use std::test::Fail;
use update_log::{InstallFlags, Request};
use version_formats::Version;

const PLAIN: InstallFlags = InstallFlags {
    offline: false,
    allow_reinstall: false,
    allow_older: false,
};

/// The device in this port.
pub fn device(port: &str) -> Result<Selector, Fail> {
    Ok(Selector::Port(Name::read(port.as_bytes())?))
}

/// The install of version 1.1.0 on the device in this port.
pub fn request(tag: &str, port: &str) -> Result<Request, Fail> {
    Ok(Request {
        tag: Name::read(tag.as_bytes())?,
        device: device(port)?,
        version: Version::read(b"1.1.0")?,
        flags: PLAIN,
        retry_of: None,
    })
}

/// The same, which tries the row of an entry again.
pub fn retry(tag: &str, port: &str, entry: u32) -> Result<Request, Fail> {
    let request = request(tag, port)?;
    Ok(Request {
        retry_of: Some(entry),
        ..request
    })
}

/// Which version is wanted on the first device.
#[derive(Clone, Copy)]
pub enum Wish {
    /// Version 1.1.0.
    Newer,
    /// Version 1.0.0, which the devices show at first.
    Same { allow_reinstall: bool },
}

fn same_version(tag: &str, allow_reinstall: bool) -> Result<Request, Fail> {
    Ok(Request {
        tag: Name::read(tag.as_bytes())?,
        device: device("usb1")?,
        version: Version::read(b"1.0.0")?,
        flags: InstallFlags {
            allow_reinstall,
            ..PLAIN
        },
        retry_of: None,
    })
}

/// The install of that version on the first device.
pub fn wished(tag: &str, wish: Wish) -> Result<Request, Fail> {
    match wish {
        Wish::Newer => request(tag, "usb1"),
        Wish::Same { allow_reinstall } => same_version(tag, allow_reinstall),
    }
}

/// The install of version 1.1.0 at the next boot.
pub fn offline(tag: &str, port: &str) -> Result<Request, Fail> {
    Ok(Request {
        flags: InstallFlags {
            offline: true,
            ..PLAIN
        },
        ..request(tag, port)?
    })
}

/// The install of that version on the first device at the next boot.
pub fn wished_offline(tag: &str, wish: Wish) -> Result<Request, Fail> {
    let request = wished(tag, wish)?;
    Ok(Request {
        flags: InstallFlags {
            offline: true,
            ..request.flags
        },
        ..request
    })
}
