//! What a client asks for.
use device_list::Selector;
use fw_base::Name;
use version_formats::Version;

/// How an install is to be done.
#[derive(Clone, Copy, Debug, PartialEq, Eq)]
pub struct InstallFlags {
    /// At the next boot, before the clients start.
    pub offline: bool,
    /// Also where the device shows this version already.
    pub allow_reinstall: bool,
    /// Also where the device shows a newer version.
    pub allow_older: bool,
}

/// A request to install a version on a device. A tag is taken once: a request that repeats it is
/// answered with what became of the first. A retry is a request of its own, with a tag of its own.
#[derive(Clone, Copy, Debug)]
pub struct Request {
    pub tag: Name,
    pub device: Selector,
    pub version: Version,
    pub flags: InstallFlags,
    /// The entry of the failed row whose install this one tries again, where it names one.
    pub retry_of: Option<u32>,
}
