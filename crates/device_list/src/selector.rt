//! How a client names a device.
use fw_base::Name;
use guid_ids::{DeviceId, Guid};

/// A device by its ID, by a GUID that it shows, or by the port that its board stands in.
#[derive(Clone, Copy, Debug)]
pub enum Selector {
    Id(DeviceId),
    Guid(Guid),
    Port(Name),
}
