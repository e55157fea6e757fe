//! The items of a script.
use device_list::Selector;
use update_log::{Query, Request};

/// What a client does next.
#[derive(Clone, Copy, Debug)]
pub enum Item {
    /// It asks, and is told.
    Ask(Query),
    /// It asks for an install, and does it where it is let.
    Install(Request),
    /// It has the device's open row judged.
    Settle(Selector),
    /// It takes the device's board out of its port.
    Unplug(Selector),
    /// It puts the device's board back into its port.
    Plug(Selector),
}
