//! Flags that a quirk adds or takes away.
ghost use Rattle.std.specs.Prelude.{◌≡◌, find};
ghost use Rattle.std.specs.Str.{bytes_eq};
ghost use Rattle.fw_facts.specs.Flags.{flag_word};
ghost use Rattle.quirk_files.specs.Flags.{flag_of, begins_with_tilde, change_of, flags_with, changed};

use fw_facts::{DeviceFlag, DeviceFlags};

/// What an element of a list of flags does.
#[derive(Clone, Copy, Debug, PartialEq, Eq)]
pub enum FlagChange {
    /// The flag is added.
    Add(DeviceFlag),
    /// The flag is taken away.
    Remove(DeviceFlag),
}

impl FlagChange {
    /// The flags that a quirk may change: all but `is-bootloader`, which no sheet states.
    pub const FLAGS: [DeviceFlag; 9] = [
        DeviceFlag::Internal,
        DeviceFlag::Updatable,
        DeviceFlag::RequireAc,
        DeviceFlag::Locked,
        DeviceFlag::NeedsBootloader,
        DeviceFlag::NeedsReboot,
        DeviceFlag::WaitForReplug,
        DeviceFlag::InstallParentFirst,
        DeviceFlag::Emulated,
    ];

    /// The change of an element: the word of a flag, behind `~` where it is taken away.
    pub fn read(element: &[u8]) -> Option<FlagChange>
        ensures { result ≡ change_of element.now }
    {
        if begins_with_tilde(element) {
            match flag_of(&element[1..]) {
                Some(flag) => Some(FlagChange::Remove(flag)),
                None => None,
            }
        } else {
            match flag_of(element) {
                Some(flag) => Some(FlagChange::Add(flag)),
                None => None,
            }
        }
    }

    /// The flags after the change.
    pub fn applied(self, flags: DeviceFlags) -> DeviceFlags
        ensures { result ≡ flags_with self flags }
    {
        match self {
            FlagChange::Add(flag) => flags.with(flag),
            FlagChange::Remove(flag) => flags.without(flag),
        }
    }
}

/// The flags after the changes, in order.
pub fn changed(before: DeviceFlags, changes: &[FlagChange]) -> DeviceFlags
    ensures { result ≡ changed before changes.now }
{
    let mut flags = before;
    for change in changes {
        flags = change.applied(flags);
    }
    flags
}

fn begins_with_tilde(element: &[u8]) -> bool
    ensures { result ≡ begins_with_tilde element.now }
{
    1 <= element.len() && element[0] == b'~'
}

fn flag_of(word: &[u8]) -> Option<DeviceFlag>
    ensures { result ≡ flag_of word.now }
{
    flag_among(&FlagChange::FLAGS, word)
}

fn flag_among(flags: &[DeviceFlag], word: &[u8]) -> Option<DeviceFlag>
    ensures { result ≡ find (λ flag. bytes_eq (flag_word flag) word.now) flags.now }
{
    flags.iter().copied().find(|flag| flag.word() == word)
}
