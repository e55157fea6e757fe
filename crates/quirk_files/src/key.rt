//! The keys of quirk files.
ghost use Rattle.std.specs.Prelude.{◌≡◌, find};
ghost use Rattle.std.specs.Str.{bytes_eq};
ghost use Rattle.quirk_files.specs.Keys.{is_key, key_read, key_word};

/// What a line of a quirk file sets. The words are fwupd's.
#[derive(Clone, Copy, Debug, PartialEq, Eq)]
pub enum Key {
    /// The plugin that updates the device: a name.
    Plugin,
    /// What people call the device: a line.
    Name,
    /// What people call its vendor: a line.
    Vendor,
    /// The word of a version format.
    VersionFormat,
    /// The update protocol: a name.
    Protocol,
    /// The least size of a payload, in bytes.
    FirmwareSizeMin,
    /// The greatest size of a payload, in bytes.
    FirmwareSizeMax,
    /// How long an update takes, in seconds.
    InstallDuration,
    /// A comma list of flags that are added, or, behind `~`, taken away.
    Flags,
    /// A comma list of GUIDs or instance IDs that the device has too in runtime mode.
    Guid,
    /// A comma list of names.
    VendorId,
    /// A comma list of GUIDs or instance IDs that the device may come back with during an update.
    CounterpartGuid,
}

impl Key {
    /// All keys.
    pub const ALL: [Key; 12] = [
        Key::Plugin,
        Key::Name,
        Key::Vendor,
        Key::VersionFormat,
        Key::Protocol,
        Key::FirmwareSizeMin,
        Key::FirmwareSizeMax,
        Key::InstallDuration,
        Key::Flags,
        Key::Guid,
        Key::VendorId,
        Key::CounterpartGuid,
    ];

    /// The key of a word, or nothing for every other text.
    pub fn read(word: &[u8]) -> Option<Key>
        ensures { result ≡ key_read word.now }
    {
        with_word(&Key::ALL, word)
    }

    /// The word of the key.
    pub fn word(self) -> &'static [u8]
        ensures { result.now ≡ key_word self }
    {
        match self {
            Key::Plugin => b"Plugin",
            Key::Name => b"Name",
            Key::Vendor => b"Vendor",
            Key::VersionFormat => b"VersionFormat",
            Key::Protocol => b"Protocol",
            Key::FirmwareSizeMin => b"FirmwareSizeMin",
            Key::FirmwareSizeMax => b"FirmwareSizeMax",
            Key::InstallDuration => b"InstallDuration",
            Key::Flags => b"Flags",
            Key::Guid => b"Guid",
            Key::VendorId => b"VendorId",
            Key::CounterpartGuid => b"CounterpartGuid",
        }
    }

    /// Whether the two keys are one.
    pub fn is(self, other: Key) -> bool
        ensures { result ≡ is_key self other }
    {
        self as u8 == other as u8
    }
}

fn with_word(keys: &[Key], word: &[u8]) -> Option<Key>
    ensures { result ≡ find (λ key. bytes_eq (key_word key) word.now) keys.now }
{
    keys.iter().copied().find(|key| key.word() == word)
}
