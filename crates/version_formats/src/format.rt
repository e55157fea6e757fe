//! Version formats and their words.
ghost use Rattle.std.specs.Prelude.{◌≡◌, IfSome};

/// How a raw number of 32 bits is written as a version. The words are fwupd's.
#[derive(Clone, Copy, Debug, PartialEq, Eq)]
pub enum Format {
    /// `plain`: a decimal number.
    Plain,
    /// `number`: a decimal number.
    Number,
    /// `pair`: two numbers of 16 bits.
    Pair,
    /// `triplet`: 8, 8 and 16 bits.
    Triplet,
    /// `quad`: four bytes.
    Quad,
    /// `bcd`: four bytes, each of two decimal digits.
    Bcd,
    /// `dell-bios`: the three low bytes.
    DellBios,
    /// `dell-bios-msb`: the three high bytes.
    DellBiosMsb,
    /// `surface-legacy`: 10, 12 and 10 bits.
    SurfaceLegacy,
    /// `surface`: 8, 16 and 8 bits.
    Surface,
    /// `intel-me`: 3 bits plus 11, then 5, 8 and 16 bits.
    IntelMe,
    /// `intel-me2`: 4, 4, 8 and 16 bits.
    IntelMe2,
    /// `hex`: `0x` and eight lower-case hex digits.
    Hex,
}

impl Format {
    ghost use Rattle.std.specs.Prelude.{find};
    ghost use Rattle.std.specs.Str.{bytes_eq};
    ghost use Rattle.version_formats.specs.Formats.{format_word};

    /// The formats, in the order of their table.
    pub const ALL: [Format; 13] = [
        Format::Plain,
        Format::Number,
        Format::Pair,
        Format::Triplet,
        Format::Quad,
        Format::Bcd,
        Format::DellBios,
        Format::DellBiosMsb,
        Format::SurfaceLegacy,
        Format::Surface,
        Format::IntelMe,
        Format::IntelMe2,
        Format::Hex,
    ];

    /// The format of a word, or nothing for every other text.
    pub fn read(word: &[u8]) -> Option<Format>
        ensures found { IfSome result (λ format. word.now ≡ format_word format) }
        ensures every { (format : _) → word.now ≡ format_word format → result ≡ Some format }
    {
        Format::with_word(&Format::ALL, word)
    }

    fn with_word(formats: &[Format], word: &[u8]) -> Option<Format>
        ensures { result ≡ find (λ format. bytes_eq (format_word format) word.now) formats.now }
    {
        formats.iter().copied().find(|format| format.word() == word)
    }

    /// The word of the format.
    #[tactic(auto, unfolding(crate::specs::Formats::format_word))]
    pub fn word(self) -> &'static [u8]
        ensures { result.now ≡ format_word self }
    {
        match self {
            Format::Plain => b"plain",
            Format::Number => b"number",
            Format::Pair => b"pair",
            Format::Triplet => b"triplet",
            Format::Quad => b"quad",
            Format::Bcd => b"bcd",
            Format::DellBios => b"dell-bios",
            Format::DellBiosMsb => b"dell-bios-msb",
            Format::SurfaceLegacy => b"surface-legacy",
            Format::Surface => b"surface",
            Format::IntelMe => b"intel-me",
            Format::IntelMe2 => b"intel-me2",
            Format::Hex => b"hex",
        }
    }
}
