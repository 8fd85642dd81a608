//! What the items of the words set.
ghost use Rattle.std.specs.Prelude.{◌≡◌, ◌^◌, true, IfErr, map, string_bytes};
ghost use Rattle.argon.specs.Range.{is_version};
ghost use Rattle.argon2_words.specs.Items.{items};
ghost use Rattle.argon2_words.specs.ItemView.{item_of};
ghost use Rattle.argon2_words.specs.Refusal.{IsBeforeMemoryAndOutput, IsOfNoFailedCall};
ghost use Rattle.command_words.specs.Number.{number_in};
ghost use Rattle.argon2_words.specs.Settings.{defaults, power_of_two_from_word, settings_after, version_named, version_number, with_item, with_value};

use crate::items::{Form, Item, Items, OptionName};
use crate::refusal::Argon2Refusal;
use argon::Kind;
use command_words::number_in;

/// The versions of Argon2 that `-v` names.
#[derive(Clone, Copy)]
pub enum Version {
    /// `10`: 0x10, before RFC 9106.
    V10,
    /// `13`: 0x13, that of RFC 9106.
    V13,
}

impl Version {
    /// Its number, as parameters and texts have it.
    pub fn number(self) -> u32
        ensures number { result ≡ version_number self }
        ensures known { is_version result ≡ true }
    {
        match self {
            Version::V10 => 0x10,
            Version::V13 => 0x13,
        }
    }
}

/// What the items have set so far. The ranges of the hash's parameters aren't tested yet.
#[derive(Clone, Copy)]
pub struct Settings {
    /// The type: `-d`, `-i`, `-id`.
    pub kind: Kind,
    /// The passes t: `-t`.
    pub passes: u32,
    /// The memory m in KiB: `-m`, `-k`.
    pub memory_kib: u32,
    /// The lanes p: `-p`.
    pub lanes: u32,
    /// The length of the tag in bytes: `-l`.
    pub tag_length: u32,
    /// The version: `-v`.
    pub version: Version,
    /// The most memory in KiB, 1 to 2^32-1: `--maxmem`.
    pub max_memory_kib: u32,
    /// The most block functions, 1 to 2^63-1: `--maxops`.
    pub max_ops: u64,
    /// Whether `-e` stands among the items.
    pub encoded: bool,
    /// Whether `-r` stands among the items.
    pub hex: bool,
}

// The settings where no item sets them.
const DEFAULTS: Settings = Settings {
    kind: Kind::I,
    passes: 3,
    memory_kib: 1 << 12,
    lanes: 1,
    tag_length: 32,
    version: Version::V13,
    max_memory_kib: 1 << 22,
    max_ops: 1 << 33,
    encoded: false,
    hex: false,
};

// The number of a number word that is at least `least` and below 2^32.
fn u32_from_word(least: u64, text: &str) -> Option<u32>
    ensures value { result ≡ number_in least (2 ^ 32) text.now }
{
    Some(number_in(least, 1 << 32, text)? as u32)
}

// 2 to the power that a number word from 1 to 31 gives.
fn power_of_two_from_word(text: &str) -> Option<u32>
    ensures value { result ≡ power_of_two_from_word text.now }
{
    let exponent = number_in(1, 32, text)?;
    Some(2u32.pow(exponent as u32))
}

// The version of that name.
fn version_named(text: &str) -> Option<Version>
    ensures value { result ≡ version_named text.now }
{
    match text {
        "10" => Some(Version::V10),
        "13" => Some(Version::V13),
        _ => None,
    }
}

impl Settings {
    // The settings after one more option with its value, where the option takes it.
    fn with_value(self, name: OptionName, text: &str) -> Option<Settings>
        ensures option { result ≡ with_value self name text.now }
    {
        let mut settings = self;
        match name {
            OptionName::Passes => settings.passes = u32_from_word(0, text)?,
            OptionName::LogMemory => settings.memory_kib = power_of_two_from_word(text)?,
            OptionName::Memory => settings.memory_kib = u32_from_word(0, text)?,
            OptionName::Lanes => settings.lanes = u32_from_word(0, text)?,
            OptionName::TagLength => settings.tag_length = u32_from_word(0, text)?,
            OptionName::Version => settings.version = version_named(text)?,
            OptionName::MaxMemory => settings.max_memory_kib = u32_from_word(1, text)?,
            OptionName::MaxOps => settings.max_ops = number_in(1, 1 << 63, text)?,
        }
        Some(settings)
    }

    // The settings after one more item, or the item's fault.
    fn with_item(self, item: Item<'_>) -> Result<Settings, Argon2Refusal>
        ensures early { IfErr result IsBeforeMemoryAndOutput }
        ensures counts { IfErr result IsOfNoFailedCall }
        ensures item { result ≡ with_item self (item_of item.entry) }
    {
        match item {
            Item::Kind(kind) => Ok(Settings { kind, ..self }),
            Item::Form(Form::Encoded) => Ok(Settings {
                encoded: true,
                ..self
            }),
            Item::Form(Form::Hex) => Ok(Settings { hex: true, ..self }),
            Item::Help => Err(Argon2Refusal::Usage),
            Item::UnknownWord => Err(Argon2Refusal::UnknownWord),
            Item::MissingValue => Err(Argon2Refusal::MissingValue),
            Item::Valued(name, text) => self.with_value(name, text).ok_or(Argon2Refusal::BadNumber),
        }
    }
}

/// What the items of the words set, or the fault of the first faulty item from the left.
pub fn read_settings(words: &[String]) -> Result<Settings, Argon2Refusal>
    ensures early { IfErr result IsBeforeMemoryAndOutput }
    ensures counts { IfErr result IsOfNoFailedCall }
    ensures settings { result ≡ settings_after defaults (items (map string_bytes words.now)) }
{
    let mut settings = DEFAULTS;
    for item in Items::new(words) {
        settings = settings.with_item(item)?;
    }
    Ok(settings)
}
