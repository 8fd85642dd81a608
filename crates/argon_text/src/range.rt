//! Which part of an encoded text is out of range.
ghost use Rattle.std.specs.Prelude.{◌≡◌, ◌^◌, ◌<◌, ◌≤◌, true, length, IsSome};
ghost use Rattle.argon.specs.Range.{is_between};
ghost use Rattle.argon_text.specs.Base64.{base64_bytes};
ghost use Rattle.argon_text.specs.Grammar.{AreNumbers, IsEncodedText, IsEncodedTextInRange, is_number, number_value, value_of_fields, version_said};
ghost use Rattle.argon_text.specs.Inside.FieldsRead.{fields_of};
ghost use Rattle.argon_text.specs.Settings.{IsFirstFault, first_field_range_fault, first_encoded_range_fault};
ghost use Rattle.argon_text.specs.Inside.Capped.{IsCapped};

use crate::fields::{Fields, fields_in};
use crate::read::number_value;
use thiserror::Error;

/// Which part of an encoded text is out of range, where `Encoded::read` says `ReadFault::OutOfRange`: the first, in this
/// order.
#[derive(Clone, Copy, Debug, PartialEq, Eq, Error)]
pub enum RangeFault {
    /// The version is not 0x10 or 0x13.
    #[error("the version of the encoded text is not 16 or 19")]
    Version,
    /// Passes are not 1 to 2^32-1.
    #[error("the passes of the encoded text are not 1 to 2^32-1")]
    Passes,
    /// Lanes are not 1 to 2^24-1.
    #[error("the lanes of the encoded text are not 1 to 2^24-1")]
    Lanes,
    /// Memory is not 8 * lanes to 2^32-1 KiB.
    #[error("the memory of the encoded text is not 8 * lanes to 2^32-1 KiB")]
    Memory,
    /// The tag has not 4 to 4,096 bytes.
    #[error("the tag of the encoded text is not 4 to 4096 bytes long")]
    TagLength,
    /// The salt has not 8 to 255 bytes.
    #[error("the salt of the encoded text is not 8 to 255 bytes long")]
    SaltLength,
}

/// The first part of an encoded text that is out of range, or None where all of it is in range: so one is told of each text
/// for which `Encoded::read` says that a value is out of range. It takes no memory. Of bytes that are no encoded text it
/// tells nothing.
pub fn first_encoded_range_fault(text: &[u8]) -> Option<RangeFault>
    ensures first { IsFirstFault text.now result }
    ensures found { IsEncodedText text.now → (IsEncodedTextInRange text.now → ⊥) → IsSome result }
{
    let fields = fields_in(text)?;
    range_fault_of_fields(&fields)
}

// The first of the fields that is out of range. A number of 2^32 or more is out of it as 2^32 is.
fn range_fault_of_fields(fields: &Fields<'_>) -> Option<RangeFault>
    requires numbers { AreNumbers (fields_of fields.now) }
    ensures first { result ≡ first_encoded_range_fault (value_of_fields (fields_of fields.now)) }
{
    let version = version_of(fields);
    let passes = capped(fields.passes);
    let lanes = capped(fields.lanes);
    let memory = capped(fields.memory);
    let tag_len = bytes_of(fields.tag);
    let salt_len = bytes_of(fields.salt);
    first_field_range_fault(version, passes, lanes, memory, tag_len, salt_len)
}

// The version that the fields say, where there is one.
fn version_of(fields: &Fields<'_>) -> u64
    requires numbers { AreNumbers (fields_of fields.now) }
    ensures version { IsCapped result (version_said (fields_of fields.now).version) }
{
    match fields.version {
        None => 0x10,
        Some(digits) => capped(digits),
    }
}

// The first of these that is out of range.
fn first_field_range_fault(
    version: u64,
    passes: u64,
    lanes: u64,
    memory: u64,
    tag_len: u64,
    salt_len: u64,
) -> Option<RangeFault>
    requires small { lanes ≤ 2 ^ 32 }
    ensures first { result ≡ first_field_range_fault version passes lanes memory tag_len salt_len }
{
    if version != 0x10 && version != 0x13 {
        Some(RangeFault::Version)
    } else if !is_between(1, passes, 0xFFFF_FFFF) {
        Some(RangeFault::Passes)
    } else if !is_between(1, lanes, 0xFF_FFFF) {
        Some(RangeFault::Lanes)
    } else if !is_between(8 * lanes, memory, 0xFFFF_FFFF) {
        Some(RangeFault::Memory)
    } else if !is_between(4, tag_len, 4096) {
        Some(RangeFault::TagLength)
    } else if !is_between(8, salt_len, 255) {
        Some(RangeFault::SaltLength)
    } else {
        None
    }
}

// The number that digits write, or 2^32 where it is not below that.
fn capped(digits: &[u8]) -> u64
    requires form { is_number digits.now ≡ true }
    ensures value { IsCapped result (number_value digits.now) }
    ensures small { result ≤ 2 ^ 32 }
{
    match number_value(digits) {
        Some(number) => u64::from(number),
        None => 1 << 32,
    }
}

// How many bytes symbols of base64 stand for: three for each four, and one less than those that are left.
fn bytes_of(symbols: &[u8]) -> u64
    ensures len { result ≡ length (base64_bytes symbols.now) }
{
    let len = symbols.len() as u64;
    len / 4 * 3 + (len % 4).saturating_sub(1)
}

/// Whether a number is in a range, its ends included.
pub(crate) fn is_between(low: u64, number: u64, high: u64) -> bool
    ensures value { result ≡ is_between low number high }
{
    low <= number && number <= high
}
