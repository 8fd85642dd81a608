//! How an encoded text is read.
ghost use Rattle.std.specs.Prelude.{◌≡◌, ◌≤◌, ◌^◌, true, false, length, None, IfSome, IfOk, IfErr, OnOk, MatchOption};
ghost use Rattle.base64.specs.GeneralPurpose.{IsBytes};
ghost use Rattle.argon_text.specs.Answer.{IsResultOfReading, ReadsText};
ghost use Rattle.argon_text.specs.Inside.Base64Fault.{IsBase64Fault, had_memory};
ghost use Rattle.argon_text.specs.EncodedText.{base64_text};
ghost use Rattle.argon_text.specs.Grammar.{AreNumbers, is_number, number_value, value_with_salt_and_tag};
ghost use Rattle.argon_text.specs.Reading.{IsLeftAtFault, fields_at};
ghost use Rattle.argon_text.specs.Value.{are_in_range, is_in_range};
ghost use Rattle.argon_text.specs.View.{value_of};
ghost use Rattle.argon_text.specs.Inside.FieldsRead.{fields_of};

use crate::decode_memory::DecodeMemory;
use crate::encoded::Encoded;
use crate::fault::ReadFault;
use crate::fields::{Fields, fields_in};
use base64::DecodeAllocError;
use std::alloc::Global;

impl Encoded {
    /// Reads an encoded text, which is the whole of `text`: nothing may follow it. A text without a
    /// version is one of version 0x10. Numbers may have any length, and are compared with their ranges
    /// as numbers. It asks for memory twice, for salt and tag, together less than `text` has bytes; for
    /// a text whose labels, type or numbers are wrong it asks for none.
    ///
    /// The faults, by their numbers: 1 where the bytes are no encoded text, 2 where they are one
    /// with a value out of range (`Encoded` has the ranges), 3 where memory was refused.
    pub fn read(alloc: Global, text: &[u8]) -> Result<Encoded, ReadFault>
        ensures reads { ReadsText text.now result }
    {
        let mut source = alloc;
        read_encoded_with_memory(&mut source, text)
    }
}

/// Reads an encoded text as [`Encoded::read`] does, with memory from `source`: the heap (`Global`), or a
/// source of the caller's.
///
/// For a text whose labels, type or numbers are wrong `source` is asked for nothing. For any other it is
/// asked for the bytes of the salt, and then, unless that was refused or its symbols are no base64, for
/// those of the tag.
///
/// The faults, by their numbers: 1 where the bytes are no encoded text, 2 where they are one with a
/// value out of range (`Encoded` has the ranges), 3 where memory was refused.
pub fn read_encoded_with_memory<R: DecodeMemory>(
    source: &mut R,
    text: &[u8],
) -> Result<Encoded, ReadFault>
    ensures answer { IsResultOfReading text.now result }
    // Nothing is asked of the source of memory for a text whose fields are not found.
    ensures unasked { fields_at text.now ≡ None → source.new ≡ source.old }
    // For any other the bytes of the salt are asked for, and then, unless that gave none, those of the tag.
    ensures asked { IfSome (fields_at text.now) (λ fields. OnOk result
        (source.new ≡ R.after_decoded (R.after_decoded source.old fields.salt true) fields.tag true)) }
    // Want of memory is told only where a request was refused, and no other fault where one was.
    ensures refused { IfErr result (λ fault.
        IsLeftAtFault R.after_decoded (fields_at text.now) fault source.old source.new) }
{
    let Some(fields) = fields_in(text) else {
        return Err(ReadFault::NotInGrammar);
    };
    let salt = decode_base64(source, fields.salt)?;
    let tag = decode_base64(source, fields.tag)?;
    match encoded_from_fields(&fields, salt, tag) {
        Some(encoded) => Ok(encoded),
        None => Err(ReadFault::OutOfRange),
    }
}

// The bytes that symbols of base64 stand for.
fn decode_base64<R: DecodeMemory>(source: &mut R, symbols: &[u8]) -> Result<Vec<u8>, ReadFault>
    ensures bytes { IfOk result (λ bytes. IsBytes bytes.items) }
    ensures text { IfOk result (λ bytes. symbols.now ≡ base64_text bytes.items) }
    ensures err { IfErr result (IsBase64Fault symbols.now) }
    ensures asked { source.new ≡ R.after_decoded source.old symbols.now (had_memory result) }
{
    match source.decode_base64(symbols) {
        Ok(bytes) => Ok(bytes),
        Err(DecodeAllocError::OutOfMemory) => Err(ReadFault::OutOfMemory),
        Err(DecodeAllocError::DecodeError(_)) => Err(ReadFault::NotInGrammar),
    }
}

// The value of the fields, where it is in range.
fn encoded_from_fields(fields: &Fields<'_>, salt: Vec<u8>, tag: Vec<u8>) -> Option<Encoded>
    requires numbers { AreNumbers (fields_of fields.now) }
    ensures value { MatchOption result
        (is_in_range (value_with_salt_and_tag (fields_of fields.now) salt.items tag.items) ≡ false)
        (λ e. value_of e ≡ value_with_salt_and_tag (fields_of fields.now) salt.items tag.items) }
{
    let version = match fields.version {
        None => 0x10,
        Some(digits) => number_value(digits)?,
    };
    let memory = number_value(fields.memory)?;
    let passes = number_value(fields.passes)?;
    let lanes = number_value(fields.lanes)?;
    if are_in_range(version, memory, passes, lanes, salt.len(), tag.len()) {
        Some(Encoded {
            kind: fields.kind,
            version,
            memory,
            passes,
            lanes,
            salt,
            tag,
        })
    } else {
        None
    }
}

/// The number that digits write, where it is below 2^32. No digit is read past that.
pub(crate) fn number_value(digits: &[u8]) -> Option<u32>
    requires form { is_number digits.now ≡ true }
    ensures value { MatchOption result (2 ^ 32 ≤ number_value digits.now)
        (λ number. number ≡ number_value digits.now) }
{
    let mut number = 0u32;
    for byte in digits {
        let more = u64::from(number) * 10 + u64::from(*byte - b'0');
        if more > u64::from(u32::MAX) {
            return None;
        }
        number = more as u32;
    }
    Some(number)
}

// The ranges of an `Encoded`.
fn are_in_range(
    version: u32,
    memory: u32,
    passes: u32,
    lanes: u32,
    salt_len: usize,
    tag_len: usize,
) -> bool
    ensures value { result ≡ are_in_range version memory passes lanes salt_len tag_len }
{
    (version == 0x10 || version == 0x13)
        && 1 <= passes
        && (1 <= lanes && lanes <= 0xFF_FFFF)
        && 8 * u64::from(lanes) <= u64::from(memory)
        && (8 <= salt_len && salt_len <= 255)
        && (4 <= tag_len && tag_len <= 4096)
}
