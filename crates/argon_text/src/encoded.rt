//! The value of an encoded text, and how it is written.
ghost use Rattle.std.specs.Prelude.{◌≡◌, ◌++◌, ◌-◌, ◌<◌, ◌≤◌, take, true, length, IfOk, OnOk, OnErr, string_bytes, codes};
ghost use Rattle.std.specs.Fmt.{decimal};
ghost use Rattle.argon_text.specs.Value.{Value, are_in_range};
ghost use Rattle.argon_text.specs.EncodedText.{base64_text, encoded_text, kind_name};

use crate::text_memory::TextMemory;
use argon::Kind;
use base64::encoded_len;
use base64::engine::general_purpose::STANDARD_NO_PAD;
use std::alloc::AllocError;

/// A hash with the parameters that gave it, as an encoded text holds them. Contracts see a `Value`.
///
/// Whoever makes one shows that all of it lies in the ranges below (RFC 9106, 3.1; the upper ends of
/// salt and tag are this project's own).
#[derive(Drop)]
pub struct Encoded {
    /// Argon2d, Argon2i or Argon2id.
    pub kind: Kind,
    /// The version of Argon2: 0x10 or 0x13.
    pub version: u32,
    /// Memory in KiB: 8 * lanes to 2^32-1.
    pub memory: u32,
    /// Passes over memory: 1 to 2^32-1.
    pub passes: u32,
    /// Lanes: 1 to 2^24-1.
    pub lanes: u32,
    /// The salt: 8 to 255 bytes.
    pub salt: Vec<u8>,
    /// The tag: 4 to 4,096 bytes.
    pub tag: Vec<u8>,
    pub ghost in_range: { are_in_range version memory passes lanes (length salt.items) (length tag.items) ≡ true },
}

impl Encoded {
    ghost use Rattle.argon_text.specs.EncodedText.{encoded_text};
    ghost use Rattle.argon_text.specs.View.{value_of};

    /// Appends the encoded text, which has the version, 0x10 too. After a refusal of memory `out` is
    /// unchanged.
    pub fn write(&self, out: &mut Vec<u8>) -> Result<(), AllocError>
        ensures ok { OnOk result (out.new.items ≡ out.old.items ++ encoded_text (value_of self.now)) }
        ensures err { OnErr result (out.new.items ≡ out.old.items) }
    {
        let mut source = *out.allocator();
        self.write_with_memory(&mut source, out)
    }

    /// Appends the encoded text as `write` does, with memory from `source`: the heap (`Global`), or a source of
    /// the caller's. After a refusal `out` is unchanged. Contracts see no request; tests count them: 21 at most,
    /// two for the symbols of salt and tag, two for the name of the type, three for each of the four numbers,
    /// two for each of the two parts after them, and one for `out`, and none after one that was refused.
    pub fn write_with_memory<R: TextMemory>(
        &self,
        source: &mut R,
        out: &mut Vec<u8>,
    ) -> Result<(), AllocError>
        ensures ok { OnOk result (out.new.items ≡ out.old.items ++ encoded_text (value_of self.now)) }
        ensures err { OnErr result (out.new.items ≡ out.old.items) }
    {
        let text = self.text(source)?;
        source.append(out, text.as_bytes())
    }

    // The encoded text.
    #[tactic(auto, unfolding(crate::specs::EncodedText::text_of_fields))]
    fn text<R: TextMemory>(&self, source: &mut R) -> Result<String, AllocError>
        ensures text { IfOk result (λ text.
            string_bytes text ≡ encoded_text (value_of self.now)) }
    {
        let salt = source.symbols(&self.salt)?;
        let tag = source.symbols(&self.tag)?;
        let mut text = source.no_text();
        source.push(&mut text, "$argon2")?;
        source.push(&mut text, kind_name(self.kind))?;
        push_number(source, &mut text, "$v=", self.version)?;
        push_number(source, &mut text, "$m=", self.memory)?;
        push_number(source, &mut text, ",t=", self.passes)?;
        push_number(source, &mut text, ",p=", self.lanes)?;
        push_part(source, &mut text, &salt)?;
        push_part(source, &mut text, &tag)?;
        Ok(text)
    }
}

/// Writes a tag over the tag of an encoded text, of the same length: its symbols take the place of as many at the end of
/// `text`, which stays where it has fewer. It takes no memory: whoever makes the text before the hash, with any tag, is
/// refused nothing after it.
pub fn replace_tag(text: &mut [u8], tag: &[u8])
    ensures text { (v : Value) → text.old ≡ encoded_text v → length v.tag ≡ length tag.now
        → text.new ≡ encoded_text (record v { tag = tag.now }) }
    // Of any text the end is written over, and what is before it stays.
    ensures end { length (base64_text tag.now) ≤ length text.old
        → text.new ≡ take (length text.old - length (base64_text tag.now)) text.old ++ base64_text tag.now }
    // A text that is too short for the tag stays.
    ensures short { length text.old < length (base64_text tag.now) → text.new ≡ text.old }
{
    let Some(len) = encoded_len(tag.len(), false) else {
        return;
    };
    if let Some(start) = text.len().checked_sub(len) {
        let _ = STANDARD_NO_PAD.encode_slice(tag, &mut text[start..]);
    }
}

// The name of a type of Argon2.
fn kind_name(kind: Kind) -> &'static str
    ensures name { result.now ≡ kind_name kind }
{
    match kind {
        Kind::D => "d",
        Kind::I => "i",
        Kind::Id => "id",
    }
}

// Appends a label and a number in decimal.
fn push_number<R: TextMemory>(
    source: &mut R,
    text: &mut String,
    label: &str,
    number: u32,
) -> Result<(), AllocError>
    ensures appends { OnOk result
        (string_bytes text.new ≡ string_bytes text.old ++ label.now ++ decimal number) }
{
    source.push(text, label)?;
    let digits = source.digits(number)?;
    source.push(text, &digits)
}

// Appends a base64 part and the mark before it.
fn push_part<R: TextMemory>(source: &mut R, text: &mut String, part: &str) -> Result<(), AllocError>
    ensures appends { OnOk result
        (string_bytes text.new ≡ string_bytes text.old ++ codes "$" ++ part.now) }
{
    source.push(text, "$")?;
    source.push(text, part)
}
