//! Where the memory of a text comes from: the heap, or what a caller puts in its place.
ghost use Rattle.std.specs.Prelude.{◌≡◌, ◌++◌, [], IfOk, OnOk, OnErr, string_bytes};
ghost use Rattle.std.specs.Fmt.{decimal};
ghost use Rattle.argon_text.specs.EncodedText.{base64_text};

use base64::engine::general_purpose::STANDARD_NO_PAD;
use std::alloc::{AllocError, Global};

/// Where `Encoded::write_with_memory` takes the memory of a text: the heap (`Global`), or a type of the caller's that counts
/// requests or refuses some.
pub trait TextMemory {
    /// A text of no bytes, for which nothing is asked for.
    fn no_text(&self) -> String
        ensures none { string_bytes result ≡ [] };

    /// Base64 in the standard alphabet, without padding (RFC 4648, 4 and 3.2).
    fn symbols(&mut self, bytes: &[u8]) -> Result<String, AllocError>
        ensures text { IfOk result (λ text. string_bytes text ≡ base64_text bytes.now) };

    /// The number in decimal.
    fn digits(&mut self, number: u32) -> Result<String, AllocError>
        ensures digits { IfOk result (λ digits. string_bytes digits ≡ decimal number) };

    /// Appends a part to the text.
    fn push(&mut self, text: &mut String, part: &str) -> Result<(), AllocError>
        ensures appends { OnOk result (string_bytes text.new ≡ string_bytes text.old ++ part.now) };

    /// Appends the bytes to the list. After a refusal it is as it was.
    fn append(&mut self, list: &mut Vec<u8>, bytes: &[u8]) -> Result<(), AllocError>
        ensures ok { OnOk result (list.new.items ≡ list.old.items ++ bytes.now) }
        ensures err { OnErr result (list.new.items ≡ list.old.items) };
}

impl TextMemory for Global {
    fn no_text(&self) -> String {
        String::new(*self)
    }

    #[tactic(auto, unfolding(crate::specs::EncodedText::base64_text))]
    fn symbols(&mut self, bytes: &[u8]) -> Result<String, AllocError> {
        STANDARD_NO_PAD.encode(*self, bytes)
    }

    fn digits(&mut self, number: u32) -> Result<String, AllocError> {
        number.to_string(*self)
    }

    fn push(&mut self, text: &mut String, part: &str) -> Result<(), AllocError> {
        text.push_str(part)
    }

    fn append(&mut self, list: &mut Vec<u8>, bytes: &[u8]) -> Result<(), AllocError> {
        list.extend_from_slice(bytes)
    }
}
