//! Where the memory of a value that is read comes from: the heap, or what a caller puts in its place.
ghost use Rattle.std.specs.Prelude.{◌≡◌, ℕ, Bool, List, IfOk, IfErr};
ghost use Rattle.base64.specs.Engines.{standard_no_pad};
ghost use Rattle.base64.specs.GeneralPurpose.{IsBytes, IsDecodeFailure};
ghost use Rattle.argon_text.specs.EncodedText.{base64_text};
ghost use Rattle.argon_text.specs.Reading.{is_granted};

use base64::DecodeAllocError;
use base64::engine::general_purpose::STANDARD_NO_PAD;
use std::alloc::Global;

/// Where `read_encoded_with_memory` takes the memory of a value that is read: the heap (`Global`), or a type of the caller's that
/// counts requests or refuses some. Contracts see how many there are, of what, and which of them are granted.
pub trait DecodeMemory {
    // What a request for the bytes of these symbols leaves of the source; `true`: memory was granted, also where they are
    // no base64.
    ghost after_decoded: { Self → List ℕ → Bool → Self };

    /// The bytes that the symbols of base64 stand for, in the standard alphabet, without padding (RFC 4648, 4
    /// and 3.2). Takes three bytes for each four symbols begun. The fault says why the symbols are no base64, or
    /// that memory was refused.
    fn decode_base64(&mut self, symbols: &[u8]) -> Result<Vec<u8>, DecodeAllocError>
        ensures bytes { IfOk result (λ bytes. IsBytes bytes.items) }
        ensures text { IfOk result (λ bytes. symbols.now ≡ base64_text bytes.items) }
        ensures err { IfErr result (IsDecodeFailure standard_no_pad symbols.now) }
        ensures asked { self.new ≡ after_decoded self.old symbols.now (is_granted result) };
}

impl DecodeMemory for Global {
    ghost after_decoded = { λ source _ _. source };

    #[tactic(auto, unfolding(crate::specs::EncodedText::base64_text))]
    fn decode_base64(&mut self, symbols: &[u8]) -> Result<Vec<u8>, DecodeAllocError> {
        STANDARD_NO_PAD.decode(*self, symbols)
    }
}
