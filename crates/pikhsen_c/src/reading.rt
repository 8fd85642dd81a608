//! What was read of a text, whose lists are not lent.
ghost use Rattle.std.specs.Prelude.{◌≡◌};

use argon_text::{Encoded, HashView, Settings};

/// What was read of a text. It lends salt and tag as bytes alone: a list would lend its allocator, so whoever had it
/// could take memory, or make a counter, beside the source.
#[derive(Drop)]
pub(crate) struct Reading {
    encoded: Encoded,
}

impl Reading {
    ghost use Rattle.argon_text.specs.Settings.{settings_of_encoded_value};
    ghost use Rattle.argon_text.specs.View.{encoded_value_of_hash_view, value_of};

    /// What was read.
    pub(crate) fn new(encoded: Encoded) -> Reading
        ensures encoded { result.encoded ≡ encoded }
    {
        Reading { encoded }
    }

    /// What it lends to the test of a password.
    pub(crate) fn hash_view(&self) -> HashView<'_>
        ensures value { encoded_value_of_hash_view result ≡ value_of self.now.encoded }
    {
        HashView::of(&self.encoded)
    }

    /// The settings that the text says.
    pub(crate) fn settings(&self) -> Settings
        ensures settings { result ≡ settings_of_encoded_value (value_of self.now.encoded) }
    {
        self.encoded.settings()
    }
}
