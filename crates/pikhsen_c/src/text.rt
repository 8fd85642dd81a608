//! The text of a hash, whose list is not lent.
ghost use Rattle.std.specs.Prelude.{◌≡◌};
ghost use Rattle.pikhsen_c.specs.Inside.Settings.{PutsTag};

use argon_text::replace_tag;

/// The encoded text of a hash that is being made. Its length does not change, and it lends bytes alone: a list lends
/// its allocator, so whoever had it could take memory, or make a counter, beside the source.
#[derive(Drop)]
pub(crate) struct Text {
    list: Vec<u8>,
}

impl Text {
    /// The text of these bytes.
    pub(crate) fn new(list: Vec<u8>) -> Text
        ensures list { result.list ≡ list }
    {
        Text { list }
    }

    /// Its bytes.
    pub(crate) fn as_slice(&self) -> &[u8]
        ensures value { result.now ≡ self.now.list.items }
    {
        self.list.as_slice()
    }

    /// Writes a tag over the tag of the text, of the same length.
    pub(crate) fn put(&mut self, tag: &[u8])
        ensures puts { PutsTag self.old.list.items tag.now self.new.list.items }
    {
        replace_tag(&mut self.list, tag);
    }
}
