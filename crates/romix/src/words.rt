//! Words that are overwritten before their memory is freed.
ghost use Rattle.std.specs.Prelude.{◌≡◌, length, replicate};

use crate::wiped_words::WipedWords;

/// Words that come from a password, in memory of their own. A guess can be tested against them for
/// the price of a few hashes, so the memory goes back to the heap with zeros alone.
pub(crate) struct Words {
    pub(crate) held: WipedWords,
}

impl Drop for Words {
    fn drop(self) {
        let Words { mut held } = self;
        wipe(held.words());
        held.free();
    }
}

// Puts a 0 in the place of each word.
#[inline(never)]
fn wipe(words: &mut [u32])
    ensures zeros { words.new ≡ replicate (length words.old) 0 }
{
    words.fill(0);
}
