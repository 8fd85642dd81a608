//! Lists of words, which leave this file in no other way than as words that are lent: what has one can't make it grow,
//! nor take memory from its heap.
ghost use Rattle.std.specs.Prelude.{◌≡◌, length, replicate};
ghost use Rattle.std.specs.Borrow.{sem};
ghost use Rattle.romix.specs.Inside.WipedWords.{LendsMutableWords};

/// Words that a source of memory grants. They are let go of as they are, so nobody can write to them
/// before a workspace holds them.
#[derive(Drop)]
pub struct GrantedWords {
    list: Vec<u32>,
}

impl GrantedWords {
    /// The words of this list.
    pub fn new(list: Vec<u32>) -> GrantedWords
        ensures list { result.list ≡ list }
    {
        GrantedWords { list }
    }
}

/// A list of words that can be let go of by [`WipedWords::free`] alone, when each of them is 0. It has no
/// `Drop`, so that it cannot be forgotten, and it lends its words, never the list, so that none can be
/// cut off.
pub(crate) struct WipedWords {
    list: Vec<u32>,
}

impl WipedWords {
    /// Takes the words in.
    pub(crate) fn new(granted: GrantedWords) -> WipedWords
        ensures list { result.list ≡ granted.list }
    {
        let GrantedWords { list } = granted;
        WipedWords { list }
    }

    /// The words, as many as before.
    #[inline(always)]
    pub(crate) fn words(&mut self) -> &mut [u32]
        ensures* writes_back { sem 𝓛 (LendsMutableWords self.entry result) }
        ensures value { result.now ≡ self.old.list.items }
    {
        self.list.as_mut_slice()
    }

    /// Frees a list in which nothing is left.
    pub(crate) fn free(self)
        requires wiped { self.list.items ≡ replicate (length self.list.items) 0 }
    {
        let WipedWords { list: _freed } = self;
    }
}
