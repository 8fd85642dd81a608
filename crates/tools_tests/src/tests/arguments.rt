//! Words that a system in memory gives.

use memory_system::MemorySystem;
use std::alloc::Global;
use tools::{WordsFault, words};

// Adds a word, if there is memory for it.
fn add(alloc: Global, system: &mut MemorySystem, word: &[u8]) {
    if let Ok(bytes) = word.to_vec(alloc) {
        let _ = system.add_command_line_word(bytes);
    }
}

// The words of a process whose name is no text, and which has a word of these bytes.
fn words_of(alloc: Global, word: &[u8]) -> Result<Vec<String>, WordsFault> {
    let mut system = MemorySystem::new(alloc);
    add(alloc, &mut system, b"\xff");
    add(alloc, &mut system, word);
    let words = words(&system, alloc);
    drop(system);
    words
}

// Whether they are this one alone.
fn is_only_word(alloc: Global, word: &[u8]) -> bool {
    match words_of(alloc, word) {
        Ok(words) => matches!(words.as_slice(), [only] if only.as_str().as_bytes() == word),
        Err(_) => false,
    }
}

// Whether a process without a name has no words.
fn has_none(alloc: Global) -> bool {
    let system = MemorySystem::new(alloc);
    let words = words(&system, alloc);
    drop(system);
    matches!(words, Ok(words) if words.is_empty())
}

// Also words that need room twice and three times.
static WORDS: [&[u8]; 5] = [
    b"",
    b"s\xc3\xa4lzchen",
    &[b'a'; 256],
    &[b'a'; 257],
    &[b'a'; 1000],
];

#[test]
fn words_come_whole(rt: HostRuntime) {
    assert!(rt; has_none(rt.alloc()));
    for word in &WORDS {
        assert!(rt; is_only_word(rt.alloc(), word));
    }
}

// Whether they are refused since that is no text.
fn is_no_text(alloc: Global, word: &[u8]) -> bool {
    matches!(words_of(alloc, word), Err(WordsFault::NotText))
}

static NO_TEXTS: [&[u8]; 3] = [b"\xff", b"a\xc3", b"\xed\xa0\x80"];

#[test]
fn words_that_are_no_text_are_refused(rt: HostRuntime) {
    for word in &NO_TEXTS {
        assert!(rt; is_no_text(rt.alloc(), word));
    }
}
