//! The words after a program's name.
ghost use Rattle.std.specs.Prelude.{◌≡◌, ◌++◌, ◌∷◌, [], drop, map, option_map, string_bytes, IfOk, IfErr, IsTrue, Some};
ghost use Rattle.tools.specs.Words.{IsNonUtf8WordIfNotText, HasNonUtf8WordIfNotText, word_at};

use crate::system::{System, WordFault};
use std::alloc::{AllocError, Global};

/// Why the words cannot be handed to a command.
#[derive(Clone, Copy)]
pub enum WordsFault {
    /// One of them is not UTF-8.
    NotText,
    /// A growth of memory was refused.
    OutOfMemory,
}

// The bytes of room for a word that is asked for first.
const FIRST_ROOM: usize = 256;

/// The words after the program's name, which may itself be of any bytes. They come as a whole or
/// not at all.
pub fn words<S: System>(system: &S, alloc: Global) -> Result<Vec<String>, WordsFault>
    ensures words { IsTrue S.tells → IfOk result (λ words.
        map string_bytes words.items ≡ drop 1 (S.words system.now)) }
    ensures refused { IsTrue S.tells → IfErr result (λ fault. HasNonUtf8WordIfNotText fault (S.words system.now)) }
{
    let mut words = Vec::new(alloc);
    for place in 1..usize::MAX {
        match word(system, alloc, place) {
            Err(fault) => return Err(fault),
            Ok(None) => return Ok(words),
            Ok(Some(word)) => match append_word(words, word) {
                Ok(more) => words = more,
                Err(_) => return Err(WordsFault::OutOfMemory),
            },
        }
    }
    Err(WordsFault::OutOfMemory)
}

// Words, and one more.
fn append_word(mut words: Vec<String>, word: String) -> Result<Vec<String>, AllocError>
    ensures words { IfOk result (λ more.
        map string_bytes more.items ≡ map string_bytes words.items ++ (string_bytes word ∷ [])) }
{
    match words.push(word) {
        Ok(()) => Ok(words),
        Err(_) => Err(AllocError),
    }
}

// The word at a place, if there is one.
fn word<S: System>(system: &S, alloc: Global, place: usize) -> Result<Option<String>, WordsFault>
    ensures word { IsTrue S.tells → IfOk result (λ word.
        option_map string_bytes word ≡ word_at (S.words system.now) place) }
    ensures refused { IsTrue S.tells → IfErr result (λ fault.
        IsNonUtf8WordIfNotText fault (word_at (S.words system.now) place)) }
{
    let mut room = FIRST_ROOM;
    loop {
        let Ok(mut buf) = vec![in alloc; 0; room] else {
            return Err(WordsFault::OutOfMemory);
        };
        match system.word(place, &mut buf) {
            Ok(n) => {
                buf.truncate(n);
                return string_of(buf);
            }
            Err(WordFault::Missing) => return Ok(None),
            Err(WordFault::TooLong) => {}
        }
        let Some(more) = room.checked_mul(2) else {
            return Err(WordsFault::OutOfMemory);
        };
        room = more;
    }
}

// Bytes as a text.
fn string_of(bytes: Vec<u8>) -> Result<Option<String>, WordsFault>
    ensures text { IfOk result (λ text. option_map string_bytes text ≡ Some bytes.items) }
    ensures refused { IfErr result (λ fault. IsNonUtf8WordIfNotText fault (Some bytes.items)) }
{
    match String::from_utf8(bytes) {
        Ok(text) => Ok(Some(text)),
        Err(_) => Err(WordsFault::NotText),
    }
}
