//! The words of `scrypt`, read by `clap`.
ghost use Rattle.std.specs.Prelude.{◌≡◌, ◌≢◌, ◌⊎◌, None, IfErr, IfOk, map, string_bytes};
ghost use Rattle.clap.specs.Words.{first_of as argument_value, kind_of, subcommand_rows_of};
ghost use Rattle.scrypt_request.specs.Refusal.{IsOfNoFailedCall};
ghost use Rattle.scrypt_request.specs.Request.{name_view};
ghost use Rattle.scrypt_words.specs.Words.{is_set, rows_of_arg_matches, scrypt_words};

use crate::command_line::build_scrypt_command;
use clap::error::ErrorKind;
use clap::{ArgMatches, Error};
use scrypt_request::ScryptRefusal;
use std::alloc::Global;

/// The value of an argument, if it has one.
pub fn argument_value<'a>(matches: &ArgMatches<'a>, name: &str) -> Option<&'a str>
    ensures value { name_view result ≡ argument_value name.now (rows_of_arg_matches matches.now) }
{
    matches.get_str(name)
}

/// Whether a flag is set.
pub fn is_set(matches: &ArgMatches<'_>, name: &str) -> bool
    ensures set { result ≡ is_set name.now (rows_of_arg_matches matches.now) }
{
    match argument_value(matches, name) {
        Some(value) => value == "true",
        None => false,
    }
}

// Why `clap` refuses words.
fn refusal_for(error: &Error) -> ScryptRefusal
    ensures usage { (result ≡ ScryptRefusal.OutOfMemory) ⊎
        ((result ≡ ScryptRefusal.Usage) × (kind_of error.now ≢ ErrorKind.OutOfMemory)) }
    ensures memory { result ≡ ScryptRefusal.OutOfMemory → kind_of error.now ≡ ErrorKind.OutOfMemory }
    ensures counts { IsOfNoFailedCall result }
{
    if error.kind() == ErrorKind::OutOfMemory {
        ScryptRefusal::OutOfMemory
    } else {
        ScryptRefusal::Usage
    }
}

/// Reads the words after the program's name. `OutOfMemory` is answered where `clap` is refused a
/// growth of memory.
pub fn arg_matches_from_words<'a>(
    alloc: Global,
    words: &'a [String],
) -> Result<ArgMatches<'a>, ScryptRefusal>
    ensures words { IfOk result (λ matches.
        scrypt_words (map string_bytes words.entry.now) ≡ subcommand_rows_of matches) }
    ensures refused { IfErr result (λ refusal. (refusal ≡ ScryptRefusal.OutOfMemory)
        ⊎ ((refusal ≡ ScryptRefusal.Usage) × (scrypt_words (map string_bytes words.entry.now) ≡ None))) }
    ensures counts { IfErr result IsOfNoFailedCall }
{
    let Ok(command) = build_scrypt_command(alloc) else {
        return Err(ScryptRefusal::OutOfMemory);
    };
    match command.try_get_matches_from(words) {
        Ok(matches) => Ok(matches),
        Err(error) => Err(refusal_for(&error)),
    }
}
