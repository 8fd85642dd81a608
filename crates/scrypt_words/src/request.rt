//! What the words ask for.
ghost use Rattle.std.specs.Prelude.{◌≡◌, Err, IfOk, IfErr, MatchOption, map, string_bytes};
ghost use Rattle.clap.specs.Words.{subcommand_rows_of};
ghost use Rattle.command_words.specs.Answer.{map_ok};
ghost use Rattle.scrypt_request.specs.Refusal.{IsOfNoFailedCall};
ghost use Rattle.scrypt_request.specs.Request.{HasAllowedLimits, encryption_view, scrypt_request_view, task_view, RequestHasAllowedLimits};
ghost use Rattle.scrypt_words.specs.Request.{ReadsWords, decryption_from_words, encryption_from_words, request_of_subcommand};
ghost use Rattle.scrypt_words.specs.Words.{rows_of_arg_matches};

use crate::costs::{costs_from_words, number_from_words};
use crate::salt::salt_from_words;
use crate::task::{
    checked_keep, infile_named, limits_from_words, required_infile, source_from_words,
};
use crate::words::{arg_matches_from_words, argument_value};
use clap::ArgMatches;
use scrypt_request::{Encryption, Request, ScryptRefusal, Task};
use std::alloc::Global;

// What the words of `enc` ask for.
fn encryption_from_words<'a>(matches: &ArgMatches<'a>) -> Result<Encryption<'a>, ScryptRefusal>
    ensures encryption { map_ok encryption_view result ≡ encryption_from_words (rows_of_arg_matches matches.now) }
    ensures allowed { IfOk result (λ asked. HasAllowedLimits (task_view asked.task)) }
    ensures counts { IfErr result IsOfNoFailedCall }
{
    let infile = required_infile(matches)?;
    let limits = limits_from_words(matches)?;
    let number = number_from_words(matches, "keep", 1)?;
    let costs = costs_from_words(matches)?;
    let source = source_from_words(matches, infile)?;
    let salt = salt_from_words(matches)?;
    let keep = checked_keep(number)?;
    let task = Task {
        limits,
        keep,
        source,
        infile: infile_named(infile),
        outfile: argument_value(matches, "outfile"),
    };
    Ok(Encryption { costs, salt, task })
}

// What the words of `dec` ask for.
fn decryption_from_words<'a>(matches: &ArgMatches<'a>) -> Result<Task<'a>, ScryptRefusal>
    ensures decryption { map_ok task_view result ≡ decryption_from_words (rows_of_arg_matches matches.now) }
    ensures allowed { IfOk result (λ task. HasAllowedLimits (task_view task)) }
    ensures counts { IfErr result IsOfNoFailedCall }
{
    let infile = required_infile(matches)?;
    let limits = limits_from_words(matches)?;
    let number = number_from_words(matches, "keep", 1)?;
    let source = source_from_words(matches, infile)?;
    let keep = checked_keep(number)?;
    Ok(Task {
        limits,
        keep,
        source,
        infile: infile_named(infile),
        outfile: argument_value(matches, "outfile"),
    })
}

// What the words of the subcommand of this name ask for.
fn request_of_subcommand<'a>(
    name: &str,
    matches: &ArgMatches<'a>,
) -> Result<Request<'a>, ScryptRefusal>
    ensures request { map_ok scrypt_request_view result ≡ request_of_subcommand name.now (rows_of_arg_matches matches.now) }
    ensures allowed { IfOk result RequestHasAllowedLimits }
    ensures counts { IfErr result IsOfNoFailedCall }
{
    match name {
        "enc" => match encryption_from_words(matches) {
            Ok(encryption) => Ok(Request::Encrypt(encryption)),
            Err(refusal) => Err(refusal),
        },
        "dec" => match decryption_from_words(matches) {
            Ok(task) => Ok(Request::Decrypt(task)),
            Err(refusal) => Err(refusal),
        },
        "info" => Ok(Request::Inspect(infile_named(required_infile(matches)?))),
        _ => Err(ScryptRefusal::Usage),
    }
}

// What words that `clap` took ask for.
fn request_from_matches<'a>(matches: &ArgMatches<'a>) -> Result<Request<'a>, ScryptRefusal>
    ensures request { MatchOption (subcommand_rows_of matches.now) (result ≡ Err ScryptRefusal.Usage)
        (λ said. map_ok scrypt_request_view result ≡ request_of_subcommand said.0 said.1) }
    ensures allowed { IfOk result RequestHasAllowedLimits }
    ensures counts { IfErr result IsOfNoFailedCall }
{
    let (name, inner) = matches.subcommand().ok_or(ScryptRefusal::Usage)?;
    request_of_subcommand(name, inner)
}

/// Reads the words after the program's name: what they ask for, or the first refusal that they meet.
/// `OutOfMemory` is answered where `clap` is refused a growth of memory.
pub fn read_request<'a>(alloc: Global, words: &'a [String]) -> Result<Request<'a>, ScryptRefusal>
    ensures reads { ReadsWords (map string_bytes words.entry.now) result }
    ensures allowed { IfOk result RequestHasAllowedLimits }
    ensures counts { IfErr result IsOfNoFailedCall }
{
    let matches = arg_matches_from_words(alloc, words)?;
    request_from_matches(&matches)
}
