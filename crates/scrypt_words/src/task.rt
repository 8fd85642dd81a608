//! What `enc` and `dec` both ask for: the files, the limits, the passphrase's source, and S.
ghost use Rattle.std.specs.Prelude.{◌≡◌, ◌<◌, ◌≤◌, ◌^◌, ◌&&◌, true, IfOk, IfErr, codes, option_map, Some};
ghost use Rattle.std.specs.Option.{option_eq};
ghost use Rattle.std.specs.Str.{bytes_eq};
ghost use Rattle.host.specs.Secret.{source_of};
ghost use Rattle.romix.specs.SparseCosts.{is_valid_keep};
ghost use Rattle.scrypt_request.specs.Refusal.{IsOfNoFailedCall};
ghost use Rattle.scrypt_request.specs.Request.{name_view};
ghost use Rattle.scrypt_words.specs.Request.{required_infile, infile_named, checked_keep, limits_from_words, map_ok, number_from_words, number_in, one_source, source_from_words, source_named, wants_stdin};
ghost use Rattle.scrypt_words.specs.Words.{is_set, rows_of_arg_matches};
ghost use Rattle.clap.specs.Words.{first_of as argument_value};

use crate::words::{argument_value, is_set};
use clap::ArgMatches;
use command_words::number_in;
use host::Source;
use romix::Limits;
use scrypt_request::ScryptRefusal;

/// The word for the input, which has to be there.
pub fn required_infile<'a>(matches: &ArgMatches<'a>) -> Result<&'a str, ScryptRefusal>
    ensures infile { map_ok (λ word. word.now) result ≡ required_infile (rows_of_arg_matches matches.now) }
    ensures counts { IfErr result IsOfNoFailedCall }
{
    argument_value(matches, "infile").ok_or(ScryptRefusal::Usage)
}

/// The input's name that a word gives; `-` is standard input.
pub fn infile_named<'a>(word: &'a str) -> Option<&'a str>
    ensures name { name_view result ≡ infile_named word.entry.now }
{
    if word == "-" { None } else { Some(word) }
}

// The greatest -M is 2^40 bytes.
const MAX_BYTES_RANGE_END: u64 = (1 << 40) + 1;

// The greatest --maxops is 2^63-1 cores.
const MAX_OPS_END: u64 = 1 << 63;

// The limit that an option gives, at least 1 and below `end`, or the limit without the option.
fn limit_from_words(
    matches: &ArgMatches<'_>,
    name: &str,
    end: u64,
    default: u64,
) -> Result<u64, ScryptRefusal>
    requires within { default < end }
    ensures limit { result ≡ number_from_words name.now (number_in 1 end) default (rows_of_arg_matches matches.now) }
    ensures below { IfOk result (λ n. n < end) }
    ensures counts { IfErr result IsOfNoFailedCall }
{
    match argument_value(matches, name) {
        None => Ok(default),
        Some(text) => number_in(1, end, text).ok_or(ScryptRefusal::Usage),
    }
}

/// The limits that the words give, or 2^32 bytes and 2^33 cores where they give none.
pub fn limits_from_words(matches: &ArgMatches<'_>) -> Result<Limits, ScryptRefusal>
    ensures limits { result ≡ limits_from_words (rows_of_arg_matches matches.now) }
    ensures allowed { IfOk result (λ limits. limits.max_bytes ≤ 2 ^ 40) }
    ensures counts { IfErr result IsOfNoFailedCall }
{
    Ok(Limits {
        max_bytes: limit_from_words(matches, "M", MAX_BYTES_RANGE_END, 1 << 32)?,
        max_ops: limit_from_words(matches, "maxops", MAX_OPS_END, 1 << 33)?,
    })
}

// Whether a number is a power of two from 1 to 1,024.
fn is_valid_keep(number: u128) -> bool
    ensures keep { result ≡ is_valid_keep number }
    ensures small { result ≡ true → number ≤ 1024 }
{
    matches!(
        number,
        1 | 2 | 4 | 8 | 16 | 32 | 64 | 128 | 256 | 512 | 1024
    )
}

/// S of a number, if it is one.
pub fn checked_keep(number: u128) -> Result<u64, ScryptRefusal>
    ensures keep { result ≡ checked_keep number }
    ensures power { IfOk result (λ keep. is_valid_keep keep ≡ true) }
    ensures counts { IfErr result IsOfNoFailedCall }
{
    if !is_valid_keep(number) {
        return Err(ScryptRefusal::KeepOutOfRange);
    }
    Ok(number as u64)
}

// The source that a word names.
fn source_named<'a>(text: &'a str) -> Option<Source<'a>>
    ensures source { option_map source_of result ≡ source_named text.entry.now }
{
    if text == "dev:stdin-once" {
        return Some(Source::StdinOnce);
    }
    if let Some(name) = text.strip_prefix("env:") {
        if !name.is_empty() {
            return Some(Source::Env(name));
        }
        return None;
    }
    if let Some(name) = text.strip_prefix("file:") {
        if !name.is_empty() {
            return Some(Source::File(name));
        }
    }
    None
}

// The one source: standard input where -P is given, or what --passphrase names, and not both.
fn one_source<'a>(matches: &ArgMatches<'a>) -> Option<Source<'a>>
    ensures source { option_map source_of result ≡ one_source (is_set (codes "P") (rows_of_arg_matches matches.now))
        (argument_value (codes "passphrase") (rows_of_arg_matches matches.now)) }
{
    match (is_set(matches, "P"), argument_value(matches, "passphrase")) {
        (true, None) => Some(Source::StdinOnce),
        (false, Some(text)) => source_named(text),
        _ => None,
    }
}

// Whether the passphrase is asked from standard input.
fn wants_stdin(matches: &ArgMatches<'_>) -> bool
    ensures wants { result ≡ wants_stdin (rows_of_arg_matches matches.now) }
{
    let is_named = match argument_value(matches, "passphrase") {
        Some(text) => text == "dev:stdin-once",
        None => false,
    };
    is_set(matches, "P") || is_named
}

// Whether infile and outfile are the same text.
fn has_same_name(matches: &ArgMatches<'_>, infile: &str) -> bool
    ensures same { result ≡
        option_eq bytes_eq (argument_value (codes "outfile") (rows_of_arg_matches matches.now)) (Some infile.now) }
{
    match argument_value(matches, "outfile") {
        Some(name) => name == infile,
        None => false,
    }
}

/// The passphrase's source that the words name beside this infile.
pub fn source_from_words<'a>(
    matches: &ArgMatches<'a>,
    infile: &str,
) -> Result<Source<'a>, ScryptRefusal>
    ensures source { map_ok source_of result ≡ source_from_words infile.now (rows_of_arg_matches matches.now) }
    ensures counts { IfErr result IsOfNoFailedCall }
{
    if infile == "-" && wants_stdin(matches) {
        return Err(ScryptRefusal::StandardInputTwice);
    }
    if has_same_name(matches, infile) {
        return Err(ScryptRefusal::SameName);
    }
    one_source(matches).ok_or(ScryptRefusal::PassphraseSource)
}
