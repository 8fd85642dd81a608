//! The costs that the words give.
ghost use Rattle.std.specs.Prelude.{◌≡◌, None, IfErr, MatchOption, is_some, true};
ghost use Rattle.command_words.specs.Number.{number_of};
ghost use Rattle.romix.specs.Faults.{cost_fault};
ghost use Rattle.scrypt_request.specs.Refusal.{IsOfNoFailedCall};
ghost use Rattle.scrypt_words.specs.Request.{costs_from_words, has_some_but_not_all_costs, number_from_words};
ghost use Rattle.scrypt_words.specs.Words.{rows_of_arg_matches};

use crate::words::argument_value;
use clap::ArgMatches;
use command_words::number;
use romix::Costs;
use scrypt_request::ScryptRefusal;

// The numbers that the words give, of any size.
#[derive(Clone, Copy)]
struct Numbers {
    log_n: u128,
    r: u128,
    p: u128,
}

/// The number that an option gives, or the number without the option.
pub fn number_from_words(
    matches: &ArgMatches<'_>,
    name: &str,
    default: u128,
) -> Result<u128, ScryptRefusal>
    ensures number { result ≡ number_from_words name.now number_of default (rows_of_arg_matches matches.now) }
    ensures counts { IfErr result IsOfNoFailedCall }
{
    match argument_value(matches, name) {
        None => Ok(default),
        Some(text) => number(text).ok_or(ScryptRefusal::Usage),
    }
}

// Whether one or two of the costs are given.
fn has_some_but_not_all_costs(matches: &ArgMatches<'_>) -> bool
    ensures has_some { result ≡ has_some_but_not_all_costs (rows_of_arg_matches matches.now) }
{
    let log_n = argument_value(matches, "logN").is_some();
    let r = argument_value(matches, "r").is_some();
    let p = argument_value(matches, "p").is_some();
    (log_n || r || p) && !(log_n && r && p)
}

// The costs of these numbers, if they are in range.
fn costs_of(numbers: Numbers) -> Option<Costs>
    ensures costs { MatchOption result
        (is_some (cost_fault numbers.log_n numbers.r numbers.p) ≡ true)
        (λ c. (cost_fault numbers.log_n numbers.r numbers.p ≡ None)
        × (c ≡ record { log_n = numbers.log_n; r = numbers.r; p = numbers.p })) }
{
    let log_n = u8::try_from(numbers.log_n).ok()?;
    let r = u32::try_from(numbers.r).ok()?;
    let p = u32::try_from(numbers.p).ok()?;
    Costs::new(log_n, r, p).ok()
}

/// The costs that the words of `enc` give, or 17, 8 and 1 where they give none.
pub fn costs_from_words(matches: &ArgMatches<'_>) -> Result<Costs, ScryptRefusal>
    ensures costs { result ≡ costs_from_words (rows_of_arg_matches matches.now) }
    ensures counts { IfErr result IsOfNoFailedCall }
{
    let numbers = Numbers {
        log_n: number_from_words(matches, "logN", 17)?,
        r: number_from_words(matches, "r", 8)?,
        p: number_from_words(matches, "p", 1)?,
    };
    if has_some_but_not_all_costs(matches) {
        return Err(ScryptRefusal::SomeCosts);
    }
    costs_of(numbers).ok_or(ScryptRefusal::CostsOutOfRange)
}
