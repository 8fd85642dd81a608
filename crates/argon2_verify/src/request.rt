//! What the words ask for.
ghost use Rattle.std.specs.Prelude.{◌≡◌, IfErr, map, string_bytes};
ghost use Rattle.command_words.specs.Answer.{map_ok};
ghost use Rattle.argon2_verify.specs.Refusal.{IsNotOutOfMemory, IsOfNoFailedCall};
ghost use Rattle.argon2_verify.specs.Request.{begins_with_dash, request_of_file, verify_request, verify_request_view, with_option};

use crate::refusal::VerifyRefusal;
use command_words::number_in;

/// The most that a hash may take.
#[derive(Clone, Copy)]
pub struct Limits {
    /// The most blocks of 1 KiB, 1 to 2^32-1: `--maxmem`.
    pub max_kib: u32,
    /// The most block functions, 1 to 2^63-1: `--maxops`.
    pub max_ops: u64,
}

/// What the words ask for.
#[derive(Clone, Copy)]
pub struct Request<'a> {
    /// The file whose first line is the hash.
    pub file: &'a str,
    /// The most that the hash may take.
    pub limits: Limits,
}

// The limits where no option sets them.
const DEFAULT_LIMITS: Limits = Limits {
    max_kib: 1 << 22,
    max_ops: 1 << 33,
};

impl Limits {
    // The limits after one more option with its value.
    fn with_option(self, name: &str, value: &str) -> Result<Limits, VerifyRefusal>
        ensures option { result ≡ with_option self name.now value.now }
        ensures counts { IfErr result IsOfNoFailedCall }
        ensures early { IfErr result IsNotOutOfMemory }
    {
        match name {
            "--maxmem" => match number_in(1, 1 << 32, value) {
                Some(number) => Ok(Limits {
                    max_kib: number as u32,
                    ..self
                }),
                None => Err(VerifyRefusal::BadNumber),
            },
            "--maxops" => match number_in(1, 1 << 63, value) {
                Some(number) => Ok(Limits {
                    max_ops: number,
                    ..self
                }),
                None => Err(VerifyRefusal::BadNumber),
            },
            _ => Err(VerifyRefusal::Usage),
        }
    }
}

// Whether a word begins with `-`.
fn begins_with_dash(word: &str) -> bool
    ensures dash { result ≡ begins_with_dash word.now }
{
    match word.as_bytes().split_first() {
        Some((first, _)) => *first == b'-',
        None => false,
    }
}

// The request with this last word.
fn request_of_file(limits: Limits, word: &str) -> Result<Request<'_>, VerifyRefusal>
    ensures request { map_ok verify_request_view result ≡ request_of_file limits word.now }
    ensures counts { IfErr result IsOfNoFailedCall }
    ensures early { IfErr result IsNotOutOfMemory }
{
    if begins_with_dash(word) {
        return Err(VerifyRefusal::Usage);
    }
    Ok(Request { file: word, limits })
}

/// Reads the words after the program's name.
pub fn read_request(words: &[String]) -> Result<Request<'_>, VerifyRefusal>
    ensures request { map_ok verify_request_view result ≡ verify_request (map string_bytes words.now) }
    ensures counts { IfErr result IsOfNoFailedCall }
    ensures early { IfErr result IsNotOutOfMemory }
{
    let mut limits = DEFAULT_LIMITS;
    let mut rest = words;
    while let Some((first, others)) = rest.split_first() {
        let Some((second, more)) = others.split_first() else {
            return request_of_file(limits, first.as_str());
        };
        limits = limits.with_option(first.as_str(), second.as_str())?;
        rest = more;
    }
    Err(VerifyRefusal::Usage)
}
