//! The refusals of `argon2`, and the line that tells each.
ghost use Rattle.std.specs.Prelude.{◌≡◌};
ghost use Rattle.argon2_words.specs.Refusal.{line_of, refusal_of};

use argon::ParamFault;
use std::alloc::AllocError;

/// Why a run of `argon2` ends with status 1, in the order in which the reasons are tested: the first
/// that holds is reported, and of A1 to A4 the first faulty item from the left decides. Each has its
/// number, when it holds, and its line.
#[derive(Clone, Copy, Debug, PartialEq, Eq)]
pub enum Argon2Refusal {
    /// A1: there are no words, or `-h` is the first word or an item. The line shows how the words
    /// stand.
    Usage,
    /// A2: an item that is no flag and no option. `argon2: unknown word`
    UnknownWord,
    /// A3: an option as the last word. `argon2: missing value`
    MissingValue,
    /// A4: a value of another form, or out of its option's range. `argon2: bad number`
    BadNumber,
    /// A5: both of `-e` and `-r`, or neither. `argon2: exactly one of -e and -r is needed`
    OneForm,
    /// A8a: the host fails to give standard input. `argon2: password cannot be read`
    PasswordFault,
    /// A8b: standard input has no byte. `argon2: password is empty`
    EmptyPassword,
    /// A8c: 128 bytes or more came. `argon2: password is longer than 127 bytes`
    LongPassword,
    /// A6.1: passes, not 1 to 2^32-1. `argon2: passes out of range`
    Passes,
    /// A6.2: lanes, not 1 to 2^24-1. `argon2: lanes out of range`
    Lanes,
    /// A6.3: memory in KiB, not 8 times the lanes to 2^32-1. `argon2: memory out of range`
    Memory,
    /// A6.4: bytes of the tag, not 4 to 4,096. `argon2: tag length out of range`
    TagLength,
    /// A6.5: bytes of the salt, not 8 to 255. `argon2: salt length out of range`
    SaltLength,
    /// A7a: more blocks of 1 KiB than `--maxmem`. `argon2: more memory needed than --maxmem allows`
    MemoryLimit,
    /// A7b: more block functions than `--maxops`. `argon2: more work needed than --maxops allows`
    WorkLimit,
    /// A10: a growth of memory was refused. `argon2: out of memory`
    OutOfMemory,
    /// A9: the host fails to open or to write standard output. `argon2: output cannot be written`
    OutputFault,
}

impl Argon2Refusal {
    /// The line that standard error gets, without a line feed.
    pub fn line(self) -> &'static str
        ensures line { result.now ≡ line_of self }
    {
        match self {
            Argon2Refusal::Usage => {
                "argon2: usage: argon2 salt [-i|-d|-id] [-t N] [-m N | -k N] [-p N] [-l N] [-v VERSION] [--maxmem KIB] [--maxops N] (-e|-r)"
            }
            Argon2Refusal::UnknownWord => "argon2: unknown word",
            Argon2Refusal::MissingValue => "argon2: missing value",
            Argon2Refusal::BadNumber => "argon2: bad number",
            Argon2Refusal::OneForm => "argon2: exactly one of -e and -r is needed",
            Argon2Refusal::PasswordFault => "argon2: password cannot be read",
            Argon2Refusal::EmptyPassword => "argon2: password is empty",
            Argon2Refusal::LongPassword => "argon2: password is longer than 127 bytes",
            Argon2Refusal::Passes => "argon2: passes out of range",
            Argon2Refusal::Lanes => "argon2: lanes out of range",
            Argon2Refusal::Memory => "argon2: memory out of range",
            Argon2Refusal::TagLength => "argon2: tag length out of range",
            Argon2Refusal::SaltLength => "argon2: salt length out of range",
            Argon2Refusal::MemoryLimit => "argon2: more memory needed than --maxmem allows",
            Argon2Refusal::WorkLimit => "argon2: more work needed than --maxops allows",
            Argon2Refusal::OutOfMemory => "argon2: out of memory",
            Argon2Refusal::OutputFault => "argon2: output cannot be written",
        }
    }
}

impl From<ParamFault> for Argon2Refusal {
    ghost from_gives = { λ fault refusal. refusal ≡ refusal_of fault };

    fn from(fault: ParamFault) -> Argon2Refusal {
        match fault {
            ParamFault::Passes => Argon2Refusal::Passes,
            ParamFault::Lanes => Argon2Refusal::Lanes,
            ParamFault::Memory => Argon2Refusal::Memory,
            ParamFault::TagLength => Argon2Refusal::TagLength,
            ParamFault::SaltLength => Argon2Refusal::SaltLength,
            // Not met in a run, which has tested the password's length before.
            ParamFault::PasswordLength => Argon2Refusal::LongPassword,
            ParamFault::MemoryLimit => Argon2Refusal::MemoryLimit,
            ParamFault::WorkLimit => Argon2Refusal::WorkLimit,
        }
    }
}

impl From<AllocError> for Argon2Refusal {
    ghost use Rattle.argon2_words.specs.declared.refusal.Argon2Refusal.TheVariants.{OutOfMemory};

    ghost from_gives = { λ fault refusal. refusal ≡ OutOfMemory };

    fn from(_fault: AllocError) -> Argon2Refusal {
        Argon2Refusal::OutOfMemory
    }
}
