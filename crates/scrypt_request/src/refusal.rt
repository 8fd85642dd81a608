//! The refusals of `scrypt`, and the line that tells each.
ghost use Rattle.std.specs.Prelude.{◌≡◌};
ghost use Rattle.scrypt_request.specs.Refusal.{line_of};

/// Why a run of `scrypt` ends with status 1. Each has its number, when it holds, and its line. Of the
/// words, S1, S2a, S2b, S2c, S2d, S3, S5a and S16a are tested in this order, and the first that holds is
/// reported.
#[derive(Clone, Copy, Debug, PartialEq, Eq)]
pub enum ScryptRefusal {
    /// S1: the words are not those of a subcommand, help is asked for, a number word has another form,
    /// or `-M` or `--maxops` is out of range.
    /// `scrypt: usage: scrypt enc|dec|info [options] infile [outfile]`
    Usage,
    /// S2a: one or two of the costs are given.
    /// `scrypt: --logN, -r and -p are given together or not at all`
    SomeCosts,
    /// S2b: log2 N is not 1 to 63, or r or p is 0, or r * p is 2^30 or more.
    /// `scrypt: costs out of range`
    CostsOutOfRange,
    /// S2c: infile is `-`, and `-P` or `dev:stdin-once` is given.
    /// `scrypt: passphrase and input cannot both come from standard input`
    StandardInputTwice,
    /// S2d: infile and outfile are the same text. `scrypt: infile and outfile have the same name`
    SameName,
    /// S3: no passphrase source, two of them, or an unknown method.
    /// `scrypt: one passphrase source is needed: -P, dev:stdin-once, env:NAME or file:NAME`
    PassphraseSource,
    /// S4a: the host fails to give the passphrase. `scrypt: passphrase cannot be read`
    PassphraseFault,
    /// S4b: 2,049 bytes came without CR or LF. `scrypt: passphrase is longer than 2048 bytes`
    LongPassphrase,
    /// S5a: `--salt` is not 64 hexadecimal digits. `scrypt: --salt takes 64 hexadecimal digits`
    SaltDigits,
    /// S5b: the host fails to give a salt. `scrypt: no salt can be read`
    SaltFault,
    /// S6: the input is shorter than 96 bytes, or its magic, checksum or costs are no file's.
    /// `scrypt: not valid scrypt data`
    NotScryptData,
    /// S7: byte 6 of the input is not 0. `scrypt: unsupported format version`
    UnsupportedVersion,
    /// S8: the rows of V that are kept, or B, need more bytes than `-M`.
    /// `scrypt: more memory needed than -M allows`
    MemoryLimit,
    /// S9: the upper bound 2 * r * p * N * (1 + S) on the cores of the costs is above `--maxops`.
    /// `scrypt: more work needed than --maxops allows`
    WorkLimit,
    /// S10: bytes 64 to 95 are not right for the passphrase. `scrypt: wrong passphrase`
    WrongPassphrase,
    /// S11: the final code is not that of the input, or fewer than 32 bytes follow byte 95.
    /// `scrypt: input is damaged or cut short`
    Damaged,
    /// S12: the host fails to open or to give the input. `scrypt: input cannot be opened or read`
    InputFault,
    /// S13: the host fails to open or to take the output.
    /// `scrypt: output cannot be opened or written`
    OutputFault,
    /// S14: the text reaches 2^60 bytes. `scrypt: input is too long`
    TooLong,
    /// S15: a growth of memory was refused. `scrypt: out of memory`
    OutOfMemory,
    /// S16a: `--keep` is not a power of two from 1 to 1,024.
    /// `scrypt: --keep takes a power of two from 1 to 1024`
    KeepOutOfRange,
    /// S16b: `--keep` is above N. `scrypt: --keep is larger than N`
    KeepAboveN,
}

impl ScryptRefusal {
    /// The line that standard error gets, without a line feed.
    pub fn line(self) -> &'static str
        ensures line { result.now ≡ line_of self }
    {
        match self {
            ScryptRefusal::Usage => {
                "scrypt: usage: scrypt enc|dec|info [options] infile [outfile]"
            }
            ScryptRefusal::SomeCosts => {
                "scrypt: --logN, -r and -p are given together or not at all"
            }
            ScryptRefusal::CostsOutOfRange => "scrypt: costs out of range",
            ScryptRefusal::StandardInputTwice => {
                "scrypt: passphrase and input cannot both come from standard input"
            }
            ScryptRefusal::SameName => "scrypt: infile and outfile have the same name",
            ScryptRefusal::PassphraseSource => {
                "scrypt: one passphrase source is needed: -P, dev:stdin-once, env:NAME or file:NAME"
            }
            ScryptRefusal::PassphraseFault => "scrypt: passphrase cannot be read",
            ScryptRefusal::LongPassphrase => "scrypt: passphrase is longer than 2048 bytes",
            ScryptRefusal::SaltDigits => "scrypt: --salt takes 64 hexadecimal digits",
            ScryptRefusal::SaltFault => "scrypt: no salt can be read",
            ScryptRefusal::NotScryptData => "scrypt: not valid scrypt data",
            ScryptRefusal::UnsupportedVersion => "scrypt: unsupported format version",
            ScryptRefusal::MemoryLimit => "scrypt: more memory needed than -M allows",
            ScryptRefusal::WorkLimit => "scrypt: more work needed than --maxops allows",
            ScryptRefusal::WrongPassphrase => "scrypt: wrong passphrase",
            ScryptRefusal::Damaged => "scrypt: input is damaged or cut short",
            ScryptRefusal::InputFault => "scrypt: input cannot be opened or read",
            ScryptRefusal::OutputFault => "scrypt: output cannot be opened or written",
            ScryptRefusal::TooLong => "scrypt: input is too long",
            ScryptRefusal::OutOfMemory => "scrypt: out of memory",
            ScryptRefusal::KeepOutOfRange => "scrypt: --keep takes a power of two from 1 to 1024",
            ScryptRefusal::KeepAboveN => "scrypt: --keep is larger than N",
        }
    }
}
