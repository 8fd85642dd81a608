//! The refusals of `argon2-verify`, and the line that tells each.
ghost use Rattle.std.specs.Prelude.{◌≡◌};
ghost use Rattle.argon2_verify.specs.Refusal.{line_of};

/// Why a run of `argon2-verify` ends with status 2, in the order in which the reasons are tested: the
/// first that holds is reported, and of V1 and V2 the first faulty word from the left decides. Each has its
/// number, when it holds, and its line.
#[derive(Clone, Copy, Debug, PartialEq, Eq)]
pub enum VerifyRefusal {
    /// V1: there is no file, the last word begins with `-`, or another word is no option. The line shows how
    /// the words stand.
    Usage,
    /// V2: a value of another form, or out of its option's range. `argon2-verify: bad number`
    BadNumber,
    /// V3: the host fails to open the file, or to tell whether it is standard input itself, or then to give a byte
    /// of its first line or the end of that. `argon2-verify: file cannot be read`
    FileFault,
    /// V9: the file is standard input itself, under whatever name. It is opened, and nothing of it is read.
    /// `argon2-verify: file is standard input, which gives the password`
    FileIsStdin,
    /// V4: the first line of the file, up to a CR, an LF, a byte 0 or the file's end, is no encoded text, or has more
    /// than 8,191 bytes.
    /// `argon2-verify: the file's first line is no encoded hash`
    NotHash,
    /// V5: it is one, and a number, or the length of its salt or tag, is out of range.
    /// `argon2-verify: a number of the hash, or the length of its salt or tag, is out of range`
    OutOfRange,
    /// V6a: more blocks of 1 KiB than `--maxmem`.
    /// `argon2-verify: more memory needed than --maxmem allows`
    MemoryLimit,
    /// V6b: more block functions than `--maxops`. `argon2-verify: more work needed than --maxops allows`
    WorkLimit,
    /// V7a: the host fails to give standard input. `argon2-verify: password cannot be read`
    PasswordFault,
    /// V7b: 4,097 bytes or more came. `argon2-verify: password is longer than 4096 bytes`
    LongPassword,
    /// V8: a growth of memory was refused: for salt and tag, before V5, or for the hash.
    /// `argon2-verify: out of memory`
    OutOfMemory,
}

impl VerifyRefusal {
    /// The line that standard error gets, without a line feed.
    pub fn line(self) -> &'static str
        ensures line { result.now ≡ line_of self }
    {
        match self {
            VerifyRefusal::Usage => {
                "argon2-verify: usage: argon2-verify [--maxmem KIB] [--maxops N] file"
            }
            VerifyRefusal::BadNumber => "argon2-verify: bad number",
            VerifyRefusal::FileFault => "argon2-verify: file cannot be read",
            VerifyRefusal::FileIsStdin => {
                "argon2-verify: file is standard input, which gives the password"
            }
            VerifyRefusal::NotHash => "argon2-verify: the file's first line is no encoded hash",
            VerifyRefusal::OutOfRange => {
                "argon2-verify: a number of the hash, or the length of its salt or tag, is out of range"
            }
            VerifyRefusal::MemoryLimit => "argon2-verify: more memory needed than --maxmem allows",
            VerifyRefusal::WorkLimit => "argon2-verify: more work needed than --maxops allows",
            VerifyRefusal::PasswordFault => "argon2-verify: password cannot be read",
            VerifyRefusal::LongPassword => "argon2-verify: password is longer than 4096 bytes",
            VerifyRefusal::OutOfMemory => "argon2-verify: out of memory",
        }
    }
}
