//! Why a text isn't read, and why a password isn't tested.
use thiserror::Error;

/// Why `Encoded::read` gives no value.
#[derive(Clone, Copy, Debug, PartialEq, Eq, Error)]
pub enum ReadFault {
    /// 1: the bytes are no text of the grammar, whatever its numbers and lengths are.
    #[error("the text is not of the encoded form of Argon2")]
    NotInGrammar,
    /// 2: they are one, and a number, or the length of salt or tag, is out of range.
    #[error("a number of the encoded text, or the length of its salt or tag, is out of range")]
    OutOfRange,
    /// 3: memory was refused.
    #[error("out of memory")]
    OutOfMemory,
}

/// Why `verify` and `verify_keyed` give no answer: the first that holds, in this order. The numbers are
/// those of the library for C; 12 is of `verify_keyed` alone.
#[derive(Clone, Copy, Debug, PartialEq, Eq, Error)]
pub enum VerifyFault {
    /// 6: the length of the password, in bytes, is not 1 to 127, or for `verify_keyed` not 0 to 2^32-1.
    #[error("the password is shorter or longer than allowed")]
    PasswordLength,
    /// 12: the secret, or the associated data, is 2^32 bytes or longer.
    #[error("the secret or the associated data is 2^32 bytes or longer")]
    InputLength,
    /// 7: the hash takes more blocks of 1 KiB than are allowed.
    #[error("the matrix would have more blocks of 1 KiB than the limit allows")]
    MemoryLimit,
    /// 8: the hash takes more block functions than are allowed.
    #[error("the hash would take more block functions than the limit allows")]
    WorkLimit,
    /// 9: memory was refused.
    #[error("out of memory")]
    OutOfMemory,
}
