//! Why a text or a file is refused.
use thiserror::Error;

/// The text has, or would reach, 2^60 bytes.
#[derive(Debug, Clone, Copy, PartialEq, Eq, Drop, Error)]
#[error("the text would reach 2^60 bytes")]
pub struct TooLong;

/// Fewer than 32 bytes came after the first 96, or the last 32 are not the HMAC of all those
/// before.
#[derive(Debug, Clone, Copy, PartialEq, Eq, Drop, Error)]
#[error("the last 32 bytes are not the code of those before: damaged or cut short")]
pub struct Damaged;

/// Bytes 64 to 95 are not the HMAC of bytes 0 to 63 under the passphrase's key.
#[derive(Debug, Clone, Copy, PartialEq, Eq, Drop, Error)]
#[error("wrong passphrase")]
pub struct WrongPassphrase;

/// Why 64 bytes are no header. The first that holds, in this order, is answered.
#[derive(Debug, Clone, Copy, PartialEq, Eq, Drop, Error)]
pub enum HeaderFault {
    /// 1: bytes 0 to 5 are not the text `scrypt`.
    #[error("the first 6 bytes are not the text scrypt")]
    Magic,
    /// 2: byte 6, the version of the format, is not 0.
    #[error("the version of the format is not 0")]
    Version,
    /// 3: bytes 48 to 63 are not the first 16 bytes of the SHA-256 of bytes 0 to 47.
    #[error("the checksum of the header is wrong")]
    Checksum,
    /// 4: log2 N is not 1 to 63, r or p is 0, or r * p is 2^30 or more.
    #[error("log2 N is not 1 to 63, r or p is 0, or r * p is 2^30 or more")]
    CostsOutOfRange,
}
