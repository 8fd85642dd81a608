//! What parameters are refused for.
use thiserror::Error;

/// Why parameters are refused: the first that holds, in this order. `Params::new` and
/// `Params::with_any_password_length` answer 1 to 6, `Params::admitted` 7 and 8.
#[derive(Clone, Copy, Debug, PartialEq, Eq, Error)]
pub enum ParamFault {
    /// 1: the passes t are not 1 to 2^32-1.
    #[error("the passes are not 1 to 2^32-1")]
    Passes,
    /// 2: the lanes p are not 1 to 2^24-1.
    #[error("the lanes are not 1 to 2^24-1")]
    Lanes,
    /// 3: the memory m, in KiB, is not 8p to 2^32-1.
    #[error("the memory is not 8 KiB a lane to 2^32-1 KiB")]
    Memory,
    /// 4: the length T of the tag, in bytes, is not 4 to 4,096.
    #[error("the tag is not 4 to 4096 bytes long")]
    TagLength,
    /// 5: the length of the salt, in bytes, is not 8 to 255.
    #[error("the salt is not 8 to 255 bytes long")]
    SaltLength,
    /// 6: the length of the password, in bytes, is not 1 to 127, or for `with_any_password_length` not 0 to 2^32-1.
    #[error("the password is shorter or longer than allowed")]
    PasswordLength,
    /// 7: the matrix has more blocks of 1 KiB than are allowed.
    #[error("the matrix would have more blocks of 1 KiB than the limit allows")]
    MemoryLimit,
    /// 8: the hash takes more block functions than are allowed.
    #[error("the hash would take more block functions than the limit allows")]
    WorkLimit,
}
