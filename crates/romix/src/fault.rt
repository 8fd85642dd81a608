//! Why costs are refused.
use thiserror::Error;

/// Why costs are refused: the first that holds, in this order. `Costs::new` answers 1 to 3,
/// `Costs::admitted` and `Sparse::admitted` 4 and 5, `Sparse::new` 6 and 7.
#[derive(Debug, Clone, Copy, PartialEq, Eq, Drop, Error)]
pub enum CostFault {
    /// 1: log2 N is not 1 to 63.
    #[error("log2 N is not 1 to 63")]
    LogN,
    /// 2: r or p is 0.
    #[error("r or p is 0")]
    Zero,
    /// 3: r * p is 2^30 or more (RFC 7914, section 2).
    #[error("r * p is 2^30 or more")]
    Product,
    /// 4: the table of 128 * r * (N / S) bytes, or the parts of 128 * r * p bytes, are more bytes than
    /// the limit. S is the number of rows of which one is kept: 1, where a whole table is.
    #[error("the table, or the parts, would take more bytes than the limit allows")]
    Memory,
    /// 5: the bound 2 * r * p * N * (1 + S) on the Salsa20/8 cores is above the limit.
    #[error("the derivation could take more Salsa20/8 cores than the limit allows")]
    Work,
    /// 6: the number of rows of which one is kept is no power of two from 1 to 1,024.
    #[error("the rows of which one is kept are not a power of two from 1 to 1024")]
    Keep,
    /// 7: it is above N.
    #[error("the rows of which one is kept are more than N")]
    KeepAboveN,
}
