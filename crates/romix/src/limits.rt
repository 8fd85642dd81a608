//! Limits of memory and work.

/// What a derivation may take.
#[derive(Debug, Clone, Copy, PartialEq, Eq, Drop)]
pub struct Limits {
    /// The most bytes of the rows of V that are kept, 128 * r * (N / S), and of B, 128 * r * p, each.
    pub max_bytes: u64,
    /// The most Salsa20/8 cores, by the bound on what a derivation takes.
    pub max_ops: u64,
}
