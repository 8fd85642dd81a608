//! The costs of a derivation.
ghost use Rattle.std.specs.Prelude.{◌≡◌, ◌^◌, ◌≤◌, Some, None, IfOk, IfErr, OnOk};
ghost use Rattle.romix.specs.Costs.{FitsMemory, IsInRange, cores, parts_bytes, table_bytes};
ghost use Rattle.romix.specs.Faults.{cost_fault, limit_fault};

use crate::fault::CostFault;
use crate::limits::Limits;
use std::marker::Model;

/// The costs of scrypt (RFC 7914, section 2): N, a power of two from 2^1 to 2^63, the block size
/// r and the parallelization p, both at least 1, with r * p below 2^30.
///
/// RFC 7914's further bound N < 2^(16 * r) isn't asked for: the file format of scrypt(1) hasn't it.
/// Contracts see the three numbers, with N by its binary logarithm.
#[derive(Debug, Clone, Copy, PartialEq, Eq, Drop)]
pub struct Costs {
    log_n: u8,
    r: u32,
    p: u32,
}

impl Model for Costs {
    ghost use Rattle.romix.specs.Costs.{IsInRange, Parameters};

    ghost Value = { Parameters };

    ghost view = { λ c. record { log_n = c.log_n; r = c.r; p = c.p } };

    ghost invariant = { λ c. IsInRange (record { log_n = c.log_n; r = c.r; p = c.p }) };

    ghost inverse = { λ c. record { log_n = c.log_n; r = c.r; p = c.p } };
}

impl Costs {
    /// The costs of N = 2^log_n, r and p. The faults, of which the first that holds is told:
    /// `LogN` unless `log_n` is 1 to 63, `Zero` if `r` or `p` is 0, `Product` if r * p is 2^30 or
    /// more.
    pub fn new(log_n: u8, r: u32, p: u32) -> Result<Costs, CostFault>
        ensures costs { IfOk result (λ c. c ≡ record { log_n = log_n; r = r; p = p }) }
        ensures in_range { IfOk result (λ c. IsInRange c) }
        ensures ok { OnOk result (cost_fault log_n r p ≡ None) }
        ensures fault { IfErr result (λ fault. cost_fault log_n r p ≡ Some fault) }
    {
        if !(1..=63).contains(&log_n) {
            return Err(CostFault::LogN);
        }
        if r == 0 || p == 0 {
            return Err(CostFault::Zero);
        }
        if u64::from(r) * u64::from(p) >= 1 << 30 {
            return Err(CostFault::Product);
        }
        Ok(Costs { log_n, r, p })
    }

    /// log2 N, 1 to 63.
    pub fn log_n(&self) -> u8
        ensures log_n { result ≡ self.now.log_n }
        ensures in_range { IsInRange self.now }
    {
        self.log_n
    }

    /// The block size r, at least 1: a row has 2 * r blocks of 64 bytes.
    pub fn r(&self) -> u32
        ensures r { result ≡ self.now.r }
        ensures in_range { IsInRange self.now }
    {
        self.r
    }

    /// The parallelization p, at least 1: the number of parts.
    pub fn p(&self) -> u32
        ensures p { result ≡ self.now.p }
        ensures in_range { IsInRange self.now }
    {
        self.p
    }

    // The same costs, with what `new` has tested of them.
    pub(crate) fn tested(&self) -> Costs
        ensures same { result ≡ self.now }
        ensures in_range { IsInRange result }
    {
        let Costs { log_n, r, p } = *self;
        Costs { log_n, r, p }
    }

    // N.
    pub(crate) fn n(&self) -> u64
        ensures n { result ≡ 2 ^ self.now.log_n }
        ensures in_range { IsInRange self.now }
    {
        1 << self.log_n
    }

    /// The bytes of the table, 128 * N * r (RFC 7914, section 5).
    pub fn table_bytes(&self) -> u128
        ensures bytes { result ≡ table_bytes self.now }
    {
        128 * u128::from(self.n()) * u128::from(self.r)
    }

    // The bytes of the parts, 128 * r * p (RFC 7914, section 6).
    pub(crate) fn parts_bytes(&self) -> u128
        ensures bytes { result ≡ parts_bytes self.now }
    {
        128 * u128::from(self.r) * u128::from(self.p)
    }

    /// The number of Salsa20/8 cores of a derivation, 4 * N * r * p (RFC 7914, sections 4 to 6).
    pub fn cores(&self) -> u128
        ensures cores { result ≡ cores self.now }
    {
        4 * u128::from(self.n()) * u128::from(self.r) * u128::from(self.p)
    }

    /// Whether the limits admit the costs: the table and the parts each have at most `max_bytes`
    /// bytes, else `Memory`, and there are at most `max_ops` cores, else `Work`. `Memory` is told
    /// before `Work`.
    pub fn admitted(&self, limits: &Limits) -> Result<(), CostFault>
        ensures memory { OnOk result (FitsMemory self.now limits.now.max_bytes) }
        ensures work { OnOk result (cores self.now ≤ limits.now.max_ops) }
        ensures ok { OnOk result (limit_fault self.now limits.now ≡ None) }
        ensures fault { IfErr result (λ fault. limit_fault self.now limits.now ≡ Some fault) }
    {
        let max_bytes = u128::from(limits.max_bytes);
        if self.table_bytes() > max_bytes || self.parts_bytes() > max_bytes {
            return Err(CostFault::Memory);
        }
        if self.cores() > u128::from(limits.max_ops) {
            return Err(CostFault::Work);
        }
        Ok(())
    }
}
