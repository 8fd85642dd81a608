//! The parameters (RFC 9106, section 3.1), tested once.
ghost use Rattle.std.specs.Prelude.{◌≡◌, ◌*◌, ◌<◌, ◌≤◌, ◌^◌, true, IfOk, Result};
ghost use Rattle.argon.specs.Argon2.{is_xored_in};
ghost use Rattle.argon.specs.Counts.{independent_segment_count, work};
ghost use Rattle.argon.specs.Kind.{type_number};
ghost use Rattle.argon.specs.Parameters.{Parameters, block_count, segment_len};
ghost use Rattle.argon.specs.Params.{AreAsGiven};
ghost use Rattle.argon.specs.Range.{IsInRange, IsInRangeWithAnyPassword, admission, checked_parameters, checked_with_any_password_length, is_between, is_version};
ghost use Rattle.argon.specs.Reference.{is_independent};

use crate::addresses::address_block_count;
use crate::fault::ParamFault;
use crate::kind::Kind;
use std::marker::Model;

/// The parameters of a hash, in range (RFC 9106, section 3.1). Contracts see the numbers that were
/// given.
#[derive(Drop)]
pub struct Params {
    kind: Kind,
    version: u32,
    passes: u32,
    lanes: u32,
    memory_kib: u32,
    tag_len: usize,
    salt_len: usize,
    password_len: usize,
    // How many columns a segment has.
    segment_len: u32,
}

impl Model for Params {
    ghost use Rattle.argon.specs.Parameters.{Parameters};

    ghost Value = { Parameters };

    ghost use Rattle.argon.specs.Params.{parameters_of, AreArgon2Params};

    ghost view = { parameters_of };

    ghost invariant = { AreArgon2Params };
}

// Whether a number is in a range, its ends included.
fn is_between(low: u64, number: u64, high: u64) -> bool
    ensures value { result ≡ is_between low number high }
{
    low <= number && number <= high
}

impl Params {
    /// Tests the parameters of a hash. `version` is 0x10 or 0x13. The ranges are, in the order in which
    /// they are tested: `passes` t 1 to 2^32-1, `lanes` p 1 to 2^24-1, `memory_kib` m 8p to 2^32-1
    /// in KiB, and the lengths in bytes of the tag, 4 to 4,096, the salt, 8 to 255, and the
    /// password, 1 to 127. The first that fails is the fault, 1 to 6.
    pub fn new(
        kind: Kind,
        version: u32,
        passes: u32,
        lanes: u32,
        memory_kib: u32,
        tag_len: usize,
        salt_len: usize,
        password_len: usize,
    ) -> Result<Params, ParamFault>
        requires version { is_version version ≡ true }
        ensures exact { result ≡ checked_parameters (record {
          kind = type_number kind;
          version = version;
          passes = passes;
          lanes = lanes;
          memory_kib = memory_kib;
          tag_len = tag_len;
          salt_len = salt_len;
          password_len = password_len;
        }) }
        ensures value { AreAsGiven (type_number kind) version passes lanes memory_kib tag_len salt_len
            password_len result }
        ensures in_range { IfOk result IsInRange }
    {
        let params = Params::with_any_password_length(
            kind,
            version,
            passes,
            lanes,
            memory_kib,
            tag_len,
            salt_len,
            password_len,
        )?;
        if !is_between(1, password_len as u64, 127) {
            return Err(ParamFault::PasswordLength);
        }
        Ok(params)
    }

    /// Tests the parameters of a hash as `new` does, but the password has any length that RFC 9106 allows: 0 to 2^32-1
    /// bytes. An empty password is accepted: refuse it before you enrol it.
    pub fn with_any_password_length(
        kind: Kind,
        version: u32,
        passes: u32,
        lanes: u32,
        memory_kib: u32,
        tag_len: usize,
        salt_len: usize,
        password_len: usize,
    ) -> Result<Params, ParamFault>
        requires version { is_version version ≡ true }
        ensures exact { result ≡ checked_with_any_password_length (record {
          kind = type_number kind;
          version = version;
          passes = passes;
          lanes = lanes;
          memory_kib = memory_kib;
          tag_len = tag_len;
          salt_len = salt_len;
          password_len = password_len;
        }) }
        ensures value { AreAsGiven (type_number kind) version passes lanes memory_kib tag_len salt_len
            password_len result }
        ensures in_range { IfOk result IsInRangeWithAnyPassword }
    {
        if !is_between(1, passes as u64, 0xFFFF_FFFF) {
            return Err(ParamFault::Passes);
        }
        if !is_between(1, lanes as u64, 0xFF_FFFF) {
            return Err(ParamFault::Lanes);
        }
        if !is_between(8 * lanes as u64, memory_kib as u64, 0xFFFF_FFFF) {
            return Err(ParamFault::Memory);
        }
        if !is_between(4, tag_len as u64, 4096) {
            return Err(ParamFault::TagLength);
        }
        if !is_between(8, salt_len as u64, 255) {
            return Err(ParamFault::SaltLength);
        }
        if password_len > 0xFFFF_FFFF {
            return Err(ParamFault::PasswordLength);
        }
        Ok(Params {
            kind,
            version,
            passes,
            lanes,
            memory_kib,
            tag_len,
            salt_len,
            password_len,
            segment_len: memory_kib / (4 * lanes),
        })
    }

    // The same parameters once more.
    pub(crate) fn copied(&self) -> Params
        ensures same { result ≡ self.now }
        ensures in_range { IsInRangeWithAnyPassword self.now }
    {
        Params {
            kind: self.kind,
            version: self.version,
            passes: self.passes,
            lanes: self.lanes,
            memory_kib: self.memory_kib,
            tag_len: self.tag_len,
            salt_len: self.salt_len,
            password_len: self.password_len,
            segment_len: self.segment_len,
        }
    }

    /// The type.
    pub fn kind(&self) -> Kind
        ensures value { type_number result ≡ self.now.kind }
    {
        self.kind
    }

    /// The version v: 0x10 or 0x13.
    pub fn version(&self) -> u32
        ensures value { result ≡ self.now.version }
    {
        self.version
    }

    /// The passes t, 1 to 2^32-1.
    pub fn passes(&self) -> u32
        ensures value { result ≡ self.now.passes }
        ensures at_least_1 { 1 ≤ result }
    {
        self.passes
    }

    /// The lanes p, 1 to 2^24-1.
    pub fn lanes(&self) -> u32
        ensures value { result ≡ self.now.lanes }
        ensures at_least_1 { 1 ≤ result }
        ensures below_2_24 { result < 2 ^ 24 }
    {
        self.lanes
    }

    /// The memory m in KiB as it was given, 8p to 2^32-1.
    pub fn memory_kib(&self) -> u32
        ensures value { result ≡ self.now.memory_kib }
    {
        self.memory_kib
    }

    /// The length of the tag T in bytes, 4 to 4,096.
    pub fn tag_len(&self) -> usize
        ensures value { result ≡ self.now.tag_len }
        ensures at_least_4 { 4 ≤ result }
        ensures short { result ≤ 4096 }
    {
        self.tag_len
    }

    /// How many columns a segment has: `blocks` by 4p (RFC 9106, section 3.4).
    pub fn segment_len(&self) -> u32
        ensures value { result ≡ segment_len self.now }
        ensures long { 2 ≤ result }
        ensures short { self.now.lanes * (4 * result) < 2 ^ 32 }
    {
        self.segment_len
    }

    /// m', the number of blocks of 1,024 bytes that a matrix holds: the memory in KiB, rounded down
    /// to a multiple of 4p (RFC 9106, section 3.2, step 2).
    pub fn blocks(&self) -> u32
        ensures value { result ≡ block_count self.now }
    {
        self.lanes * (4 * self.segment_len)
    }

    /// How many block functions a hash takes: `t*m' - 2p` for its blocks, and two for each 128
    /// columns begun of a segment with independent addressing. It can be past 2^64.
    pub fn work(&self) -> u128
        ensures value { result ≡ work self.now }
    {
        let made = self.passes as u128 * self.blocks() as u128 - 2 * self.lanes as u128;
        made + 2
            * address_block_count(self.segment_len) as u128
            * self.independent_segment_count() as u128
    }

    // How many segments have independent addressing.
    fn independent_segment_count(&self) -> u64
        ensures value { result ≡ independent_segment_count self.now }
        ensures small { result < 2 ^ 58 }
    {
        match self.kind {
            Kind::D => 0,
            Kind::I => 4 * self.lanes as u64 * self.passes as u64,
            Kind::Id => 2 * self.lanes as u64,
        }
    }

    /// Whether the words J of a slice, 0 to 3, of a pass, from 0, come from the position alone, and not from the password
    /// (RFC 9106, section 3.4.1): with these [`plan_segment`](crate::plan_segment) plans its segments. In Argon2d it is no
    /// slice, in Argon2i each, and in Argon2id the first two of pass 0.
    pub fn is_independent(&self, pass: u32, slice: u32) -> bool
        ensures value { result ≡ is_independent self.now pass slice }
    {
        match self.kind {
            Kind::D => false,
            Kind::I => true,
            Kind::Id => pass == 0 && slice < 2,
        }
    }

    // Whether the old blocks of a pass are xored in.
    pub(crate) fn is_xored_in(&self, pass: u32) -> bool
        ensures value { result ≡ is_xored_in self.now pass }
    {
        self.version == 0x13 && 0 < pass
    }

    /// Whether a hash takes at most `max_kib` blocks of 1 KiB (else fault 7) and at most `max_ops`
    /// block functions (else fault 8). Fault 7 is told before 8.
    pub fn admitted(&self, max_kib: u32, max_ops: u64) -> Result<(), ParamFault>
        ensures exact { result ≡ admission self.now max_kib max_ops }
    {
        if self.blocks() > max_kib {
            return Err(ParamFault::MemoryLimit);
        }
        if self.work() > max_ops as u128 {
            return Err(ParamFault::WorkLimit);
        }
        Ok(())
    }
}
