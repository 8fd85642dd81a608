//! The numbers that tell a program in C what came of a call. No number changes its meaning, ever.
ghost use Rattle.std.specs.Prelude.{◌≡◌, ◌≢◌, ◌≤◌, ◌<◌};
ghost use Rattle.argon_text.specs.declared.fault.ReadFault.TheVariants.{NotInGrammar, OutOfMemory, OutOfRange};
ghost use Rattle.pikhsen_c.specs.Status.{cost_fault_status, header_fault_status, param_fault_status, range_fault_status};
ghost use Rattle.pikhsen_c.specs.Inside.Numbers.{was_memory_granted, had_memory_to_read, read_fault_status, verify_fault_status};

use argon::ParamFault;
use argon_text::{RangeFault, ReadFault, VerifyFault};
use encfile::HeaderFault;
use romix::CostFault;

/// The call did what it says.
pub(crate) const OK: u32 = 0;

/// Memory was refused.
pub(crate) const OUT_OF_MEMORY: u32 = 9;

/// The kind is not 0, 1 or 2.
pub(crate) const KIND: u32 = 10;

/// The version of Argon2 is not 0x10 or 0x13.
pub(crate) const ARGON2_VERSION: u32 = 11;

/// The secret, or the associated data, has 2^32 bytes or more.
pub(crate) const INPUT_LENGTH: u32 = 12;

/// A buffer has not the length that the call needs.
pub(crate) const BUFFER: u32 = 13;

/// The text is no encoded text.
pub(crate) const NOT_ENCODED: u32 = 14;

/// The text is an encoded text, and a value of it is out of range.
pub(crate) const OUT_OF_RANGE: u32 = 15;

/// The password is not that of the text.
pub(crate) const MISMATCH: u32 = 16;

/// The file has no whole header.
pub(crate) const TOO_SHORT: u32 = 26;

/// The passphrase is not the file's.
pub(crate) const WRONG_PASSPHRASE: u32 = 27;

/// The file is damaged, or cut short, after its first 96 bytes.
pub(crate) const DAMAGED: u32 = 28;

/// The text has 2^60 bytes or more.
pub(crate) const TOO_LONG: u32 = 29;

/// The salt of a file has not 32 bytes.
pub(crate) const FILE_SALT: u32 = 30;

/// The stream runs already, or does not run in this direction.
pub(crate) const STREAM: u32 = 37;

/// The number of what Argon2's parameters are refused for: 1 to 8.
pub(crate) fn param_fault_status(fault: ParamFault) -> u32
    ensures number { result ≡ param_fault_status fault }
    ensures at_least_1 { 1 ≤ result }
    ensures below { result ≤ 8 }
{
    match fault {
        ParamFault::Passes => 1,
        ParamFault::Lanes => 2,
        ParamFault::Memory => 3,
        ParamFault::TagLength => 4,
        ParamFault::SaltLength => 5,
        ParamFault::PasswordLength => 6,
        ParamFault::MemoryLimit => 7,
        ParamFault::WorkLimit => 8,
    }
}

/// The number of why a password isn't tested: 6 to 9, or 12.
pub(crate) fn verify_fault_status(fault: VerifyFault) -> u32
    ensures number { result ≡ verify_fault_status fault }
    ensures memory { result ≡ 9 → fault ≡ VerifyFault.OutOfMemory }
    ensures other { result ≢ 9 → fault ≢ VerifyFault.OutOfMemory }
    ensures at_least_6 { 6 ≤ result }
    ensures gap { 9 < result → 12 ≤ result }
    ensures below { result ≤ 12 }
{
    match fault {
        VerifyFault::PasswordLength => 6,
        VerifyFault::InputLength => INPUT_LENGTH,
        VerifyFault::MemoryLimit => 7,
        VerifyFault::WorkLimit => 8,
        VerifyFault::OutOfMemory => OUT_OF_MEMORY,
    }
}

/// The number of why a text isn't read: 9, 14 or 15.
pub(crate) fn read_fault_status(fault: ReadFault) -> u32
    ensures number { result ≡ read_fault_status fault }
    ensures memory { had_memory_to_read fault ≡ was_memory_granted result }
    ensures not_in_grammar { result ≡ 14 → fault ≡ NotInGrammar }
    ensures out_of_range { result ≡ 15 → fault ≡ OutOfRange }
    ensures out_of_memory { result ≡ 9 → fault ≡ OutOfMemory }
    ensures at_least_9 { 9 ≤ result }
    ensures gap { 9 < result → 14 ≤ result }
    ensures below { result ≤ 15 }
{
    match fault {
        ReadFault::NotInGrammar => NOT_ENCODED,
        ReadFault::OutOfRange => OUT_OF_RANGE,
        ReadFault::OutOfMemory => OUT_OF_MEMORY,
    }
}

/// The number of what scrypt's costs are refused for: 7, 8, or 17 to 21.
pub(crate) fn cost_fault_status(fault: CostFault) -> u32
    ensures number { result ≡ cost_fault_status fault }
    ensures at_least_7 { 7 ≤ result }
    ensures gap { 8 < result → 17 ≤ result }
    ensures below { result ≤ 21 }
{
    match fault {
        CostFault::LogN => 17,
        CostFault::Zero => 18,
        CostFault::Product => 19,
        CostFault::Keep => 20,
        CostFault::KeepAboveN => 21,
        CostFault::Memory => 7,
        CostFault::Work => 8,
    }
}

/// The number of what the header of a file is refused for: 22 to 25.
pub(crate) fn header_fault_status(fault: HeaderFault) -> u32
    ensures number { result ≡ header_fault_status fault }
    ensures at_least_22 { 22 ≤ result }
    ensures below { result ≤ 25 }
{
    match fault {
        HeaderFault::Magic => 22,
        HeaderFault::Version => 23,
        HeaderFault::Checksum => 24,
        HeaderFault::CostsOutOfRange => 25,
    }
}

/// The number of which part of an encoded text is out of range: 31 to 36.
pub(crate) fn range_fault_status(fault: RangeFault) -> u32
    ensures number { result ≡ range_fault_status fault }
    ensures at_least_31 { 31 ≤ result }
    ensures below { result ≤ 36 }
{
    match fault {
        RangeFault::Version => 31,
        RangeFault::Passes => 32,
        RangeFault::Lanes => 33,
        RangeFault::Memory => 34,
        RangeFault::TagLength => 35,
        RangeFault::SaltLength => 36,
    }
}
