//! The header of a file, read.
ghost use Rattle.std.specs.Prelude.{◌≡◌, ◌+◌, ◌≤◌, Some, None, take, IfOk, IfErr, OnOk};
ghost use Rattle.std.specs.Int.{w32, from_be_bytes};
ghost use Rattle.encfile.specs.Header.{CostsAndSalt, IsHeaderOf, bytes_at, costs_of, has_magic, has_right_checksum, salt_of};
ghost use Rattle.encfile.specs.HeaderFaults.{ReadsHeader, header_fault};

use crate::fault::HeaderFault;
use crate::header_bytes::checksum;
use romix::Costs;
use std::marker::Model;

/// What the first 64 bytes of a file say: the costs and the salt of the derivation. Contracts see
/// these two.
///
/// A header has a right checksum, which anyone can make: nothing is known yet of who wrote it.
#[derive(Drop)]
pub struct Header {
    costs: Costs,
    salt: [u8; 32],
}

impl Model for Header {
    ghost use Rattle.encfile.specs.Header.{CostsAndSalt};

    ghost Value = { CostsAndSalt };

    ghost view = { λ h. record { costs = h.costs; salt = h.salt } };
}

// Whether bytes 0 to 5 are the text `scrypt`.
fn has_magic(bytes: &[u8; 64]) -> bool
    ensures magic { result ≡ has_magic bytes.now }
{
    bytes[..6] == b"scrypt"[..]
}

// Whether bytes 48 to 63 are the checksum of those before.
fn has_right_checksum(bytes: &[u8; 64]) -> bool
    ensures checksum { result ≡ has_right_checksum bytes.now }
{
    bytes[48..64] == checksum(&bytes[..48])[..]
}

// The number in four bytes from place `at` on, the highest first.
fn big_endian_u32_at(bytes: &[u8; 64], at: usize) -> u32
    requires within { at + 4 ≤ 64 }
    ensures number { result ≡ from_be_bytes w32 (bytes_at bytes.now at 4) }
{
    let mut four = [0u8; 4];
    four.copy_from_slice(&bytes[at..at + 4]);
    u32::from_be_bytes(four)
}

impl Header {
    /// Reads the first 64 bytes of a file, or tells the first fault of the text `scrypt`, the
    /// version, the checksum and the costs (FORMAT). `r` and `p` are at least 1 here, too.
    pub fn read(bytes: &[u8; 64]) -> Result<Header, HeaderFault>
        ensures costs { IfOk result (λ header. header.costs ≡ costs_of bytes.now) }
        ensures salt { IfOk result (λ header. header.salt ≡ salt_of bytes.now) }
        ensures header { IfOk result (λ header. IsHeaderOf bytes.now header) }
        ensures valid { OnOk result (header_fault bytes.now ≡ None) }
        ensures fault { IfErr result (λ fault. header_fault bytes.now ≡ Some fault) }
    {
        if !has_magic(bytes) {
            return Err(HeaderFault::Magic);
        }
        if bytes[6] != 0 {
            return Err(HeaderFault::Version);
        }
        if !has_right_checksum(bytes) {
            return Err(HeaderFault::Checksum);
        }
        let mut salt = [0u8; 32];
        salt.copy_from_slice(&bytes[16..48]);
        match Costs::new(
            bytes[7],
            big_endian_u32_at(bytes, 8),
            big_endian_u32_at(bytes, 12),
        ) {
            Ok(costs) => Ok(Header { costs, salt }),
            Err(_) => Err(HeaderFault::CostsOutOfRange),
        }
    }

    /// Reads the first 64 of the first 96 bytes of a file, which [`Dec::open`](crate::Dec::open)
    /// takes beside the header.
    pub fn of_front(front: &[u8; 96]) -> Result<Header, HeaderFault>
        ensures reads { ReadsHeader front.now (take 64 front.now) result }
    {
        let mut bytes = [0u8; 64];
        bytes.copy_from_slice(&front[..64]);
        Header::read(&bytes)
    }

    /// The costs, bytes 7 to 15.
    pub fn costs(&self) -> &Costs
        ensures costs { result.now ≡ self.now.costs }
    {
        &self.costs
    }

    /// The salt, bytes 16 to 47.
    pub fn salt(&self) -> &[u8; 32]
        ensures salt { result.now ≡ self.now.salt }
    {
        &self.salt
    }
}
