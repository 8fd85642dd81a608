//! The first 64 bytes of a file (FORMAT).
ghost use Rattle.std.specs.Prelude.{◌≡◌};
ghost use Rattle.romix.specs.Costs.{IsInRange};
ghost use Rattle.encfile.specs.Header.{checksum, first_48_header_bytes, header};

use romix::Costs;
use sha2::{Digest, Sha256};

// Bytes 0 to 47: the text `scrypt`, the version, log2 N, r, p, and the salt.
fn first_48_header_bytes(costs: &Costs, salt: &[u8; 32]) -> [u8; 48]
    ensures bytes { result ≡ first_48_header_bytes costs.now salt.now }
    ensures in_range { IsInRange costs.now }
{
    let [s, c, r, y, p, t] = *b"scrypt";
    let [r0, r1, r2, r3] = costs.r().to_be_bytes();
    let [p0, p1, p2, p3] = costs.p().to_be_bytes();
    let log_n = costs.log_n();
    let front = [s, c, r, y, p, t, 0, log_n, r0, r1, r2, r3, p0, p1, p2, p3];
    let mut bytes = [0u8; 48];
    bytes[..16].copy_from_slice(&front);
    bytes[16..].copy_from_slice(salt);
    bytes
}

// Bytes 48 to 63, for bytes 0 to 47: the first 16 bytes of their SHA-256.
pub(crate) fn checksum(bytes: &[u8]) -> [u8; 16]
    ensures checksum { result ≡ checksum bytes.now }
{
    let digest = Sha256::digest(bytes);
    let mut sum = [0u8; 16];
    sum.copy_from_slice(&digest[..16]);
    sum
}

// Bytes 0 to 63.
pub(crate) fn header(costs: &Costs, salt: &[u8; 32]) -> [u8; 64]
    ensures bytes { result ≡ header costs.now salt.now }
    ensures in_range { IsInRange costs.now }
{
    let front = first_48_header_bytes(costs, salt);
    let mut bytes = [0u8; 64];
    bytes[..48].copy_from_slice(&front);
    bytes[48..].copy_from_slice(&checksum(&front));
    bytes
}
