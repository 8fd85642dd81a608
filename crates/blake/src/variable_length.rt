//! The variable-length hash H' of Argon2 (RFC 9106, 3.3).
ghost use Rattle.std.specs.Prelude.{◌≡◌, ◌+◌, ◌-◌, ◌*◌, ◌^◌, ◌<◌, ◌≤◌, ◌++◌, length, take};
ghost use Rattle.byteorder.specs.Endian.{little_bytes};
ghost use Rattle.blake.specs.Blake2b.{blake2b};
ghost use Rattle.blake.specs.LongHash.{joined, hash_link_count, links, long_hash};

use crate::hasher::Blake2b;
use byteorder::{ByteOrder, LittleEndian};

// BLAKE2b of bytes that are there in one piece.
fn write_blake2b(bytes: &[u8], out: &mut [u8])
    requires at_least_1 { 1 ≤ length out.old }
    requires at_most_64 { length out.old ≤ 64 }
    requires fits { length bytes.now < 2 ^ 64 }
    ensures hash { out.new ≡ blake2b (length out.old) bytes.now }
{
    let mut hash = Blake2b::new(out.len());
    hash.update(bytes);
    hash.finish(out);
}

// BLAKE2b of `number` in four bytes and of the parts after it.
fn write_blake2b_of_parts(number: u32, parts: &[&[u8]], out: &mut [u8])
    requires at_least_1 { 1 ≤ length out.old }
    requires at_most_64 { length out.old ≤ 64 }
    requires fits { 4 + length (joined parts.now) < 2 ^ 64 }
    ensures hash { out.new
        ≡ blake2b (length out.old) (little_bytes 4 number ++ joined parts.now) }
{
    let mut hash = Blake2b::new(out.len());
    let mut first = [0u8; 4];
    LittleEndian::write_u32(&mut first, number);
    hash.update(&first);
    for part in parts {
        hash.update(part);
    }
    hash.finish(out);
}

// The V of 64 bytes that follows on the V given.
fn next_link(v: &[u8; 64]) -> [u8; 64]
    ensures hash { result ≡ blake2b 64 v.now }
{
    let mut next = [0u8; 64];
    write_blake2b(v, &mut next);
    next
}

// Writes the first 32 bytes of v to the place `at`.
fn write_first_32_bytes(out: &mut [u8], at: usize, v: &[u8; 64])
    requires fits { at + 32 ≤ length out.old }
    ensures front { take (at + 32) out.new ≡ take at out.old ++ take 32 v.now }
{
    out[at..at + 32].copy_from_slice(&v[..32]);
}

// Writes the last V, the hash of v, from the place `at` to the end.
fn write_last(out: &mut [u8], at: usize, v: &[u8; 64])
    requires at_within { at < length out.old }
    requires at_most_64 { length out.old ≤ at + 64 }
    ensures last { out.new ≡ take at out.old ++ blake2b (length out.old - at) v.now }
{
    write_blake2b(v, &mut out[at..]);
}

// H' of more than 64 bytes, from V_1 on.
fn write_links(first: &[u8; 64], out: &mut [u8])
    requires more_than_64 { 64 < length out.old }
    ensures links { out.new ≡ links (length out.old - 32 * hash_link_count (length out.old))
        (hash_link_count (length out.old) - 1) first.now }
{
    let count = out.len().div_ceil(32) - 2;
    let mut v = *first;
    'links: for i in 0..count - 1 {
        write_first_32_bytes(out, 32 * i, &v);
        v = next_link(&v);
    }
    write_first_32_bytes(out, 32 * (count - 1), &v);
    write_last(out, 32 * count, &v);
}

/// The variable-length hash H' (RFC 9106, 3.3) of the parts, taken as one message: fills `out`,
/// which has 1 to 4,096 bytes.
///
/// The hash puts the length of `out` before the message, in four bytes; with them there are fewer
/// than 2^64 bytes in all.
pub fn long_hash(parts: &[&[u8]], out: &mut [u8])
    requires at_least_1 { 1 ≤ length out.old }
    requires at_most_4096 { length out.old ≤ 4096 }
    requires fits { 4 + length (joined parts.now) < 2 ^ 64 }
    ensures hash { out.new ≡ long_hash (length out.old) (joined parts.now) }
{
    let len = out.len() as u32;
    let short = len <= 64;
    if short {
        write_blake2b_of_parts(len, parts, out);
    } else {
        let mut first = [0u8; 64];
        write_blake2b_of_parts(len, parts, &mut first);
        write_links(&first, out);
    }
}
