//! The parts of scrypt (RFC 7914, section 6), one at a time: each is made, mixed, and handed on.
ghost use Rattle.std.specs.Prelude.{◌≡◌, ℕ, ◌+◌, ◌*◌, ◌/◌, ◌%◌, ◌^◌, ◌<◌, ◌≤◌, List, length};
ghost use Rattle.macs.specs.KeyPair.{AppendsToSalt, Pbkdf2HasPasswordAndSalt};
ghost use Rattle.macs.specs.Pbkdf2.{pbkdf2};
ghost use Rattle.romix.specs.Costs.{parts_bytes};
ghost use Rattle.romix.specs.Scrypt.{parts_after_romix, octets_of, part_at, words_of};
ghost use Rattle.romix.specs.Sparse.{sparse_table_core_count};

use crate::romix::romix;
use crate::sparse::Sparse;
use crate::ticks::Ticks;
use byteorder::{ByteOrder, LittleEndian};
use macs::Pbkdf2Pair;

// Fills the row with part `k`, from 0, of the key that `salted` derives: so many of its blocks, of
// eight words each.
fn derive_part(salted: &Pbkdf2Pair, k: usize, row: &mut [u32])
    requires whole { length row.old % 32 ≡ 0 }
    requires fits { length row.old / 8 * (k + 1) < 2 ^ 32 }
    ensures part { (password salt : List ℕ) → Pbkdf2HasPasswordAndSalt salted.now password salt → (p : ℕ) → k < p
        → row.new ≡ words_of (part_at (pbkdf2 password salt (128 * (length row.old / 32) * p)) (length row.old / 32) k)
        (length row.old) }
{
    let count = row.len() / 8;
    for i in 0..count {
        let block = salted.block((count * k + i + 1) as u32);
        LittleEndian::read_u32_into(&block, &mut row[8 * i..8 * i + 8]);
    }
}

// Appends the octets of the row to the salt of `pair`.
fn feed(pair: &mut Pbkdf2Pair, row: &[u32])
    requires whole { length row.now % 16 ≡ 0 }
    ensures fed { AppendsToSalt (octets_of row.now) pair.old pair.new }
{
    let mut octets = [0u8; 64];
    for i in 0..row.len() / 16 {
        LittleEndian::write_u32_into(&row[16 * i..16 * i + 16], &mut octets);
        pair.update(&octets);
    }
}

/// The PBKDF2 under the password whose salt is the ROMix of each of the parts that are made of the
/// password and the salt. The rows and the table are overwritten by each part in turn.
pub(crate) fn mix_parts(
    password: &[u8],
    salt: &[u8],
    sparse: &Sparse,
    row: &mut [u32],
    other: &mut [u32],
    spare: &mut [u32],
    table: &mut [u32],
    ticks: &mut Ticks,
) -> Pbkdf2Pair
    requires row { length row.old ≡ 32 * sparse.now.costs.r }
    requires other { length other.old ≡ 32 * sparse.now.costs.r }
    requires spare { 1 < sparse.now.keep → length spare.old ≡ 32 * sparse.now.costs.r }
    requires table { length table.old
        ≡ 32 * sparse.now.costs.r * (2 ^ sparse.now.costs.log_n / sparse.now.keep) }
    ensures fed { Pbkdf2HasPasswordAndSalt result password.now (parts_after_romix
        (pbkdf2 password.now salt.now (parts_bytes sparse.now.costs))
        (2 ^ sparse.now.costs.log_n) sparse.now.costs.r sparse.now.costs.p) }
    ensures count { ticks.new ≡ ticks.old + sparse_table_core_count password.now salt.now sparse.now }
{
    let costs = sparse.costs();
    let log_n = u32::from(costs.log_n());
    let keep = sparse.keep() as usize;
    let mut salted = Pbkdf2Pair::new(password);
    salted.update(salt);
    let mut pair = Pbkdf2Pair::new(password);
    'parts: for k in 0..costs.p() as usize {
        derive_part(&salted, k, row);
        romix(row, other, spare, table, log_n, keep, ticks);
        feed(&mut pair, row);
    }
    pair
}
