//! ROMix (RFC 7914, section 5) over a flat table, with the blocks of its rows in the order of the
//! diagonals.
ghost use Rattle.std.specs.Prelude.{◌≡◌, ◌+◌, ◌*◌, ◌/◌, ◌%◌, ◌^◌, ◌<◌, ◌≤◌, length};
ghost use Rattle.four_words.specs.Words.{xored_words};
ghost use Rattle.romix.specs.BlockMix.{block_count, block_mix};
ghost use Rattle.romix.specs.Inside.Diagonals.{row_in_standard_order};
ghost use Rattle.romix.specs.Romix.{integerify, romix, row_of_v};
ghost use Rattle.romix.specs.Sparse.{mixes};
ghost use Rattle.romix.specs.Inside.Table.{row_at};

use crate::lanes::Lanes;
use crate::salsa20::core_by_diagonals;
use crate::table::{keep_row, load_table_row};
use crate::ticks::Ticks;

// BlockMix (RFC 7914, section 4) of a row by diagonals, with X in four vectors throughout.
#[inline(always)]
fn block_mix_by_diagonals(input: &[u32], out: &mut [u32], ticks: &mut Ticks)
    requires same { length out.old ≡ length input.now }
    requires pairs { length input.now % 32 ≡ 0 }
    requires not_empty { 0 < length input.now }
    ensures words { row_in_standard_order out.new ≡ block_mix (row_in_standard_order input.now) }
    ensures count { ticks.new ≡ ticks.old + block_count input.now }
{
    let pairs = input.len() / 32;
    let (even, odd) = out.split_at_mut(16 * pairs);
    let mut x = Lanes::load(input, 2 * pairs - 1);
    'turns: for i in 0..pairs {
        x = core_by_diagonals(x.xor(Lanes::load(input, 2 * i)), ticks);
        x.store(even, i);
        x = core_by_diagonals(x.xor(Lanes::load(input, 2 * i + 1)), ticks);
        x.store(odd, i);
    }
}

// Xors a row into another. It is a pass of its own before BlockMix, so that the cache misses of
// the table's row overlap.
#[inline(always)]
fn xor_rows(row: &mut [u32], other: &[u32])
    requires same { length other.now ≡ length row.old }
    requires whole { length row.old % 16 ≡ 0 }
    ensures words { row.new ≡ xored_words row.old other.now }
{
    for i in 0..row.len() / 16 {
        let xored = Lanes::load(row, i).xor(Lanes::load(other, i));
        xored.store(row, i);
    }
}

// Integerify, modulo N = 2^log_n, of a row by diagonals, where word 1 of a block is at place 13:
// of the last block, 512 bits, the two lowest words are enough.
fn integerify(row: &[u32], log_n: u32) -> u64
    requires long { 16 ≤ length row.now }
    requires whole { length row.now % 16 ≡ 0 }
    requires log_n_high { log_n < 64 }
    ensures number { result ≡ integerify (row_in_standard_order row.now) % 2 ^ log_n }
{
    let last = row.len() - 16;
    let low = u64::from(row[last]) + (u64::from(row[last + 13]) << 32);
    low % (1 << log_n)
}

// Puts the blocks of a row into the order of the diagonals.
fn turn_to_diagonals(row: &mut [u32])
    requires whole { length row.old % 16 ≡ 0 }
    ensures words { row_in_standard_order row.new ≡ row.old }
{
    for i in 0..row.len() / 16 {
        let turned = Lanes::load(row, i).to_diagonals();
        turned.store(row, i);
    }
}

// Puts the blocks of a row back into their own order.
fn turn_to_rows(row: &mut [u32])
    requires whole { length row.old % 16 ≡ 0 }
    ensures words { row.new ≡ row_in_standard_order row.old }
{
    for i in 0..row.len() / 16 {
        let turned = Lanes::load(row, i).to_rows();
        turned.store(row, i);
    }
}

// Fills `out` with the row of V that stands `steps` after `from`, by diagonals.
fn recompute_row_of_v(
    from: &[u32],
    steps: usize,
    out: &mut [u32],
    spare: &mut [u32],
    ticks: &mut Ticks,
)
    requires some_steps { 1 ≤ steps }
    requires pairs { length from.now % 32 ≡ 0 }
    requires not_empty { 0 < length from.now }
    requires out { length out.old ≡ length from.now }
    requires spare { length spare.old ≡ length from.now }
    ensures words { row_in_standard_order out.new ≡ row_of_v (row_in_standard_order from.now) steps }
    ensures count { ticks.new ≡ ticks.old + steps * block_count from.now }
{
    // one or two, so that the last of the pairs ends in `out`
    if steps % 2 == 1 {
        block_mix_by_diagonals(from, out, ticks);
    } else {
        block_mix_by_diagonals(from, spare, ticks);
        block_mix_by_diagonals(spare, out, ticks);
    }
    'pairs: for _pair in 0..(steps - 1) / 2 {
        block_mix_by_diagonals(out, spare, ticks);
        block_mix_by_diagonals(spare, out, ticks);
    }
}

// Xors row `j` of V into a row, by diagonals, over two rows to work in. Where every row is kept
// they are left alone, and `spare` may have any length.
#[inline(always)]
fn xor_table_row(
    row: &mut [u32],
    table: &[u32],
    keep: usize,
    j: usize,
    work: &mut [u32],
    spare: &mut [u32],
    ticks: &mut Ticks,
)
    requires keep { 0 < keep }
    requires pairs { length row.old % 32 ≡ 0 }
    requires not_empty { 0 < length row.old }
    requires room { length row.old * (j / keep + 1) ≤ length table.now }
    requires work { length work.old ≡ length row.old }
    requires spare { 1 < keep → length spare.old ≡ length row.old }
    ensures words { row_in_standard_order row.new ≡ xored_words (row_in_standard_order row.old)
        (row_of_v (row_in_standard_order (row_at table.now (length row.old) (j / keep))) (j % keep)) }
    ensures count { ticks.new ≡ ticks.old + j % keep * block_count row.old }
{
    let from = load_table_row(table, row.len(), j / keep);
    let steps = j % keep;
    if steps == 0 {
        xor_rows(row, from);
    } else {
        recompute_row_of_v(from, steps, work, spare, ticks);
        xor_rows(row, work);
    }
}

/// Replaces the row by its ROMix (RFC 7914, section 5), for N = 2^log_n, where 1 <= log_n < 64. A row is
/// 2 * r blocks of 16 words. `other` is as long, and so is `spare`, if `keep` is above 1; what stands in them and in the
/// table afterwards is not said. The table has the N / `keep` rows of V whose number `keep` divides, and `keep` divides N.
pub fn romix(
    row: &mut [u32],
    other: &mut [u32],
    spare: &mut [u32],
    table: &mut [u32],
    log_n: u32,
    keep: usize,
    ticks: &mut Ticks,
)
    requires log_n_low { 1 ≤ log_n }
    requires log_n_high { log_n < 64 }
    requires keep { 0 < keep }
    requires divides { 2 ^ log_n % keep ≡ 0 }
    requires pairs { length row.old % 32 ≡ 0 }
    requires not_empty { 0 < length row.old }
    requires same { length other.old ≡ length row.old }
    requires spare { 1 < keep → length spare.old ≡ length row.old }
    requires table { length table.old ≡ length row.old * (2 ^ log_n / keep) }
    ensures words { row.new ≡ romix row.old (2 ^ log_n) }
    ensures count { ticks.new ≡ ticks.old + mixes row.old (2 ^ log_n) keep * block_count row.old }
{
    turn_to_diagonals(row);
    // N is even, so that each turn of a loop mixes from one row to the other and back, and no row is copied but into the
    // table. The table keeps the rows of V whose number `keep` divides; a row between them is mixed anew from the kept
    // one below it.
    let half: usize = 1 << (log_n - 1);
    'fill: for i in 0..half {
        keep_row(table, keep, 2 * i, row);
        block_mix_by_diagonals(row, other, ticks);
        keep_row(table, keep, 2 * i + 1, other);
        block_mix_by_diagonals(other, row, ticks);
    }
    'turns: for turn in 0..half {
        let j = integerify(row, log_n) as usize;
        xor_table_row(row, table, keep, j, other, spare, ticks);
        block_mix_by_diagonals(row, other, ticks);
        let j = integerify(other, log_n) as usize;
        xor_table_row(other, table, keep, j, row, spare, ticks);
        block_mix_by_diagonals(other, row, ticks);
    }
    turn_to_rows(row);
}
