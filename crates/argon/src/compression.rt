//! The compression function G (RFC 9106, section 3.5) in blocks that the caller lends, four rows or
//! four columns at a time.
ghost use Rattle.std.specs.Prelude.{◌≡◌, ◌+◌, ◌≤◌};
ghost use Rattle.four_words.specs.Words.{xored_words};
ghost use Rattle.argon.specs.Compression.{block_after_columns, block_after_rows, compression};
ghost use Rattle.argon.specs.Inside.FourWords.{with_four_columns_permuted, with_four_rows_permuted};

use crate::block::{Block, column, put_column, put_row, row, write_xor};
use crate::permutation::permute;
use crate::ticks::Ticks;

/// The two blocks that [`compression`] works in, and leaves its value in: G is their xor. They are made once for many calls,
/// since making a block costs time, and what stood in them does not matter. They keep what the last call left, and are not
/// overwritten when they are dropped.
#[derive(Drop)]
pub struct Scratch {
    /// R, the xor of the two blocks that are taken in (RFC 9106, section 3.5).
    pub xored: Block,
    /// Z, which is R after its rows and its columns.
    pub permuted: Block,
}

impl Scratch {
    /// The two blocks, whatever stands in them.
    pub fn new() -> Scratch {
        Scratch {
            xored: [0; 128],
            permuted: [0; 128],
        }
    }
}

// Four rows of a block, from the first on, permuted, into another.
#[inline(always)]
fn permute_four_rows(from: &Block, into: &mut Block, first: usize)
    requires rows { first + 4 ≤ 8 }
    ensures value { into.new ≡ with_four_rows_permuted from.now into.old first }
{
    let (one, two, three, four) = permute(
        row(from, first),
        row(from, first + 1),
        row(from, first + 2),
        row(from, first + 3),
    );
    put_row(into, first, one);
    put_row(into, first + 1, two);
    put_row(into, first + 2, three);
    put_row(into, first + 3, four);
}

// Four columns of a block, from the first on, permuted in place.
#[inline(always)]
fn permute_four_columns(block: &mut Block, first: usize)
    requires columns { first + 4 ≤ 8 }
    ensures value { block.new ≡ with_four_columns_permuted block.old first }
{
    let (one, two, three, four) = permute(
        column(block, first),
        column(block, first + 1),
        column(block, first + 2),
        column(block, first + 3),
    );
    put_column(block, first, one);
    put_column(block, first + 1, two);
    put_column(block, first + 2, three);
    put_column(block, first + 3, four);
}

#[inline(always)]
fn permute_rows(from: &Block, into: &mut Block)
    ensures value { into.new ≡ block_after_rows from.now 8 }
{
    'rows: for i in 0..2 {
        permute_four_rows(from, into, 4 * i);
    }
}

#[inline(always)]
fn permute_columns(block: &mut Block)
    ensures value { block.new ≡ block_after_columns block.old 8 }
{
    'columns: for i in 0..2 {
        permute_four_columns(block, 4 * i);
    }
}

/// The block function, which is the compression function G (RFC 9106, section 3.5): leaves in the scratch blocks R and Z,
/// whose xor is G of the two blocks, and counts one. [`write_xor`](crate::write_xor) writes that xor where it is wanted,
/// and [`xor_two_blocks_into`](crate::xor_two_blocks_into) xors it into a block. Any two blocks are taken, one block twice too.
pub fn compression(first: &Block, second: &Block, scratch: &mut Scratch, ticks: &mut Ticks)
    ensures xored { scratch.new.xored ≡ xored_words first.now second.now }
    ensures value { xored_words scratch.new.permuted scratch.new.xored
        ≡ compression first.now second.now }
    ensures count { ticks.new ≡ ticks.old + 1 }
{
    write_xor(first, second, &mut scratch.xored);
    permute_rows(&scratch.xored, &mut scratch.permuted);
    permute_columns(&mut scratch.permuted);
    ticks.tick();
}
