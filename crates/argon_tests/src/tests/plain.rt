//! The compression function G word by word, as RFC 9106, sections 3.5 and 3.6 write it: what the
//! lane-wise body is compared with.
ghost use Rattle.std.specs.Prelude.{◌<◌};

use argon::Block;

fn sum_with_product(a: u64, b: u64) -> u64 {
    let product = (a & 0xffff_ffff).wrapping_mul(b & 0xffff_ffff);
    a.wrapping_add(b).wrapping_add(product.wrapping_mul(2))
}

// GB of four words: a, b, c and d are the standard's.
fn mixed(words: [u64; 4]) -> [u64; 4] {
    let [a, b, c, d] = words;
    let a = sum_with_product(a, b);
    let d = (d ^ a).rotate_right(32);
    let c = sum_with_product(c, d);
    let b = (b ^ c).rotate_right(24);
    let a = sum_with_product(a, b);
    let d = (d ^ a).rotate_right(16);
    let c = sum_with_product(c, d);
    let b = (b ^ c).rotate_right(63);
    [a, b, c, d]
}

// GB on the words at four different places.
fn mix_at(block: &mut Block, a: usize, b: usize, c: usize, d: usize)
    requires a_within { a < 128 }
    requires b_within { b < 128 }
    requires c_within { c < 128 }
    requires d_within { d < 128 }
{
    let [new_a, new_b, new_c, new_d] = mixed([block[a], block[b], block[c], block[d]]);
    block[a] = new_a;
    block[b] = new_b;
    block[c] = new_c;
    block[d] = new_d;
}

// The numbers of the words that P mixes: the columns of a square of sixteen, and its diagonals.
const MIXINGS: [[usize; 4]; 8] = [
    [0, 4, 8, 12],
    [1, 5, 9, 13],
    [2, 6, 10, 14],
    [3, 7, 11, 15],
    [0, 5, 10, 15],
    [1, 6, 11, 12],
    [2, 7, 8, 13],
    [3, 4, 9, 14],
];

// Where the word of this number, 0 to 15, stands, of eight pairs of places `step` apart.
fn place(start: usize, step: usize, number: usize) -> usize
    requires within { (start < 128) × (step < 128) }
    ensures within { result < 128 }
{
    (start + number % 16 / 2 * step + number % 2) % 128
}

// P on the sixteen words of eight pairs of places, `step` apart.
fn permute(block: &mut Block, start: usize, step: usize)
    requires within { (start < 128) × (step < 128) }
{
    for mixing in &MIXINGS {
        let [a, b, c, d] = *mixing;
        mix_at(
            block,
            place(start, step, a),
            place(start, step, b),
            place(start, step, c),
            place(start, step, d),
        );
    }
}

/// G of two blocks.
pub fn compression(first: &Block, second: &Block, out: &mut Block) {
    let mut xored = *first;
    for k in 0..128 {
        xored[k] ^= second[k];
    }
    *out = xored;
    for i in 0..8 {
        permute(out, 16 * i, 2);
    }
    for i in 0..8 {
        permute(out, 2 * i, 16);
    }
    for k in 0..128 {
        out[k] ^= xored[k];
    }
}
