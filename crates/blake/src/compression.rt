//! The compression function F of BLAKE2b and the steps in it (RFC 7693, 2.6 to 3.2).
ghost use Rattle.std.specs.Prelude.{◌≡◌, ◌<◌, EachIndex, [], ◌∷◌, slice_index};
ghost use Rattle.blake.specs.Words.{along};
ghost use Rattle.blake.specs.Blake2b.{compress, mix, vector_after_mixings, state_xored_with_halves, work_vector};

use byteorder::{ByteOrder, LittleEndian};

/// The bytes in a block.
pub(crate) const BLOCK_LEN: usize = 128;

/// The initialization vector (RFC 7693, 2.6).
pub(crate) const IV: [u64; 8] = [
    0x6A09E667F3BCC908,
    0xBB67AE8584CAA73B,
    0x3C6EF372FE94F82B,
    0xA54FF53A5F1D36F1,
    0x510E527FADE682D1,
    0x9B05688C2B3E6C1F,
    0x1F83D9ABFB41BD6B,
    0x5BE0CD19137E2179,
];

// The order in which a round takes the words of a block, for ten rounds (RFC 7693, 2.7).
const SIGMA: [[usize; 16]; 10] = [
    [0, 1, 2, 3, 4, 5, 6, 7, 8, 9, 10, 11, 12, 13, 14, 15],
    [14, 10, 4, 8, 9, 15, 13, 6, 1, 12, 0, 2, 11, 7, 5, 3],
    [11, 8, 12, 0, 5, 2, 15, 13, 10, 14, 3, 6, 7, 1, 9, 4],
    [7, 9, 3, 1, 13, 12, 11, 14, 2, 6, 5, 10, 4, 0, 15, 8],
    [9, 0, 5, 7, 2, 4, 10, 15, 14, 1, 11, 12, 6, 8, 3, 13],
    [2, 12, 6, 10, 0, 11, 8, 3, 4, 13, 7, 5, 15, 14, 1, 9],
    [12, 5, 1, 15, 14, 13, 4, 10, 0, 7, 6, 3, 9, 2, 8, 11],
    [13, 11, 7, 14, 12, 1, 3, 9, 5, 0, 15, 4, 8, 6, 2, 10],
    [6, 15, 14, 9, 11, 3, 0, 8, 12, 2, 13, 7, 1, 4, 10, 5],
    [10, 2, 8, 4, 7, 6, 1, 5, 15, 11, 9, 14, 3, 12, 13, 0],
];

// The mixing function G, in the letters of RFC 7693, 3.1: v is the work vector, a to d are places
// in it, and x and y are words of the message.
fn mix(v: &mut [u64; 16], a: usize, b: usize, c: usize, d: usize, x: u64, y: u64)
    requires a_in { a < 16 }
    requires b_in { b < 16 }
    requires c_in { c < 16 }
    requires d_in { d < 16 }
    ensures mixed { v.new ≡ along (mix x y) v.old (a ∷ b ∷ c ∷ d ∷ []) }
{
    let half_a = v[a].wrapping_add(v[b]).wrapping_add(x);
    let half_d = (v[d] ^ half_a).rotate_right(32);
    let half_c = v[c].wrapping_add(half_d);
    let half_b = (v[b] ^ half_c).rotate_right(24);
    let whole_a = half_a.wrapping_add(half_b).wrapping_add(y);
    let whole_d = (half_d ^ whole_a).rotate_right(16);
    let whole_c = half_c.wrapping_add(whole_d);
    let whole_b = (half_b ^ whole_c).rotate_right(63);
    v[a] = whole_a;
    v[b] = whole_b;
    v[c] = whole_c;
    v[d] = whole_d;
}

// One round, in the letters of RFC 7693, 3.2: v is the work vector, of which the first four mixings take the
// columns and the last four the diagonals, m the words of the block, and s the row of SIGMA that gives
// their order.
fn round(v: &mut [u64; 16], m: &[u64; 16], s: &[usize; 16])
    requires places { EachIndex s.now (λ k. slice_index s.now k < 16) }
    ensures mixed { v.new ≡ vector_after_mixings m.now s.now v.old 8 }
{
    mix(v, 0, 4, 8, 12, m[s[0]], m[s[1]]);
    mix(v, 1, 5, 9, 13, m[s[2]], m[s[3]]);
    mix(v, 2, 6, 10, 14, m[s[4]], m[s[5]]);
    mix(v, 3, 7, 11, 15, m[s[6]], m[s[7]]);
    mix(v, 0, 5, 10, 15, m[s[8]], m[s[9]]);
    mix(v, 1, 6, 11, 12, m[s[10]], m[s[11]]);
    mix(v, 2, 7, 8, 13, m[s[12]], m[s[13]]);
    mix(v, 3, 4, 9, 14, m[s[14]], m[s[15]]);
}

// The work vector before the first round: the state, then IV with the count of message bytes and
// the mark of the last block in it (RFC 7693, 3.2).
fn work_vector(state: &[u64; 8], count: u64, last: bool) -> [u64; 16]
    ensures vector { result ≡ work_vector state.now count last }
{
    [
        state[0],
        state[1],
        state[2],
        state[3],
        state[4],
        state[5],
        state[6],
        state[7],
        IV[0],
        IV[1],
        IV[2],
        IV[3],
        IV[4] ^ count,
        IV[5],
        if last { !IV[6] } else { IV[6] },
        IV[7],
    ]
}

// Takes both halves of the work vector v into the state (RFC 7693, 3.2).
fn xor_halves_into_state(state: &mut [u64; 8], v: &[u64; 16])
    ensures state { state.new ≡ state_xored_with_halves 8 state.old v.now }
{
    'halves: for i in 0..8 {
        state[i] = state[i] ^ v[i] ^ v[i + 8];
    }
}

/// The compression function F: takes a block into the state (RFC 7693, 3.2). `count` is how many
/// bytes of the message there are up to the end of this block, without padding; `last` marks the
/// message's last block.
pub(crate) fn compress(state: &mut [u64; 8], block: &[u8; BLOCK_LEN], count: u64, last: bool)
    ensures state { state.new ≡ compress state.old block.now count last }
{
    let mut words = [0u64; 16];
    LittleEndian::read_u64_into(block, &mut words);
    let mut vector = work_vector(state, count, last);
    for i in 0..12 {
        round(&mut vector, &words, &SIGMA[i % 10]);
    }
    xor_halves_into_state(state, &vector);
}
