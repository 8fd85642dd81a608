//! The core and BlockMix word by word, as RFC 7914, sections 3 and 4, writes them.
ghost use Rattle.std.specs.Prelude.{◌<◌};

/// Words of a row with r = 8.
pub const ROW_LEN: usize = 256;

fn quarter_round(x: &mut [u32; 16], a: usize, b: usize, c: usize, d: usize)
    requires a { a < 16 }
    requires b { b < 16 }
    requires c { c < 16 }
    requires d { d < 16 }
{
    x[b] ^= x[a].wrapping_add(x[d]).rotate_left(7);
    x[c] ^= x[b].wrapping_add(x[a]).rotate_left(9);
    x[d] ^= x[c].wrapping_add(x[b]).rotate_left(13);
    x[a] ^= x[d].wrapping_add(x[c]).rotate_left(18);
}

fn double_round(x: &mut [u32; 16]) {
    quarter_round(x, 0, 4, 8, 12);
    quarter_round(x, 5, 9, 13, 1);
    quarter_round(x, 10, 14, 2, 6);
    quarter_round(x, 15, 3, 7, 11);
    quarter_round(x, 0, 1, 2, 3);
    quarter_round(x, 5, 6, 7, 4);
    quarter_round(x, 10, 11, 8, 9);
    quarter_round(x, 15, 12, 13, 14);
}

pub fn salsa8(words: &mut [u32; 16]) {
    let mut x = *words;
    for _ in 0..4u32 {
        double_round(&mut x);
    }
    for i in 0..16 {
        words[i] = words[i].wrapping_add(x[i]);
    }
}

pub fn block_mix(input: &[u32; ROW_LEN], out: &mut [u32; ROW_LEN]) {
    let mut x = [0u32; 16];
    x.copy_from_slice(&input[ROW_LEN - 16..]);
    for i in 0..16 {
        for k in 0..16 {
            x[k] ^= input[16 * i + k];
        }
        salsa8(&mut x);
        let place = if i % 2 == 0 { i / 2 } else { 8 + i / 2 };
        out[16 * place..16 * place + 16].copy_from_slice(&x);
    }
}
