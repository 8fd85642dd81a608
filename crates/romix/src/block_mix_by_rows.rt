//! BlockMix (RFC 7914, section 4), with X in four vectors throughout.
ghost use Rattle.std.specs.Prelude.{◌≡◌, ◌+◌, ◌*◌, ◌/◌, ◌%◌, ◌<◌, length};
ghost use Rattle.romix.specs.BlockMix.{block_count, block_mix};

use crate::lanes::Lanes;
use crate::salsa20::core_by_rows;
use crate::ticks::Ticks;

/// Fills `out` with the BlockMix of `input` (RFC 7914, section 4), of 32 * r words each for one r
/// of at least 1: 2 * r blocks of sixteen words, and one tick for each of them.
pub fn block_mix(input: &[u32], out: &mut [u32], ticks: &mut Ticks)
    requires same { length out.old ≡ length input.now }
    requires pairs { length input.now % 32 ≡ 0 }
    requires not_empty { 0 < length input.now }
    ensures words { out.new ≡ block_mix input.now }
    ensures count { ticks.new ≡ ticks.old + block_count input.now }
{
    let pairs = input.len() / 32;
    let (even, odd) = out.split_at_mut(16 * pairs);
    let mut x = Lanes::load(input, 2 * pairs - 1);
    'turns: for i in 0..pairs {
        x = core_by_rows(x.xor(Lanes::load(input, 2 * i)), ticks);
        x.store(even, i);
        x = core_by_rows(x.xor(Lanes::load(input, 2 * i + 1)), ticks);
        x.store(odd, i);
    }
}
