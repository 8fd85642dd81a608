//! H0 and the first two columns (RFC 9106, section 3.2, steps 1, 3 and 4).
ghost use Rattle.std.specs.Prelude.{◌≡◌, ◌+◌, ◌<◌, ◌^◌, length};
ghost use Rattle.blake.specs.State.{IsHandedNext, hashed_message_len};
ghost use Rattle.byteorder.specs.Endian.{little_bytes};
ghost use Rattle.argon.specs.Argon2.{block_from_h0, first_hash, with_length};
ghost use Rattle.argon.specs.Buffer.{HoldsNewestBlocks};
ghost use Rattle.argon.specs.Inputs.{InputsFitParameters, inputs_of};
ghost use Rattle.argon.specs.Parameters.{block_count};
ghost use Rattle.argon.specs.Range.{IsInRangeWithAnyPassword};

use crate::block::Block;
use crate::inputs::Inputs;
use crate::params::Params;
use blake::{Blake2b, long_hash};
use byteorder::{ByteOrder, LittleEndian};

// Hands a number to the hash, in four bytes.
fn update_hash_with_number(hash: &mut Blake2b, number: u32)
    requires fits { hashed_message_len hash.old + 4 < 2 ^ 64 }
    ensures handed { IsHandedNext (little_bytes 4 number) hash.old hash.new }
{
    let mut bytes = [0u8; 4];
    LittleEndian::write_u32(&mut bytes, number);
    hash.update(&bytes);
}

// Hands a text to the hash, with its length before it.
fn update_hash_with_length(hash: &mut Blake2b, text: &[u8])
    requires short { length text.now < 2 ^ 32 }
    requires fits { hashed_message_len hash.old + 4 + length text.now < 2 ^ 64 }
    ensures handed { IsHandedNext (with_length text.now) hash.old hash.new }
{
    update_hash_with_number(hash, text.len() as u32);
    hash.update(text);
}

/// H0, 64 bytes (step 1).
pub(crate) fn first_hash(params: &Params, inputs: &Inputs<'_>) -> [u8; 64]
    requires in_range { IsInRangeWithAnyPassword params.now }
    requires inputs { InputsFitParameters params.now (inputs_of inputs.now) }
    ensures value { result ≡ first_hash params.now (inputs_of inputs.now) }
{
    let mut hash = Blake2b::new(64);
    update_hash_with_number(&mut hash, params.lanes());
    update_hash_with_number(&mut hash, params.tag_len() as u32);
    update_hash_with_number(&mut hash, params.memory_kib());
    update_hash_with_number(&mut hash, params.passes());
    update_hash_with_number(&mut hash, params.version());
    update_hash_with_number(&mut hash, params.kind().number());
    update_hash_with_length(&mut hash, inputs.password);
    update_hash_with_length(&mut hash, inputs.salt);
    update_hash_with_length(&mut hash, inputs.secret);
    update_hash_with_length(&mut hash, inputs.associated);
    let mut h0 = [0; 64];
    hash.finish(&mut h0);
    h0
}

// Makes a block of column 0 or 1 (steps 3 and 4).
fn put_block_from_h0(h0: &[u8; 64], column: u32, lane: u32, place: &mut Block)
    ensures value { place.new ≡ block_from_h0 h0.now column lane }
{
    let mut column_bytes = [0u8; 4];
    LittleEndian::write_u32(&mut column_bytes, column);
    let mut lane_bytes = [0u8; 4];
    LittleEndian::write_u32(&mut lane_bytes, lane);
    let mut bytes = [0u8; 1024];
    long_hash(&[&h0[..], &column_bytes[..], &lane_bytes[..]], &mut bytes);
    LittleEndian::read_u64_into(&bytes, place);
}

/// Makes the first two columns (steps 3 and 4).
pub(crate) fn fill_first_two_columns(blocks: &mut [Block], params: &Params, h0: &[u8; 64])
    requires size { length blocks.old ≡ block_count params.now }
    ensures size { length blocks.new ≡ length blocks.old }
    ensures newest { HoldsNewestBlocks params.now h0.now blocks.new (λ _. 2) }
{
    let lane_len = 4 * params.segment_len() as usize;
    for lane in 0..params.lanes() {
        let start = lane as usize * lane_len;
        put_block_from_h0(h0, 0, lane, &mut blocks[start]);
        put_block_from_h0(h0, 1, lane, &mut blocks[start + 1]);
    }
}
