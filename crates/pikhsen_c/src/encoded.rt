//! Encoded texts of hashes by Argon2.
ghost use Rattle.std.specs.Prelude.{◌≡◌, ◌+◌, ◌<◌, [], length};
ghost use Rattle.pikhsen_c.specs.Argon2.{RefusesEncoding, parameters_of_numbers, work};
ghost use Rattle.pikhsen_c.specs.Heap.{CountsWorkOnce, RequestsMemoryForTextAndHash};
ghost use Rattle.pikhsen_c.specs.Inside.Settings.{HasRoomForTag, encoded_text_of, encoding_refusal, parameters_of};
ghost use Rattle.pikhsen_c.specs.Message.{IsWrittenAsCString};
ghost use Rattle.pikhsen_c.specs.Texts.{EncodesHash};

use crate::argon2::{Settings, checked_argon2_params};
use crate::call_memory::CallMemory;
use crate::machine::Machine;
use crate::status;
use crate::text::Text;
use crate::wiping::{Answer, wipe_stack};
use argon::{Inputs, Matrix, Ticks};

// Hashes, and writes the tag over the zeros of the text. It can ask for no memory.
fn hash_into(
    text: &mut Text,
    matrix: &mut Matrix,
    inputs: &Inputs<'_>,
    tag_len: usize,
    ticks: &mut Ticks,
)
    requires fits { HasRoomForTag text.old.list.items matrix.old.parameters inputs.now tag_len }
    ensures text { text.new.list.items ≡ encoded_text_of matrix.old.parameters inputs.now }
    ensures len { length text.new.list.items ≡ length text.old.list.items }
    ensures count { ticks.new ≡ ticks.old + work matrix.old.parameters }
{
    let mut longest = [0u8; 4096];
    let tag = &mut longest[..tag_len];
    matrix.hash(inputs, tag, ticks);
    text.put(tag);
}

/// Copies a text to the front, and a byte 0 after it.
pub(crate) fn copy_text(text: &[u8], out: &mut [u8])
    requires room { length text.now < length out.old }
    ensures written { IsWrittenAsCString text.now (length text.now) out.old out.new }
{
    out[..text.len()].copy_from_slice(text);
    out[text.len()] = 0;
}

/// The encoded text of a password's hash, with memory from `source`: for the text, and then for the matrix.
#[inline(never)]
pub(crate) fn encode_in<S: CallMemory>(
    source: &mut S,
    settings: &Settings,
    inputs: &Inputs<'_>,
    tag_len: usize,
    out: &mut [u8],
    text_len: &mut usize,
    ticks: &mut Ticks,
) -> u32
    ensures written { result ≡ 0 → IsWrittenAsCString (encoded_text_of (parameters_of settings.now tag_len inputs.now) inputs.now)
        text_len.new out.old out.new }
    ensures refusal { RefusesEncoding (parameters_of settings.now tag_len inputs.now) inputs.now.salt.now
        (length inputs.now.secret.now) (length inputs.now.associated.now)
        settings.now.limits.max_kib settings.now.limits.max_ops result text_len.new out.old out.new }
    // Nothing is asked of the source before settings, lengths and limits are tested. That the buffer is too small is
    // told after the text alone was asked for, and granted; otherwise the matrix alone, under the caller's own
    // limits.
    ensures asked { let parameters = parameters_of settings.now tag_len inputs.now in
        RequestsMemoryForTextAndHash (S.after_text source.old parameters inputs.now.salt.now)
        (λ source. S.after_matrix source parameters settings.now.limits.max_kib settings.now.limits.max_ops)
        (encoding_refusal settings.now tag_len inputs.now (length out.old)) result source.old source.new }
    ensures works { CountsWorkOnce (work (parameters_of settings.now tag_len inputs.now)) result ticks.old ticks.new }
{
    *text_len = 0;
    let params = match checked_argon2_params(settings, tag_len, inputs) {
        Ok(params) => params,
        Err(status) => return status,
    };
    let Ok(mut text) = source.text(&params, inputs.salt) else {
        return status::OUT_OF_MEMORY;
    };
    if out.len() <= text.as_slice().len() {
        return status::BUFFER;
    }
    let limits = &settings.limits;
    let Ok(mut matrix) = source.matrix(&params, limits.max_kib, limits.max_ops) else {
        return status::OUT_OF_MEMORY;
    };
    hash_into(&mut text, &mut matrix, inputs, tag_len, ticks);
    copy_text(text.as_slice(), out);
    *text_len = text.as_slice().len();
    status::OK
}

/// The encoded text of a password's hash at the front of `out`, and a byte 0 after it; its length, without
/// that byte, goes to `text_len`. There is no secret and no associated data.
#[unsafe(no_mangle)]
pub extern "C" fn pikhsen_argon2_encoded(
    machine: Machine,
    kind: u32,
    version: u32,
    passes: u32,
    memory_kib: u32,
    lanes: u32,
    password: &[u8],
    salt: &[u8],
    tag_len: usize,
    max_kib: u32,
    max_ops: u64,
    out: &mut [u8],
    text_len: &mut usize,
) -> Answer
    // Memory is asked for, and refused, only where settings, lengths and limits refuse nothing.
    ensures encodes { EncodesHash (parameters_of_numbers kind version passes lanes memory_kib tag_len
        (length salt.now) (length password.now)) password.now salt.now [] [] max_kib max_ops
        result.status text_len.new out.old out.new machine result.machine }
{
    pikhsen_argon2_encoded_keyed(
        machine,
        kind,
        version,
        passes,
        memory_kib,
        lanes,
        password,
        salt,
        &[],
        &[],
        tag_len,
        max_kib,
        max_ops,
        out,
        text_len,
    )
}

/// The encoded text of a password's hash with a secret value and associated data, as `pikhsen_argon2_encoded` gives it
/// without. The text holds neither.
#[unsafe(no_mangle)]
pub extern "C" fn pikhsen_argon2_encoded_keyed(
    machine: Machine,
    kind: u32,
    version: u32,
    passes: u32,
    memory_kib: u32,
    lanes: u32,
    password: &[u8],
    salt: &[u8],
    secret: &[u8],
    associated: &[u8],
    tag_len: usize,
    max_kib: u32,
    max_ops: u64,
    out: &mut [u8],
    text_len: &mut usize,
) -> Answer
    ensures encodes { EncodesHash (parameters_of_numbers kind version passes lanes memory_kib tag_len
        (length salt.now) (length password.now)) password.now salt.now secret.now associated.now max_kib max_ops
        result.status text_len.new out.old out.new machine result.machine }
{
    let mut machine = machine;
    let settings = Settings::new(kind, version, passes, memory_kib, lanes, max_kib, max_ops);
    let inputs = Inputs {
        password,
        salt,
        secret,
        associated,
    };
    let status = encode_in(
        &mut machine.heap,
        &settings,
        &inputs,
        tag_len,
        out,
        text_len,
        &mut machine.blocks,
    );
    wipe_stack(status, machine)
}
