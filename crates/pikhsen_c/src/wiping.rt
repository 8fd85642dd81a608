//! What a call leaves on the stack and in vector registers: keys, and what they are made of.
ghost use Rattle.std.specs.Prelude.{◌≡◌, true, length, replicate};

use crate::machine::Machine;
use crate::status::OUT_OF_MEMORY;
use std::simd::u64x64;

/// What a function for C returns: its number, which is all that C sees, and the machine that it was handed. `wipe_stack`
/// alone makes one.
#[repr(C)]
#[derive(Drop)]
pub struct Answer {
    status: u32,
    machine: Machine,
}

/// Puts zeros where the frames of a call were that has returned, and hands its answer on. No contract sees these
/// bytes, and the compiler may leave out a write that nothing reads. So they are read again, and the answer hangs on
/// it: want of memory is told if one is not 0, which is proved never to be. tests/library/c_face.py looks at the
/// stack of a program.
#[inline(never)]
pub(crate) fn wipe_stack(told: u32, machine: Machine) -> Answer
    ensures same { result.status ≡ told }
    ensures machine { result.machine ≡ machine }
{
    let mut room = [u64::MAX; 4096];
    let status = if wipe(&mut room) { told } else { OUT_OF_MEMORY };
    Answer { status, machine }
}

// Puts zeros over the words, and answers whether all of them are there. On the way vector registers are filled with
// zeros, too, in the place of what the call left in them. No contract sees that: tests/library/c_face.py looks at them.
#[inline(never)]
fn wipe(room: &mut [u64]) -> bool
    ensures zeros { room.new ≡ replicate (length room.old) 0 }
    ensures wiped { result ≡ true }
{
    room.fill(0);
    wipe_vector_registers(room);
    are_zeros(room)
}

// Copies zeros over zeros: a 32nd part, which is 1 KiB of the room above. Where the processor has AVX-512, glibc copies
// by the vector registers ymm16 to ymm24, which no code that is compiled from here uses, and which held 32 bytes of a
// key after a call. A copy of 1 KiB writes all of them. A shorter one writes fewer, and a longer one may be made by a
// string instruction, which writes none.
#[inline(never)]
fn wipe_vector_registers(words: &mut [u64])
    ensures zeros { words.old ≡ replicate (length words.old) 0 → words.new ≡ words.old }
{
    let part = words.len() / 32;
    let (first, others) = words.split_at_mut(part);
    first.copy_from_slice(&others[..part]);
}

// Whether all words are 0. They are gathered in one vector of 512 bytes, as much as the sixteen vector registers of
// x86-64-v3 hold, and twice what those of x86-64-v2 do. So the compiled code writes each of them, and zeros at the end.
#[inline(never)]
pub(crate) fn are_zeros(words: &[u64]) -> bool
    ensures zeros { words.now ≡ replicate (length words.now) 0 → result ≡ true }
{
    let (blocks, rest) = words.as_chunks::<64>();
    let mut found = u64x64::splat(0);
    for block in blocks {
        found |= u64x64::from_array(*block);
    }
    rest.iter().all(|word| *word == 0) && found.reduce_or() == 0
}
