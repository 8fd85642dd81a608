//! A file in pieces: what the caller keeps between calls.
ghost use Rattle.std.specs.Prelude.{◌≡◌, ◌≢◌, Option, Some, None, is_some, replicate, true};
ghost use Rattle.pikhsen_c.specs.Inside.StreamState.{MayRun, is_decryption, is_encryption, kept_state_satisfies};
ghost use Rattle.pikhsen_c.specs.declared.stream.StreamState.{StreamState};

use crate::status::OUT_OF_MEMORY;
use crate::wiping::are_zeros;
use encfile::{Dec, Enc};
use std::alloc::Global;
use std::marker::Model;

/// A running encryption or decryption; or zeros in its place, with the number 0 before them that the first has.
#[derive(Drop)]
pub enum StreamState {
    Over([u64; 311]),
    Enc(Enc),
    Dec(Dec),
}

const _: () = prove!(size_of::<StreamState>() == 2496);

impl StreamState {
    ghost use Rattle.pikhsen_c.specs.declared.stream.StreamState.TheVariants.{Over};

    /// What runs in the box. Zeros are put in its place.
    pub(crate) fn take_out_of_box(boxed: &mut Box<StreamState, Global>) -> StreamState
        ensures same { result ≡ boxed.old.value }
        ensures zeros { boxed.new.value ≡ Over (replicate 311 0) }
    {
        Box::replace(boxed, StreamState::Over([0; 311]))
    }

    /// Frees a box of zeros, and hands an answer on. No contract sees memory that is free, and the compiler may leave
    /// out a write that nothing reads. So the zeros are read again, and the answer hangs on them, as that of `wipe_stack`
    /// does.
    #[inline(never)]
    pub(crate) fn free(boxed: Box<StreamState, Global>, told: u32) -> u32
        requires zeros { boxed.value ≡ Over (replicate 311 0) }
        ensures same { result ≡ told }
    {
        let is_wiped = match &*boxed {
            StreamState::Over(words) => are_zeros(words),
            _ => false,
        };
        drop(boxed);
        if is_wiped { told } else { OUT_OF_MEMORY }
    }
}

/// A box with a running encryption or decryption, as its pointer; or nothing, whatever the pointer. A box cannot cross
/// to C, and this can. Its two calls are proved by hand.
#[repr(C)]
#[derive(Drop)]
pub struct StreamBox {
    at: *mut (),
    ghost value: { Option StreamState },
}

impl Model for StreamBox {
    ghost use Rattle.pikhsen_c.specs.StreamBox.{owns_optional_box};
    ghost use Rattle.pikhsen_c.specs.contracts.stream.StreamState.{the_row};

    ghost also_owns = { λ kept. owns_optional_box the_row kept.at kept.value };
}

impl StreamBox {
    // The box, as its pointer.
    fn of(boxed: Box<StreamState, Global>) -> StreamBox
        ensures value { result.value ≡ Some boxed.value }
    {
        let at = Box::into_raw(boxed) as *mut ();
        StreamBox { at }
    }

    /// The box again. Nothing is left.
    pub(crate) fn take(&mut self, alloc: Global) -> Box<StreamState, Global>
        requires full { is_some self.old.value ≡ true }
        ensures value { self.old.value ≡ Some result.value }
        ensures empty { self.new.value ≡ None }
    {
        unsafe { Box::from_raw(alloc, self.at as *mut StreamState) }
    }
}

/// What runs.
pub(crate) const STREAM_ENCRYPTS: u8 = 1;

pub(crate) const STREAM_DECRYPTS: u8 = 2;

/// What C keeps between the calls for a file in pieces: which of the two runs, or 0, and its box; where none runs, nothing.
#[repr(C)]
#[derive(Drop)]
pub struct PikhsenStream {
    pub(crate) runs: u8,
    pub(crate) kept: StreamBox,
    ghost encryption: { runs ≡ 1 → kept_state_satisfies is_encryption kept.value ≡ true },
    ghost decryption: { runs ≡ 2 → kept_state_satisfies is_decryption kept.value ≡ true },
    ghost idle: { runs ≢ 1 → runs ≢ 2 → kept.value ≡ None },
}

impl PikhsenStream {
    /// Lets this run in a stream that keeps nothing, so that no block is lost.
    pub(crate) fn begin(&mut self, runs: u8, boxed: Box<StreamState, Global>)
        requires ok { MayRun self.old.kept.value runs boxed.value }
        ensures runs { self.new.runs ≡ runs }
        ensures kept { self.new.kept.value ≡ Some boxed.value }
    {
        self.kept = StreamBox::of(boxed);
        self.runs = runs;
    }
}
