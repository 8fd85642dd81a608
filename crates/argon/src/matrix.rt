//! The matrix B (RFC 9106, section 3.2), in one buffer that later passes overwrite.
ghost use Rattle.std.specs.Prelude.{◌≡◌, ◌+◌, ◌*◌, ◌/◌, ◌%◌, true, ◌↔◌, is_ok, length, IfOk, IsSome};
ghost use Rattle.argon.specs.Argon2.{first_hash, tag_by_first_hash};
ghost use Rattle.argon.specs.Counts.{slice_work, work};
ghost use Rattle.argon.specs.Filling.{HasSliceLeft, IsDone, IsNewest, IsUnstarted, next_slice};
ghost use Rattle.argon.specs.Hashing.{HashesInto};
ghost use Rattle.argon.specs.Inputs.{InputsFitParameters, inputs_of};
ghost use Rattle.argon.specs.Parameters.{block_count};
ghost use Rattle.argon.specs.Woven.{with_next_slice};

use crate::block::Block;
use crate::blocks::Blocks;
use crate::first_columns::{fill_first_two_columns, first_hash};
use crate::inputs::Inputs;
use crate::matrix_memory::MatrixMemory;
use crate::params::Params;
use crate::segment::fill_slice;
use crate::tag::{write_tag, xor_last_column};
use crate::ticks::Ticks;
use crate::wiped_blocks::WipedBlocks;
use std::alloc::{AllocError, Global};
use std::marker::Model;

/// The memory of a hash: m' blocks of 1,024 bytes (RFC 9106, section 3.2). It serves any number of
/// hashes with its parameters, one after another.
///
/// Contracts see its parameters, whether it was started and with which H0, how many slices of all
/// passes are made, and its blocks, lane after lane. Once it was started, every place holds the
/// newest version of its block, where one exists.
#[derive(Drop)]
pub struct Matrix {
    pub(crate) params: Params,
    pub(crate) h0: [u8; 64],
    pub(crate) is_started: bool,
    pub(crate) slices_made: u64,
    pub(crate) blocks: Blocks,
}

impl Model for Matrix {
    ghost use Rattle.argon.specs.Matrix.{Filling, filling_state_of_matrix, IsArgon2Matrix};

    ghost Value = { Filling };

    ghost view = { filling_state_of_matrix };

    ghost invariant = { IsArgon2Matrix };
}

/// Takes the memory of a hash with these parameters from a source of your own: m' blocks of 1,024 bytes (RFC 9106, section
/// 3.2, step 2), in one request. `AllocError` where it is refused, and then nothing is held. The matrix is not started,
/// whatever stands in the blocks.
pub fn reserve_from<R: MatrixMemory>(memory: &mut R, params: &Params) -> Result<Matrix, AllocError>
    ensures asked { memory.new ≡ R.after_blocks memory.old (block_count params.now) (is_ok result) }
    ensures parameters { IfOk result (λ matrix. matrix.parameters ≡ params.now) }
    ensures unstarted { IfOk result (IsUnstarted params.now) }
{
    let blocks = memory.blocks(params.blocks() as usize)?;
    Ok(Matrix {
        params: params.copied(),
        h0: [0; 64],
        is_started: false,
        slices_made: 0,
        blocks: Blocks {
            held: WipedBlocks::new(blocks),
        },
    })
}

impl Matrix {
    /// Takes the memory of a hash with these parameters: m' blocks of 1,024 bytes, in one request.
    /// `AllocError` where it is refused, and then nothing is held.
    pub fn reserve(alloc: Global, params: &Params) -> Result<Matrix, AllocError>
        ensures parameters { IfOk result (λ matrix. matrix.parameters ≡ params.now) }
        ensures unstarted { IfOk result (IsUnstarted params.now) }
    {
        let mut memory = alloc;
        reserve_from(&mut memory, params)
    }

    /// Computes H0 and the first two columns (RFC 9106, section 3.2, steps 1, 3 and 4). What was
    /// made before is given up, and pass 0, slice 0 comes next.
    pub fn start(&mut self, inputs: &Inputs<'_>)
        requires inputs { InputsFitParameters self.old.parameters (inputs_of inputs.now) }
        ensures parameters { self.new.parameters ≡ self.old.parameters }
        ensures started { self.new.is_started ≡ true }
        ensures first_hash { self.new.first_hash
            ≡ first_hash self.old.parameters (inputs_of inputs.now) }
        ensures position { self.new.slices_made ≡ 0 }
        ensures newest { IsNewest self.new }
        ensures size { length self.new.blocks ≡ length self.old.blocks }
    {
        self.h0 = first_hash(&self.params, inputs);
        fill_first_two_columns(self.blocks.held.blocks_mut(), &self.params, &self.h0);
        self.slices_made = 0;
        self.is_started = true;
    }

    /// The pass, 0 to t-1, and the slice, 0 to 3, that come next. None where all are made, or
    /// `start` wasn't called.
    pub fn next(&self) -> Option<(u32, u32)>
        ensures value { result ≡ next_slice self.now }
        ensures left { IsSome result ↔ HasSliceLeft self.now }
    {
        if self.is_started && self.slices_made < 4 * self.params.passes() as u64 {
            Some(((self.slices_made / 4) as u32, (self.slices_made % 4) as u32))
        } else {
            None
        }
    }

    /// Makes the blocks of the next slice, lane by lane (RFC 9106, section 3.2, steps 5 and 6). Every other place of the
    /// matrix stays as it was.
    pub fn slice(&mut self, ticks: &mut Ticks)
        requires next { HasSliceLeft self.old }
        ensures matrix { self.new ≡ with_next_slice self.old }
        ensures position { self.new.slices_made ≡ self.old.slices_made + 1 }
        ensures newest { IsNewest self.new }
        ensures size { length self.new.blocks ≡ length self.old.blocks }
        ensures count { ticks.new
            ≡ ticks.old + slice_work self.old.parameters (self.old.slices_made / 4)
            (self.old.slices_made % 4) }
    {
        let pass = (self.slices_made / 4) as u32;
        let slice = (self.slices_made % 4) as u32;
        fill_slice(
            self.blocks.held.blocks_mut(),
            &self.params,
            pass,
            slice,
            ticks,
        );
        self.slices_made += 1;
    }

    /// The blocks B\[i\]\[j\] (RFC 9106, section 3.2), lane after lane: m' of them, of which the block of column j of lane
    /// i is at the place i * (m'/p) + j. They are as secret as the password: the tag can be computed from them, and a guess
    /// be tested against the first of them.
    pub fn as_blocks(&self) -> &[Block]
        ensures value { result.now ≡ self.now.blocks }
    {
        self.blocks.held.blocks()
    }

    /// Writes the tag of a matrix whose slices are all made (RFC 9106, section 3.2, steps 7 and 8).
    /// `out` has the tag's length, in bytes.
    pub fn tag(&self, out: &mut [u8])
        requires done { IsDone self.now }
        requires len { length out.old ≡ self.now.parameters.tag_len }
        ensures tag { out.new ≡ tag_by_first_hash self.now.parameters self.now.first_hash }
    {
        let last = xor_last_column(
            self.blocks.held.blocks(),
            self.params.lanes(),
            4 * self.params.segment_len(),
        );
        write_tag(&last, out);
    }

    /// Writes the tag of the inputs: `start`, every slice, `tag`. `out` has the tag's length, in
    /// bytes. It takes as many block functions as `Params::work` says.
    pub fn hash(&mut self, inputs: &Inputs<'_>, out: &mut [u8], ticks: &mut Ticks)
        requires inputs { InputsFitParameters self.old.parameters (inputs_of inputs.now) }
        requires len { length out.old ≡ self.old.parameters.tag_len }
        ensures hashed { HashesInto (inputs_of inputs.now) self.old self.new out.new }
        ensures count { ticks.new ≡ ticks.old + work self.old.parameters }
    {
        self.start(inputs);
        for _ in 0..4 * self.params.passes() as u64 {
            self.slice(ticks);
        }
        self.tag(out);
    }
}
