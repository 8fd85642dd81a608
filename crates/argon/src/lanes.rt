//! What each lane holds beside the matrix while a slice is made by lanes in any order.
ghost use Rattle.std.specs.Prelude.{◌≡◌, ◌⊎◌, false, true, IfOk, OnErr, OnOk};

use crate::blocks::Blocks;
use crate::matrix_memory::MatrixMemory;
use crate::numbers::GrantedNumbers;
use crate::params::Params;
use crate::wiped_blocks::WipedBlocks;
use std::alloc::{AllocError, Global};
use std::marker::Model;

/// A column and an address block of 1,024 bytes for each lane, with which a
/// [`Weave`](crate::Weave) makes a slice. It serves any number of slices of its parameters, one
/// after another. Contracts see its parameters.
#[derive(Drop)]
pub struct Lanes {
    pub(crate) params: Params,
    // How many blocks of the slice each lane has still to make: none, between two slices.
    pub(crate) left: GrantedNumbers,
    // The address block that the words J of each lane stand in, where the addressing is
    // independent.
    pub(crate) addresses: Blocks,
}

impl Model for Lanes {
    ghost use Rattle.argon.specs.Parameters.{Parameters};

    ghost Value = { Parameters };

    ghost use Rattle.argon.specs.Lanes.{AreLanesWithNoBlocksLeft};

    ghost view = { λ lanes. lanes.params };

    ghost invariant = { AreLanesWithNoBlocksLeft };
}

/// Takes the memory for the lanes of these parameters from a source of your own: a number of four bytes for each, and then
/// a block of 1,024 bytes for each, unless the first request is refused. `AllocError` where one is refused, and then
/// nothing is held.
pub fn reserve_from<R: MatrixMemory>(memory: &mut R, params: &Params) -> Result<Lanes, AllocError>
    ensures parameters { IfOk result (λ lanes. lanes ≡ params.now) }
    ensures asked { OnOk result (memory.new
        ≡ R.after_blocks (R.after_numbers memory.old params.now.lanes true) params.now.lanes true) }
    ensures refused { OnErr result ((memory.new ≡ R.after_numbers memory.old params.now.lanes false)
        ⊎ (memory.new ≡ R.after_blocks (R.after_numbers memory.old params.now.lanes true) params.now.lanes false)) }
{
    let count = params.lanes() as usize;
    let mut left = memory.numbers(count)?;
    let held = WipedBlocks::new(memory.blocks(count)?);
    left.fill(0);
    Ok(Lanes {
        params: params.copied(),
        left,
        addresses: Blocks { held },
    })
}

impl Lanes {
    /// Takes the memory for the lanes of these parameters: for each a number of four bytes and a
    /// block of 1,024 bytes, in two requests. `AllocError` where one is refused, and then nothing is
    /// held.
    pub fn reserve(alloc: Global, params: &Params) -> Result<Lanes, AllocError>
        ensures parameters { IfOk result (λ lanes. lanes ≡ params.now) }
    {
        let mut memory = alloc;
        reserve_from(&mut memory, params)
    }
}
