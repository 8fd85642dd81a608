//! The heap of the program that calls, as the functions for C have it: contracts see what was asked of it.
ghost use Rattle.std.specs.Prelude.{◌≡◌, length, IfOk, Some, is_ok};
ghost use Rattle.argon.specs.Range.{IsInRangeWithAnyPassword};
ghost use Rattle.pikhsen_c.specs.Argon2.{encoded_text_with_zero_tag};
ghost use Rattle.pikhsen_c.specs.Heap.{after_matrix_request, after_state_request, after_text_request, after_workspace_request, after_reading_request, one_more};
ghost use Rattle.pikhsen_c.specs.Inside.Stream.{KeepsState};
ghost use Rattle.pikhsen_c.specs.Stream.{IsOver};

use crate::call_memory::CallMemory;
use crate::reading::Reading;
use crate::stream::{PikhsenStream, StreamState};
use crate::text::Text;
use argon::{Matrix, Params};
use argon_text::{Encoded, HashMemory, ReadFault};
use counter::Count;
use romix::{Sparse, Workspace};
use std::alloc::{AllocError, Global};

/// How many requests of one kind were granted and refused.
#[repr(C)]
#[derive(Drop)]
pub struct RequestCounts {
    granted: Count,
    refused: Count,
}

/// The heap, and how many requests of each kind it granted and refused, each call of `HashMemory` and `CallMemory` being one. It
/// takes no bytes. No code but this file makes one, or takes the allocator out of it.
#[repr(C)]
#[derive(Drop)]
pub struct Heap {
    alloc: Global,
    matrices: RequestCounts,
    texts: RequestCounts,
    workspaces: RequestCounts,
    readings: RequestCounts,
    states: RequestCounts,
}

impl RequestCounts {
    // Counts one request.
    fn count(&mut self, granted: bool)
        ensures counted { self.new ≡ one_more self.old granted }
    {
        if granted {
            self.granted.plus_one();
        } else {
            self.refused.plus_one();
        }
    }
}

impl Heap {
    /// Takes the block of a stream, with zeros in it.
    pub(crate) fn block(&mut self) -> Result<Box<StreamState, Global>, AllocError>
        ensures asked { self.new ≡ after_state_request self.old (is_ok result) }
    {
        let block = Box::new(self.alloc, StreamState::Over([0; 311]));
        self.states.count(block.is_ok());
        match block {
            Ok(block) => Ok(block),
            Err(_) => Err(AllocError),
        }
    }

    /// What a stream keeps, which does not run any more.
    pub(crate) fn take(&self, stream: &mut PikhsenStream) -> Box<StreamState, Global>
        requires full { KeepsState stream.old }
        ensures kept { stream.old.kept.value ≡ Some result.value }
        ensures over { IsOver stream.new }
    {
        stream.runs = 0;
        stream.kept.take(self.alloc)
    }
}

impl HashMemory for Heap {
    ghost after_matrix = { λ heap _ _ _ granted. after_matrix_request heap granted };

    fn matrix(&mut self, params: &Params, _: u32, _: u64) -> Result<Matrix, AllocError> {
        let matrix = Matrix::reserve(self.alloc, params);
        self.matrices.count(matrix.is_ok());
        matrix
    }
}

impl CallMemory for Heap {
    ghost after_text = { λ heap _ _ granted. after_text_request heap granted };

    ghost after_workspace = { λ heap _ _ _ granted. after_workspace_request heap granted };

    ghost after_reading = { λ heap _ granted. after_reading_request heap granted };

    fn text(&mut self, params: &Params, salt: &[u8]) -> Result<Text, AllocError> {
        let text = encoded_text_with_zero_tag(self.alloc, params, salt);
        self.texts.count(text.is_ok());
        text
    }

    fn workspace(&mut self, sparse: &Sparse, _: u64, _: u64) -> Result<Workspace, AllocError> {
        let workspace = Workspace::reserve(self.alloc, sparse);
        self.workspaces.count(workspace.is_ok());
        workspace
    }

    fn read(&mut self, text: &[u8]) -> Result<Reading, ReadFault> {
        let read = Encoded::read(self.alloc, text);
        self.readings
            .count(!matches!(&read, Err(ReadFault::OutOfMemory)));
        match read {
            Ok(encoded) => Ok(Reading::new(encoded)),
            Err(fault) => Err(fault),
        }
    }
}

// The text that has zeros for a tag.
fn encoded_text_with_zero_tag(
    alloc: Global,
    params: &Params,
    salt: &[u8],
) -> Result<Text, AllocError>
    requires in_range { IsInRangeWithAnyPassword params.now }
    requires salt { length salt.now ≡ params.now.salt_len }
    ensures text { IfOk result (λ text. text.list.items ≡ encoded_text_with_zero_tag params.now salt.now) }
{
    let encoded = Encoded {
        kind: params.kind(),
        version: params.version(),
        memory: params.memory_kib(),
        passes: params.passes(),
        lanes: params.lanes(),
        salt: salt.to_vec(alloc)?,
        tag: vec![in alloc; 0u8; params.tag_len()]?,
    };
    let mut text = Vec::new(alloc);
    encoded.write(&mut text)?;
    Ok(Text::new(text))
}
