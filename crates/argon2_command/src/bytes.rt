//! Bytes of which there stay as many as there are.
ghost use Rattle.std.specs.Borrow.{sem};
ghost use Rattle.std.specs.Prelude.{◌≡◌, IfOk, length, vec_len};
ghost use Rattle.argon2_command.specs.Inside.Bytes.{LendsMutableBytes};

use std::alloc::{AllocError, Global};

/// Bytes that a source of memory gave. Their number stays as it is, and the heap that they are from
/// is out of reach: who has them can take no memory by them.
#[derive(Drop)]
pub struct Bytes {
    list: Vec<u8>,
}

impl Bytes {
    /// The bytes of a list.
    pub(crate) fn new(list: Vec<u8>) -> Bytes
        ensures list { result.list ≡ list }
    {
        Bytes { list }
    }

    /// So many bytes of zero.
    pub(crate) fn zeros(alloc: Global, count: usize) -> Result<Bytes, AllocError>
        ensures size { IfOk result (λ bytes. length bytes.list.items ≡ count) }
    {
        Ok(Bytes::new(vec![in alloc; 0; count]?))
    }

    /// The bytes.
    pub(crate) fn as_slice(&self) -> &[u8]
        ensures value { result.now ≡ self.now.list.items }
    {
        self.list.as_slice()
    }

    /// The bytes, to be written: as many as before.
    pub(crate) fn as_mut_slice(&mut self) -> &mut [u8]
        ensures* writes_back { sem 𝓛 (LendsMutableBytes self.entry result) }
        ensures value { result.now ≡ self.old.list.items }
        ensures len { length result.now ≡ vec_len self.old.list }
    {
        self.list.as_mut_slice()
    }
}
