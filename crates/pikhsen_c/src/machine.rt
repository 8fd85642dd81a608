//! What a call is handed of the machine that it runs on, and hands back.
use crate::heap::Heap;

/// The heap, and how many block functions of Argon2 and cores of scrypt were run with these counters. It takes no
/// bytes, so C passes nothing for it and gets nothing back. No code makes one.
#[repr(C)]
#[derive(Drop)]
pub struct Machine {
    pub(crate) heap: Heap,
    pub(crate) blocks: argon::Ticks,
    pub(crate) cores: romix::Ticks,
}

const _: () = prove!(size_of::<Machine>() == 0);
