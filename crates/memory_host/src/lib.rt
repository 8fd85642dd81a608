//! A host in memory, for tests and for programs that keep all bytes themselves: its bytes, names and lines are
//! values, it takes and gives bytes in pieces of given sizes, and it fails at a given call.
#![tactic(auto)]

mod growth_memory;
mod memory;
mod named_secret;
mod vectors;

pub use growth_memory::GrowthMemory;
pub use memory::MemoryHost;
pub use named_secret::NamedSecret;
