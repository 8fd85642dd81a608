//! A system in memory, for tests and for programs that keep all bytes themselves: a host of `tools` runs over it as
//! over the system of a process.
#![tactic(auto)]

mod contents;
mod failure_counts;
mod memory_source;
mod system;
mod unbounded_count;
mod vectors;

pub use contents::{Contents, Identities};
pub use system::{IDENTITY_OF_CREATED_OUTPUT, MemorySystem};
