//! The calls of the system: [`Real`], the system of a process. Contracts see none of its bytes, so nothing else stands
//! in this crate: it and one line of each `main` are all that is trusted of the programs' sources, beside the definitions.
#![tactic(auto)]

mod closed_stream_placeholders;
mod identity;
mod real;

pub use real::Real;
