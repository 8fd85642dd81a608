//! What a run of `scrypt` is asked for, and how it may be refused: what the words and the run have in common.
#![tactic(auto)]

mod refusal;
mod request;
mod vectors;

pub use refusal::ScryptRefusal;
pub use request::{Encryption, Request, Task};
