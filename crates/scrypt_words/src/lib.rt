//! The words of `scrypt`: what they ask for, or the first refusal that they meet. No file is opened and no costs are
//! held against limits here.
#![tactic(auto)]

mod command_line;
mod costs;
mod request;
mod salt;
mod task;
mod vectors;
mod words;

pub use request::read_request;
pub use scrypt_request::{Request, ScryptRefusal};
