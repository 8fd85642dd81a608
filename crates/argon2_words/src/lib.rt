//! The words of `argon2`: what they ask for, or the first refusal that they meet. The ranges of the hash's parameters
//! are not tested here.
#![tactic(auto)]

mod items;
mod laws;
mod refusal;
mod request;
mod settings;
mod vectors;

pub use items::Form;
pub use refusal::Argon2Refusal;
pub use request::{Request, read_request};
pub use settings::{Settings, Version};
