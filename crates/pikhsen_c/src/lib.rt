//! Hashes, keys and encrypted files for programs in C: each function here is a call of a library below, by
//! numbers and bytes. include/pikhsen.h describes them for C.
//!
//! Each answers a number of `status`: 0 where it did what it says, and otherwise why not. All memory that
//! a call takes is freed before it answers. They are tested from C and from Python, by tests/library/c_face.py.
#![tactic(auto)]

mod argon2;
mod call_memory;
mod encoded;
mod file;
mod heap;
mod machine;
mod message;
mod reading;
mod scrypt;
mod settings;
mod status;
mod stream;
mod streaming;
mod text;
mod vectors;
mod verifying;
mod version;
mod wiping;

pub use argon2::pikhsen_argon2_hash;
pub use encoded::{pikhsen_argon2_encoded, pikhsen_argon2_encoded_keyed};
pub use file::{
    PikhsenScryptCosts, pikhsen_scrypt_decrypt, pikhsen_scrypt_encrypt,
    pikhsen_scrypt_encrypt_in_place, pikhsen_scrypt_info,
};
pub use heap::Heap;
pub use machine::Machine;
pub use message::pikhsen_message;
pub use scrypt::pikhsen_scrypt;
pub use settings::{PikhsenArgon2Settings, pikhsen_argon2_needs_rehash, pikhsen_argon2_settings};
pub use stream::{PikhsenStream, StreamBox, StreamState};
pub use streaming::{
    pikhsen_scrypt_decrypt_feed, pikhsen_scrypt_decrypt_finish, pikhsen_scrypt_decrypt_start,
    pikhsen_scrypt_encrypt_feed, pikhsen_scrypt_encrypt_finish, pikhsen_scrypt_encrypt_start,
    pikhsen_stream_free,
};
pub use verifying::{pikhsen_argon2_verify, pikhsen_argon2_verify_keyed};
pub use version::pikhsen_version;
pub use wiping::Answer;
