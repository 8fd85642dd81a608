//! By the crate that they are of.
mod of_argon2_command;
mod of_argon2_verify;
mod of_host;
mod of_scrypt_command;
