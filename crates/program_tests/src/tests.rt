//! Whole runs of each program: for each way in which its contract says that one ends, a run that ends so.
mod of_argon2_program;
mod of_argon2_verify_program;
mod of_scrypt_program;
