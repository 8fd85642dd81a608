//! Each step of a host over a system, over systems in memory; and whole runs of it.
mod arguments;
mod inputs;
mod of_argon2_verify;
mod outputs;
mod run;
mod streams;
mod system_host;
mod system_in_memory;
