//! What a run of `scrypt` is asked for.
use host::Source;
use romix::{Costs, Limits};

/// What `enc` and `dec` both ask for.
#[derive(Clone, Copy)]
pub struct Task<'a> {
    /// `-M`, 1 to 2^40 bytes, and `--maxops`, 1 to 2^63-1 cores.
    pub limits: Limits,
    /// `--keep`: of the rows of the table those are kept whose number it divides. It is a power of
    /// two from 1 to 1,024; with 1 the table is whole.
    pub keep: u64,
    /// Where the passphrase comes from.
    pub source: Source<'a>,
    /// The input's name; `None` is standard input.
    pub infile: Option<&'a str>,
    /// The output's name; `None` is standard output.
    pub outfile: Option<&'a str>,
}

/// What `enc` asks for.
#[derive(Clone, Copy)]
pub struct Encryption<'a> {
    /// The costs of the new file.
    pub costs: Costs,
    /// The salt of the new file; `None` is the host's.
    pub salt: Option<[u8; 32]>,
    /// Limits, source and files.
    pub task: Task<'a>,
}

/// What a run is asked for.
#[derive(Clone, Copy)]
pub enum Request<'a> {
    /// `enc`: to encrypt the input.
    Encrypt(Encryption<'a>),
    /// `dec`: to decrypt the input.
    Decrypt(Task<'a>),
    /// `info`: to show the costs of the input of this name; `None` is standard input.
    Inspect(Option<&'a str>),
}
