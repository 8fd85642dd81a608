//! Runs of Argon2 as rows of text: type, passes, memory in KiB, lanes, and the tag in lower
//! hexadecimal. Tests assert how many rows are right; an `assert_eq!`, which prints it, is dearer to
//! prove. Each tag is made twice: slice by slice, and block by block with the lanes in some order.
ghost use Rattle.std.specs.Prelude.{◌≡◌, true};
ghost use Rattle.argon.specs.Inputs.{InputsFitParameters, inputs_of};
ghost use Rattle.argon.specs.Range.{is_version};

use super::orders::hash_by;
use argon::{Inputs, Kind, Lanes, Matrix, Params, Ticks};
use std::alloc::Global;
use std::str::SplitWhitespace;

/// An order of the lanes in which the second one, where there is one, is made first.
pub static SECOND_LANE_FIRST: [u32; 140] = [1; 140];

/// One run.
#[derive(Clone, Copy)]
pub struct Run<'a> {
    pub kind: Kind,
    pub passes: u32,
    pub memory_kib: u32,
    pub lanes: u32,
    pub tag: &'a str,
}

fn kind(word: &str) -> Kind {
    match word.as_bytes() {
        b"d" => Kind::D,
        b"i" => Kind::I,
        _ => Kind::Id,
    }
}

// The next word, as a number: 0, which no run has, where it is none.
fn number(words: &mut SplitWhitespace<'_>) -> u32 {
    match words.next() {
        Some(word) => word.parse::<u32>().unwrap_or(0),
        None => 0,
    }
}

/// The run of a row.
pub fn run_of(row: &str) -> Run<'_> {
    let mut words = row.split_whitespace();
    Run {
        kind: kind(words.next().unwrap_or("")),
        passes: number(&mut words),
        memory_kib: number(&mut words),
        lanes: number(&mut words),
        tag: words.next().unwrap_or(""),
    }
}

// Whether the text is the bytes in lower hexadecimal.
pub fn is_hex_of(text: &str, bytes: &[u8]) -> bool {
    let digits = b"0123456789abcdef";
    let mut rest = text.as_bytes();
    for byte in bytes {
        let [high, low, after @ ..] = rest else {
            return false;
        };
        if *high != digits[(*byte / 16) as usize] || *low != digits[(*byte % 16) as usize] {
            return false;
        }
        rest = after;
    }
    rest.is_empty()
}

// Whether the tag of the inputs, made slice by slice, is this one in lower hexadecimal.
fn is_tag(alloc: Global, params: &Params, inputs: &Inputs<'_>, tag: &str) -> bool
    requires inputs { InputsFitParameters params.now (inputs_of inputs.now) }
{
    let Ok(mut matrix) = Matrix::reserve(alloc, params) else {
        return false;
    };
    let mut found = [0; 4096];
    let out = &mut found[..params.tag_len()];
    matrix.hash(inputs, out, &mut Ticks::new(alloc));
    is_hex_of(tag, out)
}

// The same of the tag that is made with the lanes in that order.
fn is_tag_by(alloc: Global, params: &Params, inputs: &Inputs<'_>, order: &[u32], tag: &str) -> bool
    requires inputs { InputsFitParameters params.now (inputs_of inputs.now) }
{
    match (
        Matrix::reserve(alloc, params),
        Lanes::reserve(alloc, params),
    ) {
        (Ok(matrix), Ok(lanes)) => {
            let mut found = [0; 4096];
            let out = &mut found[..params.tag_len()];
            hash_by(
                matrix,
                lanes,
                params,
                inputs,
                order,
                out,
                &mut Ticks::new(alloc),
            );
            is_hex_of(tag, out)
        }
        _ => false,
    }
}

// Whether the tag of the inputs is that of the row. False where secret or data are long.
fn has_tag(alloc: Global, version: u32, inputs: &Inputs<'_>, order: &[u32], row: &str) -> bool
    requires version { is_version version ≡ true }
{
    let run = run_of(row);
    let params = Params::with_any_password_length(
        run.kind,
        version,
        run.passes,
        run.lanes,
        run.memory_kib,
        run.tag.len() / 2,
        inputs.salt.len(),
        inputs.password.len(),
    );
    let are_short = inputs.secret.len() < 1000 && inputs.associated.len() < 1000;
    match params {
        Ok(params) if are_short => {
            is_tag(alloc, &params, inputs, run.tag)
                && is_tag_by(alloc, &params, inputs, order, run.tag)
        }
        _ => false,
    }
}

/// How many rows, from the first on, have the tag of the inputs, with the lanes in that order too.
pub fn right_rows_by(
    alloc: Global,
    version: u32,
    inputs: &Inputs<'_>,
    order: &[u32],
    rows: &str,
) -> u32
    requires version { is_version version ≡ true }
{
    let mut right = 0u32;
    for row in rows.lines() {
        if !has_tag(alloc, version, inputs, order, row) {
            return right;
        }
        right = right.wrapping_add(1);
    }
    right
}

/// The same of a password and a salt alone, with the second lane first.
pub fn right_rows(alloc: Global, version: u32, password: &[u8], salt: &[u8], rows: &str) -> u32
    requires version { is_version version ≡ true }
{
    let inputs = Inputs {
        password,
        salt,
        secret: &[],
        associated: &[],
    };
    right_rows_by(alloc, version, &inputs, &SECOND_LANE_FIRST, rows)
}
