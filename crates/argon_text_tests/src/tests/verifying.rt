//! Passwords against texts of the reference program, and the faults in their order.
use super::is_written_as;
use super::reference_texts::{KNOWN, ROWS};
use super::refusing::Refusing;
use argon::Ticks;
use argon_text::{Encoded, HashView, ReadFault, VerifyFault, verify, verify_keyed};
use std::alloc::Global;

// An answer as 0 or 1, and a fault by its number.
fn number_of(answer: Result<bool, VerifyFault>) -> u8 {
    match answer {
        Ok(same) => same as u8,
        Err(VerifyFault::PasswordLength) => 6,
        Err(VerifyFault::InputLength) => 12,
        Err(VerifyFault::MemoryLimit) => 7,
        Err(VerifyFault::WorkLimit) => 8,
        Err(VerifyFault::OutOfMemory) => 9,
    }
}

// What stands for the answer where a text is not read, or its value is written otherwise.
const UNREAD: u8 = 255;

// The number of what `verify` answers for a value, with the heap and a counter of its own.
fn tested(alloc: Global, value: &Encoded, password: &[u8], max_kib: u32, max_ops: u64) -> u8 {
    let (mut source, mut ticks) = (alloc, Ticks::new(alloc));
    let view = HashView::of(value);
    number_of(verify(&mut source, &view, password, max_kib, max_ops, &mut ticks))
}

/// The same for a text whose value is written as `whole`.
pub fn answered(
    alloc: Global,
    text: &[u8],
    whole: &[u8],
    password: &[u8],
    max_kib: u32,
    max_ops: u64,
) -> u8 {
    match Encoded::read(alloc, text) {
        Ok(value) => {
            if is_written_as(alloc, &value, whole) {
                tested(alloc, &value, password, max_kib, max_ops)
            } else {
                UNREAD
            }
        }
        Err(_) => UNREAD,
    }
}

// A password, limits and the answer for the known text.
struct Attempt {
    password: &'static [u8],
    max_kib: u32,
    max_ops: u64,
    expected: u8,
}

static ANSWERS: [Attempt; 9] = [
    Attempt {
        password: b"password",
        max_kib: 256,
        max_ops: 526,
        expected: 1,
    },
    Attempt {
        password: b"Password",
        max_kib: 256,
        max_ops: 526,
        expected: 0,
    },
    Attempt {
        password: b"passwor",
        max_kib: 256,
        max_ops: 526,
        expected: 0,
    },
    Attempt {
        password: b"password",
        max_kib: 255,
        max_ops: 525,
        expected: 7,
    },
    Attempt {
        password: b"password",
        max_kib: 256,
        max_ops: 525,
        expected: 8,
    },
    Attempt {
        password: b"",
        max_kib: 255,
        max_ops: 525,
        expected: 6,
    },
    Attempt {
        password: b"p",
        max_kib: 256,
        max_ops: 526,
        expected: 0,
    },
    Attempt {
        password: &[b'p'; 127],
        max_kib: 256,
        max_ops: 526,
        expected: 0,
    },
    Attempt {
        password: &[b'p'; 128],
        max_kib: 256,
        max_ops: 526,
        expected: 6,
    },
];

// Whether each row has its answer.
fn are_answered(alloc: Global) -> bool {
    for row in &ANSWERS {
        let (password, max_kib, max_ops) = (row.password, row.max_kib, row.max_ops);
        if answered(alloc, KNOWN, KNOWN, password, max_kib, max_ops) != row.expected {
            return false;
        }
    }
    true
}

#[test]
fn answers_in_their_order(rt: HostRuntime) {
    assert!(rt; are_answered(rt.alloc()));
}

/// Whether a text takes a password, and not another one, and its value is written as `whole`.
pub fn takes(alloc: Global, text: &[u8], whole: &[u8], password: &str) -> bool {
    answered(alloc, text, whole, password.as_bytes(), 256, 1000) == 1
        && answered(alloc, text, whole, b"Password", 256, 1000) == 0
}

// How many texts, from the first on, take their password alone.
fn right_texts(alloc: Global) -> u32 {
    let mut right = 0u32;
    for row in &ROWS {
        let text = row.text.as_bytes();
        if !takes(alloc, text, text, row.password) {
            return right;
        }
        right = right.wrapping_add(1);
    }
    right
}

#[test]
fn passwords_of_the_reference_program(rt: HostRuntime) {
    assert!(rt; right_texts(rt.alloc()) == 6);
}

// The inputs of `verify_keyed` beside a text, and its limits.
#[derive(Drop)]
struct Keyed<'a> {
    password: &'a [u8],
    secret: &'a [u8],
    associated: &'a [u8],
    max_kib: u32,
    max_ops: u64,
}

// The number of what `verify_keyed` answers for a value, with the heap and a counter of its own.
fn tested_keyed(alloc: Global, value: &Encoded, inputs: &Keyed<'_>) -> u8 {
    let (mut source, mut ticks) = (alloc, Ticks::new(alloc));
    number_of(verify_keyed(
        &mut source,
        &HashView::of(value),
        inputs.password,
        inputs.secret,
        inputs.associated,
        inputs.max_kib,
        inputs.max_ops,
        &mut ticks,
    ))
}

// The same for a text.
fn answered_keyed(alloc: Global, text: &[u8], inputs: &Keyed<'_>) -> u8 {
    match Encoded::read(alloc, text) {
        Ok(value) => tested_keyed(alloc, &value, inputs),
        Err(_) => UNREAD,
    }
}

// RFC 9106, 5.3, its salt and tag by base64(1): 32 bytes 1, 16 bytes 2, and a secret and data of 8 bytes 3 and 12 bytes 4.
const KEYED: &[u8] =
    b"$argon2id$v=19$m=32,t=3,p=4$AgICAgICAgICAgICAgICAg$DWQN9Y14dmwIwDejSotTydAe8EUtdbZetSUg6WsB5lk";

// Secret, data, the limit on memory and answer.
struct Secret {
    secret: &'static [u8],
    associated: &'static [u8],
    max_kib: u32,
    expected: u8,
}

static SECRETS: [Secret; 7] = [
    Secret {
        secret: &[3; 8],
        associated: &[4; 12],
        max_kib: 32,
        expected: 1,
    },
    Secret {
        secret: &[3; 8],
        associated: &[],
        max_kib: 32,
        expected: 0,
    },
    Secret {
        secret: &[],
        associated: &[4; 12],
        max_kib: 32,
        expected: 0,
    },
    Secret {
        secret: &[4; 12],
        associated: &[3; 8],
        max_kib: 32,
        expected: 0,
    },
    Secret {
        secret: &[3; 9],
        associated: &[4; 12],
        max_kib: 32,
        expected: 0,
    },
    Secret {
        secret: &[],
        associated: &[],
        max_kib: 32,
        expected: 0,
    },
    Secret {
        secret: &[3; 8],
        associated: &[4; 12],
        max_kib: 31,
        expected: 7,
    },
];

// Whether the password of the text has its answer with this secret and these data.
fn is_answered(alloc: Global, row: &Secret) -> bool {
    let inputs = Keyed {
        password: &[1; 32],
        secret: row.secret,
        associated: row.associated,
        max_kib: row.max_kib,
        max_ops: 1024,
    };
    answered_keyed(alloc, KEYED, &inputs) == row.expected
}

// Whether it has with each.
fn are_all_answered(alloc: Global) -> bool {
    for row in &SECRETS {
        if !is_answered(alloc, row) {
            return false;
        }
    }
    true
}

#[test]
fn answers_with_a_secret(rt: HostRuntime) {
    assert!(rt; are_all_answered(rt.alloc()));
}

// The length of a password whose bytes are all `p`, and its text by Debian's libargon2 (0~20171227); the tag is also by
// the `cryptography` module of Python (48.0.0).
struct OfLength {
    len: usize,
    text: &'static str,
}

static LENGTHS: [OfLength; 6] = [
    OfLength {
        len: 0,
        text: "$argon2id$v=19$m=8,t=1,p=1$c29tZXNhbHQ$Ze7t9R9ABr5D6ybRIUGCqX1Qh3Z+NIe/vISd0ygUVlE",
    },
    OfLength {
        len: 1,
        text: "$argon2id$v=19$m=8,t=1,p=1$c29tZXNhbHQ$USqLEgKlsm4am1QLS1IU1y/7n1YbZTsOcWPCUUlEYAo",
    },
    OfLength {
        len: 127,
        text: "$argon2id$v=19$m=8,t=1,p=1$c29tZXNhbHQ$X7UDfgEA10928A+8gOXYyEdqu8WXMfdT7BZQ/UdTsF4",
    },
    OfLength {
        len: 128,
        text: "$argon2id$v=19$m=8,t=1,p=1$c29tZXNhbHQ$lT5x55qHkB7o0WQDZVNJ3bSh1Bqkx4p99ie/SCC8zpw",
    },
    OfLength {
        len: 200,
        text: "$argon2id$v=19$m=8,t=1,p=1$c29tZXNhbHQ$3tbNRvV7sZKpjkf2UD6t8e6WHIkGc9uIZd0mt56AJyU",
    },
    OfLength {
        len: 1_000_000,
        text: "$argon2id$v=19$m=8,t=1,p=1$c29tZXNhbHQ$tCIEZwLxQnoIKtVKR1eyClr1cf47EdjtUdA71sEoYdo",
    },
];

// Whether `verify_keyed` and `verify` have these answers to a password of a text.
fn are_answers(alloc: Global, text: &str, password: &[u8], keyed: u8, unkeyed: u8) -> bool {
    let inputs = Keyed {
        password,
        secret: &[],
        associated: &[],
        max_kib: 8,
        max_ops: 10,
    };
    let text = text.as_bytes();
    answered_keyed(alloc, text, &inputs) == keyed
        && answered(alloc, text, text, password, 8, 10) == unkeyed
}

// Whether a password fits its own text and not another's. `verify` refuses an empty and a long one.
fn is_of_length(alloc: Global, password: &[u8], own: &str, other: &str) -> bool {
    let (same, another) = match password.len() {
        1..=127 => (1, 0),
        _ => (6, 6),
    };
    are_answers(alloc, own, password, 1, same) && are_answers(alloc, other, password, 0, another)
}

// Whether the password of a length has them.
fn is_row(alloc: Global, row: &OfLength, other: &OfLength) -> bool {
    match vec![in alloc; b'p'; row.len] {
        Ok(password) => is_of_length(alloc, &password, row.text, other.text),
        Err(_) => false,
    }
}

// Whether that of each has them; the text of the next length is another's.
fn are_rows(alloc: Global) -> bool {
    for at in 0..6usize {
        if !is_row(alloc, &LENGTHS[at], &LENGTHS[(at + 1) % 6]) {
            return false;
        }
    }
    true
}

#[test]
fn passwords_of_any_length(rt: HostRuntime) {
    assert!(rt; are_rows(rt.alloc()));
}

// The answer where a byte of the known text is changed.
fn answer_to_changed(alloc: Global, place: usize) -> u8 {
    let Ok(mut text) = KNOWN.to_vec(alloc) else {
        return UNREAD;
    };
    if let Some(byte) = text.get_mut(place) {
        *byte = b'A';
    }
    answered(alloc, &text, &text, b"password", 256, 526)
}

// A tag with one byte changed is another tag, whichever byte it is.
fn is_each_another(alloc: Global) -> bool {
    for place in &[40, 41, 61, 62, 81, 82] {
        if answer_to_changed(alloc, *place) != 0 {
            return false;
        }
    }
    true
}

#[test]
fn each_byte_of_the_tag_counts(rt: HostRuntime) {
    assert!(rt; is_each_another(rt.alloc()));
}

// The matrix is the one request, and comes after the limits.
fn tested_with(alloc: Global, value: &Encoded, left: u32, max_ops: u64) -> u8 {
    let mut source = Refusing {
        alloc,
        left,
        unasked: 10,
    };
    let mut ticks = Ticks::new(alloc);
    let view = HashView::of(value);
    number_of(verify(&mut source, &view, b"password", 256, max_ops, &mut ticks))
}

// The same of the known text.
fn answered_with(alloc: Global, left: u32, max_ops: u64) -> u8 {
    match Encoded::read(alloc, KNOWN) {
        Ok(value) => tested_with(alloc, &value, left, max_ops),
        Err(_) => UNREAD,
    }
}

#[test]
fn the_one_request_is_refused(rt: HostRuntime) {
    let alloc = rt.alloc();
    let answers = [
        answered_with(alloc, 0, 526),
        answered_with(alloc, 1, 526),
        answered_with(alloc, 0, 525),
    ];
    assert!(rt; answers == [9, 1, 8]);
}

// Whether a password fits the text that is stored for an account. docs/LIBRARY.md shows this function.
fn may_enter(alloc: Global, stored: &[u8], password: &[u8]) -> Result<bool, VerifyFault> {
    let encoded = match Encoded::read(alloc, stored) {
        Ok(encoded) => encoded,
        Err(ReadFault::OutOfMemory) => return Err(VerifyFault::OutOfMemory),
        Err(_) => return Ok(false),
    };
    // settings, salt and tag of the text
    let view = HashView::of(&encoded);
    // the memory of the hash is from the heap
    let mut source = alloc;
    // counts the work, for contracts alone
    let mut ticks = Ticks::new(alloc);
    // at most 1 GiB and 2^23 block functions, whoever wrote the text
    verify_keyed(
        &mut source,
        &view,
        password,
        &[],
        &[],
        1 << 20,
        1 << 23,
        &mut ticks,
    )
}

// A stored text, a password and the answer.
struct Login {
    stored: &'static str,
    password: &'static str,
    expected: u8,
}

static LOGINS: [Login; 10] = [
    // printf password | argon2 somesalt -id -t 2 -k 256 -e
    Login {
        stored: "$argon2id$v=19$m=256,t=2,p=1$c29tZXNhbHQ$nf65EOgLrQMR/uIPnA4rEsF5h7TKyQwu9U1bMCHGi/4",
        password: "password",
        expected: 1,
    },
    Login {
        stored: "$argon2id$v=19$m=256,t=2,p=1$c29tZXNhbHQ$nf65EOgLrQMR/uIPnA4rEsF5h7TKyQwu9U1bMCHGi/4",
        password: "pass word",
        expected: 0,
    },
    Login {
        stored: "$argon2id$v=19$m=256,t=2,p=1$c29tZXNhbHQ$nf65EOgLrQMR/uIPnA4rEsF5h7TKyQwu9U1bMCHGi/4",
        password: "",
        expected: 0,
    },
    Login {
        stored: "argon2id$v=19$m=256,t=2,p=1$c29tZXNhbHQ$nf65EOgLrQMR/uIPnA4rEsF5h7TKyQwu9U1bMCHGi/4",
        password: "password",
        expected: 0,
    },
    Login {
        stored: "$argon2id$v=19$m=1048580,t=1,p=1$c29tZXNhbHQ$AAAAAA",
        password: "password",
        expected: 7,
    },
    Login {
        stored: "$argon2id$v=19$m=1048576,t=8,p=1$c29tZXNhbHQ$AAAAAA",
        password: "password",
        expected: 8,
    },
    // PHP 8.2.36: password_hash("correct horse", PASSWORD_ARGON2ID)
    Login {
        stored: "$argon2id$v=19$m=65536,t=4,p=1$V0NCWVQxb2U2SnF4V21NRg$8oeDiSRiEGTo9Frs7mdHAFz+tMFikqbszcNgTZ0RyV4",
        password: "correct horse",
        expected: 1,
    },
    // python3-argon2 21.1.0: PasswordHasher().hash("correct horse")
    Login {
        stored: "$argon2id$v=19$m=102400,t=2,p=8$yt39KRiJplynvdLsIyphGA$/ttObQzhY2xHjwxhSqJakA",
        password: "correct horse",
        expected: 1,
    },
    // libsodium 1.0.18: crypto_pwhash_str of "correct horse" with the limits named INTERACTIVE,
    // and MODERATE
    Login {
        stored: "$argon2id$v=19$m=65536,t=2,p=1$+FdfqK4mTY9Hh5BTtvq79g$JjBZkakj0aCCxXQaoqZy+knE64jRzdJKuXlOPGvmvsk",
        password: "correct horse",
        expected: 1,
    },
    Login {
        stored: "$argon2id$v=19$m=262144,t=3,p=1$m9cS6zEhXRH8oGtIwCDtWQ$TtQ75LOfGKCejJKLeZHyXrHZ3Dqsy40i/iUEpegrV9Q",
        password: "correct horse",
        expected: 1,
    },
];

// For how many stored texts, from the first on, the password has its answer.
fn right_logins(alloc: Global) -> u32 {
    let mut right = 0u32;
    for row in &LOGINS {
        let found = may_enter(alloc, row.stored.as_bytes(), row.password.as_bytes());
        if number_of(found) != row.expected {
            return right;
        }
        right = right.wrapping_add(1);
    }
    right
}

#[test]
fn a_login(rt: HostRuntime) {
    assert!(rt; right_logins(rt.alloc()) == 10);
}
