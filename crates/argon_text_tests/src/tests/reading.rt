//! What reading takes and refuses: texts of the reference program, worked examples, near misses.
ghost use Rattle.std.specs.Prelude.{◌<◌, length};

use super::near_misses::{
    LEFT_OUT, PREFIXES, REPLACED, SHORT_LEFT_OUT, SHORT_PREFIXES, SHORT_TWICE, TWICE,
};
use super::reference_texts::{KNOWN, ROWS, ReferenceText};
use super::refusing::Refusing;
use super::version_0x10::{LOST, SHORT};
use super::{is_written_as, joined};
use argon_text::{Encoded, ReadFault, read_encoded_with_memory};
use std::alloc::Global;

// A fault by its number, and 0 where the text is read.
fn number_of(read: &Result<Encoded, ReadFault>) -> u8 {
    match read {
        Ok(_) => 0,
        Err(ReadFault::NotInGrammar) => 1,
        Err(ReadFault::OutOfRange) => 2,
        Err(ReadFault::OutOfMemory) => 3,
    }
}

// The number of the answer to the parts of a text, one after another.
fn answer_to(alloc: Global, parts: &[&[u8]]) -> u8 {
    match joined(alloc, parts) {
        Ok(text) => number_of(&Encoded::read(alloc, &text)),
        Err(_) => 3,
    }
}

// Whether a value is what its row says.
fn is_value_of(encoded: &Encoded, row: &ReferenceText) -> bool {
    encoded.settings() == row.settings && encoded.salt.as_slice() == row.salt.as_bytes()
}

// Whether a text is read as its row says, and written again as it was.
fn is_read_and_written(alloc: Global, row: &ReferenceText) -> bool {
    let text = row.text.as_bytes();
    match Encoded::read(alloc, text) {
        Ok(encoded) => is_value_of(&encoded, row) && is_written_as(alloc, &encoded, text),
        Err(_) => false,
    }
}

// Of how many texts, from the first on, that is so.
fn right_texts(alloc: Global) -> u32 {
    let mut right = 0u32;
    for row in &ROWS {
        if !is_read_and_written(alloc, row) {
            return right;
        }
        right = right.wrapping_add(1);
    }
    right
}

#[test]
fn reads_and_writes_texts_of_the_reference_program(rt: HostRuntime) {
    assert!(rt; right_texts(rt.alloc()) == 6);
}

// Whether each of these has its answer between two parts.
fn are_right_between(alloc: Global, front: &str, back: &str, rows: &[(u8, &str)]) -> bool {
    for (expected, text) in rows {
        let found = answer_to(alloc, &[front.as_bytes(), text.as_bytes(), back.as_bytes()]);
        if found != *expected {
            return false;
        }
    }
    true
}

// Texts near the known text that are not in the grammar (docs/FORMATS.md), one a line; the first
// is empty.
static NOT_IN_GRAMMAR: [&str; 6] = [
    "\
\n\
$argon2i$v=19$m=256,t=2,p=1$c29tZXNhbHR$iekCn0Y3spW+sCcFanM2xBT63UP2sghkUoHLIUpWRS8\n\
$argon2i$v=19$m=0256,t=2,p=0$c29tZXNhbHQ$iekCn0Y3spW+sCcFanM2xBT63UP2sghkUoHLIUpWRS8\n\
$argon2i$v=19$m=0256,t=2,p=1$c29tZXNhbHQ$iekCn0Y3spW+sCcFanM2xBT63UP2sghkUoHLIUpWRS8\n\
$argon2i$v=19$m=256,t=2,p=1$c29tZXNhbHQ$iekCn0Y3spW+sCcFanM2xBT63UP2sghkUoHLIUpWRS8=\n\
$argon2i$v=19$m=256,t=2,p=1$c29tZXNhbHQ$iekCn0Y3spW+sCcFanM2xBT63UP2sghkUoHLIUpWRS8\0\n\
",
    // no whole field of a version
    "\
$argon2i$$m=256,t=2,p=1$c29tZXNhbHQ$iekCn0Y3spW+sCcFanM2xBT63UP2sghkUoHLIUpWRS8\n\
$argon2i$v19$m=256,t=2,p=1$c29tZXNhbHQ$iekCn0Y3spW+sCcFanM2xBT63UP2sghkUoHLIUpWRS8\n\
$argon2i$19$m=256,t=2,p=1$c29tZXNhbHQ$iekCn0Y3spW+sCcFanM2xBT63UP2sghkUoHLIUpWRS8\n\
$argon2i$v=19,m=256,t=2,p=1$c29tZXNhbHQ$iekCn0Y3spW+sCcFanM2xBT63UP2sghkUoHLIUpWRS8\n\
$argon2im=256,t=2,p=1$c29tZXNhbHQ$iekCn0Y3spW+sCcFanM2xBT63UP2sghkUoHLIUpWRS8\n\
",
    // near the field of version 16, and near a text without one (the answers of tests/sources/encoded_texts.py)
    "\
$argon2i$v=16$v=16$m=256,t=2,p=1$c29tZXNhbHQ$/U3YPXYsSb3q9XxHvc0MLxur+GP960kN9j7emXX8zwY\n\
$argon2i$v=19$v=16$m=256,t=2,p=1$c29tZXNhbHQ$/U3YPXYsSb3q9XxHvc0MLxur+GP960kN9j7emXX8zwY\n\
$argon2i$v=$m=256,t=2,p=1$c29tZXNhbHQ$/U3YPXYsSb3q9XxHvc0MLxur+GP960kN9j7emXX8zwY\n\
$argon2i$v$m=256,t=2,p=1$c29tZXNhbHQ$/U3YPXYsSb3q9XxHvc0MLxur+GP960kN9j7emXX8zwY\n\
$argon2i$v=010$m=256,t=2,p=1$c29tZXNhbHQ$/U3YPXYsSb3q9XxHvc0MLxur+GP960kN9j7emXX8zwY\n\
$argon2i$v=016$m=256,t=2,p=1$c29tZXNhbHQ$/U3YPXYsSb3q9XxHvc0MLxur+GP960kN9j7emXX8zwY\n\
$argon2i$v=0x10$m=256,t=2,p=1$c29tZXNhbHQ$/U3YPXYsSb3q9XxHvc0MLxur+GP960kN9j7emXX8zwY\n\
$argon2i$V=16$m=256,t=2,p=1$c29tZXNhbHQ$/U3YPXYsSb3q9XxHvc0MLxur+GP960kN9j7emXX8zwY\n\
$argon2i$v=16,$m=256,t=2,p=1$c29tZXNhbHQ$/U3YPXYsSb3q9XxHvc0MLxur+GP960kN9j7emXX8zwY\n\
$argon2i$m=256$v=16$t=2,p=1$c29tZXNhbHQ$/U3YPXYsSb3q9XxHvc0MLxur+GP960kN9j7emXX8zwY\n\
$argon2i$m=256,v=16,t=2,p=1$c29tZXNhbHQ$/U3YPXYsSb3q9XxHvc0MLxur+GP960kN9j7emXX8zwY\n\
$argon2i$m=256,t=2,p=1,v=16$c29tZXNhbHQ$/U3YPXYsSb3q9XxHvc0MLxur+GP960kN9j7emXX8zwY\n\
$argon2i$m=256,t=2,p=1$v=16$c29tZXNhbHQ$/U3YPXYsSb3q9XxHvc0MLxur+GP960kN9j7emXX8zwY\n\
$v=16$argon2i$m=256,t=2,p=1$c29tZXNhbHQ$/U3YPXYsSb3q9XxHvc0MLxur+GP960kN9j7emXX8zwY\n\
$argon2i,$m=256,t=2,p=1$c29tZXNhbHQ$/U3YPXYsSb3q9XxHvc0MLxur+GP960kN9j7emXX8zwY\n\
$argon2i$,m=256,t=2,p=1$c29tZXNhbHQ$/U3YPXYsSb3q9XxHvc0MLxur+GP960kN9j7emXX8zwY\n\
$argon2i$m=256,t=2,p=1,$c29tZXNhbHQ$/U3YPXYsSb3q9XxHvc0MLxur+GP960kN9j7emXX8zwY\n\
$argon2i$m=256,t=2,p=1$c29tZXNhbHQ$/U3YPXYsSb3q9XxHvc0MLxur+GP960kN9j7emXX8zwY,\n\
",
    // a field twice, in another order, left out, one more
    "\
$argon2i$v=19$v=19$m=256,t=2,p=1$c29tZXNhbHQ$iekCn0Y3spW+sCcFanM2xBT63UP2sghkUoHLIUpWRS8\n\
$argon2i$v=19$m=256,m=256,t=2,p=1$c29tZXNhbHQ$iekCn0Y3spW+sCcFanM2xBT63UP2sghkUoHLIUpWRS8\n\
$argon2i$v=19$m=256,t=2,t=2,p=1$c29tZXNhbHQ$iekCn0Y3spW+sCcFanM2xBT63UP2sghkUoHLIUpWRS8\n\
$argon2i$v=19$m=256,t=2,p=1,p=1$c29tZXNhbHQ$iekCn0Y3spW+sCcFanM2xBT63UP2sghkUoHLIUpWRS8\n\
$argon2i$v=19$m=256,t=2,p=1$c29tZXNhbHQ$c29tZXNhbHQ$iekCn0Y3spW+sCcFanM2xBT63UP2sghkUoHLIUpWRS8\n\
$argon2i$v=19$t=2,m=256,p=1$c29tZXNhbHQ$iekCn0Y3spW+sCcFanM2xBT63UP2sghkUoHLIUpWRS8\n\
$argon2i$v=19$m=256,p=1,t=2$c29tZXNhbHQ$iekCn0Y3spW+sCcFanM2xBT63UP2sghkUoHLIUpWRS8\n\
$argon2i$m=256,t=2,p=1$v=19$c29tZXNhbHQ$iekCn0Y3spW+sCcFanM2xBT63UP2sghkUoHLIUpWRS8\n\
$argon2i$v=19$m=256,t=2$c29tZXNhbHQ$iekCn0Y3spW+sCcFanM2xBT63UP2sghkUoHLIUpWRS8\n\
$argon2i$v=19$m=256,t=2,p=1$c29tZXNhbHQ\n\
$argon2i$v=19$m=256,t=2,p=1,keyid=AAAA$c29tZXNhbHQ$iekCn0Y3spW+sCcFanM2xBT63UP2sghkUoHLIUpWRS8\n\
$argon2i$v=19$m=256,t=2,p=1$c29tZXNhbHQ$iekCn0Y3spW+sCcFanM2xBT63UP2sghkUoHLIUpWRS8$AAAA\n\
",
    // other types, signs, spaces, other digits
    "\
$argon2$v=19$m=256,t=2,p=1$c29tZXNhbHQ$iekCn0Y3spW+sCcFanM2xBT63UP2sghkUoHLIUpWRS8\n\
$argon2di$v=19$m=256,t=2,p=1$c29tZXNhbHQ$iekCn0Y3spW+sCcFanM2xBT63UP2sghkUoHLIUpWRS8\n\
$argon2I$v=19$m=256,t=2,p=1$c29tZXNhbHQ$iekCn0Y3spW+sCcFanM2xBT63UP2sghkUoHLIUpWRS8\n\
$Argon2i$v=19$m=256,t=2,p=1$c29tZXNhbHQ$iekCn0Y3spW+sCcFanM2xBT63UP2sghkUoHLIUpWRS8\n\
\x20$argon2i$v=19$m=256,t=2,p=1$c29tZXNhbHQ$iekCn0Y3spW+sCcFanM2xBT63UP2sghkUoHLIUpWRS8\n\
$argon2i$v=0x13$m=256,t=2,p=1$c29tZXNhbHQ$iekCn0Y3spW+sCcFanM2xBT63UP2sghkUoHLIUpWRS8\n\
$argon2i$v=19$m=+256,t=2,p=1$c29tZXNhbHQ$iekCn0Y3spW+sCcFanM2xBT63UP2sghkUoHLIUpWRS8\n\
$argon2i$v=19$m= 256,t=2,p=1$c29tZXNhbHQ$iekCn0Y3spW+sCcFanM2xBT63UP2sghkUoHLIUpWRS8\n\
",
    // symbols that are no multiple of a byte, and of another alphabet
    "\
$argon2i$v=19$m=256,t=2,p=1$c29tZXNhbHQAA$iekCn0Y3spW+sCcFanM2xBT63UP2sghkUoHLIUpWRS8\n\
$argon2i$v=19$m=256,t=2,p=1$c29tZXNhbHQ=$iekCn0Y3spW+sCcFanM2xBT63UP2sghkUoHLIUpWRS8\n\
$argon2i$v=19$m=256,t=2,p=1$c29tZXNhbHQ$iekCn0Y3spW-sCcFanM2xBT63UP2sghkUoHLIUpWRS8\n\
$argon2i$v=19$m=256,t=2,p=1$c29tZXNhbHQ$A\n\
",
];

// Those that are out of range; the one of version 17 is near a text of version 16 (the answers of
// tests/sources/encoded_texts.py).
const OUT_OF_RANGE: &str = "\
$argon2i$v=19$m=99999999999999999999999,t=2,p=1$c29tZXNhbHQ$iekCn0Y3spW+sCcFanM2xBT63UP2sghkUoHLIUpWRS8\n\
$argon2i$v=19$m=256,t=2,p=1$$iekCn0Y3spW+sCcFanM2xBT63UP2sghkUoHLIUpWRS8\n\
$argon2i$v=19$m=7,t=2,p=1$c29tZXNhbHQ$iekCn0Y3spW+sCcFanM2xBT63UP2sghkUoHLIUpWRS8\n\
$argon2i$v=19$m=256,t=2,p=0$c29tZXNhbHQ$iekCn0Y3spW+sCcFanM2xBT63UP2sghkUoHLIUpWRS8\n\
$argon2i$v=20$m=256,t=2,p=1$c29tZXNhbHQ$iekCn0Y3spW+sCcFanM2xBT63UP2sghkUoHLIUpWRS8\n\
$argon2i$v=10$m=256,t=2,p=1$c29tZXNhbHQ$iekCn0Y3spW+sCcFanM2xBT63UP2sghkUoHLIUpWRS8\n\
$argon2i$v=17$m=256,t=2,p=1$c29tZXNhbHQ$/U3YPXYsSb3q9XxHvc0MLxur+GP960kN9j7emXX8zwY\n\
";

// Whether each line of a table has this answer.
fn are_lines(alloc: Global, table: &str, expected: u8) -> bool {
    for line in table.lines() {
        if answer_to(alloc, &[line.as_bytes()]) != expected {
            return false;
        }
    }
    true
}

// Whether no line of these tables is in the grammar.
fn are_not_in_grammar(alloc: Global) -> bool {
    for table in &NOT_IN_GRAMMAR {
        if !are_lines(alloc, table, 1) {
            return false;
        }
    }
    true
}

// Whether a text with a line feed after it is not in the grammar, and the others have their
// answers.
fn are_others(alloc: Global) -> bool {
    answer_to(alloc, &[KNOWN, b"\n"]) == 1
        && answer_to(alloc, &[LOST]) == 0
        && are_lines(alloc, OUT_OF_RANGE, 2)
}

#[test]
fn changed_texts(rt: HostRuntime) {
    assert!(rt; are_not_in_grammar(rt.alloc()) && are_others(rt.alloc()));
}

// What becomes of a text at a place.
#[derive(Clone, Copy)]
enum Change {
    Replaced(u8),
    LeftOut,
    Twice,
    Prefix,
}

// The answer to a text that is changed at a place.
fn answer_at(alloc: Global, known: &[u8], place: usize, change: Change) -> u8
    requires place { place < length known.now }
{
    let (front, byte, back) = (&known[..place], known[place], &known[place + 1..]);
    match change {
        Change::Replaced(other) => answer_to(alloc, &[front, &[other], back]),
        Change::LeftOut => answer_to(alloc, &[front, back]),
        Change::Twice => answer_to(alloc, &[front, &[byte, byte], back]),
        Change::Prefix => answer_to(alloc, &[front]),
    }
}

// Whether the answers to a text that is changed at each of its places in turn have these digits.
fn are_answers(alloc: Global, known: &[u8], change: Change, expected: &str) -> bool {
    let digits = expected.as_bytes();
    if digits.len() != known.len() {
        return false;
    }
    for place in 0..known.len() {
        if answer_at(alloc, known, place, change).wrapping_add(b'0') != digits[place] {
            return false;
        }
    }
    true
}

// Whether the answers to each byte in the place of another are so.
fn are_answers_to_each(alloc: Global) -> bool {
    for (byte, expected) in REPLACED {
        if !are_answers(alloc, KNOWN, Change::Replaced(*byte), expected) {
            return false;
        }
    }
    true
}

#[test]
fn each_byte_replaced(rt: HostRuntime) {
    assert!(rt; are_answers_to_each(rt.alloc()));
}

// Whether both texts have these answers where a byte is left out, where one comes twice, and where
// they end early.
fn are_all_answers(alloc: Global) -> bool {
    are_answers(alloc, KNOWN, Change::LeftOut, LEFT_OUT)
        && are_answers(alloc, KNOWN, Change::Twice, TWICE)
        && are_answers(alloc, KNOWN, Change::Prefix, PREFIXES)
        && are_answers(alloc, SHORT, Change::LeftOut, SHORT_LEFT_OUT)
        && are_answers(alloc, SHORT, Change::Twice, SHORT_TWICE)
        && are_answers(alloc, SHORT, Change::Prefix, SHORT_PREFIXES)
}

#[test]
fn each_byte_left_out_and_twice_and_each_prefix(rt: HostRuntime) {
    assert!(rt; are_all_answers(rt.alloc()));
}

// What may stand in the place of each number (the ranges of docs/FORMATS.md).
static VERSIONS: [(u8, &str); 13] = [
    (0, "19"),
    (2, "18"),
    (2, "20"),
    (2, "0"),
    (2, "10"),
    (2, "15"),
    (0, "16"),
    (2, "17"),
    (2, "4294967312"),
    (2, "4294967315"),
    (1, "016"),
    (1, "019"),
    (1, ""),
];

static MEMORIES: [(u8, &str); 11] = [
    (2, "0"),
    (2, "23"),
    (0, "24"),
    (0, "4294967295"),
    (2, "4294967296"),
    (2, "4294967320"),
    (2, "9999999999"),
    (2, "18446744073709551640"),
    (1, "024"),
    (1, "00"),
    (1, ""),
];

static PASSES: [(u8, &str); 7] = [
    (2, "0"),
    (0, "1"),
    (0, "4294967295"),
    (2, "4294967296"),
    (2, "4294967297"),
    (1, "01"),
    (1, ""),
];

static LANES: [(u8, &str); 7] = [
    (2, "0"),
    (0, "1"),
    (0, "16777215"),
    (2, "16777216"),
    (2, "4294967297"),
    (1, "01"),
    (1, ""),
];

// The answer to a byte so many times between two parts.
fn answer_to_many(alloc: Global, front: &str, byte: u8, count: usize, back: &str) -> u8 {
    match vec![in alloc; byte; count] {
        Ok(middle) => answer_to(alloc, &[front.as_bytes(), &middle, back.as_bytes()]),
        Err(_) => 3,
    }
}

// Whether each of these has its answer between two parts, 1000 times the digit 1 is out of range,
// and 1000 times 0 is not in the grammar.
fn are_numbers(alloc: Global, front: &str, back: &str, rows: &[(u8, &'static str)]) -> bool {
    are_right_between(alloc, front, back, rows)
        && answer_to_many(alloc, front, b'1', 1000, back) == 2
        && answer_to_many(alloc, front, b'0', 1000, back) == 1
}

// Whether each number of a text is so.
fn are_all_numbers(alloc: Global) -> bool {
    are_numbers(
        alloc,
        "$argon2id$v=",
        "$m=8,t=1,p=1$c29tZXNhbHQ$AAAAAA",
        &VERSIONS,
    ) && are_numbers(
        alloc,
        "$argon2id$v=19$m=",
        ",t=1,p=3$c29tZXNhbHQ$AAAAAA",
        &MEMORIES,
    ) && are_numbers(
        alloc,
        "$argon2id$v=19$m=8,t=",
        ",p=1$c29tZXNhbHQ$AAAAAA",
        &PASSES,
    ) && are_numbers(
        alloc,
        "$argon2id$v=19$m=134217720,t=1,p=",
        "$c29tZXNhbHQ$AAAAAA",
        &LANES,
    )
}

// So many symbols `A` stand for zeros: 10 for 7 bytes, 340 for 255, 5,462 for 4,096.
static SALTS: [(u8, usize); 10] = [
    (2, 0),
    (1, 1),
    (2, 2),
    (1, 9),
    (2, 10),
    (0, 11),
    (0, 340),
    (1, 341),
    (2, 342),
    (2, 400),
];

static TAGS: [(u8, usize); 9] = [
    (2, 0),
    (1, 1),
    (2, 2),
    (2, 4),
    (1, 5),
    (0, 6),
    (0, 5462),
    (2, 5463),
    (1, 5465),
];

// Whether each count of symbols has its answer between two parts.
fn are_counts(alloc: Global, front: &str, back: &str, rows: &[(u8, usize)]) -> bool {
    for (expected, count) in rows {
        if answer_to_many(alloc, front, b'A', *count, back) != *expected {
            return false;
        }
    }
    true
}

// Whether those of salt and tag have.
fn are_all_counts(alloc: Global) -> bool {
    are_counts(alloc, "$argon2id$v=19$m=8,t=1,p=1$", "$AAAAAA", &SALTS)
        && are_counts(alloc, "$argon2id$v=19$m=8,t=1,p=1$c29tZXNhbHQ$", "", &TAGS)
}

// The answer to a text where both are at their longest.
fn answer_to_longest(alloc: Global) -> u8 {
    match vec![in alloc; b'A'; 5462] {
        Ok(tag) => {
            let salt = &tag[..340];
            answer_to(alloc, &[b"$argon2id$v=19$m=8,t=1,p=1$", salt, b"$", &tag])
        }
        Err(_) => 3,
    }
}

#[test]
fn numbers_and_lengths_at_their_bounds(rt: HostRuntime) {
    let alloc = rt.alloc();
    assert!(rt; are_all_numbers(alloc) && are_all_counts(alloc) && answer_to_longest(alloc) == 0);
}

// Whether a text has this answer where so many requests are granted, and so many of ten are not
// made.
fn is_answered_with(alloc: Global, left: u32, text: &[u8], answer: u8, unasked: u32) -> bool {
    let mut source = Refusing {
        alloc,
        left,
        unasked: 10,
    };
    number_of(&read_encoded_with_memory(&mut source, text)) == answer && source.unasked == unasked
}

// Salt and tag are the two requests, and after one that is refused there is none. Before them no fault of a field costs
// memory.
fn are_refused(alloc: Global) -> bool {
    is_answered_with(alloc, 0, KNOWN, 3, 9)
        && is_answered_with(alloc, 1, KNOWN, 3, 8)
        && is_answered_with(alloc, 2, KNOWN, 0, 8)
        && is_answered_with(alloc, 0, b"$argon2i$v=019$m=256", 1, 10)
}

#[test]
fn each_request_is_refused(rt: HostRuntime) {
    assert!(rt; are_refused(rt.alloc()));
}
