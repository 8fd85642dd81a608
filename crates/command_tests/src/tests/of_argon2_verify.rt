//! Whole runs over a host in memory. Hashes come from the reference program's library, by its argon2_hash with the salt
//! `somesalt`, and the first from the program too.
mod refusing;

ghost use Rattle.std.specs.Prelude.{◌^◌};
ghost use Rattle.host.specs.Faults.{AreBelow};
ghost use Rattle.memory_host.specs.Memory.{memory_host_failure_counts, memory_host_state};
ghost use Rattle.host.specs.HostState.{IsUnasked};

use self::refusing::{Asked, Refusing};
use crate::fixtures::{assert_row, is_under, new_host, says, words};
use argon::Ticks;
use argon2_verify::{VerifyRefusal, argon2_verify, run_without_report};
use memory_host::MemoryHost;
use std::alloc::Global;

// Argon2i, two passes over 256 KiB, of `password`.
const TWO_PASSES: &[u8] =
    b"$argon2i$v=19$m=256,t=2,p=1$c29tZXNhbHQ$iekCn0Y3spW+sCcFanM2xBT63UP2sghkUoHLIUpWRS8";

// The same with a line end, and what stands after it.
const FIRST_OF_LINES: &[u8] =
    b"$argon2i$v=19$m=256,t=2,p=1$c29tZXNhbHQ$iekCn0Y3spW+sCcFanM2xBT63UP2sghkUoHLIUpWRS8\n$argon2";

const BEFORE_CR: &[u8] =
    b"$argon2i$v=19$m=256,t=2,p=1$c29tZXNhbHQ$iekCn0Y3spW+sCcFanM2xBT63UP2sghkUoHLIUpWRS8\r\n";

// The same in the 128 bytes of libsodium's crypto_pwhash_str, with zeros behind it.
const BEFORE_ZEROS: &[u8] =
    b"$argon2i$v=19$m=256,t=2,p=1$c29tZXNhbHQ$iekCn0Y3spW+sCcFanM2xBT63UP2sghkUoHLIUpWRS8\0\0\0\0\0\0\0\0\0\0\0\0\0\0\0\0\0\0\0\0\0\0\0\0\0\0\0\0\0\0\0\0\0\0\0\0\0\0\0\0\0\0\0\0\0";

// The same of version 0x10, without the field of a version, which the library reads, too.
const NO_VERSION: &[u8] =
    b"$argon2i$m=256,t=2,p=1$c29tZXNhbHQ$/U3YPXYsSb3q9XxHvc0MLxur+GP960kN9j7emXX8zwY";

// Argon2id, one pass over 8 KiB, of no byte, of 128 bytes `p`, and of 4,096.
const OF_NOTHING: &[u8] =
    b"$argon2id$v=19$m=8,t=1,p=1$c29tZXNhbHQ$Ze7t9R9ABr5D6ybRIUGCqX1Qh3Z+NIe/vISd0ygUVlE";

const OF_128: &[u8] =
    b"$argon2id$v=19$m=8,t=1,p=1$c29tZXNhbHQ$lT5x55qHkB7o0WQDZVNJ3bSh1Bqkx4p99ie/SCC8zpw";

const OF_4096: &[u8] =
    b"$argon2id$v=19$m=8,t=1,p=1$c29tZXNhbHQ$fEJEQ4OzAsU6JERvwRarpNz4ZneEkkvI+u62oAItvBY";

// The same of two lines, and its line feeds belong to it.
const OF_LINES: &[u8] =
    b"$argon2id$v=19$m=8,t=1,p=1$c29tZXNhbHQ$qJKmLQU1chGu1ppU/qTNBtqWJKfaCC1eCTO/W6o/qYU";

// Numbers and lengths out of range: no memory, and a salt of three bytes.
const NO_MEMORY: &[u8] =
    b"$argon2id$v=19$m=7,t=1,p=1$c29tZXNhbHQ$qJKmLQU1chGu1ppU/qTNBtqWJKfaCC1eCTO/W6o/qYU";

const SHORT_SALT: &[u8] =
    b"$argon2id$v=19$m=8,t=1,p=1$c29t$qJKmLQU1chGu1ppU/qTNBtqWJKfaCC1eCTO/W6o/qYU";

// More than 4 GiB, and more than 2^33 block functions.
const LARGE: &[u8] =
    b"$argon2id$v=19$m=4194308,t=1,p=1$c29tZXNhbHQ$qJKmLQU1chGu1ppU/qTNBtqWJKfaCC1eCTO/W6o/qYU";

const LONG_WORK: &[u8] =
    b"$argon2id$v=19$m=8,t=4294967295,p=1$c29tZXNhbHQ$qJKmLQU1chGu1ppU/qTNBtqWJKfaCC1eCTO/W6o/qYU";

const USAGE: &str = "argon2-verify: usage: argon2-verify [--maxmem KIB] [--maxops N] file";

const BAD_NUMBER: &str = "argon2-verify: bad number";

const FILE_FAULT: &str = "argon2-verify: file cannot be read";

const STDIN: &str = "argon2-verify: file is standard input, which gives the password";

const NOT_HASH: &str = "argon2-verify: the file's first line is no encoded hash";

const OUT_OF_RANGE: &str =
    "argon2-verify: a number of the hash, or the length of its salt or tag, is out of range";

const MEMORY_LIMIT: &str = "argon2-verify: more memory needed than --maxmem allows";

const WORK_LIMIT: &str = "argon2-verify: more work needed than --maxops allows";

const PASSWORD_FAULT: &str = "argon2-verify: password cannot be read";

const LONG_PASSWORD: &str = "argon2-verify: password is longer than 4096 bytes";

// How a run ends: its status, its line, or no text where it says none, and how many bytes of the file are left.
#[derive(Clone, Copy, Drop)]
struct End<'a> {
    status: u8,
    told: &'a str,
    left: usize,
}

// The status of a run of the words of a line.
fn run_line(alloc: Global, line: &str, host: &mut MemoryHost) -> u8
    requires room { AreBelow (2 ^ 63) (memory_host_failure_counts host.old) }
    requires fresh { IsUnasked (memory_host_state host.old) }
{
    argon2_verify(alloc, &words(alloc, line), host)
}

// Whether that is all that came to the host: nothing is written.
fn ends(host: &MemoryHost, status: u8, end: End<'_>) -> bool {
    status == end.status
        && says(host, end.told)
        && host.remaining_input().len() == end.left
        && host.output().is_empty()
        && host.output_name().is_none()
}

// Whether the words end so over a host with this file and this standard input, which fails at this call, or at none.
fn runs(
    alloc: Global,
    line: &str,
    (file, stdin): (&[u8], &[u8]),
    failing: u64,
    end: End<'_>,
) -> bool {
    let mut host = new_host(alloc, file, stdin, [0; 32]);
    host.fail_at(failing);
    let status = run_line(alloc, line, &mut host);
    let is_so = ends(&host, status, end);
    drop(host);
    is_so
}

// A file, a password, the status, and how many bytes of the file are left: those behind the end of its first line.
static ANSWERS: [(&[u8], &[u8], u8, usize); 16] = [
    (TWO_PASSES, b"password", 0, 0),
    (TWO_PASSES, b"Password", 1, 0),
    (TWO_PASSES, b"password\n", 1, 0),
    (TWO_PASSES, b"passwor", 1, 0),
    (TWO_PASSES, b"", 1, 0),
    (BEFORE_CR, b"password", 0, 1),
    (FIRST_OF_LINES, b"password", 0, 7),
    (NO_VERSION, b"password", 0, 0),
    (NO_VERSION, b"passwords", 1, 0),
    (OF_NOTHING, b"", 0, 0),
    (OF_NOTHING, b"p", 1, 0),
    (OF_128, &[b'p'; 128], 0, 0),
    (OF_4096, &[b'p'; 4096], 0, 0),
    (OF_4096, &[b'p'; 4095], 1, 0),
    (OF_LINES, b"pass\nword\n", 0, 0),
    (BEFORE_ZEROS, b"password", 0, 44),
];

// Whether a row is answered so.
fn is_answered(alloc: Global, (file, stdin, status, left): (&[u8], &[u8], u8, usize)) -> bool {
    let end = End {
        status,
        told: "",
        left,
    };
    runs(alloc, "hash", (file, stdin), 0, end)
}

#[test]
fn passwords_of_hashes(rt: HostRuntime) {
    for (at, row) in ANSWERS.iter().enumerate() {
        assert!(rt; is_answered(rt.alloc(), *row), "{at}");
    }
}

// Words, a file, and the line of a refusal, or none where the password is right.
static LIMITS: [(&str, &[u8], &str); 12] = [
    // Two times 256 blocks less the first two, and 8 segments with two address blocks each.
    ("--maxmem 256 --maxops 526 hash", TWO_PASSES, ""),
    ("--maxops 000526 hash", TWO_PASSES, ""),
    ("--maxmem 255 hash", TWO_PASSES, MEMORY_LIMIT),
    ("--maxops 525 hash", TWO_PASSES, WORK_LIMIT),
    ("--maxmem 255 --maxops 525 hash", TWO_PASSES, MEMORY_LIMIT),
    // The last of several counts.
    ("--maxmem 1 --maxmem 256 hash", TWO_PASSES, ""),
    ("--maxmem 256 --maxmem 1 hash", TWO_PASSES, MEMORY_LIMIT),
    // What is allowed where nothing is given.
    ("hash", LARGE, MEMORY_LIMIT),
    ("hash", LONG_WORK, WORK_LIMIT),
    ("hash", NO_MEMORY, OUT_OF_RANGE),
    ("hash", SHORT_SALT, OUT_OF_RANGE),
    ("--maxmem 1 --maxops 1 hash", NO_MEMORY, OUT_OF_RANGE),
];

// Whether a run with the password `password` ends so, its file read.
fn is_limited(alloc: Global, (line, file, told): (&str, &[u8], &str)) -> bool {
    let end = End {
        status: if told.is_empty() { 0 } else { 2 },
        told,
        left: 0,
    };
    runs(alloc, line, (file, b"password"), 0, end)
}

#[test]
fn limits(rt: HostRuntime) {
    for row in &LIMITS {
        assert_row(&rt, is_limited(rt.alloc(), *row), row.0);
    }
}

// Words that are refused, and the line: nothing is opened.
static WORDS: [(&str, &str); 18] = [
    ("", USAGE),
    ("-h", USAGE),
    ("--help", USAGE),
    ("-", USAGE),
    ("--maxmem", USAGE),
    ("--maxmem 1", USAGE),
    ("--maxmem 1 -x", USAGE),
    ("--maxmem=1 hash", USAGE),
    ("-k 1 hash", USAGE),
    ("hash other", USAGE),
    ("--maxmem 0 hash", BAD_NUMBER),
    ("--maxmem 4294967296 hash", BAD_NUMBER),
    ("--maxmem +1 hash", BAD_NUMBER),
    ("--maxops 0 hash", BAD_NUMBER),
    ("--maxops 9223372036854775808 hash", BAD_NUMBER),
    ("--maxops 000000000000000000001 hash", BAD_NUMBER),
    ("--maxops x -q hash", BAD_NUMBER),
    ("-q 1 --maxops x hash", USAGE),
];

// Whether words are refused so, and nothing was read.
fn is_unread(alloc: Global, (line, told): (&str, &str)) -> bool {
    let end = End {
        status: 2,
        told,
        left: TWO_PASSES.len(),
    };
    runs(alloc, line, (TWO_PASSES, b"password"), 0, end)
}

#[test]
fn words_that_are_refused(rt: HostRuntime) {
    for row in &WORDS {
        assert_row(&rt, is_unread(rt.alloc(), *row), row.0);
    }
}

// A file whose first line is no hash, and how many of its bytes are left: at most 8,192 are read. The line is told
// before the password is read, which would be too long.
static NO_HASHES: [(&[u8], usize); 10] = [
    (b"", 0),
    (
        b"\n$argon2i$v=19$m=256,t=2,p=1$c29tZXNhbHQ$iekCn0Y3spW+sCcFanM2xBT63UP2sghkUoHLIUpWRS8",
        83,
    ),
    (
        b" $argon2i$v=19$m=256,t=2,p=1$c29tZXNhbHQ$iekCn0Y3spW+sCcFanM2xBT63UP2sghkUoHLIUpWRS8",
        0,
    ),
    (
        b"$argon2i$v=19$m=256,t=2,p=1$c29tZXNhbHQ$iekCn0Y3spW+sCcFanM2xBT63UP2sghkUoHLIUpWRS8 ",
        0,
    ),
    (
        b"$argon2i$v=19$m=256,t=2,p=1$c29tZXNhbHQ$iekCn0Y3spW+sCcFanM2xBT63UP2sghkUoHLIUpWRS8=",
        0,
    ),
    (
        b"$argon2i$v=19$m=0256,t=2,p=1$c29tZXNhbHQ$iekCn0Y3spW+sCcFanM2xBT63UP2sghkUoHLIUpWRS8",
        0,
    ),
    (
        b"argon2$argon2i$v=19$m=256,t=2,p=1$c29tZXNhbHQ$iekCn0Y3spW+sCcFanM2xBT63UP2sghkUoHLIUpWRS8",
        0,
    ),
    (&[b'a'; 8191], 0),
    (&[b'a'; 8192], 0),
    (&[b'a'; 9000], 808),
];

// Whether a file is refused so, before a password that is too long.
fn is_no_hash(alloc: Global, (file, left): (&[u8], usize)) -> bool {
    let end = End {
        status: 2,
        told: NOT_HASH,
        left,
    };
    runs(alloc, "hash", (file, &[b'p'; 4097]), 0, end)
}

#[test]
fn first_lines_that_are_no_hash(rt: HostRuntime) {
    for (at, row) in NO_HASHES.iter().enumerate() {
        assert!(rt; is_no_hash(rt.alloc(), *row), "{at}");
    }
}

// Whether a password that is too long is refused so.
fn is_long(alloc: Global, line: &str, stdin: &[u8], told: &str) -> bool {
    let end = End {
        status: 2,
        told,
        left: 0,
    };
    runs(alloc, line, (TWO_PASSES, stdin), 0, end)
}

#[test]
fn long_passwords(rt: HostRuntime) {
    assert!(rt; is_long(rt.alloc(), "hash", &[b'p'; 4097], LONG_PASSWORD));
    assert!(rt; is_long(rt.alloc(), "hash", &[b'p'; 10000], LONG_PASSWORD));
    // the limits are tested before
    assert!(rt; is_long(rt.alloc(), "--maxops 525 hash", &[b'p'; 4097], WORK_LIMIT));
}

// Whether a run ends so whose file is standard input itself, with this call of the host's failing, or none.
fn is_stdin_refused(alloc: Global, failing: u64, told: &str) -> bool {
    let mut host = new_host(alloc, TWO_PASSES, b"password", [0; 32]);
    host.set_input_is_stdin(true);
    host.fail_at(failing);
    let status = run_line(alloc, "hash", &mut host);
    let end = End {
        status: 2,
        told,
        left: TWO_PASSES.len(),
    };
    let is_so = ends(&host, status, end) && is_under(host.input_name(), "hash") == (failing != 1);
    drop(host);
    is_so
}

// It is opened, and then refused: nothing of it is read.
#[test]
fn standard_input_as_the_file(rt: HostRuntime) {
    assert!(rt; is_stdin_refused(rt.alloc(), 0, STDIN));
    assert!(rt; is_stdin_refused(rt.alloc(), 1, FILE_FAULT));
    assert!(rt; is_stdin_refused(rt.alloc(), 2, FILE_FAULT));
}

// How a run breaks off: the calls are one opening, one that asks whether that is standard input, 83 pulls of a byte,
// one that finds the end, and one secret.
fn broken_off(call: u64) -> End<'static> {
    End {
        status: 2,
        told: if call == 87 {
            PASSWORD_FAULT
        } else {
            FILE_FAULT
        },
        left: 83usize.saturating_sub((call as usize).saturating_sub(3)),
    }
}

// Whether a run ends so, with this call of the host's failing.
fn breaks_off(alloc: Global, call: u64, end: End<'_>) -> bool {
    runs(alloc, "hash", (TWO_PASSES, b"password"), call, end)
}

#[test]
fn each_host_call_fails(rt: HostRuntime) {
    for call in 1..=87u64 {
        assert!(rt; breaks_off(rt.alloc(), call, broken_off(call)), "{call}");
    }
    let right = End {
        status: 0,
        told: "",
        left: 0,
    };
    // there is no further call
    assert!(rt; breaks_off(rt.alloc(), 88, right));
}

// A line that cannot be said is passed over.
#[test]
fn says_nothing(rt: HostRuntime) {
    let silent = End {
        status: 2,
        told: "",
        left: 4,
    };
    assert!(rt; runs(rt.alloc(), "", (b"hash", b""), 1, silent));
}

// What a run leaves that needs memory: its answer, its refusal, its block functions, and the last request.
type Left = (Option<bool>, Option<VerifyRefusal>, Option<Asked>);

const LACKS: Option<VerifyRefusal> = Some(VerifyRefusal::OutOfMemory);

// A file, a password, words, how many requests are granted, and what comes of it.
static REQUESTS: [(&[u8], &[u8], &str, u32, Left); 12] = [
    // the salt, the tag and the matrix are requested, in this order
    (
        TWO_PASSES,
        b"password",
        "hash",
        0,
        (None, LACKS, Some(Asked::Bytes)),
    ),
    (
        TWO_PASSES,
        b"password",
        "hash",
        1,
        (None, LACKS, Some(Asked::Bytes)),
    ),
    (
        TWO_PASSES,
        b"password",
        "hash",
        2,
        (None, LACKS, Some(Asked::Matrix)),
    ),
    (
        TWO_PASSES,
        b"password",
        "hash",
        3,
        (Some(true), None, Some(Asked::Matrix)),
    ),
    (
        TWO_PASSES,
        b"Password",
        "hash",
        3,
        (Some(false), None, Some(Asked::Matrix)),
    ),
    // none before the words and the form of the text are right
    (
        TWO_PASSES,
        b"",
        "--maxmem 0 hash",
        0,
        (None, Some(VerifyRefusal::BadNumber), None),
    ),
    (
        b"$argon2i",
        b"",
        "hash",
        0,
        (None, Some(VerifyRefusal::NotHash), None),
    ),
    // and no matrix before every other refusal is ruled out
    (
        NO_MEMORY,
        b"",
        "hash",
        2,
        (None, Some(VerifyRefusal::OutOfRange), Some(Asked::Bytes)),
    ),
    (NO_MEMORY, b"", "hash", 1, (None, LACKS, Some(Asked::Bytes))),
    (
        LARGE,
        b"",
        "hash",
        2,
        (None, Some(VerifyRefusal::MemoryLimit), Some(Asked::Bytes)),
    ),
    (
        LONG_WORK,
        b"",
        "hash",
        2,
        (None, Some(VerifyRefusal::WorkLimit), Some(Asked::Bytes)),
    ),
    (
        TWO_PASSES,
        &[b'p'; 4097],
        "hash",
        2,
        (None, Some(VerifyRefusal::LongPassword), Some(Asked::Bytes)),
    ),
];

// Whether that comes of a run.
fn is_left(alloc: Global, (file, stdin, line, left, end): (&[u8], &[u8], &str, u32, Left)) -> bool {
    let mut memory = Refusing {
        alloc,
        left,
        last: None,
    };
    let mut host = new_host(alloc, file, stdin, [0; 32]);
    let words = words(alloc, line);
    let told = run_without_report(&mut memory, &words, &mut host, &mut Ticks::new(alloc));
    drop(host);
    told.ok() == end.0 && told.err() == end.1 && memory.last == end.2
}

#[test]
fn each_request_is_refused(rt: HostRuntime) {
    for (at, row) in REQUESTS.iter().enumerate() {
        assert!(rt; is_left(rt.alloc(), *row), "{at}");
    }
}

// The file is opened by its name, and nothing else.
fn opens_its_name(alloc: Global) -> bool {
    let mut host = new_host(alloc, TWO_PASSES, b"password", [0; 32]);
    let status = run_line(alloc, "--maxops 526 a/hash", &mut host);
    let is_so = status == 0 && is_under(host.input_name(), "a/hash");
    drop(host);
    is_so
}

#[test]
fn the_file_is_opened_by_its_name(rt: HostRuntime) {
    assert!(rt; opens_its_name(rt.alloc()));
}
