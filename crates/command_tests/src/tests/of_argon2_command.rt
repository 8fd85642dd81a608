//! Whole runs over a host in memory. Hashes come from the reference program, as `printf password | argon2 ..` with the
//! words of the row gives them; its report on standard output is what a run writes.
mod refusing;

ghost use Rattle.std.specs.Prelude.{◌^◌, ◌<◌};
ghost use Rattle.host.specs.Faults.{AreBelow};
ghost use Rattle.memory_host.specs.Memory.{memory_host_failure_counts, memory_host_state};
ghost use Rattle.host.specs.HostState.{IsUnasked};

use self::refusing::{Asked, Refusing};
use crate::fixtures::{assert_row, new_host, says, words};
use argon::Ticks;
use argon2_command::{Argon2Refusal, argon2, run_without_report};
use memory_host::MemoryHost;
use std::alloc::Global;
use std::process::Abort;

const USAGE: &str =
    "argon2: usage: argon2 salt [-i|-d|-id] [-t N] [-m N | -k N] [-p N] [-l N] [-v VERSION] [--maxmem KIB] [--maxops N] (-e|-r)";

const UNKNOWN_WORD: &str = "argon2: unknown word";

const MISSING_VALUE: &str = "argon2: missing value";

const BAD_NUMBER: &str = "argon2: bad number";

const ONE_FORM: &str = "argon2: exactly one of -e and -r is needed";

const PASSES: &str = "argon2: passes out of range";

const LANES: &str = "argon2: lanes out of range";

const MEMORY: &str = "argon2: memory out of range";

const TAG: &str = "argon2: tag length out of range";

const SALT: &str = "argon2: salt length out of range";

const MEMORY_LIMIT: &str = "argon2: more memory needed than --maxmem allows";

const WORK_LIMIT: &str = "argon2: more work needed than --maxops allows";

const PASSWORD_FAULT: &str = "argon2: password cannot be read";

const EMPTY_PASSWORD: &str = "argon2: password is empty";

const LONG_PASSWORD: &str = "argon2: password is longer than 127 bytes";

const OUTPUT_FAULT: &str = "argon2: output cannot be written";

// somesalt -t 2 -m 8 -e
const TWO_PASSES: &str =
    "$argon2i$v=19$m=256,t=2,p=1$c29tZXNhbHQ$iekCn0Y3spW+sCcFanM2xBT63UP2sghkUoHLIUpWRS8";
// somesalt -d -t 1 -k 8 -e
const ONE_PASS: &str =
    "$argon2d$v=19$m=8,t=1,p=1$c29tZXNhbHQ$xRnmA6xgPsGutbcexEpheePzl1sUwMl+ORTHnmNj4Xg";

// Words and what standard output gets before its line feed.
static HASHES: [(&str, &str); 21] = [
    ("somesalt -t 2 -m 8 -e", TWO_PASSES),
    ("somesalt -i -v 13 -p 1 -l 32 -t 2 -m 8 -e -e", TWO_PASSES),
    (
        "somesalt -t 2 -m 8 -id -p 2 -r",
        "6d093c501fd5999645e0ea3bf620d7b8be7fd2db59c20d9fff9539da2bf57037",
    ),
    // The last of several items of one setting counts.
    (
        "somesalt -d -i -id -t 2 -k 256 -e",
        "$argon2id$v=19$m=256,t=2,p=1$c29tZXNhbHQ$nf65EOgLrQMR/uIPnA4rEsF5h7TKyQwu9U1bMCHGi/4",
    ),
    ("somesalt -k 9 -t 3 -d -k 1 -m 8 -i -t 2 -e", TWO_PASSES),
    // The text and the hash hold the memory as it was given.
    (
        "somesalt -k 9 -e",
        "$argon2i$v=19$m=9,t=3,p=1$c29tZXNhbHQ$uk2GKHVEp18xwFV6bOewvUP04qFpfgNxLmfLzsueeAk",
    ),
    (
        "somesalt -k 8 -e",
        "$argon2i$v=19$m=8,t=3,p=1$c29tZXNhbHQ$eYtl4kn8J9RfK5/tnJCvOs6vlxOOPxzSdZ/LgkOiLAU",
    ),
    (
        "somesalt -k 16 -p 2 -e",
        "$argon2i$v=19$m=16,t=3,p=2$c29tZXNhbHQ$24eT3AX/iDMzPTe9loQOvkEP7hF58GzpyCCs0BF+5rs",
    ),
    (
        "somesalt -t 4 -k 64 -p 4 -id -e",
        "$argon2id$v=19$m=64,t=4,p=4$c29tZXNhbHQ$tjztuWpocHTJWLeQzJY7LOJ0NORGy0BdK1HhISmcaaY",
    ),
    ("somesalt -t 1 -k 8 -l 4 -r", "26929ef3"),
    (
        "sälzchen -t 1 -k 8 -e",
        "$argon2i$v=19$m=8,t=1,p=1$c8OkbHpjaGVu$PVic5V0UwmNLp4Bc+pv7oDiJmajIsqPJOT/kJQiTvGE",
    ),
    ("somesalt -d -t 1 -k 8 -e", ONE_PASS),
    // Leading zeros; eight blocks less the first two, and no address block.
    (
        "somesalt -d -t 00000000000000000001 -k 8 -e --maxops 6",
        ONE_PASS,
    ),
    ("somesalt -d -t 1 -k 8 -e --maxmem 8", ONE_PASS),
    // Two times 256 blocks less the first two, and 8 segments with two address blocks each.
    ("somesalt -t 2 -m 8 -e --maxops 526", TWO_PASSES),
    ("somesalt -t 2 -m 8 -e --maxmem 256", TWO_PASSES),
    // The version before RFC 9106.
    (
        "somesalt -t 2 -m 8 -v 10 -r",
        "fd4dd83d762c49bdeaf57c47bdcd0c2f1babf863fdeb490df63ede9975fccf06",
    ),
    (
        "somesalt -t 2 -m 8 -v 10 -e",
        "$argon2i$v=16$m=256,t=2,p=1$c29tZXNhbHQ$/U3YPXYsSb3q9XxHvc0MLxur+GP960kN9j7emXX8zwY",
    ),
    (
        "somesalt -v 13 -id -t 3 -k 64 -p 4 -l 6 -v 10 -e",
        "$argon2id$v=16$m=64,t=3,p=4$c29tZXNhbHQ$3H/HyDRR",
    ),
    ("somesalt -v 10 -t 2 -m 8 -v 13 -e", TWO_PASSES),
    // More than 64 MiB.
    (
        "somesalt -d -t 1 -k 65540 -r",
        "6c51226ce388e165ceaa1c9b5e0646e1bd532392cbf72680d8a8e71c00a35c2f",
    ),
];

// Words and the line of their refusal.
static REFUSALS: [(&str, &str); 50] = [
    ("", USAGE),
    ("-h", USAGE),
    ("-h -q", USAGE),
    ("somesalt -h", USAGE),
    ("somesalt -e -h -q -t", USAGE),
    ("somesalt -q -h", UNKNOWN_WORD),
    ("somesalt other -e", UNKNOWN_WORD),
    ("somesalt -E", UNKNOWN_WORD),
    ("somesalt -t3 -e", UNKNOWN_WORD),
    ("somesalt --maxmem=8 -e", UNKNOWN_WORD),
    ("somesalt -e -t", MISSING_VALUE),
    ("somesalt --maxops", MISSING_VALUE),
    ("somesalt -t x -q", BAD_NUMBER),
    ("somesalt -t -e", BAD_NUMBER),
    ("somesalt -t +1 -e", BAD_NUMBER),
    ("somesalt -t 000000000000000000001 -e", BAD_NUMBER),
    ("somesalt -t 4294967296 -e", BAD_NUMBER),
    ("somesalt -k 99999999999999999999 -e", BAD_NUMBER),
    ("somesalt -m 0 -e", BAD_NUMBER),
    ("somesalt -m 32 -e", BAD_NUMBER),
    ("somesalt -v 16 -e", BAD_NUMBER),
    ("somesalt -v 010 -e", BAD_NUMBER),
    ("somesalt -v 11 -e", BAD_NUMBER),
    ("somesalt -v 19 -e", BAD_NUMBER),
    ("somesalt -v 013 -e", BAD_NUMBER),
    ("somesalt --maxmem 0 -e", BAD_NUMBER),
    ("somesalt --maxmem 4294967296 -e", BAD_NUMBER),
    ("somesalt --maxops 0 -e", BAD_NUMBER),
    ("somesalt --maxops 9223372036854775808 -e", BAD_NUMBER),
    // A faulty item decides also where a later one sets the same.
    ("somesalt -t x -t 1 -e", BAD_NUMBER),
    ("somesalt -e -r", ONE_FORM),
    ("somesalt", ONE_FORM),
    ("somesalt -d -t 1 -k 8", ONE_FORM),
    ("somesalt -t 0 -e", PASSES),
    ("seven77 -t 0 -p 0 -l 3 -e", PASSES),
    ("somesalt -p 0 -e", LANES),
    ("somesalt -p 16777216 -e", LANES),
    ("somesalt -k 7 -e", MEMORY),
    ("somesalt -d -t 1 -k 7 -e", MEMORY),
    ("somesalt -k 15 -p 2 -e", MEMORY),
    ("somesalt -l 3 -e", TAG),
    ("seven77 -l 4097 -e", TAG),
    ("seven77 -e", SALT),
    ("somesalt -t 2 -m 8 -e --maxmem 255", MEMORY_LIMIT),
    ("somesalt -d -t 1 -k 8 -e --maxmem 7", MEMORY_LIMIT),
    (
        "somesalt -d -t 1 -k 8 -e --maxmem 7 --maxops 5",
        MEMORY_LIMIT,
    ),
    // 2^31 KiB are above the greatest memory where none is given.
    ("somesalt -m 31 -e", MEMORY_LIMIT),
    ("somesalt -t 2 -m 8 -e --maxops 525", WORK_LIMIT),
    ("somesalt -d -t 1 -k 8 -e --maxops 5", WORK_LIMIT),
    ("somesalt -t 4294967295 -e", WORK_LIMIT),
];

// The status of a run of the words of a line.
fn run_line(alloc: Global, line: &str, host: &mut MemoryHost) -> u8
    requires room { AreBelow (2 ^ 63) (memory_host_failure_counts host.old) }
    requires fresh { IsUnasked (memory_host_state host.old) }
{
    argon2(alloc, &words(alloc, line), host)
}

// How a run ends: its status, its line, or no text where it says none, what was written, without the line feed that
// status 0 has, and whether standard output was opened.
#[derive(Clone, Copy, Drop)]
struct End<'a> {
    status: u8,
    told: &'a str,
    written: &'a [u8],
    is_opened: bool,
}

// The end of a run that writes this text and a line feed, or is refused by a line before its output is opened.
fn end_of<'a>(text: &'a str, told: &'a str) -> End<'a> {
    End {
        status: u8::from(!told.is_empty()),
        told,
        written: text.as_bytes(),
        is_opened: told.is_empty(),
    }
}

// What was written, without the line feed that status 0 has.
fn text_written(host: &MemoryHost, status: u8) -> Option<&[u8]> {
    if status == 0 {
        host.output().strip_suffix(b"\n")
    } else {
        Some(host.output())
    }
}

// Whether that is all that came to the host.
fn ends(host: &MemoryHost, status: u8, end: End<'_>) -> bool {
    status == end.status
        && says(host, end.told)
        && text_written(host, status) == Some(end.written)
        && host.output_name() == end.is_opened.then_some(None)
        && host.input_name().is_none()
}

// Whether the words end so over a host that gives this standard input, takes so many bytes at a push, and fails at this
// call, or at none.
fn runs(
    alloc: Global,
    line: &str,
    stdin: &[u8],
    (push, failing): (usize, u64),
    end: End<'_>,
) -> bool {
    let mut host = new_host(alloc, b"", stdin, [0; 32]);
    host.set_sizes(1, push.max(1));
    host.fail_at(failing);
    let status = run_line(alloc, line, &mut host);
    let is_so = ends(&host, status, end);
    drop(host);
    is_so
}

// Fails with the words of a row that do not end so.
fn assert_run(rt: &impl Abort, alloc: Global, line: &str, stdin: &[u8], end: End<'_>) {
    let is_so = runs(alloc, line, stdin, (usize::MAX, 0), end);
    assert_row(rt, is_so, line);
}

#[test]
fn hashes(rt: HostRuntime) {
    for (line, text) in &HASHES {
        assert_run(&rt, rt.alloc(), line, b"password", end_of(text, ""));
    }
}

#[test]
fn refusals(rt: HostRuntime) {
    for (line, told) in &REFUSALS {
        assert_run(&rt, rt.alloc(), line, b"password", end_of("", told));
    }
}

// Words, a standard input, what is written before a line feed, and the line of a refusal. The password is all of standard input: 1 to 127 bytes, of which none is
// special.
static PASSWORDS: [(&str, &[u8], &str, &str); 6] = [
    // head -c 127 /dev/zero | tr '\0' a | argon2 somesalt -t 2 -m 8 -e
    (
        "somesalt -t 2 -m 8 -e",
        &[b'a'; 127],
        "$argon2i$v=19$m=256,t=2,p=1$c29tZXNhbHQ$3SM658khyO9aPcqqhCED4x7ArKLkDOScE0pcsllZ2a8",
        "",
    ),
    // printf 'pass\nword\n' | argon2 somesalt -t 1 -k 8 -e
    (
        "somesalt -t 1 -k 8 -e",
        b"pass\nword\n",
        "$argon2i$v=19$m=8,t=1,p=1$c29tZXNhbHQ$XAmIu7d+PoYy1k99lTH9FPxow2atK+jpBF/mZ8FOh1Y",
        "",
    ),
    ("somesalt -t 2 -m 8 -e", &[b'a'; 128], "", LONG_PASSWORD),
    ("somesalt -d -t 1 -k 8 -e", b"", "", EMPTY_PASSWORD),
    // It is read after the words and before the ranges.
    ("somesalt -t 0 -e", b"", "", EMPTY_PASSWORD),
    ("somesalt -t x -e", b"", "", BAD_NUMBER),
];

#[test]
fn passwords(rt: HostRuntime) {
    for (line, stdin, text, told) in &PASSWORDS {
        assert_run(&rt, rt.alloc(), line, stdin, end_of(text, told));
    }
}

// How a run breaks off that takes one byte a push: the calls are one secret, one opening, and a push for each of the 84
// bytes.
fn broken_off(call: u64) -> End<'static> {
    let pushed = call.saturating_sub(3) as usize;
    End {
        status: 1,
        told: if call == 1 {
            PASSWORD_FAULT
        } else {
            OUTPUT_FAULT
        },
        written: TWO_PASSES.as_bytes().get(..pushed).unwrap_or(&[]),
        is_opened: call > 2,
    }
}

// Whether a run ends so, with this call of the host's failing.
fn breaks_off(alloc: Global, call: u64, end: End<'_>) -> bool {
    runs(alloc, "somesalt -t 2 -m 8 -e", b"password", (1, call), end)
}

#[test]
fn each_host_call_fails(rt: HostRuntime) {
    for call in 1..=86u64 {
        assert!(rt; breaks_off(rt.alloc(), call, broken_off(call)), "{call}");
    }
    // there is no further call
    assert!(rt; breaks_off(rt.alloc(), 87, end_of(TWO_PASSES, "")));
}

// The end of a run that says and writes nothing, and does not succeed.
const SILENT: End<'static> = End {
    status: 1,
    told: "",
    written: b"",
    is_opened: false,
};

// A line that cannot be said is passed over.
#[test]
fn says_nothing(rt: HostRuntime) {
    assert!(rt; runs(rt.alloc(), "", b"", (1, 1), SILENT));
    assert!(rt; runs(rt.alloc(), "somesalt -e", b"", (1, 2), SILENT));
}

// Whether the output is that of a tag of 4,096 bytes with these first and last 32 bytes.
fn is_longest(host: &MemoryHost, first: &[u8], last: &[u8]) -> bool {
    host.output().len() == 8193 && host.output().starts_with(first) && host.output().ends_with(last)
}

// Whether the longest tag has these first and last 32 bytes.
fn has_longest_tag(alloc: Global, first: &[u8], last: &[u8]) -> bool {
    let mut host = new_host(alloc, b"", b"password", [0; 32]);
    let status = run_line(alloc, "somesalt -d -t 1 -k 8 -l 4096 -r", &mut host);
    let is_so = is_longest(&host, first, last);
    drop(host);
    status == 0 && is_so
}

// As the reference program gives them.
#[test]
fn longest_tag(rt: HostRuntime) {
    let first = b"11164024bbb98e6e90b14957a1d51417df657057e0c245f9359366d794eb5f63";
    let last = b"b4e4162facc1fd3b88e73741e49c9fa04069973a7ee3fb65bcfef1cd394250e0\n";
    assert!(rt; has_longest_tag(rt.alloc(), first, last));
}

const REFUSED: Option<Argon2Refusal> = Some(Argon2Refusal::OutOfMemory);

// Words, how many requests are granted, the refusal, and the last request.
static REQUESTS: [(&str, u32, Option<Argon2Refusal>, Option<Asked>); 10] = [
    ("somesalt -t 2 -m 8 -e", 0, REFUSED, Some(Asked::Zeros)),
    ("somesalt -t 2 -m 8 -e", 1, REFUSED, Some(Asked::Line)),
    ("somesalt -t 2 -m 8 -e", 2, REFUSED, Some(Asked::Matrix)),
    ("somesalt -t 2 -m 8 -e", 3, None, Some(Asked::Matrix)),
    ("somesalt -t 2 -m 8 -r", 2, REFUSED, Some(Asked::Matrix)),
    ("somesalt -t 2 -m 8 -r", 3, None, Some(Asked::Matrix)),
    ("somesalt -e -t", 0, Some(Argon2Refusal::MissingValue), None),
    ("seven77 -e", 0, Some(Argon2Refusal::SaltLength), None),
    (
        "somesalt -t 2 -m 8 -e --maxmem 255",
        0,
        Some(Argon2Refusal::MemoryLimit),
        None,
    ),
    (
        "somesalt -t 2 -m 8 -e --maxops 525",
        0,
        Some(Argon2Refusal::WorkLimit),
        None,
    ),
];

// Whether a run to which so many requests are granted ends in this refusal, with this as its last request, and with its
// output opened if there is none.
fn is_answer(
    alloc: Global,
    (line, left, refusal, last): (&str, u32, Option<Argon2Refusal>, Option<Asked>),
) -> bool {
    let mut memory = Refusing {
        alloc,
        left,
        last: None,
    };
    let mut host = new_host(alloc, b"", b"password", [0; 32]);
    let words = words(alloc, line);
    let told = run_without_report(&mut memory, &words, &mut host, &mut Ticks::new(alloc)).err();
    let is_opened = host.output_name().is_some();
    drop(host);
    told == refusal && memory.last == last && is_opened == refusal.is_none()
}

// The tag, the line and the matrix are the requests, in this order and after every other refusal: so the hash, which
// needs the matrix, comes after them all, and nothing is asked for after it.
#[test]
fn each_request_is_refused(rt: HostRuntime) {
    for row in &REQUESTS {
        assert_row(&rt, is_answer(rt.alloc(), *row), row.0);
    }
}
