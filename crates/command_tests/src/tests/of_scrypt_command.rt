//! Whole runs over a host in memory. The two files were made by Python's hashlib.scrypt and hmac with OpenSSL's
//! aes-256-ctr, and scrypt(1) 1.3.1 opens them.
ghost use Rattle.std.specs.Prelude.{◌^◌};
ghost use Rattle.host.specs.Faults.{AreBelow};
ghost use Rattle.memory_host.specs.Memory.{memory_host_failure_counts, memory_host_state};
ghost use Rattle.host.specs.HostState.{IsUnasked};

use crate::fixtures::{assert_row, list, new_host, says, text, words};
use memory_host::MemoryHost;
use scrypt_command::scrypt;
use std::alloc::Global;
use std::process::Abort;

// The file of no text. The passphrase is `pw`, N is 16, r and p are 1, and the salt is 0 to 31.
const NO_TEXT: &str =
    "73637279707400040000000100000001000102030405060708090a0b0c0d0e0f101112131415161718191a1b1c1d1e1f1d82fc58a29c853312a1e6a48fe98f8b051b8b6444079bef986b3d3c6d1df86cf5c61735c73ccf3a91c00c4042fac38a5bb3efa8e3ab1f98f2a734df4bdefbb608eb96705dc5ac5de43edab725b2541a";

// The same of `hello`.
const HELLO: &str =
    "73637279707400040000000100000001000102030405060708090a0b0c0d0e0f101112131415161718191a1b1c1d1e1f1d82fc58a29c853312a1e6a48fe98f8b051b8b6444079bef986b3d3c6d1df86cf5c61735c73ccf3a91c00c4042fac38aa3ca5b5806faf691951296a9925e754d1b00d8f6acaa79868e221cd3c40efb4bdd9ffb35b8";

// log2 N is 63, r and p are 1; the checksum, by Python's hashlib, is right, and no code is.
const HUGE: &str =
    "736372797074003f0000000100000001000102030405060708090a0b0c0d0e0f101112131415161718191a1b1c1d1e1f40cba48f28836f5dec7b1f652ea524b40000000000000000000000000000000000000000000000000000000000000000";

const NEW_FILE: &str =
    "enc --logN 4 -r 1 -p 1 --salt 000102030405060708090a0b0c0d0e0f101112131415161718191a1b1c1d1e1f --passphrase file:pw - out";

const HOST_SALT: &str = "enc --logN 4 -r 1 -p 1 -P in";

const OPEN: &str = "dec --passphrase file:pw F5 out";

const USAGE: &str = "scrypt: usage: scrypt enc|dec|info [options] infile [outfile]";

const SOME_COSTS: &str = "scrypt: --logN, -r and -p are given together or not at all";

const STDIN_TWICE: &str = "scrypt: passphrase and input cannot both come from standard input";

const SAME_NAME: &str = "scrypt: infile and outfile have the same name";

const ONE_SOURCE: &str =
    "scrypt: one passphrase source is needed: -P, dev:stdin-once, env:NAME or file:NAME";

const NO_PASSPHRASE: &str = "scrypt: passphrase cannot be read";

const LONG_PASSPHRASE: &str = "scrypt: passphrase is longer than 2048 bytes";

const NOT_SCRYPT: &str = "scrypt: not valid scrypt data";

const VERSION: &str = "scrypt: unsupported format version";

const MEMORY_LIMIT: &str = "scrypt: more memory needed than -M allows";

const WORK_LIMIT: &str = "scrypt: more work needed than --maxops allows";

const OTHER_PASSPHRASE: &str = "scrypt: wrong passphrase";

const DAMAGED: &str = "scrypt: input is damaged or cut short";

const INPUT_FAULT: &str = "scrypt: input cannot be opened or read";

const OUTPUT_FAULT: &str = "scrypt: output cannot be opened or written";

const NO_SALT: &str = "scrypt: no salt can be read";

const KEEP_OUT_OF_RANGE: &str = "scrypt: --keep takes a power of two from 1 to 1024";

const KEEP_ABOVE_N: &str = "scrypt: --keep is larger than N";

// The file of these digits.
fn decoded(alloc: Global, digits: &str) -> Vec<u8> {
    hex::decode(alloc, digits).unwrap_or(Vec::new(alloc))
}

// 0 to 31.
const SALT: [u8; 32] = [
    0, 1, 2, 3, 4, 5, 6, 7, 8, 9, 10, 11, 12, 13, 14, 15, 16, 17, 18, 19, 20, 21, 22, 23, 24, 25,
    26, 27, 28, 29, 30, 31,
];

// A host with this input, with a passphrase in the file `pw` and the variable PW, and with `pw` and a line end at the
// beginning of standard input.
fn host_with(alloc: Global, input: &[u8], passphrase: &[u8]) -> MemoryHost
    ensures room { AreBelow (2 ^ 63) (memory_host_failure_counts result) }
    ensures fresh { IsUnasked (memory_host_state result) }
{
    let mut host = new_host(alloc, input, b"pw\nmore", SALT);
    let _ = host.set_file(text(alloc, "pw"), list(alloc, passphrase));
    let _ = host.set_env(text(alloc, "PW"), list(alloc, passphrase));
    host
}

// How a run ends: its status, its line, or no text where it says none, what was written, and whether the output was
// opened.
#[derive(Clone, Copy, Drop)]
struct End<'a> {
    status: u8,
    told: &'a str,
    output: &'a [u8],
    is_opened: bool,
}

// Fails with a number of a row that is not so.
fn assert_number(rt: &impl Abort, is_so: bool, number: u64) {
    assert!(rt; is_so, "{number}");
}

// The end of a run that writes this, or is refused by a line before its output is opened.
fn end_of<'a>(output: &'a [u8], told: &'a str) -> End<'a> {
    End {
        status: u8::from(!told.is_empty()),
        told,
        output,
        is_opened: told.is_empty(),
    }
}

// The line of a refusal, how much was written before it, and whether the output was opened.
type Broken = (&'static str, usize, bool);

// The end of a run that would have written the whole.
fn broken_off<'a>((told, written, is_opened): Broken, whole: &'a [u8]) -> End<'a> {
    End {
        status: 1,
        told,
        output: whole.get(..written).unwrap_or(&[]),
        is_opened,
    }
}

// Whether this is all that came to the host.
fn ends(host: &MemoryHost, status: u8, end: End<'_>) -> bool {
    status == end.status
        && host.output() == end.output
        && host.output_name().is_some() == end.is_opened
        && says(host, end.told)
}

// The status of a run of the words of a line.
fn run_line(alloc: Global, line: &str, host: &mut MemoryHost) -> u8
    requires room { AreBelow (2 ^ 63) (memory_host_failure_counts host.old) }
    requires fresh { IsUnasked (memory_host_state host.old) }
{
    scrypt(alloc, &words(alloc, line), host)
}

// At most how many bytes a host gives at a pull and takes at a push, and its call that fails, or 0.
type Trouble = (usize, usize, u64);

const NO_TROUBLE: Trouble = (usize::MAX, usize::MAX, 0);

// Whether the words end so over a host with this passphrase, input and trouble.
fn runs_with(
    alloc: Global,
    line: &str,
    (passphrase, input): (&[u8], &[u8]),
    (pull, push, call): Trouble,
    end: End<'_>,
) -> bool {
    let mut host = host_with(alloc, input, passphrase);
    host.set_sizes(pull.max(1), push.max(1));
    host.fail_at(call);
    let status = run_line(alloc, line, &mut host);
    let is_so = ends(&host, status, end);
    drop(host);
    is_so
}

// Whether a run of the words with this passphrase and trouble makes a file of the text.
fn makes(
    alloc: Global,
    (line, passphrase): (&str, &[u8]),
    (text, file): (&[u8], &str),
    trouble: Trouble,
) -> bool {
    let file = decoded(alloc, file);
    runs_with(alloc, line, (passphrase, text), trouble, end_of(&file, ""))
}

// Whether the words end so over a file.
fn runs(alloc: Global, line: &str, passphrase: &[u8], file: &str, end: End<'_>) -> bool {
    let file = decoded(alloc, file);
    runs_with(alloc, line, (passphrase, &file), NO_TROUBLE, end)
}

// Words, a passphrase, what is written by a run with status 0, and the line of a refusal.
type RunCase = (&'static str, &'static [u8], &'static [u8], &'static str);

// Whether the file of `hello` ends as each row of a table says.
fn assert_rows(rt: &impl Abort, alloc: Global, rows: &[RunCase]) {
    for (line, passphrase, output, told) in rows {
        let is_so = runs(alloc, line, passphrase, HELLO, end_of(output, told));
        assert_row(rt, is_so, line);
    }
}

// Words and passphrases that make a file. The salt of the host is the one that the words give.
static MAKERS: [(&str, &[u8]); 4] = [
    (NEW_FILE, b"pw\n"),
    ("enc --logN 4 -r 1 -p 1 -P in", b""),
    ("enc --logN 4 -r 1 -p 1 --keep 16 -P in", b""),
    ("enc --logN 4 -r 1 -p 1 --keep 2 -P in", b""),
];

const SHOWN: &[u8] = b"N = 16; r = 1; p = 1; memory = 2048; cores = 64\n";

// Whether a file is shown, and opened.
fn is_opened(alloc: Global, text: &[u8], file: &str) -> bool {
    runs(alloc, "info F5", b"", file, end_of(SHOWN, ""))
        && runs(alloc, OPEN, b"pw\n", file, end_of(text, ""))
}

#[test]
fn files(rt: HostRuntime) {
    for maker in &MAKERS {
        let makes_no_text = makes(rt.alloc(), *maker, (b"", NO_TEXT), NO_TROUBLE);
        let makes_hello = makes(rt.alloc(), *maker, (b"hello", HELLO), NO_TROUBLE);
        assert_row(&rt, makes_no_text && makes_hello, maker.0);
    }
    assert!(rt; is_opened(rt.alloc(), b"", NO_TEXT));
    assert!(rt; is_opened(rt.alloc(), b"hello", HELLO));
}

// Whether `dec` of the file of `hello` ends so over a host with this passphrase and trouble.
fn dec_ends(alloc: Global, passphrase: &[u8], trouble: Trouble, end: End<'_>) -> bool {
    let file = decoded(alloc, HELLO);
    runs_with(alloc, OPEN, (passphrase, &file), trouble, end)
}

// At most how many bytes a pull and a push take.
static SIZES: [(usize, usize); 3] = [(3, 100), (200, 7), (5000, 5000)];

// Whether the file of `hello` is made, with a salt that is given and with the host's, and opened, with this trouble.
fn is_there_and_back(alloc: Global, trouble: Trouble) -> bool {
    makes(alloc, (NEW_FILE, b"pw\n"), (b"hello", HELLO), trouble)
        && makes(alloc, (HOST_SALT, b""), (b"hello", HELLO), trouble)
        && dec_ends(alloc, b"pw\n", trouble, end_of(b"hello", ""))
}

#[test]
fn sizes_of_pulls_and_pushes(rt: HostRuntime) {
    for (pull, push) in &SIZES {
        assert!(rt; is_there_and_back(rt.alloc(), (*pull, *push, 0)));
    }
}

// Lengths of a file that is cut, and how `dec` ends.
static CUTS: [(usize, Broken); 6] = [
    (132, (DAMAGED, 4, true)),
    (130, (DAMAGED, 2, true)),
    (127, (DAMAGED, 0, true)),
    (96, (DAMAGED, 0, true)),
    (95, (NOT_SCRYPT, 0, false)),
    (0, (NOT_SCRYPT, 0, false)),
];

// Whether `dec` of a file breaks off so.
fn breaks_off(alloc: Global, file: &[u8], how: Broken) -> bool {
    let end = broken_off(how, b"hello\t");
    runs_with(alloc, OPEN, (b"pw\n", file), NO_TROUBLE, end)
}

// Whether it does where the file of `hello` has this length, by a cut or by zero bytes after it.
fn breaks_off_at(alloc: Global, length: usize, how: Broken) -> bool {
    let mut file = decoded(alloc, HELLO);
    let _ = file.resize(length, 0);
    breaks_off(alloc, &file, how)
}

#[test]
fn files_that_are_cut(rt: HostRuntime) {
    for (length, how) in &CUTS {
        assert_number(
            &rt,
            breaks_off_at(rt.alloc(), *length, *how),
            *length as u64,
        );
    }
}

// The last 32 bytes are no code, and the byte before them is released: a tab, by openssl's aes-256-ctr.
#[test]
fn file_that_is_longer(rt: HostRuntime) {
    assert!(rt; breaks_off_at(rt.alloc(), 134, (DAMAGED, 6, true)));
}

// Places of a byte that is changed in the file of `hello`, and how `dec` ends.
static CHANGES: [(usize, Broken); 5] = [
    (0, (NOT_SCRYPT, 0, false)),
    (6, (VERSION, 0, false)),
    (20, (NOT_SCRYPT, 0, false)),
    (64, (OTHER_PASSPHRASE, 0, false)),
    (132, (DAMAGED, 5, true)),
];

// Whether `dec` ends so.
fn is_noticed(alloc: Global, place: usize, how: Broken) -> bool {
    let mut file = decoded(alloc, HELLO);
    if let Some(byte) = file.get_mut(place) {
        *byte ^= 1;
    }
    breaks_off(alloc, &file, how)
}

#[test]
fn files_that_are_changed(rt: HostRuntime) {
    for (place, how) in &CHANGES {
        assert_number(&rt, is_noticed(rt.alloc(), *place, *how), *place as u64);
    }
}

// More memory or work than a run may take, and tables of which less is kept.
static LIMITS: [RunCase; 21] = [
    ("dec -M 2048 --maxops 64 -P F5", b"", b"hello", ""),
    ("dec -M 2047 -P F5", b"", b"", MEMORY_LIMIT),
    ("dec --maxops 63 -P F5", b"", b"", WORK_LIMIT),
    ("dec -M 2047 --maxops 63 -P F5", b"", b"", MEMORY_LIMIT),
    (
        "enc --logN 4 -r 1 -p 1 -M 2047 -P F5",
        b"",
        b"",
        MEMORY_LIMIT,
    ),
    (
        "enc --logN 4 -r 1 -p 1 --maxops 63 -P F5",
        b"",
        b"",
        WORK_LIMIT,
    ),
    // 2^17 rows of 1,024 bytes
    ("enc -M 134217727 -P F5", b"", b"", MEMORY_LIMIT),
    ("enc --maxops 4194303 -P F5", b"", b"", WORK_LIMIT),
    // 2^60 and 2^73 bytes
    ("enc --logN 50 -r 8 -p 1 -P F5", b"", b"", MEMORY_LIMIT),
    ("enc --logN 63 -r 8 -p 1 -P F5", b"", b"", MEMORY_LIMIT),
    // 16 / S rows of 128 bytes, and 32 * (1 + S) cores
    ("dec --keep 4 -M 512 --maxops 160 -P F5", b"", b"hello", ""),
    ("dec --keep 4 -M 511 -P F5", b"", b"", MEMORY_LIMIT),
    ("dec --keep 4 --maxops 159 -P F5", b"", b"", WORK_LIMIT),
    ("dec --keep 16 -M 128 --maxops 544 -P F5", b"", b"hello", ""),
    (
        "dec --keep 32 -M 1 --maxops 1 -P F5",
        b"",
        b"",
        KEEP_ABOVE_N,
    ),
    (
        "enc --logN 4 -r 1 -p 1 --keep 32 -M 1 -P F5",
        b"",
        b"",
        KEEP_ABOVE_N,
    ),
    ("dec --keep 0 -P F5", b"", b"", KEEP_OUT_OF_RANGE),
    ("dec --keep 3 -P F5", b"", b"", KEEP_OUT_OF_RANGE),
    ("dec --keep 2048 -P F5", b"", b"", KEEP_OUT_OF_RANGE),
    ("dec --keep x -P F5", b"", b"", USAGE),
    // the whole table by its number
    ("dec --keep 1 -M 512 -P F5", b"", b"", MEMORY_LIMIT),
];

#[test]
fn limits(rt: HostRuntime) {
    assert_rows(&rt, rt.alloc(), &LIMITS);
}

const HUGE_SHOWN: &[u8] =
    b"N = 9223372036854775808; r = 1; p = 1; memory = 1180591620717411303424; cores = 36893488147419103232\n";

// Whether a file with those costs is shown, and not opened.
fn is_shown_alone(alloc: Global) -> bool {
    let open = "dec -M 1099511627776 --maxops 9223372036854775807 --passphrase file:missing huge";
    let open_sparse = "dec --keep 1024 --passphrase file:missing huge";
    runs(alloc, "info huge", b"", HUGE, end_of(HUGE_SHOWN, ""))
        && runs(alloc, open, b"", HUGE, end_of(b"", MEMORY_LIMIT))
        && runs(alloc, open_sparse, b"", HUGE, end_of(b"", MEMORY_LIMIT))
}

// Costs that are in range, and that no machine has. They are refused before the passphrase, which is not there, is asked
// for.
#[test]
fn greatest_costs(rt: HostRuntime) {
    assert!(rt; is_shown_alone(rt.alloc()));
}

// The file of `hello` with r 40, made as the others were,
const WIDE_FILE: &str =
    "73637279707400040000002800000001000102030405060708090a0b0c0d0e0f101112131415161718191a1b1c1d1e1f9a994128cda79f2a35a1820ea9d9efe02a345a5a629ad2e35c30398810c372147b5920868feaa0946b9b4204428082ea5931df181617addefd23275accb056ecd25d4bc1f8122aadd1bf95e648f61734c522f3e443";

// and that with log2 N 17 and r 5, whose table has 80 MiB.
const LARGE_FILE: &str =
    "73637279707400110000000500000001000102030405060708090a0b0c0d0e0f101112131415161718191a1b1c1d1e1f7eaee8c998cf8a73a11ce408cbe48bc068de719286582072ef932d19bda0e3a7ebd092d26231e60e27af25a84ba0b761eaba7e0ba0fd0713ba35e4ad9ff178ede110d7e427552f23696f52d95a07c965c7bca5bb3e";

// Whether the first is made, and opened with one row of its table, of 5,120 bytes, at 8.5 times the cores; and the second
// is made.
fn are_made(alloc: Global) -> bool {
    let make_wide = ("enc --logN 4 -r 40 -p 1 -P in", b"".as_slice());
    let make_large = ("enc --logN 17 -r 5 -p 1 -P in", b"".as_slice());
    let open_wide = "dec --keep 16 -M 5120 --maxops 21760 -P F";
    makes(alloc, make_wide, (b"hello", WIDE_FILE), NO_TROUBLE)
        && runs(alloc, open_wide, b"", WIDE_FILE, end_of(b"hello", ""))
        && makes(alloc, make_large, (b"hello", LARGE_FILE), NO_TROUBLE)
}

// A block size above 32, and a table above 64 MiB.
#[test]
fn greater_costs(rt: HostRuntime) {
    assert!(rt; are_made(rt.alloc()));
}

// The passphrase is the first line of its source, of at most 2,048 bytes.
static PASSPHRASES: [RunCase; 11] = [
    ("dec --passphrase file:pw F5", b"pw\r\nmore", b"hello", ""),
    ("dec --passphrase file:pw F5", b"pw", b"hello", ""),
    (
        "dec --passphrase file:pw F5",
        b"pv\n",
        b"",
        OTHER_PASSPHRASE,
    ),
    ("dec --passphrase file:pw F5", b"", b"", OTHER_PASSPHRASE),
    ("dec --passphrase env:PW F5", b"pw", b"hello", ""),
    ("dec --passphrase dev:stdin-once F5", b"", b"hello", ""),
    ("dec --passphrase file:missing F5", b"", b"", NO_PASSPHRASE),
    ("dec --passphrase env:MISSING F5", b"", b"", NO_PASSPHRASE),
    (
        "dec --passphrase file:pw F5",
        &[b'p'; 2048],
        b"",
        OTHER_PASSPHRASE,
    ),
    (
        "dec --passphrase file:pw F5",
        &[b'p'; 2049],
        b"",
        LONG_PASSPHRASE,
    ),
    (
        "enc --logN 4 -r 1 -p 1 --passphrase env:PW F5",
        &[b'p'; 2049],
        b"",
        LONG_PASSPHRASE,
    ),
];

#[test]
fn passphrases(rt: HostRuntime) {
    assert_rows(&rt, rt.alloc(), &PASSPHRASES);
}

// What stands for the name of a stream that is opened without one.
const STANDARD: &str = "the standard stream";

// The name under which a stream was opened, or no text where it was not.
fn name(opened: Option<Option<&str>>) -> &str {
    match opened {
        None => "",
        Some(name) => name.unwrap_or(STANDARD),
    }
}

// Whether a run over the file of `hello` says this line, if any, and opens input and output under these names.
fn opens(alloc: Global, line: &str, told: &str, (input, output): (&str, &str)) -> bool {
    let mut host = host_with(alloc, &decoded(alloc, HELLO), b"pw\n");
    let status = run_line(alloc, line, &mut host);
    let are_opened = name(host.input_name()) == input && name(host.output_name()) == output;
    let is_so = are_opened && says(&host, told);
    drop(host);
    status == u8::from(!told.is_empty()) && is_so
}

// Words and the names under which input and output are opened.
static NAMES: [(&str, &str, &str); 6] = [
    (NEW_FILE, STANDARD, "out"),
    (OPEN, "F5", "out"),
    ("dec --passphrase file:pw -", STANDARD, STANDARD),
    ("dec -P F5 -", "F5", "-"),
    ("info F5", "F5", STANDARD),
    ("info -", STANDARD, STANDARD),
];

#[test]
fn names(rt: HostRuntime) {
    for (line, input, output) in &NAMES {
        assert_row(&rt, opens(rt.alloc(), line, "", (input, output)), line);
    }
}

// Words that are refused: nothing is read and nothing is opened.
static WORDS: [(&str, &str); 8] = [
    ("", USAGE),
    ("--help", USAGE),
    ("enc -P - out", STDIN_TWICE),
    ("enc --logN 4 --passphrase file:pw a b", SOME_COSTS),
    ("enc --passphrase file:pw a a", SAME_NAME),
    ("enc --passphrase file:pw - -", SAME_NAME),
    ("dec a", ONE_SOURCE),
    ("dec --passphrase dev:tty-stdin a", ONE_SOURCE),
];

#[test]
fn words_that_are_refused(rt: HostRuntime) {
    for (line, told) in &WORDS {
        assert_row(&rt, opens(rt.alloc(), line, told, ("", "")), line);
    }
}

// How a run ends at a call that fails of pulls and pushes by turns, of one byte each, if the first pull were call 0.
fn by_turns(call: usize) -> Broken {
    let told = if call % 2 == 0 {
        INPUT_FAULT
    } else {
        OUTPUT_FAULT
    };
    (told, call / 2, true)
}

// One byte a pull and one a push. The calls of `dec` are one opening, 96 pulls, one secret and one opening; then 32 pulls,
// and a pull and a push by turns, five of each, and a pull at the end.
fn broken_dec(call: u64) -> Broken {
    match call {
        ..=97 => (INPUT_FAULT, 0, false),
        98 => (NO_PASSPHRASE, 0, false),
        99 => (OUTPUT_FAULT, 0, false),
        100..=131 => (INPUT_FAULT, 0, true),
        132.. => by_turns(call as usize - 132),
    }
}

// Those of `enc` with the host's salt are one opening, one secret, one salt, one opening and 96 pushes; then a pull and a
// push by turns, five of each, a pull at the end, and 32 pushes.
fn broken_enc(call: u64) -> Broken {
    match call {
        ..=1 => (INPUT_FAULT, 0, false),
        2 => (NO_PASSPHRASE, 0, false),
        3 => (NO_SALT, 0, false),
        4 => (OUTPUT_FAULT, 0, false),
        5..=100 => (OUTPUT_FAULT, call as usize - 5, true),
        101..=111 => by_turns(2 * 96 + (call as usize - 101)),
        112.. => (OUTPUT_FAULT, call as usize - 11, true),
    }
}

#[test]
fn each_host_call_of_dec_fails(rt: HostRuntime) {
    for call in 1..=142u64 {
        let end = broken_off(broken_dec(call), b"hello");
        assert_number(&rt, dec_ends(rt.alloc(), b"pw\n", (1, 1, call), end), call);
    }
    // there is no further call
    assert!(rt; dec_ends(rt.alloc(), b"pw\n", (1, 1, 143), end_of(b"hello", "")));
}

// Whether `enc` of `hello` by these words, one byte a pull and so many a push, ends so with this call of the host's failing.
fn enc_breaks_off(alloc: Global, line: &str, push: usize, call: u64, how: Broken) -> bool {
    let file = decoded(alloc, HELLO);
    let run = (b"pw\n".as_slice(), b"hello".as_slice());
    runs_with(alloc, line, run, (1, push, call), broken_off(how, &file))
}

#[test]
fn each_host_call_of_enc_fails(rt: HostRuntime) {
    for call in 1..=143u64 {
        let is_so = enc_breaks_off(rt.alloc(), HOST_SALT, 1, call, broken_enc(call));
        assert_number(&rt, is_so, call);
    }
    // there is no further call
    assert!(rt;
        makes(
            rt.alloc(),
            (HOST_SALT, b"pw\n"),
            (b"hello", HELLO),
            (1, 1, 144)
        )
    );
}

// One byte a pull, and pushes that are taken whole. The calls of `enc` with a given salt are one opening, one secret, one
// opening and a push of 96 bytes; then five times a pull and a push, a pull at the end, and a push of 32 bytes.
static BROKEN_BY_WHOLE_PUSHES: [(u64, Broken); 16] = [
    (1, (INPUT_FAULT, 0, false)),
    (2, (NO_PASSPHRASE, 0, false)),
    (3, (OUTPUT_FAULT, 0, false)),
    (4, (OUTPUT_FAULT, 0, true)),
    (5, (INPUT_FAULT, 96, true)),
    (6, (OUTPUT_FAULT, 96, true)),
    (7, (INPUT_FAULT, 97, true)),
    (8, (OUTPUT_FAULT, 97, true)),
    (9, (INPUT_FAULT, 98, true)),
    (10, (OUTPUT_FAULT, 98, true)),
    (11, (INPUT_FAULT, 99, true)),
    (12, (OUTPUT_FAULT, 99, true)),
    (13, (INPUT_FAULT, 100, true)),
    (14, (OUTPUT_FAULT, 100, true)),
    (15, (INPUT_FAULT, 101, true)),
    (16, (OUTPUT_FAULT, 101, true)),
];

#[test]
fn each_host_call_of_enc_by_whole_pushes_fails(rt: HostRuntime) {
    for (call, how) in &BROKEN_BY_WHOLE_PUSHES {
        let is_so = enc_breaks_off(rt.alloc(), NEW_FILE, usize::MAX, *call, *how);
        assert_number(&rt, is_so, *call);
    }
    // there is no further call
    assert!(rt;
        makes(
            rt.alloc(),
            (NEW_FILE, b"pw\n"),
            (b"hello", HELLO),
            (1, usize::MAX, 17)
        )
    );
}

// A wrong passphrase, one byte a pull: the calls of `dec` are one opening, 96 pulls, one secret and the line.
static UNSAID: [(u64, &str); 3] = [(98, NO_PASSPHRASE), (99, ""), (100, OTHER_PASSPHRASE)];

#[test]
fn line_of_a_wrong_passphrase_is_not_said(rt: HostRuntime) {
    for (call, told) in &UNSAID {
        let end = broken_off((told, 0, false), b"");
        assert_number(
            &rt,
            dec_ends(rt.alloc(), b"pv\n", (1, 1, *call), end),
            *call,
        );
    }
}

// A line that cannot be said is passed over.
#[test]
fn says_nothing(rt: HostRuntime) {
    let end = broken_off(("", 0, false), b"");
    assert!(rt; runs_with(rt.alloc(), "", (b"", b""), (1, 1, 1), end));
}
