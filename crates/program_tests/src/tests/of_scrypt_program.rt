//! Runs of `scrypt`. The file was made by Python's hashlib.scrypt and hmac with OpenSSL's aes-256-ctr, and scrypt(1)
//! 1.3.1 opens it.
ghost use Rattle.tools.specs.SystemState.{IsUnused};

use crate::fixtures::{End, FILE, add_word, is_end, open_standard, process, put, refusal, success};
use memory_system::{Identities, MemorySystem};
use scrypt_program::run;
use std::alloc::Global;

// The file of `hello`. The passphrase is `pw`, N is 16, r and p are 1, and the salt is 0 to 31.
const HELLO: &[u8] = b"scrypt\x00\x04\x00\x00\x00\x01\x00\x00\x00\x01\
\x00\x01\x02\x03\x04\x05\x06\x07\x08\x09\x0a\x0b\x0c\x0d\x0e\x0f\x10\x11\x12\x13\x14\x15\x16\x17\x18\x19\x1a\x1b\
\x1c\x1d\x1e\x1f\x1d\x82\xfc\x58\xa2\x9c\x85\x33\x12\xa1\xe6\xa4\x8f\xe9\x8f\x8b\x05\x1b\x8b\x64\x44\x07\x9b\xef\
\x98\x6b\x3d\x3c\x6d\x1d\xf8\x6c\xf5\xc6\x17\x35\xc7\x3c\xcf\x3a\x91\xc0\x0c\x40\x42\xfa\xc3\x8a\xa3\xca\x5b\x58\
\x06\xfa\xf6\x91\x95\x12\x96\xa9\x92\x5e\x75\x4d\x1b\x00\xd8\xf6\xac\xaa\x79\x86\x8e\x22\x1c\xd3\xc4\x0e\xfb\x4b\
\xdd\x9f\xfb\x35\xb8";

// The words that open it.
const OPEN: &str = "scrypt dec --passphrase file:pw in out";

const USAGE: &str = "scrypt: usage: scrypt enc|dec|info [options] infile [outfile]";

const OUTPUT_FAULT: &str = "scrypt: output cannot be opened or written";

// A process with these words, whose input is a file with two names; and with a passphrase and random bytes.
fn process_over(alloc: Global, line: &str, input: &[u8]) -> MemorySystem
    ensures unused { IsUnused result.state }
{
    let mut system = process(alloc, line);
    put(alloc, &mut system, "in", input, Identities::of(FILE));
    put(alloc, &mut system, "link", input, Identities::of(FILE));
    put(alloc, &mut system, "pw", b"pw\n", Identities::NONE);
    put(
        alloc,
        &mut system,
        "/dev/urandom",
        &HELLO[16..48],
        Identities::NONE,
    );
    let _ = system.set_input_name(Some("in"));
    open_standard(alloc, &mut system, b"", Identities::NONE);
    system
}

// Whether a run over this system ends like this.
fn ends(alloc: Global, system: MemorySystem, end: End<'_>) -> bool
    requires unused { IsUnused system.state }
{
    let (status, system, counts) = run(alloc, system);
    let is_so = is_end(status, &system, counts.failed_line_count(), end);
    drop(system);
    is_so
}

// Whether a run of these words over this input ends like this.
fn runs(alloc: Global, line: &str, input: &[u8], end: End<'_>) -> bool {
    ends(alloc, process_over(alloc, line, input), end)
}

// The same of a run of which this call of the system fails.
fn runs_failing(alloc: Global, line: &str, failing: u64, end: End<'_>) -> bool {
    let mut system = process_over(alloc, line, HELLO);
    system.fail_at(failing);
    ends(alloc, system, end)
}

// The same of a run whose standard error is the file of the input.
fn runs_over_error(alloc: Global, line: &str, failing: u64, end: End<'_>) -> bool {
    let mut system = process_over(alloc, line, HELLO);
    system.set_standard_error(Some(FILE));
    system.fail_at(failing);
    ends(alloc, system, end)
}

// The same of a process with this name and this word.
fn runs_bytes(alloc: Global, name: &[u8], word: &[u8], end: End<'_>) -> bool {
    let mut system = MemorySystem::new(alloc);
    add_word(alloc, &mut system, name);
    add_word(alloc, &mut system, word);
    ends(alloc, system, end)
}

// The end of a run that writes this to its outfile, which is then on the disk.
fn kept<'a>(output: &'a [u8]) -> End<'a> {
    End {
        is_emptied: true,
        is_synced: true,
        ..success(output)
    }
}

// ProgramSucceeds

#[test]
fn enc_with_a_salt_of_its_own(rt: HostRuntime) {
    let line =
        "scrypt enc --logN 4 -r 1 -p 1 --salt 000102030405060708090a0b0c0d0e0f101112131415161718191a1b1c1d1e1f --passphrase file:pw in out";
    assert!(rt; runs(rt.alloc(), line, b"hello", kept(HELLO)));
}

#[test]
fn enc_with_random_bytes_for_a_salt(rt: HostRuntime) {
    let line = "scrypt enc --logN 4 -r 1 -p 1 --passphrase file:pw in out";
    assert!(rt; runs(rt.alloc(), line, b"hello", kept(HELLO)));
}

#[test]
fn dec_to_a_file(rt: HostRuntime) {
    assert!(rt; runs(rt.alloc(), OPEN, HELLO, kept(b"hello")));
}

#[test]
fn dec_to_standard_output(rt: HostRuntime) {
    let line = "scrypt dec --passphrase file:pw in";
    assert!(rt; runs(rt.alloc(), line, HELLO, success(b"hello")));
}

#[test]
fn info(rt: HostRuntime) {
    let costs = b"N = 16; r = 1; p = 1; memory = 2048; cores = 64\n";
    assert!(rt; runs(rt.alloc(), "scrypt info in", HELLO, success(costs)));
}

// ProgramRefuses: the refusal of a run

#[test]
fn words_that_are_refused(rt: HostRuntime) {
    assert!(rt; runs(rt.alloc(), "scrypt", HELLO, refusal(1, USAGE)));
}

#[test]
fn input_that_is_not_there(rt: HostRuntime) {
    let end = refusal(1, "scrypt: input cannot be opened or read");
    assert!(rt;
        runs(
            rt.alloc(),
            "scrypt dec --passphrase file:pw other out",
            HELLO,
            end
        )
    );
}

#[test]
fn passphrase_that_is_not_there(rt: HostRuntime) {
    let end = refusal(1, "scrypt: passphrase cannot be read");
    assert!(rt;
        runs(
            rt.alloc(),
            "scrypt dec --passphrase env:PW in out",
            HELLO,
            end
        )
    );
}

#[test]
fn passphrase_that_is_wrong(rt: HostRuntime) {
    let end = refusal(1, "scrypt: wrong passphrase");
    assert!(rt;
        runs(
            rt.alloc(),
            "scrypt dec --passphrase file:in in out",
            HELLO,
            end
        )
    );
}

#[test]
fn output_that_is_the_input(rt: HostRuntime) {
    let line = "scrypt dec --passphrase file:pw in link";
    assert!(rt; runs(rt.alloc(), line, HELLO, refusal(1, OUTPUT_FAULT)));
}

#[test]
fn input_that_is_cut(rt: HostRuntime) {
    let end = End {
        output: b"he",
        is_emptied: true,
        ..refusal(1, "scrypt: input is damaged or cut short")
    };
    assert!(rt; runs(rt.alloc(), OPEN, &HELLO[..130], end));
}

// ProgramRefuses: a word that is no text, though the name may be any bytes

#[test]
fn word_that_is_no_text(rt: HostRuntime) {
    assert!(rt; runs_bytes(rt.alloc(), b"scrypt", b"in\xff", refusal(1, USAGE)));
}

#[test]
fn name_that_is_no_text(rt: HostRuntime) {
    assert!(rt; runs_bytes(rt.alloc(), b"\xff", b"enc", refusal(1, USAGE)));
}

// ProgramRefuses: a line that the system was asked for, and could not say; and one that it was not asked for

#[test]
fn line_that_cannot_be_said(rt: HostRuntime) {
    let end = End {
        unsaid: 1,
        ..refusal(1, "")
    };
    assert!(rt; runs_failing(rt.alloc(), "scrypt", 1, end));
}

#[test]
fn line_that_would_go_into_the_input(rt: HostRuntime) {
    let end = End {
        unsaid: 1,
        ..refusal(1, "")
    };
    assert!(rt; runs_over_error(rt.alloc(), "scrypt dec --passphrase env:PW in out", 0, end));
}

// FailsSync

// The call that brings the output to the disk. Before it the input is opened and read, and so is the passphrase; the
// output is opened, found to be neither of them, and emptied; the rest of the input is read, and the text is written.
const SYNC: u64 = 14;

#[test]
fn output_that_does_not_reach_the_disk(rt: HostRuntime) {
    let end = End {
        output: b"hello",
        is_emptied: true,
        ..refusal(1, OUTPUT_FAULT)
    };
    assert!(rt; runs_failing(rt.alloc(), OPEN, SYNC, end));
}

#[test]
fn output_that_does_not_reach_the_disk_and_a_line_left_out(rt: HostRuntime) {
    let end = End {
        output: b"hello",
        is_emptied: true,
        unsaid: 1,
        ..refusal(1, "")
    };
    assert!(rt; runs_over_error(rt.alloc(), OPEN, SYNC, end));
}
