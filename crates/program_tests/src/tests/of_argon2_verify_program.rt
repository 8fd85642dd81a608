//! Runs of `argon2-verify`. The hash is that of the reference program:
//! printf password | argon2 somesalt -d -t 1 -k 8 -e
ghost use Rattle.tools.specs.SystemState.{IsUnused};

use crate::fixtures::{End, FILE, add_word, is_end, open_standard, process, put, refusal, success};
use argon2_verify_program::run;
use memory_system::{Identities, MemorySystem};
use std::alloc::Global;

const HASH: &[u8] =
    b"$argon2d$v=19$m=8,t=1,p=1$c29tZXNhbHQ$xRnmA6xgPsGutbcexEpheePzl1sUwMl+ORTHnmNj4Xg\n";

const VERIFY: &str = "argon2-verify hash";

const USAGE: &str = "argon2-verify: usage: argon2-verify [--maxmem KIB] [--maxops N] file";

// A process with these words and this password, and the hash in a file.
fn process_over(alloc: Global, line: &str, password: &[u8]) -> MemorySystem
    ensures unused { IsUnused result.state }
{
    let mut system = process(alloc, line);
    put(alloc, &mut system, "hash", HASH, Identities::of(FILE));
    let _ = system.set_input_name(Some("hash"));
    open_standard(alloc, &mut system, password, Identities::NONE);
    system
}

// Whether a run over this system ends like this.
fn ends(alloc: Global, system: MemorySystem, end: End<'_>) -> bool
    requires unused { IsUnused system.state }
{
    let (status, system, counts) = run(alloc, system);
    let is_so = is_end(status, &system, counts.failed_line_count(), end);
    drop(system);
    is_so
}

// Whether a run of these words with this password ends like this.
fn runs(alloc: Global, line: &str, password: &[u8], end: End<'_>) -> bool {
    ends(alloc, process_over(alloc, line, password), end)
}

// The same of a run of which this call of the system fails.
fn runs_failing(alloc: Global, line: &str, failing: u64, end: End<'_>) -> bool {
    let mut system = process_over(alloc, line, b"password");
    system.fail_at(failing);
    ends(alloc, system, end)
}

// The same of a run whose file is standard input itself.
fn runs_over_stdin(alloc: Global, end: End<'_>) -> bool {
    let mut system = process_over(alloc, VERIFY, b"password");
    system.set_input_is_stdin(true);
    ends(alloc, system, end)
}

// The same of a run whose standard error is the file of the hash.
fn runs_over_error(alloc: Global, line: &str, end: End<'_>) -> bool {
    let mut system = process_over(alloc, line, b"password");
    system.set_standard_error(Some(FILE));
    ends(alloc, system, end)
}

// The same of a process with this name and this word.
fn runs_bytes(alloc: Global, name: &[u8], word: &[u8], end: End<'_>) -> bool {
    let mut system = MemorySystem::new(alloc);
    add_word(alloc, &mut system, name);
    add_word(alloc, &mut system, word);
    ends(alloc, system, end)
}

// ProgramVerifies

#[test]
fn password_that_is_right(rt: HostRuntime) {
    assert!(rt; runs(rt.alloc(), VERIFY, b"password", success(b"")));
}

// ProgramDiffers

#[test]
fn password_that_is_wrong(rt: HostRuntime) {
    assert!(rt; runs(rt.alloc(), VERIFY, b"Password", refusal(1, "")));
}

// ProgramRefuses: the refusal of a run

#[test]
fn words_that_are_refused(rt: HostRuntime) {
    assert!(rt; runs(rt.alloc(), "argon2-verify", b"password", refusal(2, USAGE)));
}

#[test]
fn file_that_is_not_there(rt: HostRuntime) {
    let end = refusal(2, "argon2-verify: file cannot be read");
    assert!(rt; runs(rt.alloc(), "argon2-verify other", b"password", end));
}

#[test]
fn file_that_is_standard_input(rt: HostRuntime) {
    let end = refusal(
        2,
        "argon2-verify: file is standard input, which gives the password",
    );
    assert!(rt; runs_over_stdin(rt.alloc(), end));
}

#[test]
fn hash_above_a_limit(rt: HostRuntime) {
    let end = refusal(2, "argon2-verify: more memory needed than --maxmem allows");
    assert!(rt;
        runs(
            rt.alloc(),
            "argon2-verify --maxmem 7 hash",
            b"password",
            end
        )
    );
}

// Call 85 opens the password: those before it open the file, ask whether that is standard input, and read its line with
// the line's end.
#[test]
fn password_that_cannot_be_opened(rt: HostRuntime) {
    let end = refusal(2, "argon2-verify: password cannot be read");
    assert!(rt; runs_failing(rt.alloc(), VERIFY, 85, end));
}

// ProgramRefuses: a word that is no text, though the name may be any bytes

#[test]
fn word_that_is_no_text(rt: HostRuntime) {
    assert!(rt; runs_bytes(rt.alloc(), b"argon2-verify", b"ha\xffsh", refusal(2, USAGE)));
}

#[test]
fn name_that_is_no_text(rt: HostRuntime) {
    let end = refusal(2, "argon2-verify: file cannot be read");
    assert!(rt; runs_bytes(rt.alloc(), b"\xff", b"hash", end));
}

// ProgramRefuses: a line that the system was asked for, and could not say; and one that it was not asked for

#[test]
fn line_that_cannot_be_said(rt: HostRuntime) {
    let end = End {
        unsaid: 1,
        ..refusal(2, "")
    };
    assert!(rt; runs_failing(rt.alloc(), "argon2-verify", 1, end));
}

#[test]
fn line_that_would_go_into_the_file(rt: HostRuntime) {
    let end = End {
        unsaid: 1,
        ..refusal(2, "")
    };
    assert!(rt; runs_over_error(rt.alloc(), "argon2-verify --maxmem 7 hash", end));
}
