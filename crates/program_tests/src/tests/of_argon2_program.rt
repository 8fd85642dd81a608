//! Runs of `argon2`. The hash is that of the reference program: printf password | argon2 somesalt -d -t 1 -k 8 -e
ghost use Rattle.tools.specs.SystemState.{IsUnused};

use crate::fixtures::{End, FILE, add_word, is_end, open_standard, process, refusal, success};
use argon2_program::run;
use memory_system::{Identities, MemorySystem};
use std::alloc::Global;

// The words of a hash, and its line.
const HASH: &str = "argon2 somesalt -d -t 1 -k 8 -e";

const LINE: &[u8] =
    b"$argon2d$v=19$m=8,t=1,p=1$c29tZXNhbHQ$xRnmA6xgPsGutbcexEpheePzl1sUwMl+ORTHnmNj4Xg\n";

// The same tag, which Python's base64 and bytes.hex make of that text.
const TAG: &[u8] = b"c519e603ac603ec1aeb5b71ec44a6179e3f3975b14c0c97e3914c79e6363e178\n";

const USAGE: &str =
    "argon2: usage: argon2 salt [-i|-d|-id] [-t N] [-m N | -k N] [-p N] [-l N] [-v VERSION] [--maxmem KIB] [--maxops N] (-e|-r)";

// Whether a run over this system ends like this.
fn ends(alloc: Global, system: MemorySystem, end: End<'_>) -> bool
    requires unused { IsUnused system.state }
{
    let (status, system, counts) = run(alloc, system);
    let is_so = is_end(status, &system, counts.failed_line_count(), end);
    drop(system);
    is_so
}

// Whether a run of these words, of which this call of the system fails, ends like this. Both standard streams are this
// file, or none.
fn runs(alloc: Global, line: &str, identities: Identities, failing: u64, end: End<'_>) -> bool {
    let mut system = process(alloc, line);
    open_standard(alloc, &mut system, b"password", identities);
    system.fail_at(failing);
    ends(alloc, system, end)
}

// The same of a process with this name and this word.
fn runs_bytes(alloc: Global, name: &[u8], word: &[u8], end: End<'_>) -> bool {
    let mut system = MemorySystem::new(alloc);
    add_word(alloc, &mut system, name);
    add_word(alloc, &mut system, word);
    ends(alloc, system, end)
}

// ProgramSucceeds

#[test]
fn hash_as_text(rt: HostRuntime) {
    assert!(rt; runs(rt.alloc(), HASH, Identities::NONE, 0, success(LINE)));
}

#[test]
fn hash_as_digits(rt: HostRuntime) {
    let line = "argon2 somesalt -d -t 1 -k 8 -r";
    assert!(rt; runs(rt.alloc(), line, Identities::NONE, 0, success(TAG)));
}

// ProgramRefuses: the refusal of a run

#[test]
fn words_that_are_refused(rt: HostRuntime) {
    assert!(rt; runs(rt.alloc(), "argon2", Identities::NONE, 0, refusal(1, USAGE)));
}

#[test]
fn salt_that_is_refused(rt: HostRuntime) {
    let end = refusal(1, "argon2: salt length out of range");
    assert!(rt; runs(rt.alloc(), "argon2 seven77 -e", Identities::NONE, 0, end));
}

// The first call opens the password.
#[test]
fn password_that_cannot_be_opened(rt: HostRuntime) {
    let end = refusal(1, "argon2: password cannot be read");
    assert!(rt; runs(rt.alloc(), HASH, Identities::NONE, 1, end));
}

// The fourth call opens the output: two read the password and its end.
#[test]
fn output_that_cannot_be_opened(rt: HostRuntime) {
    let end = refusal(1, "argon2: output cannot be written");
    assert!(rt; runs(rt.alloc(), HASH, Identities::NONE, 4, end));
}

#[test]
fn output_that_is_the_file_of_the_password(rt: HostRuntime) {
    let end = refusal(1, "argon2: output cannot be written");
    assert!(rt; runs(rt.alloc(), HASH, Identities::of(FILE), 0, end));
}

// ProgramRefuses: a word that is no text, though the name may be any bytes

#[test]
fn word_that_is_no_text(rt: HostRuntime) {
    assert!(rt; runs_bytes(rt.alloc(), b"argon2", b"some\xffsalt", refusal(1, USAGE)));
}

#[test]
fn name_that_is_no_text(rt: HostRuntime) {
    let end = refusal(1, "argon2: exactly one of -e and -r is needed");
    assert!(rt; runs_bytes(rt.alloc(), b"\xff", b"somesalt", end));
}

// ProgramRefuses: a line that the system was asked for, and could not say

#[test]
fn line_that_cannot_be_said(rt: HostRuntime) {
    let end = End {
        unsaid: 1,
        ..refusal(1, "")
    };
    assert!(rt; runs(rt.alloc(), "argon2", Identities::NONE, 1, end));
}
