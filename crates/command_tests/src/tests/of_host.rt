//! A host in memory: the example at the head of `host`, secrets, pieces, and calls that fail.
ghost use Rattle.std.specs.Prelude.{◌≡◌, ◌^◌, ◌<◌, true, None};
ghost use Rattle.host.specs.Faults.{AreBelow};
ghost use Rattle.memory_host.specs.Memory.{memory_host_failure_counts};

mod refusing;

use crate::fixtures::{list, new_host, text};
use host::{Host, HostFault, Source, write_output};
use memory_host::MemoryHost;
use std::alloc::Global;

// What the hosts here give.
const SALT: [u8; 32] = [7; 32];

// The calls of the example at the head of the crate.
fn copy(host: &mut MemoryHost, buf: &mut [u8; 5]) -> Result<(), HostFault>
    requires room { AreBelow (2 ^ 63) (memory_host_failure_counts host.old) }
    requires unopened { host.old.input_opened ≡ None }
    requires unasked { host.old.output_asked ≡ None }
{
    host.open_input(Some("in"))?;
    let n = host.pull(buf)?;
    write_output(host, &buf[..n])
}

// The call that fails, or 0, whether the input is copied, what was pulled, what is left of the input, what is written, and
// whether input and output were opened.
type CopyCase = (
    u64,
    bool,
    &'static [u8; 5],
    &'static [u8],
    &'static [u8],
    bool,
    bool,
);

const UNPULLED: &[u8; 5] = &[0; 5];

// Two bytes a push: the calls are an opening, a pull, an opening and three pushes.
static COPIES: [CopyCase; 8] = [
    (0, true, b"the i", b"nput", b"the i", true, true),
    (1, false, UNPULLED, b"the input", b"", false, false),
    (2, false, UNPULLED, b"the input", b"", true, false),
    (3, false, b"the i", b"nput", b"", true, false),
    (4, false, b"the i", b"nput", b"", true, true),
    (5, false, b"the i", b"nput", b"th", true, true),
    (6, false, b"the i", b"nput", b"the ", true, true),
    (7, true, b"the i", b"nput", b"the i", true, true),
];

// Whether a host has this left, has this written, and has opened those.
fn has(host: &MemoryHost, (_, _, _, left, written, has_input, has_output): CopyCase) -> bool {
    host.remaining_input() == left
        && host.output() == written
        && host.input_name() == has_input.then_some(Some("in"))
        && host.output_name() == has_output.then_some(None)
}

// Whether the example leaves that.
fn is_row(alloc: Global, row: CopyCase) -> bool {
    let mut host = new_host(alloc, b"the input", b"", SALT);
    host.set_sizes(9, 2);
    host.fail_at(row.0);
    let mut buf = [0u8; 5];
    let is_copied = copy(&mut host, &mut buf).is_ok();
    let is_so = has(&host, row);
    drop(host);
    is_copied == row.1 && buf == *row.2 && is_so
}

// The example at the head of the crate goes as far as the call that fails.
#[test]
fn copies_up_to_the_call_that_fails(rt: HostRuntime) {
    for row in &COPIES {
        assert!(rt; is_row(rt.alloc(), *row), "{}", row.0);
    }
}

// A host that has three secrets. The later value of a variable counts.
fn with_secrets(alloc: Global) -> MemoryHost
    ensures room { AreBelow (2 ^ 63) (memory_host_failure_counts result) }
    ensures unasked { result.asked ≡ None }
{
    let mut host = new_host(alloc, b"", b"typed", SALT);
    let _ = host.set_env(text(alloc, "PW"), list(alloc, b"first"));
    let _ = host.set_env(text(alloc, "PW"), list(alloc, b"second"));
    let _ = host.set_file(text(alloc, "pw"), list(alloc, b"long file"));
    host
}

// Whether the host gives this of a source for which there is room for six bytes.
fn gives(alloc: Global, source: Source<'_>, text: Option<&[u8]>) -> bool {
    let mut host = with_secrets(alloc);
    let mut buf = [0u8; 6];
    let given = host.secret(source, &mut buf);
    drop(host);
    match given {
        Ok(n) => text == Some(&buf[..n]),
        Err(_) => text.is_none(),
    }
}

// Sources and what they give.
static SECRETS: [(Source<'static>, Option<&[u8]>); 5] = [
    (Source::StdinOnce, Some(b"typed")),
    (Source::Env("PW"), Some(b"second")),
    (Source::File("pw"), Some(b"long f")),
    (Source::Env("pw"), None),
    (Source::File("PW"), None),
];

#[test]
fn gives_secrets(rt: HostRuntime) {
    for (source, text) in &SECRETS {
        assert!(rt; gives(rt.alloc(), *source, *text));
    }
}

// Whether a pull of at most so many bytes gives so many, and some, and leaves this in a buffer.
fn is_pulled(
    host: &mut MemoryHost,
    most: usize,
    buf: &mut [u8; 4],
    given: (usize, &[u8; 4]),
) -> bool
    requires at_least_1 { 0 < most }
    requires room { AreBelow (2 ^ 63) (memory_host_failure_counts host.old) }
    requires readable { host.old.readable ≡ true }
    ensures faults { result ≡ true → memory_host_failure_counts host.new ≡ memory_host_failure_counts host.old }
    ensures readable { result ≡ true → host.new.readable ≡ true }
{
    let (count, after) = given;
    host.set_sizes(most, 1);
    let Ok(n) = host.pull(buf) else {
        return false;
    };
    n == count && n != 0 && *buf == *after
}

// Whether four pulls give an input, the last of which gives nothing.
fn is_given(host: &mut MemoryHost) -> bool
    requires room { AreBelow (2 ^ 63) (memory_host_failure_counts host.old) }
    requires unopened { host.old.input_opened ≡ None }
{
    let mut buf = [0u8; 4];
    host.open_input(None).is_ok()
        && is_pulled(host, 3, &mut buf, (3, b"the\0"))
        && is_pulled(host, 9, &mut buf, (4, b" inp"))
        && is_pulled(host, 9, &mut buf, (2, b"utnp"))
        && host.pull(&mut buf) == Ok(0)
        && buf == *b"utnp"
}

#[test]
fn gives_the_input_piece_by_piece(rt: HostRuntime) {
    let mut host = new_host(rt.alloc(), b"the input", b"", SALT);
    let is_given = is_given(&mut host);
    drop(host);
    assert!(rt; is_given);
}

// What comes of asking for the salt where this call fails, and what is in its place then.
fn salt(alloc: Global, failing: u64) -> (Result<(), HostFault>, [u8; 32]) {
    let mut host = new_host(alloc, b"", b"", SALT);
    host.fail_at(failing);
    let mut salt = [0u8; 32];
    let outcome = host.salt(&mut salt);
    drop(host);
    (outcome, salt)
}

#[test]
fn gives_the_salt(rt: HostRuntime) {
    assert!(rt; salt(rt.alloc(), 0) == (Ok(()), SALT));
    assert!(rt; salt(rt.alloc(), 1) == (Err(HostFault), [0; 32]));
}

// Whether a line is not said where a host's first call fails, and the next one is.
fn goes_on(host: &mut MemoryHost) -> bool
    requires room { AreBelow (2 ^ 63) (memory_host_failure_counts host.old) }
{
    host.fail_at(1);
    let first = host.say("untold");
    host.say("told") == Ok(()) && first == Err(HostFault)
}

// Whether it is so of a new host, which has the one line then.
fn says_the_next(alloc: Global) -> bool {
    let mut host = new_host(alloc, b"", b"", SALT);
    let goes_on = goes_on(&mut host);
    let is_said = matches!(host.lines(), [line] if line.as_str() == "told");
    drop(host);
    goes_on && is_said
}

#[test]
fn fails_at_the_call_named_alone(rt: HostRuntime) {
    assert!(rt; says_the_next(rt.alloc()));
}
