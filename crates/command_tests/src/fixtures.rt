//! Hosts in memory that tests run over, and words. Where memory is refused they lack something, and the tests fail. Who
//! makes a host lets it go by `drop`: the end of a scope would let go of its parts one by one, in each proof anew.
ghost use Rattle.std.specs.Prelude.{◌≡◌, ◌^◌, None, false};
ghost use Rattle.host.specs.Faults.{AreBelow};
ghost use Rattle.host.specs.HostState.{IsUnasked};
ghost use Rattle.memory_host.specs.Memory.{memory_host_failure_counts, memory_host_state};

use memory_host::MemoryHost;
use std::alloc::Global;
use std::process::Abort;

/// These bytes.
pub fn list(alloc: Global, bytes: &[u8]) -> Vec<u8> {
    bytes.to_vec(alloc).unwrap_or(Vec::new(alloc))
}

/// This text.
pub fn text(alloc: Global, text: &str) -> String {
    String::from_str(alloc, text).unwrap_or(String::new(alloc))
}

// Appends the words of a line, which spaces part. The list is another's: to own it over a loop is
// dearer to prove.
fn add_words(words: &mut Vec<String>, alloc: Global, line: &str) {
    for word in line.split_whitespace() {
        let _ = words.push(text(alloc, word));
    }
}

/// The words of a line.
pub fn words(alloc: Global, line: &str) -> Vec<String> {
    let mut words = Vec::new(alloc);
    add_words(&mut words, alloc, line);
    words
}

/// Whether this line is all that was said, or none was where there is no text.
pub fn says(host: &MemoryHost, told: &str) -> bool {
    match host.lines() {
        [] => told.is_empty(),
        [line] => !told.is_empty() && told == line.as_str(),
        _ => false,
    }
}

/// Whether what was opened has this name.
pub fn is_under(opened: Option<Option<&str>>, name: &str) -> bool {
    opened == Some(Some(name))
}

/// Fails with the words of a row that is not so. A text is formatted in few places: that is dear to
/// prove.
pub fn assert_row(rt: &impl Abort, is_so: bool, line: &str) {
    assert!(rt; is_so, "{line}");
}

/// A new host with this input, this standard input and this salt.
pub fn new_host(alloc: Global, input: &[u8], stdin: &[u8], salt: [u8; 32]) -> MemoryHost
    ensures room { AreBelow (2 ^ 63) (memory_host_failure_counts result) }
    ensures fresh { IsUnasked (memory_host_state result) }
    ensures unopened { result.input_opened ≡ None }
    ensures unasked { result.output_asked ≡ None }
    ensures secret_unasked { result.asked ≡ None }
    ensures unsalted { result.salted ≡ false }
{
    MemoryHost::new(alloc, list(alloc, input), list(alloc, stdin), salt)
}
