//! Processes in memory, and how their runs end. Where memory is refused a process lacks something, and the tests fail.
//! Who ends a run lets the system go by `drop`: the end of a scope would let go of its parts one by one, in each proof.
ghost use Rattle.tools.specs.SystemState.{IsUnused};

use memory_system::{Contents, Identities, MemorySystem};
use std::alloc::Global;
use tools::FileIdentity;

/// A regular file.
pub const FILE: FileIdentity = FileIdentity::Regular {
    device: 1,
    inode: 2,
};

// These bytes.
fn list(alloc: Global, bytes: &[u8]) -> Vec<u8> {
    bytes.to_vec(alloc).unwrap_or(Vec::new(alloc))
}

/// Adds a word.
pub fn add_word(alloc: Global, system: &mut MemorySystem, word: &[u8])
    requires unused { IsUnused system.old.state }
    ensures unused { IsUnused system.new.state }
{
    let _ = system.add_command_line_word(list(alloc, word));
}

/// A process with the words of a line, of which the first is its name.
pub fn process(alloc: Global, line: &str) -> MemorySystem
    ensures unused { IsUnused result.state }
{
    let mut system = MemorySystem::new(alloc);
    for word in line.split_whitespace() {
        add_word(alloc, &mut system, word.as_bytes());
    }
    system
}

/// Puts a file under a name.
pub fn put(
    alloc: Global,
    system: &mut MemorySystem,
    name: &str,
    bytes: &[u8],
    identities: Identities,
)
    requires unused { IsUnused system.old.state }
    ensures unused { IsUnused system.new.state }
{
    let name = String::from_str(alloc, name).unwrap_or(String::new(alloc));
    let _ = system.set_file(name, Contents::new(list(alloc, bytes), identities));
}

/// Opens standard input, which gives these bytes, and standard output; both are this file, or none.
pub fn open_standard(alloc: Global, system: &mut MemorySystem, bytes: &[u8], identities: Identities)
    requires unused { IsUnused system.old.state }
    ensures unused { IsUnused system.new.state }
{
    system.set_standard(Contents::new(list(alloc, bytes), identities), identities);
}

/// How a run ends: its status, what it wrote, its line, or no text where it says none, how many lines could not be
/// said, and whether the output was emptied and brought to the disk.
#[derive(Clone, Copy, Drop)]
pub struct End<'a> {
    pub status: u8,
    pub output: &'a [u8],
    pub line: &'a str,
    pub unsaid: u64,
    pub is_emptied: bool,
    pub is_synced: bool,
}

/// The end of a run that writes this to standard output.
pub fn success<'a>(output: &'a [u8]) -> End<'a> {
    End {
        status: 0,
        output,
        line: "",
        unsaid: 0,
        is_emptied: false,
        is_synced: false,
    }
}

/// The end of a run that is refused with this line before it writes, and leaves the output as it was.
pub fn refusal<'a>(status: u8, line: &'a str) -> End<'a> {
    End {
        status,
        output: b"",
        line,
        unsaid: 0,
        is_emptied: false,
        is_synced: false,
    }
}

// Whether this line is all that was said, or none was where there is no text.
fn says(system: &MemorySystem, line: &str) -> bool {
    match system.lines() {
        [] => line.is_empty(),
        [said] => !line.is_empty() && line == said.as_str(),
        _ => false,
    }
}

/// Whether a run that left the system so, and could not say so many lines, ended like this.
pub fn is_end(status: u8, system: &MemorySystem, unsaid: u64, end: End<'_>) -> bool {
    status == end.status
        && system.output() == end.output
        && says(system, end.line)
        && unsaid == end.unsaid
        && system.is_emptied() == end.is_emptied
        && system.is_synced() == end.is_synced
}
