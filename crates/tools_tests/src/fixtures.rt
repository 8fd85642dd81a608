//! Systems in memory that tests run over. Where memory is refused they lack something, and the tests fail. Who makes
//! one lets it go by `drop`: the end of a scope would let go of its parts one by one, in each proof anew.
ghost use Rattle.tools.specs.SystemState.{IsUnused};

use memory_system::{Contents, Identities, MemorySystem};
use std::alloc::Global;

// These bytes.
fn list(alloc: Global, bytes: &[u8]) -> Vec<u8> {
    bytes.to_vec(alloc).unwrap_or(Vec::new(alloc))
}

/// This text.
pub fn text(alloc: Global, text: &str) -> String {
    String::from_str(alloc, text).unwrap_or(String::new(alloc))
}

/// A system whose standard input gives these bytes. Both standard streams are these files.
pub fn with_standard(
    alloc: Global,
    bytes: &[u8],
    input: Identities,
    output: Identities,
) -> MemorySystem
    ensures unused { IsUnused result.state }
{
    let mut system = MemorySystem::new(alloc);
    system.set_standard(Contents::new(list(alloc, bytes), input), output);
    system
}

/// Puts a file under a name.
pub fn put(
    alloc: Global,
    system: &mut MemorySystem,
    name: &str,
    bytes: &[u8],
    identities: Identities,
)
    requires unused { IsUnused system.old.state }
    ensures unused { IsUnused system.new.state }
{
    let contents = Contents::new(list(alloc, bytes), identities);
    let _ = system.set_file(text(alloc, name), contents);
}

/// Gives a variable a value.
pub fn put_variable(alloc: Global, system: &mut MemorySystem, name: &str, bytes: &[u8])
    requires unused { IsUnused system.old.state }
    ensures unused { IsUnused system.new.state }
{
    let _ = system.set_variable(text(alloc, name), list(alloc, bytes));
}
