//! Where the memory of a host in memory comes from: the heap, or a source of one's own.
ghost use Rattle.std.specs.Prelude.{◌≡◌, ◌∷◌, ◌++◌, [], IfOk, OnOk, OnErr, string_bytes};

use crate::named_secret::NamedSecret;
use std::alloc::{AllocError, Global};

/// A source of memory for the growths of a host in memory.
///
/// The heap, `Global`, is one, and grants what the system grants. Write another to bound what a
/// [`MemoryHost`](crate::MemoryHost) takes, or to refuse a growth of it at will: `set_env_with_memory`,
/// `set_file_with_memory`, `open_input_with_memory`, `open_output_with_memory`, `push_with_memory` and `say_with_memory` take their memory
/// from it. Each method is one growth, which is done whole, or is refused by `AllocError` and changes
/// nothing. Which of them a call makes, and how many, is not in its contract: tests count them.
pub trait GrowthMemory {
    /// A copy of the text.
    fn copy_of(&mut self, text: &str) -> Result<String, AllocError>
        ensures text { IfOk result (λ copy. string_bytes copy ≡ text.now) };

    /// Appends the bytes to the list. After a refusal it is as it was.
    fn append(&mut self, list: &mut Vec<u8>, bytes: &[u8]) -> Result<(), AllocError>
        ensures ok { OnOk result (list.new.items ≡ list.old.items ++ bytes.now) }
        ensures err { OnErr result (list.new.items ≡ list.old.items) };

    /// Appends the line to the lines. After a refusal they are as they were.
    fn add_line(&mut self, lines: &mut Vec<String>, line: String) -> Result<(), AllocError>
        ensures ok { OnOk result (lines.new.items ≡ lines.old.items ++ line ∷ []) }
        ensures err { OnErr result (lines.new.items ≡ lines.old.items) };

    /// Puts the entry before the others. After a refusal they are as they were.
    fn prepend_entry(
        &mut self,
        entries: &mut Vec<NamedSecret>,
        entry: NamedSecret,
    ) -> Result<(), AllocError>
        ensures ok { OnOk result (entries.new.items ≡ entry ∷ entries.old.items) }
        ensures err { OnErr result (entries.new.items ≡ entries.old.items) };
}

impl GrowthMemory for Global {
    fn copy_of(&mut self, text: &str) -> Result<String, AllocError> {
        String::from_str(*self, text)
    }

    fn append(&mut self, list: &mut Vec<u8>, bytes: &[u8]) -> Result<(), AllocError> {
        list.extend_from_slice(bytes)
    }

    fn add_line(&mut self, lines: &mut Vec<String>, line: String) -> Result<(), AllocError> {
        lines.push(line)?;
        Ok(())
    }

    fn prepend_entry(
        &mut self,
        entries: &mut Vec<NamedSecret>,
        entry: NamedSecret,
    ) -> Result<(), AllocError> {
        entries.insert(0, entry)?;
        Ok(())
    }
}
