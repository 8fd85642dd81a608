//! Each growth of a host in memory refused in turn.
ghost use Rattle.std.specs.Prelude.{◌≡◌, ◌+◌, ◌^◌, None};
ghost use Rattle.host.specs.Faults.{AreBelow};
ghost use Rattle.memory_host.specs.Memory.{memory_host_failure_counts};

use crate::fixtures::{is_under, list, new_host, text};
use host::{Host, Source};
use memory_host::{GrowthMemory, MemoryHost, NamedSecret};
use std::alloc::{AllocError, Global};

// Grants all requests but one, which is counted from 1.
#[derive(Drop)]
struct Refusing {
    alloc: Global,
    asked: u32,
    refused: u32,
}

impl Refusing {
    // Whether a request is granted.
    fn grants(&mut self) -> bool {
        self.asked = self.asked.saturating_add(1);
        self.asked != self.refused
    }
}

impl GrowthMemory for Refusing {
    fn copy_of(&mut self, text: &str) -> Result<String, AllocError> {
        if !self.grants() {
            return Err(AllocError);
        }
        self.alloc.copy_of(text)
    }

    fn append(&mut self, list: &mut Vec<u8>, bytes: &[u8]) -> Result<(), AllocError> {
        if !self.grants() {
            return Err(AllocError);
        }
        self.alloc.append(list, bytes)
    }

    fn add_line(&mut self, lines: &mut Vec<String>, line: String) -> Result<(), AllocError> {
        if !self.grants() {
            return Err(AllocError);
        }
        self.alloc.add_line(lines, line)
    }

    fn prepend_entry(
        &mut self,
        entries: &mut Vec<NamedSecret>,
        entry: NamedSecret,
    ) -> Result<(), AllocError> {
        if !self.grants() {
            return Err(AllocError);
        }
        self.alloc.prepend_entry(entries, entry)
    }
}

// A call for which a host in memory grows.
#[derive(Clone, Copy)]
enum Call {
    SetVariable,
    SetFile,
    OpenInput,
    OpenOutput,
    Push,
    Say,
}

// Whether a call of a host is done, with this growth.
fn is_done(host: &mut MemoryHost, growth: &mut Refusing, call: Call) -> bool
    requires room { AreBelow (2 ^ 63) (memory_host_failure_counts host.old) }
    requires unasked { host.old.asked ≡ None }
    ensures room { AreBelow (2 ^ 63 + 1) (memory_host_failure_counts host.new) }
    ensures unasked { host.new.asked ≡ None }
{
    match call {
        Call::SetVariable => {
            let (name, bytes) = (text(growth.alloc, "pw"), list(growth.alloc, b"secret"));
            host.set_env_with_memory(growth, name, bytes).is_ok()
        }
        Call::SetFile => {
            let (name, bytes) = (text(growth.alloc, "pw"), list(growth.alloc, b"secret"));
            host.set_file_with_memory(growth, name, bytes).is_ok()
        }
        Call::OpenInput => host.open_input_with_memory(growth, Some("in")).is_ok(),
        Call::OpenOutput => host.open_output_with_memory(growth, Some("out")).is_ok(),
        Call::Push => host.push_with_memory(growth, b"text").is_ok(),
        Call::Say => host.say_with_memory(growth, "line").is_ok(),
    }
}

// Whether a host tells of a call that is done.
fn is_seen(host: &mut MemoryHost, call: Call) -> bool
    requires room { AreBelow (2 ^ 63 + 1) (memory_host_failure_counts host.old) }
    requires unasked { host.old.asked ≡ None }
{
    match call {
        Call::SetVariable => host.secret(Source::Env("pw"), &mut [0; 6]) == Ok(6),
        Call::SetFile => host.secret(Source::File("pw"), &mut [0; 6]) == Ok(6),
        Call::OpenInput => is_under(host.input_name(), "in"),
        Call::OpenOutput => is_under(host.output_name(), "out"),
        Call::Push => host.output() == b"text".as_slice(),
        Call::Say => host.lines().len() == 1,
    }
}

// Whether a new host does a call where this growth is refused, tells of it so, and asks so often.
fn does(alloc: Global, call: Call, refused: u32, is_granted: bool, asked: u32) -> bool {
    let mut growth = Refusing {
        alloc,
        asked: 0,
        refused,
    };
    let mut host = new_host(alloc, b"", b"", [0; 32]);
    let is_done = is_done(&mut host, &mut growth, call);
    let is_seen = is_seen(&mut host, call);
    drop(host);
    is_done == is_granted && is_seen == is_granted && growth.asked == asked
}

// The calls, which growth of each is refused, whether it is done, and how many growths it asked for: a line takes two, any
// other call one.
static ROWS: [(Call, u32, bool, u32); 13] = [
    (Call::SetVariable, 1, false, 1),
    (Call::SetVariable, 2, true, 1),
    (Call::SetFile, 1, false, 1),
    (Call::SetFile, 2, true, 1),
    (Call::OpenInput, 1, false, 1),
    (Call::OpenInput, 2, true, 1),
    (Call::OpenOutput, 1, false, 1),
    (Call::OpenOutput, 2, true, 1),
    (Call::Push, 1, false, 1),
    (Call::Push, 2, true, 1),
    (Call::Say, 1, false, 1),
    (Call::Say, 2, false, 2),
    (Call::Say, 3, true, 2),
];

// A call whose growth is refused tells so and changes nothing.
#[test]
fn each_growth_is_refused(rt: HostRuntime) {
    for (call, refused, is_granted, asked) in &ROWS {
        assert!(rt; does(rt.alloc(), *call, *refused, *is_granted, *asked));
    }
}
