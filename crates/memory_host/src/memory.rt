//! A host in memory.
ghost use Rattle.std.specs.Prelude.{◌≡◌, ◌-◌, ◌^◌, ◌<◌, ◌≤◌, ◌==◌, true, take, drop, length, min, map, option_map, IfOk, OnOk, OnErr, string_bytes};
ghost use Rattle.host.specs.AskedSource.{asked_source, name_bytes};
ghost use Rattle.host.specs.Faults.{AreBelow, with_input_failure_counted, with_line_failure_counted, with_output_failure_counted};
ghost use Rattle.host.specs.HostState.{FitsWithin, TakesSome};
ghost use Rattle.host.specs.Secret.{secret_of_source};
ghost use Rattle.memory_host.specs.Calls.{CountsOwnFailure, FindsLatest, OpensInput, OpensOutput, Pushes, SaysLine};
ghost use Rattle.memory_host.specs.Memory.{Memory, memory_host_state, memory_host_failure_counts, memory_host_grants, new_host_in_memory, with_environment_variable, with_failing_call, with_file, with_input_as_stdin, with_sizes};
ghost use Rattle.memory_host.specs.Inside.{next_call_number};

use crate::growth_memory::GrowthMemory;
use crate::named_secret::{NamedSecret, find};
use host::{AskedSource, GhostName, Host, HostFault, Source};
use std::alloc::{AllocError, Global};
use std::marker::Model;

/// A host whose world is in memory: it tells its bytes, takes them in pieces of given sizes, and
/// fails at a given call.
///
/// Contracts see a `Memory`: what it tells, its counts of failures, its sizes and the call that is
/// to fail. A secret source that is missing, and a refused growth of the host's own output, lines or
/// names, are failures of the host.
#[derive(Drop)]
pub struct MemoryHost {
    alloc: Global,
    input: Vec<u8>,
    input_is_stdin: bool,
    taken: usize,
    output: Vec<u8>,
    input_name: Option<Option<String>>,
    output_name: Option<Option<String>>,
    output_asked: Option<Option<GhostName>>,
    asked: Option<AskedSource>,
    salted: bool,
    readable: bool,
    lines: Vec<String>,
    stdin: Vec<u8>,
    variables: Vec<NamedSecret>,
    files: Vec<NamedSecret>,
    salt: [u8; 32],
    input_faults: u64,
    output_faults: u64,
    secret_faults: u64,
    salt_faults: u64,
    line_faults: u64,
    pull_size: usize,
    push_size: usize,
    failing: u64,
    calls: u64,
}

impl Model for MemoryHost {
    ghost Value = { Memory };

    ghost view = { λ h. record {
      input = drop h.taken h.input.items;
      input_is_stdin = h.input_is_stdin;
      output = h.output.items;
      input_opened = option_map (option_map string_bytes) h.input_name;
      output_opened = option_map (option_map string_bytes) h.output_name;
      output_asked = option_map (option_map name_bytes) h.output_asked;
      asked = option_map asked_source h.asked;
      salted = h.salted;
      readable = h.readable;
      said = map string_bytes h.lines.items;
      stdin = h.stdin.items;
      variables = h.variables.items;
      files = h.files.items;
      salt = h.salt;
      faults = record {
        input = h.input_faults;
        output = h.output_faults;
        secrets = h.secret_faults;
        salt = h.salt_faults;
        lines = h.line_faults;
      };
      pull_size = h.pull_size;
      push_size = h.push_size;
      failing = h.failing;
      calls = h.calls;
    } };

    ghost invariant = { λ h.
        (h.taken ≤ length h.input.items) × (0 < h.pull_size) × (0 < h.push_size) };
}

impl MemoryHost {
    /// A host whose input is `input` under any name, whose standard input as a secret is `stdin`,
    /// and whose salt is `salt`. It has no variables and no secret files, bounds no pull and no
    /// push, and fails at no call.
    pub fn new(alloc: Global, input: Vec<u8>, stdin: Vec<u8>, salt: [u8; 32]) -> MemoryHost
        ensures fresh { result ≡ new_host_in_memory input.items stdin.items salt }
    {
        MemoryHost {
            alloc,
            input,
            input_is_stdin: false,
            taken: 0,
            output: Vec::new(alloc),
            input_name: None,
            output_name: None,
            output_asked: None,
            asked: None,
            salted: false,
            readable: false,
            lines: Vec::new(alloc),
            stdin,
            variables: Vec::new(alloc),
            files: Vec::new(alloc),
            salt,
            input_faults: 0,
            output_faults: 0,
            secret_faults: 0,
            salt_faults: 0,
            line_faults: 0,
            pull_size: usize::MAX,
            push_size: usize::MAX,
            failing: 0,
            calls: 0,
        }
    }

    /// Gives the environment variable `name` a value. Where a name is given again, the later bytes count.
    pub fn set_env(&mut self, name: String, bytes: Vec<u8>) -> Result<(), AllocError>
        ensures ok { OnOk result (self.new ≡ with_environment_variable (string_bytes name) bytes.items self.old) }
        ensures given { OnOk result
            (FindsLatest (string_bytes name) bytes.items self.old.variables self.new.variables) }
        ensures err { OnErr result (self.new ≡ self.old) }
    {
        let mut growth = self.alloc;
        growth.prepend_entry(&mut self.variables, NamedSecret { name, bytes })
    }

    /// Gives an environment variable a value, as [`MemoryHost::set_env`] does, with memory from `growth`.
    /// Where that is refused no value is given, and the answer is `AllocError`.
    pub fn set_env_with_memory<G: GrowthMemory>(
        &mut self,
        growth: &mut G,
        name: String,
        bytes: Vec<u8>,
    ) -> Result<(), AllocError>
        ensures ok { OnOk result (self.new ≡ with_environment_variable (string_bytes name) bytes.items self.old) }
        ensures err { OnErr result (self.new ≡ self.old) }
    {
        growth.prepend_entry(&mut self.variables, NamedSecret { name, bytes })
    }

    /// Gives the secret file `name` its bytes. Where a name is given again, the later bytes count.
    pub fn set_file(&mut self, name: String, bytes: Vec<u8>) -> Result<(), AllocError>
        ensures ok { OnOk result (self.new ≡ with_file (string_bytes name) bytes.items self.old) }
        ensures given { OnOk result
            (FindsLatest (string_bytes name) bytes.items self.old.files self.new.files) }
        ensures err { OnErr result (self.new ≡ self.old) }
    {
        let mut growth = self.alloc;
        growth.prepend_entry(&mut self.files, NamedSecret { name, bytes })
    }

    /// Gives a secret file its bytes, as [`MemoryHost::set_file`] does, with memory from `growth`. Where
    /// that is refused no bytes are given, and the answer is `AllocError`.
    pub fn set_file_with_memory<G: GrowthMemory>(
        &mut self,
        growth: &mut G,
        name: String,
        bytes: Vec<u8>,
    ) -> Result<(), AllocError>
        ensures ok { OnOk result (self.new ≡ with_file (string_bytes name) bytes.items self.old) }
        ensures err { OnErr result (self.new ≡ self.old) }
    {
        growth.prepend_entry(&mut self.files, NamedSecret { name, bytes })
    }

    /// Sets whether the input, under whatever name, is standard input itself.
    pub fn set_input_is_stdin(&mut self, is_stdin: bool)
        ensures stdin { self.new ≡ with_input_as_stdin is_stdin self.old }
    {
        self.input_is_stdin = is_stdin;
    }

    /// Sets the greatest number of bytes of a pull and of a push, each at least 1.
    pub fn set_sizes(&mut self, pull: usize, push: usize)
        requires pull_some { 0 < pull }
        requires push_some { 0 < push }
        ensures sizes { self.new ≡ with_sizes pull push self.old }
    {
        self.pull_size = pull;
        self.push_size = push;
    }

    /// Names the call that is to fail, counted from 1 over all calls of the host; 0 is none. The
    /// counter stays at 2^64-1 once it is there.
    pub fn fail_at(&mut self, call: u64)
        ensures fails { self.new ≡ with_failing_call call self.old }
    {
        self.failing = call;
    }

    /// The input that is left: what no pull has given.
    pub fn remaining_input(&self) -> &[u8]
        ensures value { result.now ≡ self.now.input }
    {
        &self.input[self.taken..]
    }

    /// The output so far.
    pub fn output(&self) -> &[u8]
        ensures value { result.now ≡ self.now.output }
    {
        self.output.as_slice()
    }

    /// The lines said so far.
    pub fn lines(&self) -> &[String]
        ensures value { map string_bytes result.now ≡ self.now.said }
    {
        self.lines.as_slice()
    }

    /// The name under which the input was opened, where it was; `Some(None)` is standard input.
    pub fn input_name(&self) -> Option<Option<&str>>
        ensures value { option_map (option_map (λ n. n.now)) result ≡ self.now.input_opened }
    {
        kept_name(&self.input_name)
    }

    /// The name under which the output was opened, where it was; `Some(None)` is standard output.
    pub fn output_name(&self) -> Option<Option<&str>>
        ensures value { option_map (option_map (λ n. n.now)) result ≡ self.now.output_opened }
    {
        kept_name(&self.output_name)
    }

    // The bytes of a secret source, if the host has it.
    fn secret_bytes(&self, source: Source<'_>) -> Option<&[u8]>
        ensures found { option_map (λ b. b.now) result ≡ secret_of_source source.entry (memory_host_state self.now) }
    {
        match source {
            Source::StdinOnce => Some(self.stdin.as_slice()),
            Source::Env(name) => find(self.variables.as_slice(), name),
            Source::File(name) => find(self.files.as_slice(), name),
        }
    }

    // Counts a call, and says whether it is the one to fail.
    fn next_call_fails(&mut self) -> bool
        ensures counted { self.new ≡ (let m = self.old in record m { calls = next_call_number m.calls }) }
        ensures failing { result ≡ (next_call_number self.old.calls == self.old.failing) }
    {
        if self.calls < u64::MAX {
            self.calls += 1;
        }
        self.calls == self.failing
    }

    /// Opens the input, as [`Host::open_input`] does, with memory from `growth` for its name. A refusal is
    /// a fault, which is counted; the input is not opened then.
    pub fn open_input_with_memory<G: GrowthMemory>(
        &mut self,
        growth: &mut G,
        name: Option<&str>,
    ) -> Result<(), HostFault>
        requires room { AreBelow (2 ^ 64 - 1) (memory_host_failure_counts self.old) }
        ensures counts { CountsOwnFailure with_input_failure_counted result self.old self.new }
        ensures opens { OpensInput (option_map (λ n. n.now) name.entry) result self.old self.new }
    {
        if !self.next_call_fails()
            && let Ok(kept) = copy_name(growth, name)
        {
            self.input_name = Some(kept);
            self.readable = true;
            return Ok(());
        }
        self.input_faults += 1;
        Err(HostFault)
    }

    /// Opens the output, as [`Host::open_output`] does, with memory from `growth` for its name. A refusal
    /// is a fault, which is counted; the output was asked for then, and is not opened.
    pub fn open_output_with_memory<G: GrowthMemory>(
        &mut self,
        growth: &mut G,
        name: Option<&str>,
    ) -> Result<(), HostFault>
        requires room { AreBelow (2 ^ 64 - 1) (memory_host_failure_counts self.old) }
        ensures counts { CountsOwnFailure with_output_failure_counted result self.old self.new }
        ensures opens { OpensOutput (option_map (λ n. n.now) name.entry) result self.old self.new }
    {
        self.output_asked = Some(to_ghost_name(name));
        if !self.next_call_fails()
            && let Ok(kept) = copy_name(growth, name)
        {
            self.output_name = Some(kept);
            return Ok(());
        }
        self.output_faults += 1;
        Err(HostFault)
    }

    /// Takes a beginning of the bytes, as [`Host::push`] does, with memory from `growth`. A refusal is a
    /// fault, which is counted; no byte is taken then.
    pub fn push_with_memory<G: GrowthMemory>(
        &mut self,
        growth: &mut G,
        bytes: &[u8],
    ) -> Result<usize, HostFault>
        requires room { AreBelow (2 ^ 64 - 1) (memory_host_failure_counts self.old) }
        ensures bound { FitsWithin result bytes.now }
        ensures progress { TakesSome result bytes.now }
        ensures counts { CountsOwnFailure with_output_failure_counted result self.old self.new }
        ensures puts { Pushes bytes.now result self.old self.new }
    {
        let n = bytes.len().min(self.push_size);
        if self.next_call_fails() || growth.append(&mut self.output, &bytes[..n]).is_err() {
            self.output_faults += 1;
            return Err(HostFault);
        }
        Ok(n)
    }

    /// Says a line, as [`Host::say`] does, with memory from `growth`. A refusal is a fault, which is
    /// counted; the line is not said then.
    pub fn say_with_memory<G: GrowthMemory>(
        &mut self,
        growth: &mut G,
        line: &str,
    ) -> Result<(), HostFault>
        requires room { AreBelow (2 ^ 64 - 1) (memory_host_failure_counts self.old) }
        ensures counts { CountsOwnFailure with_line_failure_counted result self.old self.new }
        ensures says { SaysLine line.now result self.old self.new }
    {
        if !self.next_call_fails()
            && let Ok(kept) = growth.copy_of(line)
            && growth.add_line(&mut self.lines, kept).is_ok()
        {
            return Ok(());
        }
        self.line_faults += 1;
        Err(HostFault)
    }
}

// A name as it was kept.
fn kept_name(name: &Option<Option<String>>) -> Option<Option<&str>>
    ensures name { option_map (option_map (λ n. n.now)) result ≡
        option_map (option_map string_bytes) name.now }
{
    match name {
        None => None,
        Some(None) => Some(None),
        Some(Some(text)) => Some(Some(text.as_str())),
    }
}

// A name as it was asked for, of which contracts alone see all bytes.
fn to_ghost_name(name: Option<&str>) -> Option<GhostName>
    ensures asked { option_map name_bytes result ≡ option_map (λ n. n.now) name.entry }
{
    match name {
        None => None,
        Some(text) => Some(GhostName::of(text)),
    }
}

// A name to be kept, with memory from `growth`.
fn copy_name<G: GrowthMemory>(
    growth: &mut G,
    name: Option<&str>,
) -> Result<Option<String>, AllocError>
    ensures kept { IfOk result (λ kept.
        option_map string_bytes kept ≡ option_map (λ n. n.now) name.entry) }
{
    match name {
        None => Ok(None),
        Some(text) => Ok(Some(growth.copy_of(text)?)),
    }
}

// Copies as many of the bytes as fit, and says how many. What comes after them in the buffer stays.
fn fill(bytes: &[u8], buf: &mut [u8]) -> usize
    ensures count { result ≡ min (length bytes.now) (length buf.old) }
    ensures same { take result buf.new ≡ take result bytes.now }
    ensures rest { drop result buf.new ≡ drop result buf.old }
{
    let n = bytes.len().min(buf.len());
    buf[..n].copy_from_slice(&bytes[..n]);
    n
}

impl Host for MemoryHost {
    ghost tells = { true };

    ghost seen = { memory_host_state };

    ghost faults = { memory_host_failure_counts };

    ghost grants = { memory_host_grants };

    fn open_input(&mut self, name: Option<&str>) -> Result<(), HostFault> {
        let mut growth = self.alloc;
        self.open_input_with_memory(&mut growth, name)
    }

    fn input_is_stdin(&mut self) -> Result<bool, HostFault> {
        if self.next_call_fails() {
            self.input_faults += 1;
            return Err(HostFault);
        }
        Ok(self.input_is_stdin)
    }

    fn open_output(&mut self, name: Option<&str>) -> Result<(), HostFault> {
        let mut growth = self.alloc;
        self.open_output_with_memory(&mut growth, name)
    }

    fn pull(&mut self, buf: &mut [u8]) -> Result<usize, HostFault> {
        if self.next_call_fails() {
            self.input_faults += 1;
            self.readable = false;
            return Err(HostFault);
        }
        let most = buf.len().min(self.pull_size);
        let n = fill(&self.input[self.taken..], &mut buf[..most]);
        self.taken += n;
        self.readable = n > 0;
        Ok(n)
    }

    fn push(&mut self, bytes: &[u8]) -> Result<usize, HostFault> {
        let mut growth = self.alloc;
        self.push_with_memory(&mut growth, bytes)
    }

    fn secret(&mut self, source: Source<'_>, buf: &mut [u8]) -> Result<usize, HostFault> {
        self.asked = Some(AskedSource::of(&source));
        if !self.next_call_fails()
            && let Some(bytes) = self.secret_bytes(source)
        {
            return Ok(fill(bytes, buf));
        }
        self.secret_faults += 1;
        Err(HostFault)
    }

    fn salt(&mut self, out: &mut [u8; 32]) -> Result<(), HostFault> {
        self.salted = true;
        if self.next_call_fails() {
            self.salt_faults += 1;
            return Err(HostFault);
        }
        *out = self.salt;
        Ok(())
    }

    fn say(&mut self, line: &str) -> Result<(), HostFault> {
        let mut growth = self.alloc;
        self.say_with_memory(&mut growth, line)
    }
}
