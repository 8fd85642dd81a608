//! A system in memory.
ghost use Rattle.std.specs.Prelude.{◌≡◌, ◌↔◌, ◌+◌, ◌-◌, ◌<◌, ◌^◌, None, true, length, map, min, option_map, Some, IfOk, OnOk, OnErr, IsTrue, string_bytes};
ghost use Rattle.host.specs.HostState.{FitsWithin, KeepsOnErr};
ghost use Rattle.memory_system.specs.Memory.{new_system_in_memory, source_not_yet_opened, with_standard_error_file, with_file, with_input_as_stdin, with_input_bytes, with_stdin_bytes, with_environment_variable, append_word};
ghost use Rattle.tools.specs.SystemState.{IsReadStreamUnopened, Opens, Reads, identity_of_stream, stands_at};
ghost use Rattle.tools.specs.declared.system.Reading.TheVariants as reading;

use crate::contents::{Contents, Identities, Named, find};
use crate::failure_counts::FailureCounts;
use crate::memory_source::{InMemoryStream, fill, to_ghost_name};
use crate::unbounded_count::UnboundedCount;
use host::{GhostName, HostFault};
use std::alloc::{AllocError, Global};
use std::cell::Cell;
use std::io;
use std::io::ErrorKind;
use std::marker::Model;
use tools::{FileIdentity, Reading, StreamRole, System, WordFault};

/// The file that is made where an output has a name under which nothing stands. Give it to no file.
pub const IDENTITY_OF_CREATED_OUTPUT: FileIdentity = FileIdentity::Regular {
    device: u64::MAX,
    inode: u64::MAX,
};

/// Which files the opened streams are.
#[derive(Clone, Copy)]
struct IdentitiesOfOpenedFiles {
    input: Option<FileIdentity>,
    secret: Option<FileIdentity>,
    output: Option<FileIdentity>,
    error: Option<FileIdentity>,
}

const NO_FILES: IdentitiesOfOpenedFiles = IdentitiesOfOpenedFiles {
    input: None,
    secret: None,
    output: None,
    error: None,
};

/// A system that is all in memory, and tells its bytes: files and variables under their names, standard
/// input, and which files they and standard output are. It takes and gives its bytes in pieces
/// of given sizes, is interrupted before each piece as often as it is told, and fails at a given call.
/// What comes of these sizes, interruptions and failures, that the input is opened under its name alone,
/// and which files the opened streams are is tested, and is in no contract.
///
/// What stands under a name stays: what is written is kept apart, as the output. A growth of memory
/// that is refused is a failure of the call. Contracts see a `Memory`.
#[derive(Drop)]
pub struct MemorySystem {
    alloc: Global,
    files: Vec<Named>,
    variables: Vec<Named>,
    words: Vec<Contents>,
    stdin: Option<Contents>,
    stdout: Identities,
    input_name: Option<Option<String>>,
    input_file: Identities,
    input: InMemoryStream,
    input_is_stdin: bool,
    secret: InMemoryStream,
    random: InMemoryStream,
    output: Vec<u8>,
    output_asked: Option<Option<GhostName>>,
    is_new: bool,
    is_emptied: bool,
    is_kept: bool,
    sync_asked: bool,
    is_synced: bool,
    line_asked: bool,
    lines: Vec<String>,
    opened: IdentitiesOfOpenedFiles,
    opened_then: IdentitiesOfOpenedFiles,
    tries: UnboundedCount,
    failures: FailureCounts,
    read_size: usize,
    write_size: usize,
    interruptions: u64,
    interrupted: u64,
    failing: u64,
    calls: Cell<u64>,
}

impl Model for MemorySystem {
    ghost use Rattle.std.specs.Prelude.{◌≡◌, ◌<◌, None, map, option_map, string_bytes};
    ghost use Rattle.host.specs.AskedSource.{name_bytes};
    ghost use Rattle.memory_system.specs.Memory.{Memory, IsNoFileUntilOpened};

    ghost Value = { Memory };

    ghost view = { λ m. record {
      state = record {
        input = m.input;
        input_is_stdin = m.input_is_stdin;
        secret = m.secret;
        random = m.random;
        output = m.output.items;
        output_asked = option_map (option_map name_bytes) m.output_asked;
        is_new = m.is_new;
        is_emptied = m.is_emptied;
        is_kept = m.is_kept;
        sync_asked = m.sync_asked;
        is_synced = m.is_synced;
        line_asked = m.line_asked;
        said = map string_bytes m.lines.items;
        stdin = m.stdin;
        files = m.files.items;
        variables = m.variables.items;
      };
      files = record { input = m.opened.input; secret = m.opened.secret; output = m.opened.output; error = m.opened.error };
      tries = m.tries;
      failures = m.failures;
      words = m.words.items;
    } };

    ghost invariant = { λ m. (0 < m.read_size)
        × IsNoFileUntilOpened m.input m.opened.input m.opened_then.input
        × IsNoFileUntilOpened m.secret m.opened.secret m.opened_then.secret };
}

impl MemorySystem {
    /// A system in which nothing stands under any name. Its pieces have no bound, and no call is
    /// interrupted or fails.
    pub fn new(alloc: Global) -> MemorySystem
        ensures fresh { result ≡ new_system_in_memory }
    {
        MemorySystem {
            alloc,
            files: Vec::new(alloc),
            variables: Vec::new(alloc),
            words: Vec::new(alloc),
            stdin: None,
            stdout: Identities::NONE,
            input_name: None,
            input_file: Identities::NONE,
            input: InMemoryStream::new(Vec::new(alloc)),
            input_is_stdin: false,
            secret: InMemoryStream::new(Vec::new(alloc)),
            random: InMemoryStream::new(Vec::new(alloc)),
            output: Vec::new(alloc),
            output_asked: None,
            is_new: false,
            is_emptied: false,
            is_kept: false,
            sync_asked: false,
            is_synced: false,
            line_asked: false,
            lines: Vec::new(alloc),
            opened: NO_FILES,
            opened_then: NO_FILES,
            tries: UnboundedCount::new(),
            failures: FailureCounts::new(),
            read_size: usize::MAX,
            write_size: usize::MAX,
            interruptions: 0,
            interrupted: 0,
            failing: 0,
            calls: Cell::new(0),
        }
    }

    /// Puts a file under a name. Two names of one file are two files of the same contents. Where a name
    /// is given again, the later contents count.
    pub fn set_file(&mut self, name: String, contents: Contents) -> Result<(), AllocError>
        ensures ok { OnOk result (self.new ≡ with_file (string_bytes name) contents self.old) }
        ensures err { OnErr result (self.new ≡ self.old) }
    {
        self.files.insert(0, Named::new(name, contents))?;
        Ok(())
    }

    /// Gives a variable a value. Where a name is given again, the later value counts.
    pub fn set_variable(&mut self, name: String, bytes: Vec<u8>) -> Result<(), AllocError>
        ensures ok { OnOk result (self.new ≡ with_environment_variable (string_bytes name) bytes.items self.old) }
        ensures err { OnErr result (self.new ≡ self.old) }
    {
        let value = Contents::new(bytes, Identities::NONE);
        self.variables.insert(0, Named::new(name, value))?;
        Ok(())
    }

    /// Adds a word of the process, the first of which is its name.
    pub fn add_command_line_word(&mut self, word: Vec<u8>) -> Result<(), AllocError>
        ensures ok { OnOk result (self.new ≡ append_word word.items self.old) }
        ensures err { OnErr result (self.new ≡ self.old) }
    {
        self.words.push(Contents::new(word, Identities::NONE))?;
        Ok(())
    }

    /// Opens standard input, which gives the contents from their beginning, and standard output.
    pub fn set_standard(&mut self, stdin: Contents, stdout: Identities)
        ensures stdin { self.new ≡ with_stdin_bytes stdin self.old }
    {
        self.stdin = Some(stdin);
        self.stdout = stdout;
    }

    /// Says which file standard error is, if it is one.
    pub fn set_standard_error(&mut self, file: Option<FileIdentity>)
        ensures error { self.new ≡ with_standard_error_file file self.old }
    {
        self.opened.error = file;
        self.opened_then.error = file;
    }

    /// Says under which name the input stands, which must be there; `None` is standard input. Under any
    /// other name the input cannot be opened.
    pub fn set_input_name(&mut self, name: Option<&str>) -> Result<(), HostFault>
        ensures ok { OnOk result (self.new ≡ with_input_bytes self.new.state.input.left self.old) }
        ensures given { OnOk result
            (stands_at (option_map (λ n. n.now) name.entry) self.old.state ≡ Some self.new.state.input.left) }
        ensures err { OnErr result (self.new ≡ self.old) }
    {
        let kept = match name {
            None => None,
            Some(text) => Some(String::from_str(self.alloc, text).map_err(|_| HostFault)?),
        };
        let (input, identities) = self.source_of(name)?;
        self.input = input;
        self.opened.input = None;
        self.opened_then.input = None;
        self.input_file = identities;
        self.input_name = Some(kept);
        Ok(())
    }

    /// Says whether the input, under whatever name, is standard input itself.
    pub fn set_input_is_stdin(&mut self, is_stdin: bool)
        ensures stdin { self.new ≡ with_input_as_stdin is_stdin self.old }
    {
        self.input_is_stdin = is_stdin;
    }

    /// Sets the greatest number of bytes of a read, at least 1, and of a write. With 0 a write takes
    /// nothing.
    pub fn set_sizes(&mut self, read: usize, write: usize)
        requires at_least_1 { 0 < read }
        ensures same { self.new ≡ self.old }
    {
        self.read_size = read;
        self.write_size = write;
    }

    /// Says how often each read and each write is interrupted before it is done.
    pub fn set_interrupt_count(&mut self, times: u64)
        ensures same { self.new ≡ self.old }
    {
        self.interruptions = times;
    }

    /// Names the call of the system that is to fail, counted from 1 over all its calls but `word`, and `file`
    /// of what is to be read and is not opened, which never fail so; 0 is none. The counter stays at 2^64-1 once it is there.
    pub fn fail_at(&mut self, call: u64)
        ensures same { self.new ≡ self.old }
    {
        self.failing = call;
    }

    /// What was written to the output.
    pub fn output(&self) -> &[u8]
        ensures bytes { result.now ≡ self.now.state.output }
    {
        self.output.as_slice()
    }

    /// Whether the output was emptied.
    pub fn is_emptied(&self) -> bool
        ensures emptied { result ≡ self.now.state.is_emptied }
    {
        self.is_emptied
    }

    /// Whether the output was brought to the disk.
    pub fn is_synced(&self) -> bool
        ensures synced { result ≡ self.now.state.is_synced }
    {
        self.is_synced
    }

    /// The lines said so far.
    pub fn lines(&self) -> &[String]
        ensures lines { map string_bytes result.now ≡ self.now.state.said }
    {
        self.lines.as_slice()
    }

    /// How often a read or a write was asked for, or 2^64-1 where it was more often.
    pub fn tries(&self) -> u64
        ensures number { result ≡ min self.now.tries (2 ^ 64 - 1) }
    {
        self.tries.shown()
    }

    /// How many calls the system was asked for that can fail so, or 2^64-1 where it was more.
    pub fn calls(&self) -> u64 {
        self.calls.get()
    }

    // Counts a call, and says whether it is the one to fail.
    fn next_call_fails(&self) -> bool {
        self.calls.set(self.calls.get().saturating_add(1));
        self.calls.get() == self.failing
    }

    // Counts a read or a write, which is refused where it is the call to fail, or is interrupted.
    fn count_read_or_write_or_fail(&mut self) -> io::Result<()>
        ensures tried { self.new ≡ (let m = self.old in record m { tries = m.tries + 1 }) }
    {
        self.tries.add_one();
        if self.next_call_fails() {
            return Err(io::Error::from(ErrorKind::Other));
        }
        if self.interrupted < self.interruptions {
            self.interrupted += 1;
            return Err(io::Error::from(ErrorKind::Interrupted));
        }
        self.interrupted = 0;
        Ok(())
    }

    // Whether this stream is the input or the secret's source, and was not opened.
    fn is_unopened(&self, stream: StreamRole) -> bool
        ensures exact { IsTrue result ↔ IsReadStreamUnopened stream self.now.state }
        ensures no_file { IsTrue result → identity_of_stream stream self.now.files ≡ None }
    {
        match stream {
            StreamRole::Input => self.input.is_unopened(),
            StreamRole::Secret => self.secret.is_unopened(),
            StreamRole::Output | StreamRole::Error => false,
        }
    }

    // What stands under this name.
    fn stands_at(&self, name: Option<&str>) -> Option<&Contents>
        ensures found { option_map (λ c. c.now) result
            ≡ stands_at (option_map (λ n. n.now) name.entry) self.now.state }
    {
        match name {
            None => self.stdin.as_ref(),
            Some(text) => find(self.files.as_slice(), text),
        }
    }

    // A stream of what stands under this name, which is not opened yet, and which file it is.
    fn source_of(&self, name: Option<&str>) -> Result<(InMemoryStream, Identities), HostFault>
        ensures unopened { IfOk result (λ s. s.0 ≡ source_not_yet_opened s.0.left) }
        ensures given { IfOk result (λ s.
            stands_at (option_map (λ n. n.now) name.entry) self.now.state ≡ Some s.0.left) }
    {
        let contents = self.stands_at(name).ok_or(HostFault)?;
        let bytes = contents.bytes().to_vec(self.alloc).map_err(|_| HostFault)?;
        Ok((InMemoryStream::new(bytes), contents.identities()))
    }

    // Whether the input stands under this name.
    fn is_input_name(&self, name: Option<&str>) -> bool {
        match &self.input_name {
            None => false,
            Some(None) => name.is_none(),
            Some(Some(kept)) => name == Some(kept.as_str()),
        }
    }

    // Opens a stream, and counts no failure.
    fn open_stream(&mut self, reading: Reading, name: Option<&str>) -> Result<(), HostFault>
        ensures kept { KeepsOnErr result self.old.state self.new.state }
        ensures opened { OnOk result (Opens reading (option_map (λ n. n.now) name.entry) self.old.state self.new.state) }
        ensures uncounted { self.new.failures ≡ self.old.failures }
    {
        if self.next_call_fails() {
            return Err(HostFault);
        }
        match reading {
            Reading::Input => self.open_input(name)?,
            Reading::Secret => {
                let (source, file) = self.source_of(name)?;
                self.secret = source;
                self.secret.open(name);
                self.opened.secret = file.before;
                self.opened_then.secret = file.after;
            }
            Reading::Random => {
                let (source, _) = self.source_of(name)?;
                self.random = source;
                self.random.open(name);
            }
        }
        Ok(())
    }

    // Reads the next bytes of a stream, and counts no failure.
    fn read_stream(&mut self, reading: Reading, buf: &mut [u8]) -> io::Result<usize>
        requires not_empty { 0 < length buf.old }
        ensures bound { FitsWithin result buf.old }
        ensures kept { KeepsOnErr result self.old.state self.new.state }
        ensures bytes { IfOk result (λ n. Reads reading n buf.new self.old.state self.new.state) }
        ensures same_files { self.new.files ≡ self.old.files }
        ensures tried { self.new.tries ≡ self.old.tries + 1 }
        ensures uncounted { self.new.failures ≡ self.old.failures }
    {
        self.count_read_or_write_or_fail()?;
        match reading {
            Reading::Input => self.input.read(buf, self.read_size),
            Reading::Secret => self.secret.read(buf, self.read_size),
            Reading::Random => self.random.read(buf, self.read_size),
        }
    }

    // Opens the input, if it stands under this name.
    fn open_input(&mut self, name: Option<&str>) -> Result<(), HostFault>
        ensures ok { OnOk result (Opens reading.Input (option_map (λ n. n.now) name.entry)
            self.old.state self.new.state) }
        ensures err { OnErr result (self.new.state ≡ self.old.state) }
        ensures uncounted { self.new.failures ≡ self.old.failures }
    {
        if !self.is_input_name(name) {
            return Err(HostFault);
        }
        self.input.open(name);
        self.opened.input = self.input_file.before;
        self.opened_then.input = self.input_file.after;
        Ok(())
    }

    // Which file an output of this name is.
    fn identities_of_output(&self, name: Option<&str>) -> Identities {
        match name {
            None => self.stdout,
            Some(text) => match find(self.files.as_slice(), text) {
                None => Identities::of(IDENTITY_OF_CREATED_OUTPUT),
                Some(contents) => contents.identities(),
            },
        }
    }
}

impl System for MemorySystem {
    ghost tells = { true };

    ghost state = { λ m. m.state };

    ghost files = { λ m. m.files };

    ghost tries = { λ m. m.tries };

    ghost failures = { λ m. m.failures };

    ghost words = { λ m. m.words };

    fn word(&self, place: usize, buf: &mut [u8]) -> Result<usize, WordFault> {
        match self.words.get(place) {
            None => Err(WordFault::Missing),
            Some(word) if buf.len() < word.bytes().len() => Err(WordFault::TooLong),
            Some(word) => Ok(fill(word.bytes(), buf)),
        }
    }

    fn variable(&mut self, name: &str, buf: &mut [u8]) -> Result<usize, HostFault> {
        if self.next_call_fails() {
            self.failures.count_variable_failure();
            return Err(HostFault);
        }
        let read = match find(self.variables.as_slice(), name) {
            None => Err(HostFault),
            Some(value) => Ok(fill(value.bytes(), buf)),
        };
        if read.is_err() {
            self.failures.count_variable_failure();
        }
        read
    }

    fn open(&mut self, reading: Reading, name: Option<&str>) -> Result<(), HostFault> {
        let opened = self.open_stream(reading, name);
        if opened.is_err() {
            self.failures.count_read_failure(reading);
        }
        opened
    }

    fn read(&mut self, reading: Reading, buf: &mut [u8]) -> io::Result<usize> {
        match self.read_stream(reading, buf) {
            Ok(n) => {
                self.failures.count_read(reading, n);
                Ok(n)
            }
            Err(e) => {
                self.failures.count_read_failure(reading);
                Err(e)
            }
        }
    }

    fn input_is_stdin(&mut self) -> Result<bool, HostFault> {
        if self.next_call_fails() {
            self.failures.count_read_failure(Reading::Input);
            return Err(HostFault);
        }
        Ok(self.input_is_stdin)
    }

    fn open_output(&mut self, name: Option<&str>) -> Result<(), HostFault> {
        self.output_asked = Some(to_ghost_name(name));
        if self.next_call_fails() {
            self.failures.count_output_failure();
            return Err(HostFault);
        }
        let file = self.identities_of_output(name).after;
        self.opened = IdentitiesOfOpenedFiles {
            output: file,
            ..self.opened_then
        };
        self.is_new = match (name, file) {
            (Some(_), Some(named)) => !named.is_regular(),
            _ => true,
        };
        self.is_kept = name.is_some() && file.is_some();
        Ok(())
    }

    fn file(&mut self, stream: StreamRole) -> Result<Option<FileIdentity>, HostFault> {
        if self.is_unopened(stream) {
            return Ok(None);
        }
        if self.next_call_fails() {
            self.failures.count_file_failure(stream);
            return Err(HostFault);
        }
        Ok(match stream {
            StreamRole::Input => self.opened.input,
            StreamRole::Secret => self.opened.secret,
            StreamRole::Output => self.opened.output,
            StreamRole::Error => self.opened.error,
        })
    }

    fn empty(&mut self) -> Result<(), HostFault> {
        if self.next_call_fails() {
            self.failures.count_output_failure();
            return Err(HostFault);
        }
        self.is_new = true;
        self.is_emptied = true;
        Ok(())
    }

    fn write(&mut self, bytes: &[u8]) -> io::Result<usize> {
        if let Err(e) = self.count_read_or_write_or_fail() {
            self.failures.count_output_failure();
            return Err(e);
        }
        let n = bytes.len().min(self.write_size);
        if self.output.extend_from_slice(&bytes[..n]).is_err() {
            self.failures.count_output_failure();
            return Err(io::Error::from(ErrorKind::OutOfMemory));
        }
        self.failures.count_write(n);
        Ok(n)
    }

    fn sync(&mut self) -> Result<(), HostFault> {
        self.sync_asked = true;
        if self.next_call_fails() {
            self.failures.count_output_failure();
            return Err(HostFault);
        }
        self.is_synced = true;
        Ok(())
    }

    fn line(&mut self, line: &str) -> Result<(), HostFault> {
        self.line_asked = true;
        if self.next_call_fails() {
            self.failures.count_line_failure();
            return Err(HostFault);
        }
        let Ok(kept) = String::from_str(self.alloc, line) else {
            self.failures.count_line_failure();
            return Err(HostFault);
        };
        if self.lines.push(kept).is_err() {
            self.failures.count_line_failure();
            return Err(HostFault);
        }
        Ok(())
    }
}
