//! The system itself.
ghost use Rattle.std.specs.Prelude.{false, [], IsNone, IsSome, IfOk};
ghost use Rattle.host.specs.Faults.{no_faults};
ghost use Rattle.system_calls.specs.Inside.Opened.{IsOpenedByName, IsStandard};
ghost use Rattle.tools.specs.SystemState.{placeholder_files, placeholder_state};

use crate::closed_stream_placeholders::{ClosedStreamPlaceholders, refuse_standard_descriptor};
use crate::identity::{file_metadata, identity, is_same_file, standard_stream_metadata};
use host::HostFault;
use std::env::{Env, FillError};
use std::fs::{File, Metadata, OpenOptions};
use std::io;
use std::io::{ErrorKind, Read, Write};
use std::path::Path;
use tools::{FileIdentity, Reading, StreamRole, System, WordFault};

/// What stands for a stream.
#[derive(Drop)]
pub enum Opened {
    /// Nothing: it is not opened.
    Nothing,
    /// The standard stream.
    Standard,
    /// A file that was opened by its name.
    Named(File),
}

/// The system, of whose bytes contracts know none.
///
/// A standard stream that is closed when this is made stays without use: no file that is opened later
/// takes its place, and reading or writing it is a fault; so is opening it to be read, where /proc tells
/// what it is. Where the root folder may not be opened, opening a file is a fault as long as a standard
/// stream is closed. Which file a standard stream is, is told under /proc; where that is missing, it is taken
/// for none.
#[derive(Drop)]
pub struct Real {
    rt: HostRuntime,
    placeholders: ClosedStreamPlaceholders,
    input: Opened,
    secret: Opened,
    random: Opened,
    output: Opened,
    folder: Option<File>,
}

impl Real {
    /// The system, of which nothing is opened. Take it before any file is opened.
    pub fn new(rt: HostRuntime) -> Real {
        Real {
            rt,
            placeholders: ClosedStreamPlaceholders::new(rt),
            input: Opened::Nothing,
            secret: Opened::Nothing,
            random: Opened::Nothing,
            output: Opened::Nothing,
            folder: None,
        }
    }

    fn opened(&mut self, reading: Reading) -> &mut Opened {
        match reading {
            Reading::Input => &mut self.input,
            Reading::Secret => &mut self.secret,
            Reading::Random => &mut self.random,
        }
    }
}

// A file to be read, or standard input. A folder is neither; nor is what stands in the place of standard input
// where that is closed.
fn open_to_read(rt: HostRuntime, name: Option<&str>) -> Result<Opened, HostFault>
    ensures standard { IsNone name.entry → IfOk result IsStandard }
    ensures named { IsSome name.entry → IfOk result IsOpenedByName }
{
    let opened = match name {
        None => Opened::Standard,
        Some(path) => Opened::Named(refuse_standard_descriptor(File::open(&rt, path))?),
    };
    match opened.told(rt, "/proc/self/fd/0")? {
        Some(metadata) if metadata.is_dir() => Err(HostFault),
        _ => Ok(opened),
    }
}

// A file to be written, which is made where it is not there, or standard output.
fn open_to_write(rt: HostRuntime, name: Option<&str>) -> Result<Opened, HostFault>
    ensures standard { IsNone name.entry → IfOk result IsStandard }
    ensures named { IsSome name.entry → IfOk result IsOpenedByName }
{
    let Some(path) = name else {
        return Ok(Opened::Standard);
    };
    let made = OpenOptions::new().write(true).create(true).open(&rt, path);
    Ok(Opened::Named(refuse_standard_descriptor(made)?))
}

// The folder in which a file of this name stands; of a link, that of the link. `None` stands for a folder that may
// not be read, and so cannot be brought to the disk.
fn open_folder(rt: HostRuntime, path: &str) -> Result<Option<File>, HostFault> {
    let folder = match Path::new(path).parent() {
        Some(folder) if !folder.as_str().is_empty() => folder,
        _ => Path::new("."),
    };
    match File::open(&rt, folder) {
        Ok(folder) => Ok(Some(folder)),
        Err(e) if e.kind() == ErrorKind::PermissionDenied => Ok(None),
        Err(_) => Err(HostFault),
    }
}

// Brings a file, or a folder, to the disk. That a file system knows no such call, as that under /proc, is no
// failure.
fn bring_to_disk(file: &File) -> Result<(), HostFault> {
    match file.sync_all() {
        Ok(()) => Ok(()),
        Err(e) if e.kind() == ErrorKind::InvalidInput => Ok(()),
        Err(e) if e.kind() == ErrorKind::Unsupported => Ok(()),
        Err(_) => Err(HostFault),
    }
}

impl Opened {
    // What the system tells of it, if it is known; a standard stream is found under its descriptor.
    fn told(&self, rt: HostRuntime, descriptor: &str) -> Result<Option<Metadata>, HostFault> {
        match self {
            Opened::Nothing => Ok(None),
            Opened::Standard => standard_stream_metadata(rt, descriptor),
            Opened::Named(file) => Ok(Some(file_metadata(file)?)),
        }
    }
}

impl System for Real {
    ghost tells = { false };

    ghost state = { λ _. placeholder_state };

    ghost files = { λ _. placeholder_files };

    ghost tries = { λ _. 0 };

    ghost failures = { λ _. no_faults };

    ghost words = { λ _. [] };

    fn word(&self, place: usize, buf: &mut [u8]) -> Result<usize, WordFault> {
        match self.rt.arg(place, buf) {
            Ok(n) => Ok(n),
            Err(FillError::TooLong) => Err(WordFault::TooLong),
            Err(FillError::NotPresent) => Err(WordFault::Missing),
        }
    }

    fn variable(&mut self, name: &str, buf: &mut [u8]) -> Result<usize, HostFault> {
        match self.rt.var(name, buf) {
            Ok(n) => Ok(n),
            // The buffer holds the first bytes of the value.
            Err(FillError::TooLong) => Ok(buf.len()),
            Err(FillError::NotPresent) => Err(HostFault),
        }
    }

    fn open(&mut self, reading: Reading, name: Option<&str>) -> Result<(), HostFault> {
        *self.opened(reading) = open_to_read(self.rt, name)?;
        Ok(())
    }

    fn read(&mut self, reading: Reading, buf: &mut [u8]) -> io::Result<usize> {
        let rt = self.rt;
        match self.opened(reading) {
            Opened::Nothing => Err(io::Error::from(ErrorKind::NotFound)),
            Opened::Standard => rt.stdin().read(buf),
            Opened::Named(file) => file.read(buf),
        }
    }

    fn input_is_stdin(&mut self) -> Result<bool, HostFault> {
        if matches!(self.input, Opened::Nothing) {
            return Err(HostFault);
        }
        let input = self.input.told(self.rt, "/proc/self/fd/0")?;
        let stdin = standard_stream_metadata(self.rt, "/proc/self/fd/0")?;
        match (&input, &stdin) {
            (Some(input), Some(stdin)) => Ok(is_same_file(input, stdin)),
            _ => Ok(false),
        }
    }

    fn open_output(&mut self, name: Option<&str>) -> Result<(), HostFault> {
        self.output = open_to_write(self.rt, name)?;
        // The folder is opened before anything is written, so a fault of that comes before the file is emptied.
        if let (Opened::Named(file), Some(path)) = (&self.output, name) {
            if file_metadata(file)?.is_file() {
                self.folder = open_folder(self.rt, path)?;
            }
        }
        Ok(())
    }

    fn file(&mut self, stream: StreamRole) -> Result<Option<FileIdentity>, HostFault> {
        let told = match stream {
            StreamRole::Input => self.input.told(self.rt, "/proc/self/fd/0")?,
            StreamRole::Secret => self.secret.told(self.rt, "/proc/self/fd/0")?,
            StreamRole::Output => self.output.told(self.rt, "/proc/self/fd/1")?,
            StreamRole::Error => standard_stream_metadata(self.rt, "/proc/self/fd/2")?,
        };
        match told {
            Some(metadata) => Ok(identity(&metadata)),
            None => Ok(None),
        }
    }

    fn empty(&mut self) -> Result<(), HostFault> {
        match &mut self.output {
            Opened::Named(file) => file.set_len(0).map_err(|_| HostFault),
            _ => Err(HostFault),
        }
    }

    fn write(&mut self, bytes: &[u8]) -> io::Result<usize> {
        match &mut self.output {
            Opened::Nothing => Err(io::Error::from(ErrorKind::NotFound)),
            Opened::Standard => self.rt.stdout().write(bytes),
            Opened::Named(file) => file.write(bytes),
        }
    }

    fn sync(&mut self) -> Result<(), HostFault> {
        let Opened::Named(file) = &self.output else {
            return Err(HostFault);
        };
        bring_to_disk(file)?;
        match &self.folder {
            Some(folder) => bring_to_disk(folder),
            None => Ok(()),
        }
    }

    fn line(&mut self, line: &str) -> Result<(), HostFault> {
        eprintln!(self.rt; "{line}").map_err(|_| HostFault)
    }
}
