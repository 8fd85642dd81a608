//! The calls of the system that the programs make.
ghost use Rattle.std.specs.Prelude.{◌≡◌, ◌+◌, ◌<◌, Bool, ℕ, List, [], None, Ok, true, false, length, option_map, take, IfOk, OnOk, OnErr, IsTrue};
ghost use Rattle.host.specs.Faults.{Faults, CountsFailure, CountsNoFailure, with_input_failure_counted, with_line_failure_counted, with_output_failure_counted, with_secret_failure_counted};
ghost use Rattle.host.specs.Entries.{lookup};
ghost use Rattle.host.specs.Secret.{IsBeginning};
ghost use Rattle.host.specs.HostState.{Text, FitsWithin, KeepsOnErr};
ghost use Rattle.tools.specs.Failures.{after_read_counted, after_write_counted, with_file_failure_counted, with_read_failure_counted};
ghost use Rattle.tools.specs.Words.{GivesCommandLineWord, word_at};
ghost use Rattle.tools.specs.SystemState.{Files, IsOutputSeparate, Opens, Reads, HasSeparateErrorStream, SystemState, after_ask_line, after_ask_output, after_ask_sync, after_empty, after_line, after_open_output, after_sync, after_write, identity_of_stream, IsBeforeOutput, IsBeforeSync, IsReadStreamUnopened, ReadStreamHasNotEnded, IsNotYetOpened};

use crate::identity::FileIdentity;
use host::HostFault;
use std::io;

/// Why a word of the process is not given.
#[derive(Clone, Copy)]
pub enum WordFault {
    /// There is no word at this place.
    Missing,
    /// The buffer is too short for it.
    TooLong,
}

/// What is read.
#[derive(Clone, Copy)]
pub enum Reading {
    /// The input.
    Input,
    /// The source of a secret that is no variable.
    Secret,
    /// The system's random bytes.
    Random,
}

/// A stream that may be a file which must not be lost: an opened one, or standard error.
#[derive(Clone, Copy)]
pub enum StreamRole {
    /// The input.
    Input,
    /// The source of a secret.
    Secret,
    /// The output.
    Output,
    /// Standard error.
    Error,
}

/// The system, with a method for each of its calls. It keeps what it opens: one stream of each
/// [`Reading`], and an output.
///
/// Contracts see whether the system tells its bytes (`tells`); its bytes, names and lines (`state`);
/// which regular files and block devices its streams are (`files`), which may change when a file is opened,
/// as where a file system of layers copies a file that is opened to be written; how often a read or a write
/// was asked for (`tries`); how often each kind of call has failed (`failures`); and the words of the process
/// (`words`). Of a system that tells nothing only the bounds on lengths are said.
///
/// What must never happen is a condition of a call: each stream is opened once, and none once an output
/// was asked for; an output is asked for once; it is emptied and written only while it is no file that is
/// read (the input or the secret's source), and written only if it is new; nothing is read from a stream
/// after its end; the output is brought to the disk once, if it is kept (a regular file or a block device
/// that was opened by its name), and neither emptied nor written afterwards; one line is said, and only
/// while standard error is no file that is read.
pub trait System {
    // Whether contracts may speak of the bytes, names, lines and files.
    ghost tells: { Bool };

    // The bytes, names and lines.
    ghost state: { Self → SystemState };

    // Which regular files and block devices the opened streams are.
    ghost files: { Self → Files };

    // How often a read or a write was asked for.
    ghost tries: { Self → ℕ };

    // How often each kind of call has failed: to open or read the input, or to tell whether it is standard input; to open,
    // write, empty or keep the output; to open, read or give a secret; to open or read random bytes; and to say a line.
    ghost failures: { Self → Faults };

    // The words of the process, of which the first is its name.
    ghost words: { Self → List Text };

    /// Puts a word of the process into the buffer, and says how many bytes it has. The name of the process
    /// is at place 0.
    fn word(&self, place: usize, buf: &mut [u8]) -> Result<usize, WordFault>
        ensures bound { FitsWithin result buf.old }
        ensures bytes { IsTrue tells → GivesCommandLineWord (word_at (words self.now) place) result buf.new };

    /// Puts the first bytes of a variable into the buffer, as many as there are and as fit.
    fn variable(&mut self, name: &str, buf: &mut [u8]) -> Result<usize, HostFault>
        ensures bound { FitsWithin result buf.old }
        ensures bytes { IsTrue tells → IfOk result (λ n.
            IsBeginning (lookup (state self.old).variables name.now) n buf.new) }
        ensures same { IsTrue tells → state self.new ≡ state self.old }
        ensures same_files { IsTrue tells → files self.new ≡ files self.old }
        ensures untried { IsTrue tells → tries self.new ≡ tries self.old }
        ensures counts { IsTrue tells → CountsNoFailure result (failures self.old) (failures self.new) }
        ensures counted { IsTrue tells →
            CountsFailure with_secret_failure_counted result (failures self.old) (failures self.new) };

    /// Opens what has this name, to be read from its beginning; `None` is standard input.
    fn open(&mut self, reading: Reading, name: Option<&str>) -> Result<(), HostFault>
        requires once { IsTrue tells → IsNotYetOpened reading (state self.old) }
        requires early { IsTrue tells → IsBeforeOutput (state self.old) }
        ensures kept { IsTrue tells → KeepsOnErr result (state self.old) (state self.new) }
        ensures opened { IsTrue tells → OnOk result
            (Opens reading (option_map (λ n. n.now) name.entry) (state self.old) (state self.new)) }
        ensures counts { IsTrue tells → CountsNoFailure result (failures self.old) (failures self.new) }
        ensures counted { IsTrue tells →
            CountsFailure (with_read_failure_counted reading) result (failures self.old) (failures self.new) };

    /// Reads the next bytes of an opened stream, and says how many. After an error nothing was read. Random bytes have
    /// no end, so one that gives none of them has failed, too.
    fn read(&mut self, reading: Reading, buf: &mut [u8]) -> io::Result<usize>
        requires not_empty { 0 < length buf.old }
        requires going { IsTrue tells → ReadStreamHasNotEnded reading (state self.old) }
        ensures bound { FitsWithin result buf.old }
        ensures kept { IsTrue tells → KeepsOnErr result (state self.old) (state self.new) }
        ensures bytes { IsTrue tells → IfOk result (λ n.
            Reads reading n buf.new (state self.old) (state self.new)) }
        ensures same_files { IsTrue tells → files self.new ≡ files self.old }
        ensures tried { IsTrue tells → tries self.new ≡ tries self.old + 1 }
        ensures counts { IsTrue tells → IfOk result (λ n.
            failures self.new ≡ after_read_counted reading n (failures self.old)) }
        ensures counted { IsTrue tells →
            CountsFailure (with_read_failure_counted reading) result (failures self.old) (failures self.new) };

    /// Whether the input, which is opened, is standard input itself, whatever its name.
    fn input_is_stdin(&mut self) -> Result<bool, HostFault>
        ensures told { IsTrue tells → IfOk result (λ is_stdin. is_stdin ≡ (state self.old).input_is_stdin) }
        ensures same { IsTrue tells → state self.new ≡ state self.old }
        ensures same_files { IsTrue tells → files self.new ≡ files self.old }
        ensures untried { IsTrue tells → tries self.new ≡ tries self.old }
        ensures counts { IsTrue tells → CountsNoFailure result (failures self.old) (failures self.new) }
        ensures counted { IsTrue tells →
            CountsFailure with_input_failure_counted result (failures self.old) (failures self.new) };

    /// Opens an output, which holds what it held before; `None` is standard output. No output was asked
    /// for before; this one is asked for, whatever the answer.
    fn open_output(&mut self, name: Option<&str>) -> Result<(), HostFault>
        requires once { IsTrue tells → IsBeforeOutput (state self.old) }
        ensures asks { IsTrue tells → OnErr result
            (state self.new ≡ after_ask_output (option_map (λ n. n.now) name.entry) (state self.old)) }
        ensures opened { IsTrue tells → OnOk result (state self.new ≡ after_open_output
            (option_map (λ n. n.now) name.entry) (files self.new).output (state self.old)) }
        ensures counts { IsTrue tells → CountsNoFailure result (failures self.old) (failures self.new) }
        ensures counted { IsTrue tells →
            CountsFailure with_output_failure_counted result (failures self.old) (failures self.new) };

    /// Which regular file or block device a stream is, if it is one. What is not opened is none; of the input
    /// and of the secret's source that is known, so it is no fault.
    fn file(&mut self, stream: StreamRole) -> Result<Option<FileIdentity>, HostFault>
        ensures found { IsTrue tells → IfOk result (λ file. file ≡ identity_of_stream stream (files self.old)) }
        ensures unopened { IsTrue tells → IsReadStreamUnopened stream (state self.old) → result ≡ Ok None }
        ensures same { IsTrue tells → state self.new ≡ state self.old }
        ensures same_files { IsTrue tells → files self.new ≡ files self.old }
        ensures untried { IsTrue tells → tries self.new ≡ tries self.old }
        ensures counts { IsTrue tells → CountsNoFailure result (failures self.old) (failures self.new) }
        ensures counted { IsTrue tells →
            CountsFailure (with_file_failure_counted stream) result (failures self.old) (failures self.new) };

    /// Takes away what the output holds: a regular file that was opened by its name, was neither emptied
    /// nor asked to be brought to the disk, and is none that is read.
    fn empty(&mut self) -> Result<(), HostFault>
        requires due { IsTrue tells → (state self.old).is_new ≡ false }
        requires apart { IsTrue tells → IsOutputSeparate (files self.old) }
        requires unsynced { IsTrue tells → IsBeforeSync (state self.old) }
        ensures kept { IsTrue tells → KeepsOnErr result (state self.old) (state self.new) }
        ensures emptied { IsTrue tells → OnOk result (state self.new ≡ after_empty (state self.old)) }
        ensures same_files { IsTrue tells → files self.new ≡ files self.old }
        ensures counts { IsTrue tells → CountsNoFailure result (failures self.old) (failures self.new) }
        ensures counted { IsTrue tells →
            CountsFailure with_output_failure_counted result (failures self.old) (failures self.new) };

    /// Writes a beginning of the bytes, and says how many. The output is no file that is read, is new, and was
    /// not asked to be brought to the disk. After an error nothing was written. One that takes none has failed, too.
    fn write(&mut self, bytes: &[u8]) -> io::Result<usize>
        requires not_empty { 0 < length bytes.now }
        requires apart { IsTrue tells → IsOutputSeparate (files self.old) }
        requires new { IsTrue tells → (state self.old).is_new ≡ true }
        requires unsynced { IsTrue tells → IsBeforeSync (state self.old) }
        ensures bound { FitsWithin result bytes.now }
        ensures kept { IsTrue tells → KeepsOnErr result (state self.old) (state self.new) }
        ensures put { IsTrue tells → IfOk result (λ n.
            state self.new ≡ after_write (take n bytes.now) (state self.old)) }
        ensures same_files { IsTrue tells → files self.new ≡ files self.old }
        ensures tried { IsTrue tells → tries self.new ≡ tries self.old + 1 }
        ensures counts { IsTrue tells → IfOk result (λ n.
            failures self.new ≡ after_write_counted n (failures self.old)) }
        ensures counted { IsTrue tells →
            CountsFailure with_output_failure_counted result (failures self.old) (failures self.new) };

    /// Brings to the disk what was written, and tells whether that failed: an output that is kept, and was not
    /// asked to be brought there yet.
    fn sync(&mut self) -> Result<(), HostFault>
        requires kept { IsTrue tells → (state self.old).is_kept ≡ true }
        requires once { IsTrue tells → IsBeforeSync (state self.old) }
        ensures asks { IsTrue tells → OnErr result (state self.new ≡ after_ask_sync (state self.old)) }
        ensures synced { IsTrue tells → OnOk result (state self.new ≡ after_sync (state self.old)) }
        ensures same_files { IsTrue tells → files self.new ≡ files self.old }
        ensures counts { IsTrue tells → CountsNoFailure result (failures self.old) (failures self.new) }
        ensures counted { IsTrue tells →
            CountsFailure with_output_failure_counted result (failures self.old) (failures self.new) };

    /// Writes a line and its line feed to standard error, which is no file that is read. No line
    /// was said before; this one is asked for, whatever the answer.
    fn line(&mut self, line: &str) -> Result<(), HostFault>
        requires once { IsTrue tells → (state self.old).said ≡ [] }
        requires apart { IsTrue tells → HasSeparateErrorStream (files self.old) }
        ensures asks { IsTrue tells → OnErr result (state self.new ≡ after_ask_line (state self.old)) }
        ensures said { IsTrue tells → OnOk result (state self.new ≡ after_line line.now (state self.old)) }
        ensures same_files { IsTrue tells → files self.new ≡ files self.old }
        ensures counts { IsTrue tells → CountsNoFailure result (failures self.old) (failures self.new) }
        ensures counted { IsTrue tells →
            CountsFailure with_line_failure_counted result (failures self.old) (failures self.new) };
}
