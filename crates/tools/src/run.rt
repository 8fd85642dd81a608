//! A run over a system: the system, and how far the run has come.
ghost use Rattle.std.specs.Prelude.{◌≡◌, ◌<◌, None, option_map, IfOk, OnOk, OnErr, IsTrue, true, false};
ghost use Rattle.host.specs.HostState.{FitsWithin, KeepsOnErr, TakesSome};
ghost use Rattle.tools.specs.Failures.{AreNoFewer};
ghost use Rattle.tools.specs.RunState.{Leaves, host_seen, nothing_asked, source_of};
ghost use Rattle.tools.specs.Steps.{AsksSalt, AsksSecret, FailsEarlyByRead, FailsInUseByOutput, GoesOnWithoutLine, IsSystemOf, OpensInput, OpensOutput, Pulls, Pushes, SaysLine};
ghost use Rattle.tools.specs.Streams.{TakesNoMoreOfSecret};
ghost use Rattle.tools.specs.SystemState.{HasSeparateErrorStream, IsLineAskedUnlessReading, IsOutputSeparate, IsOutputSynced, IsOutputUnsynced, IsUnused};
ghost use Rattle.tools.specs.declared.system.Reading.TheVariants as reading;

use crate::inputs::{read_salt, read_secret};
use crate::lines::say_if_stderr_is_separate;
use crate::outputs::open_apart;
use crate::streams::{read_some, write_some};
use crate::system::{Reading, System};
use host::{AskedSource, HostFault, Source};
use std::marker::Model;

/// How far the input has been read.
#[derive(Clone, Copy, PartialEq, Eq)]
pub enum InputStage {
    /// It is not opened yet.
    Unopened,
    /// It is opened, and its end was not found.
    Opened,
    /// Its end was found.
    Ended,
}

/// What came of the output.
#[derive(Clone, Copy, PartialEq, Eq)]
pub enum OutputStage {
    /// None was asked for yet.
    Unasked,
    /// One was asked for, and is not taken into use.
    Refused,
    /// It is opened, new, no file that is read, and not kept.
    Opened,
    /// It is opened, new, no file that is read, and kept: a regular file or a block device that was opened by
    /// its name.
    Kept,
    /// It was kept, and is on the disk. It is not written any more.
    Synced,
    /// It was kept, and could not be brought to the disk. It is not written any more.
    Unsynced,
}

/// A system, and how far a run over it has come: what a [`SystemHost`](crate::SystemHost) does, without its
/// counts of faults. What the system must not be asked for is a fault: a stream before it is opened, and
/// one that is opened once an output was asked for.
///
/// The input and an output are opened once each, one secret source is asked, and one salt is taken: that is
/// a condition of these calls, and `may_open_input`, `may_open_output`, `may_ask_for_secret` and
/// `may_ask_for_salt` tell whether it holds. A line is said once; a second is a fault.
///
/// A run cannot be dropped: its end is `into_system`, which hands back the system as the run left it. So nothing is
/// done to a system after what contracts see. Contracts see a `RunState`.
pub struct Run<S: System> {
    system: S,
    input: InputStage,
    output: OutputStage,
    asked: Option<AskedSource>,
    salted: bool,
    told: bool,
}

impl<S: System> Model for Run<S> {
    ghost use Rattle.std.specs.Prelude.{option_map, IsTrue};
    ghost use Rattle.tools.specs.RunState.{RunState, IsAt, asked_source, granted_calls_at_stage};

    ghost Value = { RunState };

    ghost view = { λ r. record {
      state = S.state r.system;
      failures = S.failures r.system;
      system_files = S.files r.system;
      grants = granted_calls_at_stage r.input r.output (option_map asked_source r.asked) r.salted;
      asked = option_map asked_source r.asked;
      salted = r.salted;
      told = r.told;
    } };

    ghost invariant = { λ r. IsTrue S.tells →
        IsAt r.input r.output (option_map asked_source r.asked) r.salted r.told
        (granted_calls_at_stage r.input r.output (option_map asked_source r.asked) r.salted)
        (S.state r.system) (S.files r.system) };
}

impl<S: System> Run<S> {
    /// A run that is to begin, over a system of which nothing was used.
    pub fn new(system: S) -> Run<S>
        requires unused { IsTrue S.tells → IsUnused (S.state system) }
        ensures seen { result ≡ record {
          state = S.state system;
          failures = S.failures system;
          system_files = S.files system;
          grants = nothing_asked;
          asked = None;
          salted = false;
          told = false;
        } }
    {
        Run {
            system,
            input: InputStage::Unopened,
            output: OutputStage::Unasked,
            asked: None,
            salted: false,
            told: false,
        }
    }

    /// The system, as the run left it, at the end of the run.
    pub fn into_system(self) -> S
        ensures same { IsSystemOf S.state S.failures S.files self result }
        ensures leaves { IsTrue S.tells → Leaves (S.state result) (host_seen self) }
        ensures asks { IsTrue S.tells → self.told ≡ true → IsLineAskedUnlessReading (S.state result) }
    {
        let Run {
            system,
            input: _,
            output: _,
            asked: _,
            salted: _,
            told: _,
        } = self;
        system
    }

    /// Whether the input may be opened: it was not yet.
    pub fn may_open_input(&self) -> bool
        ensures granted { result ≡ self.now.grants.input }
    {
        matches!(self.input, InputStage::Unopened)
    }

    /// Whether an output may be asked for: none was yet.
    pub fn may_open_output(&self) -> bool
        ensures granted { result ≡ self.now.grants.output }
    {
        matches!(self.output, OutputStage::Unasked)
    }

    /// Whether a secret source may be asked: none was yet.
    pub fn may_ask_for_secret(&self) -> bool
        ensures granted { result ≡ self.now.grants.secret }
    {
        self.asked.is_none()
    }

    /// Whether a salt may be asked for: none was yet.
    pub fn may_ask_for_salt(&self) -> bool
        ensures granted { result ≡ self.now.grants.salt }
    {
        !self.salted
    }

    /// Opens the input, if no output was asked for.
    pub fn open_input(&mut self, name: Option<&str>) -> Result<(), HostFault>
        requires unopened { self.old.grants.input ≡ true }
        ensures early { OnOk result (self.old.grants.output ≡ true) }
        ensures opened { OpensInput S.tells (option_map (λ n. n.now) name.entry) result self.old self.new }
        ensures failed { IsTrue S.tells → FailsEarlyByRead reading.Input result self.old self.new }
    {
        if self.output != OutputStage::Unasked {
            return Err(HostFault);
        }
        self.system.open(Reading::Input, name)?;
        self.input = InputStage::Opened;
        Ok(())
    }

    /// Whether the input, which is opened, is standard input itself, whatever its name.
    pub fn input_is_stdin(&mut self) -> Result<bool, HostFault>
        ensures told { IsTrue S.tells → IfOk result (λ is_stdin. is_stdin ≡ self.old.state.input_is_stdin) }
        ensures same { IsTrue S.tells → host_seen self.new ≡ host_seen self.old }
        ensures granted { self.new.grants ≡ self.old.grants }
        ensures on { GoesOnWithoutLine S.tells self.old self.new }
        ensures failed { IsTrue S.tells → OnErr result (self.old.failures.input < self.new.failures.input) }
    {
        self.system.input_is_stdin()
    }

    /// Opens an output that is no file that is read, and empties it where it is a regular file that was opened
    /// by its name; not where it is refused.
    pub fn open_output(&mut self, name: Option<&str>) -> Result<(), HostFault>
        requires unasked { self.old.grants.output ≡ true }
        ensures asks { OpensOutput S.tells (option_map (λ n. n.now) name.entry) result self.old self.new }
        ensures untouched { IsTrue S.tells →
            KeepsOnErr result self.old.state.is_emptied self.new.state.is_emptied }
        ensures failed { IsTrue S.tells → OnErr result (IsOutputSeparate self.new.system_files →
            self.old.failures.output < self.new.failures.output) }
    {
        self.output = OutputStage::Refused;
        let is_kept = open_apart(&mut self.system, name)?;
        self.output = if is_kept {
            OutputStage::Kept
        } else {
            OutputStage::Opened
        };
        Ok(())
    }

    /// The next bytes of the input. Once its end was found, the system is not asked again.
    pub fn pull(&mut self, buf: &mut [u8]) -> Result<usize, HostFault>
        ensures bound { FitsWithin result buf.old }
        ensures taken { Pulls S.tells buf.old buf.new result self.old self.new }
        ensures failed { IsTrue S.tells → self.old.grants.readable ≡ true →
            OnErr result (self.old.failures.input < self.new.failures.input) }
    {
        if self.input == InputStage::Unopened {
            return Err(HostFault);
        }
        if self.input == InputStage::Ended || buf.is_empty() {
            return Ok(0);
        }
        let n = read_some(&mut self.system, Reading::Input, buf)?;
        if n == 0 {
            self.input = InputStage::Ended;
        }
        Ok(n)
    }

    /// Writes a beginning of the bytes to the output, if that was not asked to be brought to the disk.
    pub fn push(&mut self, bytes: &[u8]) -> Result<usize, HostFault>
        ensures bound { FitsWithin result bytes.now }
        ensures progress { TakesSome result bytes.now }
        ensures put { Pushes S.tells bytes.now result self.old self.new }
        ensures failed { IsTrue S.tells → FailsInUseByOutput result self.old self.new }
    {
        match self.output {
            OutputStage::Opened | OutputStage::Kept => write_some(&mut self.system, bytes),
            _ => Err(HostFault),
        }
    }

    /// Brings the output to the disk, where it is kept, and tells what failed of it. It is asked to be brought
    /// there once, and not written afterwards. Where no output was opened, that is a fault.
    pub fn sync(&mut self) -> Result<(), HostFault>
        ensures seen { IsTrue S.tells → host_seen self.new ≡ host_seen self.old }
        ensures output_synced { IsTrue S.tells → OnOk result (IsOutputSynced self.new.state) }
        ensures output_unsynced { IsTrue S.tells → self.old.grants.writable ≡ true →
            OnErr result (IsOutputUnsynced self.new.state) }
        ensures granted { self.new.grants ≡ self.old.grants }
        ensures told { self.new.told ≡ self.old.told }
        ensures no_fewer { IsTrue S.tells → AreNoFewer self.old.failures self.new.failures }
        ensures same_files { IsTrue S.tells → self.new.system_files ≡ self.old.system_files }
        ensures failed { IsTrue S.tells → FailsInUseByOutput result self.old self.new }
    {
        match self.output {
            OutputStage::Opened | OutputStage::Synced => Ok(()),
            OutputStage::Kept => {
                self.output = OutputStage::Unsynced;
                self.system.sync()?;
                self.output = OutputStage::Synced;
                Ok(())
            }
            OutputStage::Unasked | OutputStage::Refused | OutputStage::Unsynced => Err(HostFault),
        }
    }

    /// The first bytes of a secret source, if no output was asked for. For a variable nothing of the system
    /// changes.
    pub fn secret(&mut self, source: Source<'_>, buf: &mut [u8]) -> Result<usize, HostFault>
        requires unasked { self.old.grants.secret ≡ true }
        ensures early { OnOk result (self.old.grants.output ≡ true) }
        ensures bound { FitsWithin result buf.old }
        ensures asks { AsksSecret S.tells (source_of source.entry) result buf.new self.old self.new }
        ensures left { IsTrue S.tells →
            TakesNoMoreOfSecret (source_of source.entry) result self.old.state self.new.state }
        ensures failed { IsTrue S.tells → FailsEarlyByRead reading.Secret result self.old self.new }
    {
        self.asked = Some(AskedSource::of(&source));
        if self.output != OutputStage::Unasked {
            return Err(HostFault);
        }
        read_secret(&mut self.system, source, buf)
    }

    /// A salt, if no output was asked for.
    pub fn salt(&mut self, out: &mut [u8; 32]) -> Result<(), HostFault>
        requires unsalted { self.old.grants.salt ≡ true }
        ensures early { OnOk result (self.old.grants.output ≡ true) }
        ensures salts { AsksSalt S.tells result out.new self.old self.new }
        ensures failed { IsTrue S.tells → FailsEarlyByRead reading.Random result self.old self.new }
    {
        self.salted = true;
        if self.output != OutputStage::Unasked {
            return Err(HostFault);
        }
        read_salt(&mut self.system, out)
    }

    /// Says a line, if none was said, and standard error is no file that is read.
    pub fn say(&mut self, line: &str) -> Result<(), HostFault>
        ensures said { SaysLine S.tells line.now result self.old self.new }
        ensures failed { IsTrue S.tells → self.old.told ≡ false → OnErr result
            (HasSeparateErrorStream self.new.system_files → self.old.failures.lines < self.new.failures.lines) }
    {
        if self.told {
            return Err(HostFault);
        }
        self.told = true;
        say_if_stderr_is_separate(&mut self.system, line)
    }
}
