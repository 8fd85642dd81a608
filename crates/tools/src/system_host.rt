//! The system as a host.
ghost use Rattle.std.specs.Prelude.{◌≡◌, ◌-◌, ◌<◌, ◌≤◌, ◌^◌, [], true, false, IsTrue};
ghost use Rattle.host.specs.Faults.{AreBelow};
ghost use Rattle.tools.specs.Failures.{AreFaultsOfHost, AreLinesWithinFailures};
ghost use Rattle.tools.specs.RunState.{EndsWithLine, host_seen};
ghost use Rattle.tools.specs.Steps.{EndsRun, EndsSynced, EndsUnsynced, IsNewHost};
ghost use Rattle.tools.specs.SystemState.{IsUnused};

use crate::failed_call_counts::{RunFailureCounts, counted};
use crate::run::Run;
use crate::system::System;
use host::{Host, HostFault, Source};

/// Files, the environment, the standard streams, and the system's random bytes for salts.
///
/// A named output is made, or emptied where it is a regular file; one that is the opened input or the secret's
/// file, under whatever name or as standard output, is a fault and stays as it is. A push is written at
/// once. A read or a write that a signal interrupts is asked again at most 16 times; the bound is that of
/// [`read_some`](crate::read_some) and [`write_some`](crate::write_some), whose clause `tries` has it. A
/// write of no bytes is a fault; after the end of the input the system is not asked for more. What is
/// read is opened before the output is asked for, and is a fault afterwards. One line is said, unless
/// standard error is the opened input or the secret's file: that is a fault.
///
/// It cannot be dropped: the end of a run is `sync_and_end`, `refuse` or `into_system`, which hand back the system
/// as the run left it.
///
/// It tells its bytes where the system does. Of every system contracts see how often each kind of call
/// has failed, and which calls are granted.
pub struct SystemHost<S: System> {
    run: Run<S>,
    counts: RunFailureCounts<S>,
    ghost told: { 0 < counts.lines → run.told ≡ true },
    ghost untold: { IsTrue S.tells → counts.lines ≡ 0 → run.state.said ≡ [] → run.told ≡ false },
    ghost unsynced: { IsTrue S.tells → run.state.sync_asked ≡ false },
    ghost failed: { IsTrue S.tells → AreFaultsOfHost counts run.failures run.state run.system_files },
}

impl<S: System> SystemHost<S> {
    /// The system, of which nothing was used, and no call has failed.
    pub fn new(system: S) -> SystemHost<S>
        requires unused { IsTrue S.tells → IsUnused (S.state system) }
        ensures host { let host = ⟦<SystemHost<S> as Host>⟧ in
            IsNewHost (S.state system) (host.seen result) (host.faults result) (host.grants result) }
    {
        SystemHost {
            run: Run::new(system),
            counts: RunFailureCounts::new(),
        }
    }

    /// The end of a run that did what it was asked for: the output is brought to the disk, where it is kept.
    /// Where that fails, it is a fault of the output, and this line is said. It gives the status, the system as
    /// the run left it, and how often each kind of call has failed.
    pub fn sync_and_end(self, line: &str) -> (u8, S, RunFailureCounts<S>)
        requires room { AreBelow (2 ^ 64 - 1) (⟦<SystemHost<S> as Host>⟧.faults self) }
        ensures status { result.0 ≤ 1 }
        ensures synced { let host = ⟦<SystemHost<S> as Host>⟧ in result.0 ≡ 0 →
            EndsSynced S.tells (host.seen self) (host.faults self) (S.state result.1) result.2 }
        ensures unsynced { let host = ⟦<SystemHost<S> as Host>⟧ in result.0 ≡ 1 →
            EndsUnsynced S.tells line.now (host.seen self) (host.faults self) (host.grants self).writable
            (S.state result.1) result.2 }
        ensures fails { IsTrue S.tells → (⟦<SystemHost<S> as Host>⟧.grants self).writable ≡ true →
            AreFaultsOfHost result.2 (S.failures result.1) (S.state result.1) (S.files result.1) }
        ensures line { let host = ⟦<SystemHost<S> as Host>⟧ in IsTrue S.tells → (host.faults self).lines ≡ 0 →
            (host.seen self).said ≡ [] → AreLinesWithinFailures result.2 (S.failures result.1) (S.files result.1) }
    {
        let SystemHost {
            mut run,
            mut counts,
        } = self;
        let Err(_) = run.sync() else {
            return (0, run.into_system(), counts);
        };
        counts.output += 1;
        let _ = counted(&mut counts.lines, run.say(line));
        (1, run.into_system(), counts)
    }

    /// The end of a run that is refused: this line is said, or passed over where it cannot be said. It gives
    /// the status of a refusal, the system as the run left it, and how often each kind of call has failed.
    pub fn refuse(self, line: &str) -> (u8, S, RunFailureCounts<S>)
        requires room { AreBelow (2 ^ 64 - 1) (⟦<SystemHost<S> as Host>⟧.faults self) }
        ensures status { result.0 ≡ 1 }
        ensures says { EndsWithLine S.tells line.now (⟦<SystemHost<S> as Host>⟧.seen self)
            (⟦<SystemHost<S> as Host>⟧.faults self) (S.state result.1) result.2 }
        ensures fails { IsTrue S.tells →
            AreFaultsOfHost result.2 (S.failures result.1) (S.state result.1) (S.files result.1) }
        ensures line { let host = ⟦<SystemHost<S> as Host>⟧ in IsTrue S.tells → (host.faults self).lines ≡ 0 →
            (host.seen self).said ≡ [] → AreLinesWithinFailures result.2 (S.failures result.1) (S.files result.1) }
    {
        let SystemHost {
            mut run,
            mut counts,
        } = self;
        let _ = counted(&mut counts.lines, run.say(line));
        (1, run.into_system(), counts)
    }

    /// The end of a run: the system as the run left it, and how often each kind of call has failed.
    pub fn into_system(self) -> (S, RunFailureCounts<S>)
        ensures ends { let host = ⟦<SystemHost<S> as Host>⟧ in
            EndsRun S.tells S.state S.failures S.files self.run.state (host.seen self) (host.faults self)
            result.0 result.1 }
    {
        let SystemHost { run, counts } = self;
        (run.into_system(), counts)
    }
}

impl<S: System> Host for SystemHost<S> {
    ghost tells = { S.tells };

    ghost seen = { λ h. host_seen h.run };

    ghost grants = { λ h. h.run.grants };

    ghost faults = { λ h. h.counts };

    fn open_input(&mut self, name: Option<&str>) -> Result<(), HostFault> {
        let opened = self.run.open_input(name);
        counted(&mut self.counts.input, opened)
    }

    fn input_is_stdin(&mut self) -> Result<bool, HostFault> {
        let told = self.run.input_is_stdin();
        counted(&mut self.counts.input, told)
    }

    fn open_output(&mut self, name: Option<&str>) -> Result<(), HostFault> {
        let opened = self.run.open_output(name);
        counted(&mut self.counts.output, opened)
    }

    fn pull(&mut self, buf: &mut [u8]) -> Result<usize, HostFault> {
        let pulled = self.run.pull(buf);
        counted(&mut self.counts.input, pulled)
    }

    fn push(&mut self, bytes: &[u8]) -> Result<usize, HostFault> {
        let pushed = self.run.push(bytes);
        counted(&mut self.counts.output, pushed)
    }

    fn secret(&mut self, source: Source<'_>, buf: &mut [u8]) -> Result<usize, HostFault> {
        let read = self.run.secret(source, buf);
        counted(&mut self.counts.secrets, read)
    }

    fn salt(&mut self, out: &mut [u8; 32]) -> Result<(), HostFault> {
        let read = self.run.salt(out);
        counted(&mut self.counts.salt, read)
    }

    fn say(&mut self, line: &str) -> Result<(), HostFault> {
        let said = self.run.say(line);
        counted(&mut self.counts.lines, said)
    }
}
