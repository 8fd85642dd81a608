//! The program over any system.
ghost use Rattle.std.specs.Prelude.{◌≡◌, ◌≤◌, Bool, IsTrue};
ghost use Rattle.host.specs.Faults.{no_faults};
ghost use Rattle.host.specs.Lines.{faults_after_line};
ghost use Rattle.argon2_words.specs.Refusal.{faults_after_refusal};
ghost use Rattle.argon2_words.specs.declared.refusal.Argon2Refusal.{Argon2Refusal};
ghost use Rattle.argon2_program.specs.Program.{ProgramRefuses, ProgramSucceeds};
ghost use Rattle.tools.specs.Failures.{AreFaultsWithinFailures};
ghost use Rattle.tools.specs.SystemState.{IsUnused};

use argon::Ticks;
use argon2_command::{Argon2Refusal, run_without_report};
use std::alloc::Global;
use tools::{RunFailureCounts, System, SystemHost, WordsFault, words};

/// `argon2` with the words of a process, over a system of which nothing was used. It gives the status, the
/// system as the run left it, and how often each kind of call has failed. Nothing else is kept of the system:
/// what is done to it afterwards is done by the caller.
///
/// This is what the program promises: over every system that tells its bytes, they, the line and the
/// status are what the definitions of `argon2_command` make of the words and of what the system gives.
pub fn run<S: System>(alloc: Global, system: S) -> (u8, S, RunFailureCounts<S>)
    requires unused { IsTrue S.tells → IsUnused (S.state system) }
    ensures status { result.0 ≤ 1 }
    ensures counts { result.0 ≡ 0 → result.2 ≡ no_faults }
    ensures succeeds { IsTrue S.tells → result.0 ≡ 0 →
        ProgramSucceeds (S.words system) (S.state system) (S.state result.1) }
    ensures refuses { IsTrue S.tells → result.0 ≡ 1 →
        ProgramRefuses S.tells (S.words system) (S.state system) (S.state result.1) result.2 }
    // Of every system, also one that tells nothing: there is one refusal. Of the counts only the one that it names
    // rose, if it names one, and that of lines if its line could not be said.
    ensures counts_refusal { result.0 ≡ 1 → (told : Argon2Refusal) × (said : Bool)
        × (result.2 ≡ faults_after_line said (faults_after_refusal told no_faults)) }
    ensures fails { IsTrue S.tells → AreFaultsWithinFailures result.2 (S.failures result.1) (S.files result.1) }
{
    let read = words(&system, alloc);
    let mut host = SystemHost::new(system);
    match read {
        Ok(words) => {
            let mut memory = alloc;
            match run_without_report(&mut memory, &words, &mut host, &mut Ticks::new(alloc)) {
                Ok(()) => {
                    let (system, counts) = host.into_system();
                    (0, system, counts)
                }
                Err(refusal) => host.refuse(refusal.line()),
            }
        }
        Err(WordsFault::NotText) => host.refuse(Argon2Refusal::Usage.line()),
        Err(WordsFault::OutOfMemory) => host.refuse(Argon2Refusal::OutOfMemory.line()),
    }
}
