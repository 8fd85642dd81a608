//! The program over any system.
ghost use Rattle.std.specs.Prelude.{◌≡◌, ◌≤◌, Bool, IsTrue};
ghost use Rattle.host.specs.Faults.{no_faults};
ghost use Rattle.host.specs.Lines.{faults_after_line};
ghost use Rattle.argon2_verify.specs.Refusal.{faults_after_refusal};
ghost use Rattle.argon2_verify.specs.declared.refusal.VerifyRefusal.{VerifyRefusal};
ghost use Rattle.argon2_verify_program.specs.Program.{ProgramDiffers, ProgramRefuses, ProgramVerifies};
ghost use Rattle.tools.specs.Failures.{AreFaultsWithinFailures};
ghost use Rattle.tools.specs.SystemState.{IsUnused};

use argon::Ticks;
use argon2_verify::{VerifyRefusal, run_without_report};
use std::alloc::Global;
use tools::{RunFailureCounts, System, SystemHost, WordsFault, words};

/// `argon2-verify` with the words of a process, over a system of which nothing was used. It gives the status, the
/// system as the run left it, and how often each kind of call has failed. Nothing else is kept of the system:
/// what is done to it afterwards is done by the caller.
///
/// This is what the program promises: over every system that tells its bytes, the status is what the
/// definitions of `argon2_verify` make of the words and of what the system gives.
pub fn run<S: System>(alloc: Global, system: S) -> (u8, S, RunFailureCounts<S>)
    requires unused { IsTrue S.tells → IsUnused (S.state system) }
    ensures status { result.0 ≤ 2 }
    ensures counts { result.0 ≤ 1 → result.2 ≡ no_faults }
    ensures verifies { IsTrue S.tells → result.0 ≡ 0 →
        ProgramVerifies S.tells (S.words system) (S.state system) (S.state result.1) }
    ensures differs { IsTrue S.tells → result.0 ≡ 1 →
        ProgramDiffers S.tells (S.words system) (S.state system) (S.state result.1) }
    ensures refuses { IsTrue S.tells → result.0 ≡ 2 →
        ProgramRefuses S.tells (S.words system) (S.state system) (S.state result.1) result.2 }
    // Of every system, also one that tells nothing: there is one refusal. Of the counts only the one that it names
    // rose, if it names one, and that of lines if its line could not be said.
    ensures counts_refusal { result.0 ≡ 2 → (told : VerifyRefusal) × (said : Bool)
        × (result.2 ≡ faults_after_line said (faults_after_refusal told no_faults)) }
    ensures fails { IsTrue S.tells → AreFaultsWithinFailures result.2 (S.failures result.1) (S.files result.1) }
{
    let read = words(&system, alloc);
    let mut host = SystemHost::new(system);
    match read {
        Ok(words) => {
            let mut memory = alloc;
            match run_without_report(&mut memory, &words, &mut host, &mut Ticks::new(alloc)) {
                Ok(true) => {
                    let (system, counts) = host.into_system();
                    (0, system, counts)
                }
                Ok(false) => {
                    let (system, counts) = host.into_system();
                    (1, system, counts)
                }
                Err(refusal) => {
                    let (_, system, counts) = host.refuse(refusal.line());
                    (2, system, counts)
                }
            }
        }
        Err(WordsFault::NotText) => {
            let (_, system, counts) = host.refuse(VerifyRefusal::Usage.line());
            (2, system, counts)
        }
        Err(WordsFault::OutOfMemory) => {
            let (_, system, counts) = host.refuse(VerifyRefusal::OutOfMemory.line());
            (2, system, counts)
        }
    }
}
