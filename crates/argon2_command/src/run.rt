//! A whole run of `argon2`.
ghost use Rattle.std.specs.Prelude.{◌≤◌, ◌^◌, OnOk, IsTrue, map, string_bytes};
ghost use Rattle.host.specs.Faults.{AreBelow};
ghost use Rattle.host.specs.CallsGrantedByHost.{GrantsAllHostCalls};
ghost use Rattle.host.specs.HostState.{IsUnasked};
ghost use Rattle.argon2_command.specs.RunAsking.{RequestsRunMemory};
ghost use Rattle.argon2_command.specs.Run.{EndsWithStatus, Succeeds, EndsSoForSomeInput, EndsRefused, CountsRunWork};
ghost use Rattle.argon2_words.specs.Refusal.{CountsFault};

use crate::output::{output, parameters};
use crate::password::read_password;
use crate::run_memory::RunMemory;
use argon::Ticks;
use argon2_words::{Argon2Refusal, read_request};
use host::{Host, refuse, write_output};
use std::alloc::Global;

/// Does a run of `argon2` with memory from `memory`: all of it but the line of a refusal, which is not
/// said. `words` leaves out the program's name. Nothing was asked of the host yet, and its sources and
/// outputs can still be asked for.
///
/// The faults are those of [`Argon2Refusal`], in this order: of the words, of the password (which is
/// the whole standard input, 1 to 127 bytes), of the parameters (RFC 9106, 3.1), of the limits in KiB
/// and in block functions, then `OutOfMemory`, then `OutputFault`. Standard output is not asked for
/// before every other is ruled out; what was written before `OutputFault` stays written.
///
/// All memory comes from `memory`, which is asked for the tag, its line and one matrix, in this order and
/// each once, up to the first that is refused: then the fault is `OutOfMemory`, which is told there
/// alone. A fault that comes before leaves `memory` as it was.
///
/// `ticks` counts the block functions: none where a fault comes before the output, and the work of the
/// request's hash after success or `OutputFault`.
pub fn run_without_report<R: RunMemory, H: Host>(
    memory: &mut R,
    words: &[String],
    host: &mut H,
    ticks: &mut Ticks,
) -> Result<(), Argon2Refusal>
    requires room { AreBelow (2 ^ 63) (H.faults host.old) }
    requires fresh { IsTrue H.tells → IsUnasked (H.seen host.old) }
    requires granted { GrantsAllHostCalls (H.grants host.old) }
    ensures counts { CountsFault result (H.faults host.old) (H.faults host.new) }
    // of every host, also one that tells nothing
    ensures some_input { EndsSoForSomeInput (map string_bytes words.now) result }
    ensures succeeds { IsTrue H.tells →
        OnOk result (Succeeds (map string_bytes words.now) (H.seen host.old) (H.seen host.new)) }
    ensures refused { IsTrue H.tells →
        EndsRefused (map string_bytes words.now) result (H.seen host.old) (H.seen host.new) }
    ensures memory { RequestsRunMemory R.effects (map string_bytes words.now) result memory.old memory.new }
    ensures work { CountsRunWork (map string_bytes words.now) result ticks.old ticks.new }
{
    let request = read_request(words)?;
    let password = read_password(host)?;
    let params = parameters(&request, &password)?;
    let line = output(memory, &request, &password, &params, ticks)?;
    let Ok(()) = write_output(host, line.as_slice()) else {
        return Err(Argon2Refusal::OutputFault);
    };
    Ok(())
}

/// Runs `argon2`: hashes the whole standard input under the salt that the first word gives, and
/// writes the encoded text or the tag in hexadecimal, and a line feed, to standard output. `words`
/// leaves out the program's name. The hash is that of RFC 9106, version 0x13 or 0x10 as the words have
/// it.
///
/// The status is 0 where the whole output was written, and then no line is said. It is 1 after a
/// refusal, which says its one line ([`Argon2Refusal`] has them all); a line that cannot be said is
/// passed over. The words, the password, the parameters and the limits are tested before any growth
/// of memory, all memory is taken before the hash, and the whole output stands in memory before
/// standard output is opened: the contract of `run_without_report`, which does the run, says so.
pub fn argon2<H: Host>(alloc: Global, words: &[String], host: &mut H) -> u8
    requires room { AreBelow (2 ^ 63) (H.faults host.old) }
    requires fresh { IsTrue H.tells → IsUnasked (H.seen host.old) }
    requires granted { GrantsAllHostCalls (H.grants host.old) }
    ensures status { result ≤ 1 }
    ensures ends { EndsWithStatus H.tells (map string_bytes words.now) result
        (H.seen host.old) (H.seen host.new) (H.faults host.old) (H.faults host.new) }
{
    let mut memory = alloc;
    match run_without_report(&mut memory, words, host, &mut Ticks::new(alloc)) {
        Ok(()) => 0,
        Err(refusal) => refuse(host, refusal.line()),
    }
}
