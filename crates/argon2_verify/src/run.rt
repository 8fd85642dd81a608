//! A whole run of `argon2-verify`.
ghost use Rattle.std.specs.Prelude.{◌≤◌, ◌^◌, IsTrue, map, string_bytes};
ghost use Rattle.host.specs.Faults.{AreBelow};
ghost use Rattle.host.specs.CallsGrantedByHost.{GrantsAllHostCalls};
ghost use Rattle.host.specs.HostState.{IsUnasked};
ghost use Rattle.argon2_verify.specs.Refusal.{CountsFault};
ghost use Rattle.argon2_verify.specs.Run.{Ends, EndsWithStatus, RefusesFaultyWords};

use crate::hash::{read_hash, test_limits};
use crate::password::test_password;
use crate::refusal::VerifyRefusal;
use crate::request::read_request;
use argon::Ticks;
use argon_text::{DecodeMemory, HashMemory};
use host::{Host, refuse};
use std::alloc::Global;

/// Does a run of `argon2-verify` with memory from `memory`: all of it but the line of a refusal, which is not
/// said. `words` leaves out the program's name. Nothing was asked of the host yet. The answer is whether the
/// password gives the tag of the hash.
///
/// The file is read and the limits are tested before standard input is asked for the password. The faults are
/// those of [`VerifyRefusal`], in its order. `ticks` counts the block functions: those of one hash where there is
/// an answer, and none at a fault.
pub fn run_without_report<R: DecodeMemory + HashMemory, H: Host>(
    memory: &mut R,
    words: &[String],
    host: &mut H,
    ticks: &mut Ticks,
) -> Result<bool, VerifyRefusal>
    requires room { AreBelow (2 ^ 63) (H.faults host.old) }
    requires fresh { IsTrue H.tells → IsUnasked (H.seen host.old) }
    requires granted { GrantsAllHostCalls (H.grants host.old) }
    ensures counts { CountsFault result (H.faults host.old) (H.faults host.new) }
    ensures words { RefusesFaultyWords (map string_bytes words.now) result }
    ensures ends { Ends R.after_decoded R.after_matrix H.tells (map string_bytes words.now) result
        (H.seen host.old) (H.seen host.new) ticks.old ticks.new memory.old memory.new }
{
    let request = read_request(words)?;
    let hash = read_hash(memory, host, request.file)?;
    test_limits(&hash, &request.limits)?;
    test_password(memory, host, &hash, &request.limits, ticks)
}

/// Runs `argon2-verify`: whether the password, which is all of standard input, belongs to the hash that is the
/// first line of the file that the last word names. `words` leaves out the program's name.
///
/// The status is 0 where it does, and 1 where it does not; nothing is said then. It is 2 after a refusal,
/// which says its one line ([`VerifyRefusal`] has them all); a line that cannot be said is passed over.
pub fn argon2_verify<H: Host>(alloc: Global, words: &[String], host: &mut H) -> u8
    requires room { AreBelow (2 ^ 63) (H.faults host.old) }
    requires fresh { IsTrue H.tells → IsUnasked (H.seen host.old) }
    requires granted { GrantsAllHostCalls (H.grants host.old) }
    ensures status { result ≤ 2 }
    ensures ends { EndsWithStatus H.tells (map string_bytes words.now) result
        (H.seen host.old) (H.seen host.new) (H.faults host.old) (H.faults host.new) }
{
    let mut memory = alloc;
    match run_without_report(&mut memory, words, host, &mut Ticks::new(alloc)) {
        Ok(true) => 0,
        Ok(false) => 1,
        Err(refusal) => {
            let _ = refuse(host, refusal.line());
            2
        }
    }
}
