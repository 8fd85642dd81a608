//! A whole run of `scrypt`.
ghost use Rattle.std.specs.Prelude.{◌≤◌, ◌^◌, IsTrue, map, string_bytes};
ghost use Rattle.host.specs.Faults.{AreBelow};
ghost use Rattle.host.specs.CallsGrantedByHost.{GrantsAllHostCalls};
ghost use Rattle.host.specs.HostState.{IsUnasked};
ghost use Rattle.scrypt_request.specs.Refusal.{CountsFault};
ghost use Rattle.scrypt_command.specs.Endings.{Ends};
ghost use Rattle.scrypt_command.specs.Run.{EndsWithStatus};

use host::{Host, refuse};
use romix::Ticks;
use scrypt_request::ScryptRefusal;
use scrypt_run::run;
use scrypt_words::read_request;
use std::alloc::Global;

/// Does a run of `scrypt`: all of it but the line of a refusal, which is not said. `words` leaves out the
/// program's name. Nothing was asked of the host yet. `ticks` counts the Salsa20/8 cores.
pub fn run_without_report<H: Host>(
    alloc: Global,
    words: &[String],
    host: &mut H,
    ticks: &mut Ticks,
) -> Result<(), ScryptRefusal>
    requires room { AreBelow (2 ^ 63) (H.faults host.old) }
    requires fresh { IsTrue H.tells → IsUnasked (H.seen host.old) }
    requires granted { GrantsAllHostCalls (H.grants host.old) }
    ensures counts { CountsFault result (H.faults host.old) (H.faults host.new) }
    ensures ends { Ends H.tells (map string_bytes words.now) result
        (H.seen host.old) (H.seen host.new) ticks.old ticks.new }
{
    let mut memory = alloc;
    match read_request(alloc, words) {
        Ok(request) => run(&mut memory, host, &request, ticks),
        Err(refusal) => Err(refusal),
    }
}

/// Runs `scrypt`: encrypts or decrypts the input, or shows the costs of a file. `words` leaves out
/// the program's name. The file is the encrypted file of scrypt(1), version 0, with the key
/// derivation of RFC 7914.
///
/// The status is 0 where all that was asked for was done, and then no line is said. It is 1 after a
/// refusal, which says its one line ([`ScryptRefusal`] has them all); a line that cannot be said is
/// passed over. What `dec` writes is not to be trusted before it ends with 0: a damaged file is
/// noticed at its end.
pub fn scrypt<H: Host>(alloc: Global, words: &[String], host: &mut H) -> u8
    requires room { AreBelow (2 ^ 63) (H.faults host.old) }
    requires fresh { IsTrue H.tells → IsUnasked (H.seen host.old) }
    requires granted { GrantsAllHostCalls (H.grants host.old) }
    ensures status { result ≤ 1 }
    ensures ends { EndsWithStatus H.tells (map string_bytes words.now) result
        (H.seen host.old) (H.seen host.new) (H.faults host.old) (H.faults host.new) }
{
    match run_without_report(alloc, words, host, &mut Ticks::new(alloc)) {
        Ok(()) => 0,
        Err(refusal) => refuse(host, refusal.line()),
    }
}
