//! What is handed on under each name is that command. The calls below stand here to be proved; nothing makes them.
ghost use Rattle.std.specs.Prelude.{◌≡◌, ◌^◌, IsTrue, map, string_bytes};
ghost use Rattle.host.specs.Faults.{AreBelow};
ghost use Rattle.host.specs.CallsGrantedByHost.{GrantsAllHostCalls};
ghost use Rattle.host.specs.HostState.{IsUnasked};
ghost use Rattle.argon2_command.specs.Run as argon2_run;
ghost use Rattle.scrypt_command.specs.Run as scrypt_run;

use crate::{Host, argon2, scrypt};
use std::alloc::Global;

// A call of what is handed on as `argon2`.
fn run_argon2_command<H: Host>(alloc: Global, words: &[String], host: &mut H) -> u8
    requires room { AreBelow (2 ^ 63) (H.faults host.old) }
    requires fresh { IsTrue H.tells → IsUnasked (H.seen host.old) }
    requires granted { GrantsAllHostCalls (H.grants host.old) }
    ensures succeeds { IsTrue H.tells → result ≡ 0 →
        argon2_run.Succeeds (map string_bytes words.now) (H.seen host.old) (H.seen host.new) }
    ensures refuses { result ≡ 1 → argon2_run.EndsWithRefusal H.tells (map string_bytes words.now)
        (H.seen host.old) (H.seen host.new) (H.faults host.old) (H.faults host.new) }
{
    argon2(alloc, words, host)
}

// A call of what is handed on as `scrypt`.
fn run_scrypt_command<H: Host>(alloc: Global, words: &[String], host: &mut H) -> u8
    requires room { AreBelow (2 ^ 63) (H.faults host.old) }
    requires fresh { IsTrue H.tells → IsUnasked (H.seen host.old) }
    requires granted { GrantsAllHostCalls (H.grants host.old) }
    ensures succeeds { IsTrue H.tells → result ≡ 0 →
        scrypt_run.Succeeds (map string_bytes words.now) (H.seen host.old) (H.seen host.new) }
    ensures refuses { result ≡ 1 → scrypt_run.EndsWithRefusal H.tells (map string_bytes words.now)
        (H.seen host.old) (H.seen host.new) (H.faults host.old) (H.faults host.new) }
{
    scrypt(alloc, words, host)
}
