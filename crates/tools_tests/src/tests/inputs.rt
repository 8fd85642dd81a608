//! Secrets and salts whose bytes come in pieces.
ghost use Rattle.tools.specs.SystemState.{IsUnused};

use crate::fixtures::{put, put_variable, with_standard};
use host::{HostFault, Source};
use memory_system::{Identities, MemorySystem};
use std::alloc::Global;
use tools::{read_salt, read_secret};

// A system where each source gives so many sevens, at most 40, two at a time.
fn sevens(alloc: Global, count: usize) -> MemorySystem
    ensures unused { IsUnused result.state }
{
    let bytes = &[7; 40][..count.min(40)];
    let mut system = with_standard(alloc, bytes, Identities::NONE, Identities::NONE);
    put(alloc, &mut system, "/dev/urandom", bytes, Identities::NONE);
    put_variable(alloc, &mut system, "name", bytes);
    system.set_sizes(2, 2);
    system
}

// How many bytes a secret has with room for eight where so many sevens are, and the last.
fn secret(alloc: Global, count: usize, source: Source<'_>) -> (Result<usize, HostFault>, u8) {
    let (mut system, mut buf) = (sevens(alloc, count), [0; 8]);
    let length = read_secret(&mut system, source, &mut buf);
    drop(system);
    (length, buf[7])
}

// Whether each source gives a secret of so many bytes where so many sevens are, which ends with this byte.
fn are_secrets(alloc: Global, (count, length, last): (usize, usize, u8)) -> bool {
    secret(alloc, count, Source::StdinOnce) == (Ok(length), last)
        && secret(alloc, count, Source::File("/dev/urandom")) == (Ok(length), last)
        && secret(alloc, count, Source::Env("name")) == (Ok(length), last)
}

static SECRETS: [(usize, usize, u8); 3] = [(0, 0, 0), (5, 5, 0), (9, 8, 7)];

#[test]
fn takes_secrets_in_pieces(rt: HostRuntime) {
    for row in &SECRETS {
        assert!(rt; are_secrets(rt.alloc(), *row));
    }
}

// Whether a secret is a fault in a system where nothing is, whose standard input is closed.
fn is_fault(alloc: Global, source: Source<'_>) -> bool {
    let mut system = MemorySystem::new(alloc);
    let is_err = read_secret(&mut system, source, &mut [0; 8]).is_err();
    drop(system);
    is_err
}

#[test]
fn missing_secrets_are_faults(rt: HostRuntime) {
    for source in &[Source::StdinOnce, Source::File("name"), Source::Env("name")] {
        assert!(rt; is_fault(rt.alloc(), *source));
    }
}

// Whether a salt is taken where so many sevens are, whole or not at all.
fn is_salt(alloc: Global, count: usize) -> bool {
    let (mut system, mut salt) = (sevens(alloc, count), [0; 32]);
    let is_ok = read_salt(&mut system, &mut salt).is_ok();
    drop(system);
    is_ok && salt == [7; 32]
}

static SALTS: [(usize, bool); 4] = [(0, false), (31, false), (32, true), (40, true)];

#[test]
fn takes_whole_salts(rt: HostRuntime) {
    for (count, is_taken) in &SALTS {
        assert!(rt; is_salt(rt.alloc(), *count) == *is_taken);
    }
}
