//! A host over a system in memory.
ghost use Rattle.std.specs.Prelude.{◌≡◌};
ghost use Rattle.host.specs.Faults.{no_faults};
ghost use Rattle.host.specs.CallsGrantedByHost.{nothing_asked};

use crate::fixtures::with_standard;
use host::Host;
use memory_system::{Identities, MemorySystem};
use std::alloc::Global;
use tools::{RunFailureCounts, SystemHost};

// A host over a system that gives nothing, and of whose calls this one fails.
fn failing(alloc: Global, call: u64) -> SystemHost<MemorySystem>
    ensures counts { ⟦<SystemHost<MemorySystem> as Host>⟧.faults result ≡ no_faults }
    ensures granted { ⟦<SystemHost<MemorySystem> as Host>⟧.grants result ≡ nothing_asked }
{
    let mut system = with_standard(alloc, b"", Identities::NONE, Identities::NONE);
    system.fail_at(call);
    SystemHost::new(system)
}

// Whether the lines are this one alone.
fn is_said(lines: &[String], said: &str) -> bool {
    matches!(lines, [line] if line.as_str() == said)
}

// The status of a run, how many lines it could not say, and whether this one is said alone.
fn found(
    (status, system, counts): (u8, MemorySystem, RunFailureCounts<MemorySystem>),
) -> (u8, u64, bool) {
    let is_said = is_said(system.lines(), "a refusal");
    drop(system);
    (status, counts.failed_line_count(), is_said)
}

// How a run ends that is refused.
fn refused(alloc: Global, call: u64) -> (u8, u64, bool) {
    found(failing(alloc, call).refuse("a refusal"))
}

// How a run ends that opened standard output, or a file that is made.
fn synced(alloc: Global, name: Option<&str>, call: u64) -> (u8, u64, bool) {
    let mut host = failing(alloc, call);
    let _ = host.open_output(name);
    found(host.sync_and_end("a refusal"))
}

#[test]
fn refusals_are_said(rt: HostRuntime) {
    assert!(rt; refused(rt.alloc(), 0) == (1, 0, true));
    assert!(rt; refused(rt.alloc(), 1) == (1, 1, false));
    assert!(rt; refused(rt.alloc(), 2) == (1, 0, true));
}

// The file is opened by three calls, and brought to the disk by the fourth.
#[test]
fn outputs_are_settled(rt: HostRuntime) {
    assert!(rt; synced(rt.alloc(), Some("out"), 0) == (0, 0, false));
    assert!(rt; synced(rt.alloc(), Some("out"), 3) == (1, 0, true));
    assert!(rt; synced(rt.alloc(), Some("out"), 4) == (1, 0, true));
    assert!(rt; synced(rt.alloc(), None, 0) == (0, 0, false));
}
