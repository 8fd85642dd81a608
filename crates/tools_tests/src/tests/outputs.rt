//! Which opened outputs are emptied, and which are faults.
ghost use Rattle.std.specs.Prelude.{◌≡◌, None, false};
ghost use Rattle.tools.specs.SystemState.{IsUnused};

use crate::fixtures::{put, with_standard};
use memory_system::{Identities, MemorySystem};
use std::alloc::Global;
use tools::{FileIdentity, Reading, System, open_apart};

// The output in most cases, another file on its device, and one of its number on another device.
const THIS: Option<FileIdentity> = Some(FileIdentity::Regular {
    device: 1,
    inode: 2,
});

const ANOTHER: Option<FileIdentity> = Some(FileIdentity::Regular {
    device: 1,
    inode: 4,
});

const ELSEWHERE: Option<FileIdentity> = Some(FileIdentity::Regular {
    device: 3,
    inode: 2,
});

// A block device, whose number is that device's.
const DISK: Option<FileIdentity> = Some(FileIdentity::Block { device: 1 });

// What standard input is before an output is opened and from then on, and what the output is.
#[derive(Clone, Copy)]
struct Beside {
    before: Option<FileIdentity>,
    after: Option<FileIdentity>,
    output: Option<FileIdentity>,
}

// A system with that input, and with the output under two names and as standard output.
fn files(alloc: Global, beside: Beside) -> MemorySystem
    ensures unused { IsUnused result.state }
{
    let input = Identities {
        before: beside.before,
        after: beside.after,
    };
    let output = Identities {
        before: None,
        after: beside.output,
    };
    let mut system = with_standard(alloc, b"kept", input, output);
    let _ = system.set_input_name(None);
    put(alloc, &mut system, "output", b"", output);
    put(alloc, &mut system, "link", b"", output);
    system
}

// Whether an output of this name is opened, and whether it was emptied. The call that fails is counted from the
// first after this.
fn outcome(system: &mut MemorySystem, name: Option<&str>, failing: u64) -> (bool, bool)
    requires unasked { system.old.state.output_asked ≡ None }
    requires unsynced { system.old.state.sync_asked ≡ false }
{
    system.fail_at(system.calls().saturating_add(failing));
    let is_opened = open_apart(system, name).is_ok();
    (is_opened, system.is_emptied())
}

// Whether standard input is opened, an output then, and whether that was emptied.
type HostState = (bool, bool, bool);

// What becomes of an output where standard input is opened as the input or as a secret.
fn beside_reading(
    alloc: Global,
    reading: Reading,
    beside: Beside,
    (name, failing): (Option<&str>, u64),
) -> HostState {
    let mut system = files(alloc, beside);
    let is_read = system.open(reading, None).is_ok();
    let (is_opened, is_emptied) = outcome(&mut system, name, failing);
    drop(system);
    (is_read, is_opened, is_emptied)
}

const EMPTIED: HostState = (true, true, true);

const AS_IT_IS: HostState = (true, true, false);

const REFUSED: HostState = (true, false, false);

// Whether this becomes of an output of this name beside the input, and beside the secret.
fn becomes(alloc: Global, beside: Beside, name: Option<&str>, what: HostState) -> bool {
    beside_reading(alloc, Reading::Input, beside, (name, 0)) == what
        && beside_reading(alloc, Reading::Secret, beside, (name, 0)) == what
}

// What is read before the output is opened and then, the output, and what becomes of it under a name and as standard
// output.
type OutputCase = (
    Option<FileIdentity>,
    Option<FileIdentity>,
    Option<FileIdentity>,
    HostState,
    HostState,
);

// A named output is emptied where it is a regular file; a block device and standard output are not. What is read is
// refused. Either alone of device and number makes no file that is read, nor does a file on a device that is read. A
// file of layers can be another once an output is opened.
static ROWS: [OutputCase; 11] = [
    (None, None, THIS, EMPTIED, AS_IT_IS),
    (ANOTHER, ANOTHER, THIS, EMPTIED, AS_IT_IS),
    (ELSEWHERE, ELSEWHERE, THIS, EMPTIED, AS_IT_IS),
    (THIS, THIS, THIS, REFUSED, REFUSED),
    (ANOTHER, THIS, THIS, REFUSED, REFUSED),
    (THIS, ANOTHER, THIS, EMPTIED, AS_IT_IS),
    (None, None, None, AS_IT_IS, AS_IT_IS),
    (THIS, THIS, None, AS_IT_IS, AS_IT_IS),
    (DISK, DISK, DISK, REFUSED, REFUSED),
    (DISK, DISK, THIS, EMPTIED, AS_IT_IS),
    (THIS, THIS, DISK, AS_IT_IS, AS_IT_IS),
];

// Whether that becomes of it.
fn is_row(alloc: Global, (before, after, output, named, standard): OutputCase) -> bool {
    let beside = Beside {
        before,
        after,
        output,
    };
    becomes(alloc, beside, Some("output"), named)
        && becomes(alloc, beside, Some("link"), named)
        && becomes(alloc, beside, Some("new"), EMPTIED)
        && becomes(alloc, beside, None, standard)
}

#[test]
fn files_that_are_read_stay(rt: HostRuntime) {
    for row in &ROWS {
        assert!(rt; is_row(rt.alloc(), *row));
    }
}

// An output beside another file.
const APART: Beside = Beside {
    before: ANOTHER,
    after: ANOTHER,
    output: THIS,
};

// Whether this becomes of it under a name and as standard output where this call of the system fails.
fn becomes_at(alloc: Global, (call, named, standard): (u64, HostState, HostState)) -> bool {
    beside_reading(alloc, Reading::Input, APART, (Some("output"), call)) == named
        && beside_reading(alloc, Reading::Input, APART, (None, call)) == standard
}

// An output is opened by four calls, and by three where it is not emptied.
static FAILING: [(u64, HostState, HostState); 5] = [
    (1, REFUSED, REFUSED),
    (2, REFUSED, REFUSED),
    (3, REFUSED, REFUSED),
    (4, REFUSED, AS_IT_IS),
    (5, EMPTIED, AS_IT_IS),
];

#[test]
fn each_call_that_fails_is_a_fault(rt: HostRuntime) {
    for row in &FAILING {
        assert!(rt; becomes_at(rt.alloc(), *row));
    }
}
