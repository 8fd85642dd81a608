//! Streams that are interrupted, that fail in the middle, and that take or give little.
ghost use Rattle.std.specs.Prelude.{◌≡◌, None, false};

use crate::fixtures::with_standard;
use host::HostFault;
use memory_system::{Identities, MemorySystem};
use std::alloc::Global;
use tools::{Reading, System, open_apart, read_full, read_some, write_some};

// How many bytes come or go at a time, how often each read or write is interrupted, and which of them fails,
// counted from 1; 0 is none.
#[derive(Clone, Copy)]
struct Trouble {
    size: usize,
    interruptions: u64,
    failing: u64,
}

// An answer, and how often the system was asked.
type Answer = (Result<usize, HostFault>, u64);

// Makes the trouble.
fn make(system: &mut MemorySystem, trouble: Trouble)
    ensures same { system.new ≡ system.old }
{
    system.set_sizes(trouble.size.max(1), trouble.size);
    system.set_interrupt_count(trouble.interruptions);
    system.fail_at(system.calls().saturating_add(trouble.failing));
}

// A system whose standard input is opened, and gives these bytes with this trouble.
fn to_read(alloc: Global, bytes: &[u8], trouble: Trouble) -> MemorySystem
    ensures going { result.state.input.is_ended ≡ false }
{
    let mut system = with_standard(alloc, bytes, Identities::NONE, Identities::NONE);
    let _ = system.set_input_name(None);
    let _ = system.open(Reading::Input, None);
    make(&mut system, trouble);
    system
}

// What comes of a read with room for five bytes.
fn some_read(alloc: Global, bytes: &[u8], trouble: Trouble) -> Answer {
    let mut system = to_read(alloc, bytes, trouble);
    let answer = read_some(&mut system, Reading::Input, &mut [0; 5]);
    let tries = system.tries();
    drop(system);
    (answer, tries)
}

// What comes of reading until five bytes are there.
fn full_read(alloc: Global, bytes: &[u8], trouble: Trouble) -> Answer {
    let mut system = to_read(alloc, bytes, trouble);
    let answer = read_full(&mut system, Reading::Input, &mut [0; 5]);
    let tries = system.tries();
    drop(system);
    (answer, tries)
}

// What comes of a write of these bytes to standard output.
fn write(system: &mut MemorySystem, bytes: &[u8], trouble: Trouble) -> Answer
    requires unasked { system.old.state.output_asked ≡ None }
    requires unsynced { system.old.state.sync_asked ≡ false }
{
    if open_apart(system, None).is_err() {
        return (FAULT, 0);
    }
    make(system, trouble);
    (write_some(system, bytes), system.tries())
}

// The same of a new system, whose standard output is no regular file.
fn written(alloc: Global, bytes: &[u8], trouble: Trouble) -> Answer {
    let mut system = MemorySystem::new(alloc);
    let answer = write(&mut system, bytes, trouble);
    drop(system);
    answer
}

// A size, interruptions and the call that fails; and what becomes of reading some or five bytes of six, and of writing
// five.
type StreamCase = (usize, u64, u64, Answer, Answer, Answer);

const FAULT: Result<usize, HostFault> = Err(HostFault);

// What was interrupted is asked again sixteen times, and what failed is not.
static ROWS: [StreamCase; 7] = [
    (8, 0, 0, (Ok(5), 1), (Ok(5), 1), (Ok(5), 1)),
    (2, 0, 0, (Ok(2), 1), (Ok(5), 3), (Ok(2), 1)),
    (1, 16, 0, (Ok(1), 17), (Ok(5), 85), (Ok(1), 17)),
    (1, 17, 0, (FAULT, 17), (FAULT, 17), (FAULT, 17)),
    (8, 0, 1, (FAULT, 1), (FAULT, 1), (FAULT, 1)),
    (8, 1, 2, (FAULT, 2), (FAULT, 2), (FAULT, 2)),
    (2, 0, 3, (Ok(2), 1), (FAULT, 3), (Ok(2), 1)),
];

// Whether that becomes of it.
fn is_row(alloc: Global, (size, interruptions, failing, some, full, write): StreamCase) -> bool {
    let trouble = Trouble {
        size,
        interruptions,
        failing,
    };
    some_read(alloc, b"hello!", trouble) == some
        && full_read(alloc, b"hello!", trouble) == full
        && written(alloc, b"hello", trouble) == write
}

#[test]
fn interruptions_faults_and_short_counts(rt: HostRuntime) {
    for row in &ROWS {
        assert!(rt; is_row(rt.alloc(), *row));
    }
}

// By two at a time, and none at a time.
const PAIRS: Trouble = Trouble {
    size: 2,
    interruptions: 0,
    failing: 0,
};

const NOTHING: Trouble = Trouble { size: 0, ..PAIRS };

// Fewer bytes than there is room for, and none; a write of which no byte is taken, which is a fault, and one of none.
#[test]
fn ends(rt: HostRuntime) {
    let alloc = rt.alloc();
    assert!(rt; full_read(alloc, b"four", PAIRS) == (Ok(4), 3));
    assert!(rt; some_read(alloc, b"", PAIRS) == (Ok(0), 1));
    assert!(rt; written(alloc, b"hello", NOTHING) == (FAULT, 1));
    assert!(rt; written(alloc, b"", NOTHING) == (Ok(0), 0));
}
