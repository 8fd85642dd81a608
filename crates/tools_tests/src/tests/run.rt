//! Whole runs over a system in memory.
use crate::fixtures::{put, with_standard};
use host::{HostFault, Source};
use memory_system::{Identities, MemorySystem};
use std::alloc::Global;
use tools::{FileIdentity, Run};

// A block device.
const DISK: FileIdentity = FileIdentity::Block { device: 8 };

// A run of which nothing was used, over five bytes of standard input, which are the input, and random bytes. This call
// of its system fails, and each read and write is interrupted so often.
fn begun(alloc: Global, failing: u64, interruptions: u64) -> Run<MemorySystem> {
    let mut system = with_standard(alloc, b"hello", Identities::NONE, Identities::NONE);
    put(
        alloc,
        &mut system,
        "/dev/urandom",
        &[7; 40],
        Identities::NONE,
    );
    put(alloc, &mut system, "disk", b"", Identities::of(DISK));
    let _ = system.set_input_name(None);
    system.fail_at(failing);
    system.set_interrupt_count(interruptions);
    Run::new(system)
}

// A dot for what is done, and else an F.
fn done(outcome: Result<(), HostFault>) -> u8 {
    if outcome.is_ok() { b'.' } else { b'F' }
}

// The number of bytes as a digit, and else an F.
fn count(outcome: Result<usize, HostFault>) -> u8 {
    match outcome {
        Ok(n) => b"0123456789"[n.min(9)],
        Err(_) => b'F',
    }
}

// Opens the input, if it was not opened.
fn open_input(run: &mut Run<MemorySystem>, name: Option<&str>) -> u8 {
    if !run.may_open_input() {
        return b'F';
    }
    done(run.open_input(name))
}

// Opens an output, if none was asked for.
fn open_output(run: &mut Run<MemorySystem>, name: Option<&str>) -> u8 {
    if !run.may_open_output() {
        return b'F';
    }
    done(run.open_output(name))
}

// Pulls at most so many bytes, up to four.
fn pull(run: &mut Run<MemorySystem>, most: usize) -> u8 {
    count(run.pull(&mut [0; 4][..most.min(4)]))
}

// Pushes bytes.
fn push(run: &mut Run<MemorySystem>, bytes: &[u8]) -> u8 {
    count(run.push(bytes))
}

// Reads a secret, if none was asked for.
fn secret(run: &mut Run<MemorySystem>, source: Source<'_>) -> u8 {
    if !run.may_ask_for_secret() {
        return b'F';
    }
    count(run.secret(source, &mut [0; 4]))
}

// Takes a salt, if none was asked for.
fn salt(run: &mut Run<MemorySystem>, out: &mut [u8; 32]) -> u8 {
    if !run.may_ask_for_salt() {
        return b'F';
    }
    done(run.salt(out))
}

// What is asked of a run: the input, standard output, or the output `out` or `disk` opened; four bytes pulled or pushed,
// or none; a secret, a salt, the output brought to the disk, and a line.
#[derive(Clone, Copy, Drop)]
enum Call {
    OpenInput,
    OpenStandardOutput,
    OpenOut,
    OpenDisk,
    Pull,
    PullNone,
    Push,
    PushNone,
    Secret,
    Salt,
    Sync,
    Say,
}

use Call::{
    OpenDisk, OpenInput, OpenOut, OpenStandardOutput, Pull, PullNone, Push, PushNone, Salt, Say,
    Secret, Sync,
};

// What a call answers.
fn answer(run: &mut Run<MemorySystem>, call: Call) -> u8 {
    match call {
        OpenInput => open_input(run, None),
        OpenStandardOutput => open_output(run, None),
        OpenOut => open_output(run, Some("out")),
        OpenDisk => open_output(run, Some("disk")),
        Pull => pull(run, 4),
        PullNone => pull(run, 0),
        Push => push(run, b"text"),
        PushNone => push(run, b""),
        Secret => secret(run, Source::StdinOnce),
        Salt => salt(run, &mut [0; 32]),
        Sync => done(run.sync()),
        Say => done(run.say("line")),
    }
}

// Whether calls are answered so, none of which waits for another's answer.
fn answers(run: &mut Run<MemorySystem>, calls: &[Call], marks: &[u8]) -> bool {
    let mut are_so = calls.len() == marks.len();
    for (call, mark) in calls.iter().zip(marks) {
        are_so &= answer(run, *call) == *mark;
    }
    are_so
}

// Whether the calls of a run are answered so; and what is left of it: whether the output was emptied, whether it was
// brought to the disk, how many lines were said, how many reads and writes were tried, and how often the system was
// called.
#[derive(Clone, Copy, Drop)]
struct Left {
    are_answered: bool,
    is_emptied: bool,
    is_synced: bool,
    lines: usize,
    tries: u64,
    calls: u64,
}

// What is left of calls, where this call of the system fails, and each read and write is interrupted so often.
fn left_by(alloc: Global, calls: &[Call], marks: &[u8], failing: u64, interruptions: u64) -> Left {
    let mut run = begun(alloc, failing, interruptions);
    let are_answered = answers(&mut run, calls, marks);
    let system = run.into_system();
    let left = Left {
        are_answered,
        is_emptied: system.is_emptied(),
        is_synced: system.is_synced(),
        lines: system.lines().len(),
        tries: system.tries(),
        calls: system.calls(),
    };
    drop(system);
    left
}

// The call of the system that fails, what the calls of the run answer, whether the output was emptied and brought to the
// disk, and how many lines were said.
type FailingCase = (u64, &'static [u8], bool, bool, usize);

// Whether this comes of calls.
fn comes_of(
    alloc: Global,
    calls: &[Call],
    (failing, marks, is_emptied, is_synced, lines): FailingCase,
) -> bool {
    let left = left_by(alloc, calls, marks, failing, 0);
    left.are_answered
        && left.is_emptied == is_emptied
        && left.is_synced == is_synced
        && left.lines == lines
}

// All that a run can do.
const ALL: &[Call] = &[
    OpenInput, Pull, Pull, Pull, Secret, Salt, OpenOut, Push, Sync, Say,
];

// Nothing else is lost but what rests on the call that fails: the pulls where the input is not opened, and the push where the output
// is not.
static FAILING: [FailingCase; 20] = [
    (0, b".4104..4..", true, true, 1),
    // opened
    (1, b"FFFF4..4..", true, true, 1),
    // four bytes, one, and the end
    (2, b".F414..4..", true, true, 1),
    (3, b".4F14..4..", true, true, 1),
    (4, b".41F4..4..", true, true, 1),
    // a secret opened, and four bytes
    (5, b".410F..4..", true, true, 1),
    (6, b".410F..4..", true, true, 1),
    // random bytes opened, and 32 of them
    (7, b".4104F.4..", true, true, 1),
    (8, b".4104F.4..", true, true, 1),
    // an output opened, found to be no file that is read, and emptied
    (9, b".4104.FFF.", false, false, 1),
    (10, b".4104.FFF.", false, false, 1),
    (11, b".4104.FFF.", false, false, 1),
    (12, b".4104.FFF.", false, false, 1),
    (13, b".4104.FFF.", false, false, 1),
    // written, and brought to the disk
    (14, b".4104..F..", true, true, 1),
    (15, b".4104..4F.", true, false, 1),
    // what is read found to be no regular file, and a line said
    (16, b".4104..4.F", true, true, 0),
    (17, b".4104..4.F", true, true, 0),
    (18, b".4104..4.F", true, true, 0),
    (19, b".4104..4..", true, true, 1),
];

#[test]
fn each_call_fails(rt: HostRuntime) {
    for row in &FAILING {
        assert!(rt; comes_of(rt.alloc(), ALL, *row), "{}", row.0);
    }
}

// Whether calls are answered so after so many tries, where each read and write is interrupted so often.
fn is_tried(alloc: Global, interruptions: u64, calls: &[Call], marks: &[u8], tries: u64) -> bool {
    let left = left_by(alloc, calls, marks, 0, interruptions);
    left.are_answered && left.tries == tries
}

// How often each read and write is interrupted, the calls, their answers, and how many reads and writes are tried for them.
// The end is read once; the first pull of that row has no room.
static TRIED: [(u64, &[Call], &[u8], u64); 4] = [
    (0, ALL, b".4104..4..", 6),
    (16, ALL, b".4104..4..", 102),
    (u64::MAX, ALL, b".FFFFF.F..", 102),
    (
        0,
        &[OpenInput, PullNone, Pull, Pull, Pull, Pull],
        b".04100",
        3,
    ),
];

#[test]
fn each_read_and_write_is_tried_17_times_at_most(rt: HostRuntime) {
    for (interruptions, calls, marks, tries) in &TRIED {
        assert!(rt; is_tried(rt.alloc(), *interruptions, calls, marks, *tries));
    }
}

// Whether these are the answers to an output, and then to the input, a secret and a salt where this call of the system
// fails, and how often it was called.
fn is_late(alloc: Global, failing: u64, marks: &[u8], times: u64) -> bool {
    let calls = &[OpenStandardOutput, OpenInput, Secret, Salt];
    let left = left_by(alloc, calls, marks, failing, 0);
    left.are_answered && left.calls == times
}

// Also where the output could not be opened. Standard output that is no regular file takes two calls.
static LATE: [(u64, &[u8], u64); 3] = [(0, b".FFF", 2), (1, b"FFFF", 1), (2, b"FFFF", 2)];

// Nothing is opened once an output was asked for; what was opened is read and written on.
#[test]
fn opens_nothing_once_an_output_was_asked_for(rt: HostRuntime) {
    for (failing, marks, calls) in &LATE {
        assert!(rt; is_late(rt.alloc(), *failing, marks, *calls));
    }
    let calls = &[OpenInput, OpenStandardOutput, Pull, Push, PushNone];
    assert!(rt; left_by(rt.alloc(), calls, b"..440", 0, 0).are_answered);
}

// A file that is opened by its name, a regular one or a block device, is brought to the disk, and then not written any
// more, also where that fails; of standard output nothing is to be brought there. One line is said. A row has the call
// that opens the output, among those around the moment when it is brought to the disk.
static BROUGHT: [(Call, FailingCase); 4] = [
    (OpenOut, (0, b"F.4.F..F", true, true, 1)),
    (OpenOut, (5, b"F.4FFF.F", true, false, 1)),
    (OpenDisk, (0, b"F.4.F..F", false, true, 1)),
    (OpenStandardOutput, (0, b"F.4.4..F", false, false, 1)),
];

#[test]
fn named_outputs_are_brought_to_the_disk(rt: HostRuntime) {
    for (open, row) in &BROUGHT {
        let calls = &[Sync, *open, Push, Sync, Push, Sync, Say, Say];
        assert!(rt; comes_of(rt.alloc(), calls, *row));
    }
}

const THIS: Option<FileIdentity> = Some(FileIdentity::Regular {
    device: 1,
    inode: 2,
});

const ANOTHER: Option<FileIdentity> = Some(FileIdentity::Regular {
    device: 1,
    inode: 3,
});

// A run over standard input, which is this file, as is standard error. This call of its system fails.
fn beside_error(
    alloc: Global,
    input: Option<FileIdentity>,
    error: Option<FileIdentity>,
    failing: u64,
) -> Run<MemorySystem> {
    let input = Identities {
        before: input,
        after: input,
    };
    let mut system = with_standard(alloc, b"hello", input, Identities::NONE);
    let _ = system.set_input_name(None);
    system.set_standard_error(error);
    system.fail_at(failing);
    Run::new(system)
}

// Whether a line is said so once the input or the secret is opened, and so many were.
fn is_said_beside(
    alloc: Global,
    (calls, marks): (&[Call], &[u8]),
    input: Option<FileIdentity>,
    error: Option<FileIdentity>,
    lines: usize,
) -> bool {
    let mut run = beside_error(alloc, input, error, 0);
    let are_answered = answers(&mut run, calls, marks);
    let system = run.into_system();
    let said = system.lines().len();
    drop(system);
    are_answered && said == lines
}

// What standard input and standard error are, whether a line is said once the input is opened and once the secret is, and
// how many were.
static BESIDE_ERROR: [(
    Option<FileIdentity>,
    Option<FileIdentity>,
    &[u8],
    &[u8],
    usize,
); 6] = [
    (None, None, b"..", b"4.", 1),
    (THIS, None, b"..", b"4.", 1),
    (None, THIS, b"..", b"4.", 1),
    (THIS, ANOTHER, b"..", b"4.", 1),
    (THIS, THIS, b".F", b"4F", 0),
    (Some(DISK), Some(DISK), b".F", b"4F", 0),
];

#[test]
fn no_line_goes_into_a_file_that_is_read(rt: HostRuntime) {
    for (input, error, beside_input, beside_secret, lines) in &BESIDE_ERROR {
        let alloc = rt.alloc();
        assert!(rt;
            is_said_beside(
                alloc,
                (&[OpenInput, Say], beside_input),
                *input,
                *error,
                *lines
            )
        );
        assert!(rt;
            is_said_beside(
                alloc,
                (&[Secret, Say], beside_secret),
                *input,
                *error,
                *lines
            )
        );
    }
}

// What a line needs: what standard input is, beside a file that is standard error, the call of the system that fails, the
// calls of the run and their answers, how often the system is called, and how many lines are said.
type LineCase = (
    Option<FileIdentity>,
    u64,
    &'static [Call],
    &'static [u8],
    u64,
    usize,
);

// Where nothing is opened, or could be, the system is asked for the line alone; beside a pipe also what that is; and beside
// a file also what standard error is, without which there is no line.
static LINES: [LineCase; 7] = [
    (THIS, 0, &[Say], b".", 1, 1),
    (THIS, 1, &[OpenInput, Say], b"F.", 2, 1),
    (THIS, 1, &[Secret, Say], b"F.", 2, 1),
    (None, 0, &[OpenInput, Say], b"..", 3, 1),
    (None, 2, &[OpenInput, Say], b".F", 2, 0),
    (THIS, 0, &[OpenInput, Say], b"..", 4, 1),
    (THIS, 3, &[OpenInput, Say], b".F", 3, 0),
];

// Whether that comes of a line.
fn is_line(alloc: Global, (input, failing, calls, marks, times, lines): LineCase) -> bool {
    let mut run = beside_error(alloc, input, ANOTHER, failing);
    let are_answered = answers(&mut run, calls, marks);
    let system = run.into_system();
    let found = (system.calls(), system.lines().len());
    drop(system);
    are_answered && found == (times, lines)
}

#[test]
fn standard_error_is_looked_at_beside_a_file_alone(rt: HostRuntime) {
    for row in &LINES {
        assert!(rt; is_line(rt.alloc(), *row));
    }
}
