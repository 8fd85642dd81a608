//! Runs of argon2-verify over a system in memory. The hash is that of the reference program:
//! printf password | argon2 somesalt -t 2 -m 8 -e
ghost use Rattle.std.specs.Prelude.{◌≡◌, ◌^◌};
ghost use Rattle.host.specs.CallsGrantedByHost.{nothing_asked};
ghost use Rattle.host.specs.Faults.{no_faults};
ghost use Rattle.host.specs.HostState.{IsUnasked};

use crate::fixtures::{put, text, with_standard};
use argon2_verify::argon2_verify;
use host::Host;
use memory_system::{Identities, MemorySystem};
use std::alloc::Global;
use tools::{FileIdentity, SystemHost};

const HASH: &[u8] =
    b"$argon2i$v=19$m=256,t=2,p=1$c29tZXNhbHQ$iekCn0Y3spW+sCcFanM2xBT63UP2sghkUoHLIUpWRS8\n";

// The file of the hash, and another one.
const FILE: FileIdentity = FileIdentity::Regular {
    device: 1,
    inode: 2,
};

const OTHER: FileIdentity = FileIdentity::Regular {
    device: 1,
    inode: 3,
};

// What a system is like: what standard input gives, whether the file of the hash is standard input itself, which file
// standard error is, the call that fails, how often each read is interrupted, and how many bytes it gives at most.
#[derive(Clone, Copy, Drop)]
struct Setting {
    password: &'static [u8],
    is_stdin: bool,
    error: Option<FileIdentity>,
    failing: u64,
    interruptions: u64,
    most: usize,
}

const RIGHT: Setting = Setting {
    password: b"password",
    is_stdin: false,
    error: None,
    failing: 0,
    interruptions: 0,
    most: usize::MAX,
};

// A host over a system with the hash under a name.
fn begun(alloc: Global, setting: &Setting) -> SystemHost<MemorySystem>
    ensures counts { ⟦<SystemHost<MemorySystem> as Host>⟧.faults result ≡ no_faults }
    ensures fresh { IsUnasked (⟦<SystemHost<MemorySystem> as Host>⟧.seen result) }
    ensures granted { ⟦<SystemHost<MemorySystem> as Host>⟧.grants result ≡ nothing_asked }
{
    let mut system = with_standard(alloc, setting.password, Identities::NONE, Identities::NONE);
    put(alloc, &mut system, "hash", HASH, Identities::of(FILE));
    let _ = system.set_input_name(Some("hash"));
    system.set_input_is_stdin(setting.is_stdin);
    system.set_standard_error(setting.error);
    system.set_sizes(setting.most.max(1), 1);
    system.set_interrupt_count(setting.interruptions);
    system.fail_at(setting.failing);
    SystemHost::new(system)
}

// The words of a line.
fn words(alloc: Global, line: &str) -> Vec<String> {
    let mut words = Vec::new(alloc);
    for word in line.split_whitespace() {
        let _ = words.push(text(alloc, word));
    }
    words
}

// Whether this line is all that was said, or none was where there is no text.
fn says(system: &MemorySystem, told: &str) -> bool {
    match system.lines() {
        [] => told.is_empty(),
        [line] => !told.is_empty() && told == line.as_str(),
        _ => false,
    }
}

// Whether a run ends with this status and line, and writes nothing.
fn ends(alloc: Global, line: &str, setting: &Setting, status: u8, told: &str) -> bool {
    let words = words(alloc, line);
    let mut host = begun(alloc, setting);
    let found = argon2_verify(alloc, &words, &mut host);
    let (system, _) = host.into_system();
    let is_so = found == status && says(&system, told) && system.output().is_empty();
    drop(system);
    is_so
}

const FILE_FAULT: &str = "argon2-verify: file cannot be read";

const PASSWORD_FAULT: &str = "argon2-verify: password cannot be read";

const LIMIT: &str = "argon2-verify: more memory needed than --maxmem allows";

// The call of the system that fails, the status and the line: an opening of the file, whether that is standard input,
// and 84 reads, to the end of its line; and an opening and two reads of standard input.
static FAILING: [(u64, u8, &str); 9] = [
    (0, 0, ""),
    (1, 2, FILE_FAULT),
    (2, 2, FILE_FAULT),
    (3, 2, FILE_FAULT),
    (86, 2, FILE_FAULT),
    (87, 2, PASSWORD_FAULT),
    (88, 2, PASSWORD_FAULT),
    (89, 2, PASSWORD_FAULT),
    (90, 0, ""),
];

#[test]
fn each_call_fails(rt: HostRuntime) {
    for (failing, status, told) in &FAILING {
        let setting = Setting {
            failing: *failing,
            ..RIGHT
        };
        assert!(rt;
            ends(rt.alloc(), "hash", &setting, *status, told),
            "{failing}"
        );
    }
}

// Words, a system, the status and the line.
static ENDS: [(&str, Setting, u8, &str); 9] = [
    ("hash", Setting { most: 1, ..RIGHT }, 0, ""),
    (
        "hash",
        Setting {
            password: b"Password",
            ..RIGHT
        },
        1,
        "",
    ),
    (
        "hash",
        Setting {
            interruptions: 16,
            ..RIGHT
        },
        0,
        "",
    ),
    (
        "hash",
        Setting {
            interruptions: 17,
            ..RIGHT
        },
        2,
        FILE_FAULT,
    ),
    ("none", RIGHT, 2, FILE_FAULT),
    (
        "hash",
        Setting {
            is_stdin: true,
            ..RIGHT
        },
        2,
        "argon2-verify: file is standard input, which gives the password",
    ),
    ("--maxmem 255 hash", RIGHT, 2, LIMIT),
    // a file that is read gets no line
    (
        "--maxmem 255 hash",
        Setting {
            error: Some(FILE),
            ..RIGHT
        },
        2,
        "",
    ),
    (
        "--maxmem 255 hash",
        Setting {
            error: Some(OTHER),
            ..RIGHT
        },
        2,
        LIMIT,
    ),
];

#[test]
fn whole_runs_over_a_system(rt: HostRuntime) {
    for (at, (line, setting, status, told)) in ENDS.iter().enumerate() {
        assert!(rt; ends(rt.alloc(), line, setting, *status, told), "{at}");
    }
}
