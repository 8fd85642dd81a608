//! What no contract says of a system in memory.

use crate::fixtures::{put, with_standard};
use memory_system::Identities;
use std::alloc::Global;
use tools::{Reading, System};

// Whether the input stands under this name, and is opened under that one.
fn opens(alloc: Global, given: Option<&str>, name: Option<&str>) -> (bool, bool) {
    let mut system = with_standard(alloc, b"", Identities::NONE, Identities::NONE);
    put(alloc, &mut system, "in", b"hello", Identities::NONE);
    let is_given = system.set_input_name(given).is_ok();
    let is_opened = system.open(Reading::Input, name).is_ok();
    drop(system);
    (is_given, is_opened)
}

// The two names, and whether it does.
static ROWS: [(Option<&str>, Option<&str>, (bool, bool)); 6] = [
    (Some("in"), Some("in"), (true, true)),
    (Some("in"), Some("other"), (true, false)),
    (Some("in"), None, (true, false)),
    (None, None, (true, true)),
    (None, Some("in"), (true, false)),
    (Some("other"), Some("other"), (false, false)),
];

#[test]
fn opens_the_input_under_its_name(rt: HostRuntime) {
    for (given, name, found) in &ROWS {
        assert!(rt; opens(rt.alloc(), *given, *name) == *found);
    }
}
