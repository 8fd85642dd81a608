//! How often the calls of a run have failed.
ghost use Rattle.std.specs.Prelude.{◌≡◌, ◌-◌, ◌<◌, ◌^◌};
ghost use Rattle.host.specs.Faults.{no_faults};
ghost use Rattle.tools.specs.Failures.{AddsFault};

use host::HostFault;
use std::marker::{Model, PhantomData};

/// How often each kind of call has failed in a run over a system of the type `S`.
///
/// It comes from the end of a [`SystemHost`](crate::SystemHost) over such a system, and from nowhere else: so
/// a program over any system can tell only of failures of a host over its own system. Contracts see `Faults`.
#[derive(Drop)]
pub struct RunFailureCounts<S> {
    pub(crate) input: u64,
    pub(crate) output: u64,
    pub(crate) secrets: u64,
    pub(crate) salt: u64,
    pub(crate) lines: u64,
    of: PhantomData<S>,
}

impl<S> Model for RunFailureCounts<S> {
    ghost use Rattle.host.specs.Faults.{Faults};

    ghost Value = { Faults };

    ghost view = { λ c. record { input = c.input; output = c.output; secrets = c.secrets; salt = c.salt; lines = c.lines } };
}

impl<S> RunFailureCounts<S> {
    /// No call has failed.
    pub(crate) fn new() -> RunFailureCounts<S>
        ensures none { result ≡ no_faults }
    {
        RunFailureCounts {
            input: 0,
            output: 0,
            secrets: 0,
            salt: 0,
            lines: 0,
            of: PhantomData,
        }
    }

    /// How many lines could not be said. Each such line is a fault, whose caller may pass it over, as
    /// [`refuse`](host::refuse) does.
    pub fn failed_line_count(&self) -> u64
        ensures count { result ≡ self.now.lines }
    {
        self.lines
    }
}

/// Passes an outcome on, and counts it where it is a fault.
pub fn counted<T>(count: &mut u64, outcome: Result<T, HostFault>) -> Result<T, HostFault>
    requires room { count.old < 2 ^ 64 - 1 }
    ensures same { result ≡ outcome }
    ensures count { AddsFault outcome count.old count.new }
{
    if outcome.is_err() {
        *count += 1;
    }
    outcome
}
