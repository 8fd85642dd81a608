//! How often the calls of a system in memory have failed.
ghost use Rattle.std.specs.Prelude.{◌≡◌};
ghost use Rattle.host.specs.Faults.{no_faults, with_line_failure_counted, with_output_failure_counted, with_secret_failure_counted};
ghost use Rattle.tools.specs.Failures.{after_read_counted, after_write_counted, with_file_failure_counted, with_read_failure_counted};

use crate::unbounded_count::UnboundedCount;
use std::marker::Model;
use tools::{Reading, StreamRole};

/// How often each kind of call has failed, without a bound. Contracts see `Faults`.
#[derive(Drop)]
pub struct FailureCounts {
    input: UnboundedCount,
    output: UnboundedCount,
    secrets: UnboundedCount,
    salt: UnboundedCount,
    lines: UnboundedCount,
}

impl Model for FailureCounts {
    ghost use Rattle.host.specs.Faults.{Faults};

    ghost Value = { Faults };

    ghost view = { λ c. record { input = c.input; output = c.output; secrets = c.secrets; salt = c.salt; lines = c.lines } };
}

impl FailureCounts {
    /// No call has failed.
    pub fn new() -> FailureCounts
        ensures none { result ≡ no_faults }
    {
        FailureCounts {
            input: UnboundedCount::new(),
            output: UnboundedCount::new(),
            secrets: UnboundedCount::new(),
            salt: UnboundedCount::new(),
            lines: UnboundedCount::new(),
        }
    }

    /// This stream could not be opened or read.
    pub fn count_read_failure(&mut self, reading: Reading)
        ensures counted { self.new ≡ with_read_failure_counted reading self.old }
    {
        match reading {
            Reading::Input => self.input.add_one(),
            Reading::Secret => self.secrets.add_one(),
            Reading::Random => self.salt.add_one(),
        }
    }

    /// A read of this stream gave so many bytes.
    pub fn count_read(&mut self, reading: Reading, n: usize)
        ensures counted { self.new ≡ after_read_counted reading n self.old }
    {
        if let (Reading::Random, 0) = (reading, n) {
            self.salt.add_one();
        }
    }

    /// A variable could not be read.
    pub fn count_variable_failure(&mut self)
        ensures counted { self.new ≡ with_secret_failure_counted self.old }
    {
        self.secrets.add_one();
    }

    /// It is not known which file this stream is.
    pub fn count_file_failure(&mut self, stream: StreamRole)
        ensures counted { self.new ≡ with_file_failure_counted stream self.old }
    {
        match stream {
            StreamRole::Input | StreamRole::Secret => {
                self.output.add_one();
                self.lines.add_one();
            }
            StreamRole::Output => self.output.add_one(),
            StreamRole::Error => self.lines.add_one(),
        }
    }

    /// The output could not be opened, emptied, written or brought to the disk.
    pub fn count_output_failure(&mut self)
        ensures counted { self.new ≡ with_output_failure_counted self.old }
    {
        self.output.add_one();
    }

    /// A write took so many bytes.
    pub fn count_write(&mut self, n: usize)
        ensures counted { self.new ≡ after_write_counted n self.old }
    {
        if n == 0 {
            self.output.add_one();
        }
    }

    /// A line could not be said.
    pub fn count_line_failure(&mut self)
        ensures counted { self.new ≡ with_line_failure_counted self.old }
    {
        self.lines.add_one();
    }
}
