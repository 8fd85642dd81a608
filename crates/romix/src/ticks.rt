//! The count of Salsa20/8 cores, which contracts see. It takes no bytes, and its methods do nothing at run time.
ghost use Rattle.std.specs.Prelude.{◌≡◌, ℕ, ◌+◌};

use counter::Count;
use std::alloc::Global;
use std::marker::Model;

/// How many Salsa20/8 cores were done with it. Contracts see a whole number without a bound. At run
/// time it takes no bytes and can't be read.
#[repr(C)]
#[derive(Drop)]
pub struct Ticks {
    count: Count,
}

impl Model for Ticks {
    ghost Value = { ℕ };

    ghost view = { λ ticks. ticks.count };

    // What crosses to C and back gives its fields back.
    ghost inverse = { λ number. record { count = number } };
}

impl Ticks {
    /// A counter at 0. The heap is wanted, as by its count: what has its memory from a caller's source
    /// alone can make no counter of its own, so all its work is counted by the one that it is handed.
    pub fn new(alloc: Global) -> Ticks
        ensures zero { result ≡ 0 }
    {
        Ticks {
            count: Count::new(alloc),
        }
    }

    // Counts one core.
    pub(crate) fn tick(&mut self)
        ensures one_more { self.new ≡ self.old + 1 }
    {
        self.count.plus_one();
    }
}

const _: () = prove!(size_of::<Ticks>() == 0);
