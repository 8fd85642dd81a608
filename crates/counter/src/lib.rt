//! A count that contracts see. It takes no bytes, and its calls do nothing at run time.
#![tactic(auto)]

ghost use Rattle.std.specs.Borrow.{ftrue};
ghost use Rattle.std.specs.Prelude.{◌≡◌, ℕ, ◌+◌};

use std::alloc::Global;
use std::marker::Model;

/// A whole number without a bound, which contracts see and no code can read. A type that counts
/// something keeps one to itself, and so decides what is counted. It can't be copied, and it goes up
/// where it is: who was lent one can make no other of it.
#[repr(C)]
#[derive(Drop)]
pub struct Count {
    // keeps other crates from making one of any number
    seal: (),
    ghost number: { ℕ },
}

impl Model for Count {
    ghost Value = { ℕ };

    ghost view = { λ count. count.number };

    // What crosses to C and back gives its fields back.
    ghost inverse = { λ number. record { seal = tt; number = number } };

    ghost also_owns = { λ _. ftrue };
}

impl Count {
    /// The count 0. The heap is wanted and not used: who has none can make no count.
    pub fn new(_alloc: Global) -> Count
        ensures zero { result ≡ 0 }
    {
        Count { seal: () }
    }

    /// Goes up by one, in its place.
    pub fn plus_one(&mut self)
        ensures one_more { self.new ≡ self.old + 1 }
    {}
}

const _: () = prove!(size_of::<Count>() == 0);
