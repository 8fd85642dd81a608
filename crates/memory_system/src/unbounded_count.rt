//! How often a read or a write was asked for.
ghost use Rattle.std.specs.Prelude.{◌≡◌, ◌+◌, ◌-◌, ◌^◌, min};

use std::marker::Model;
use std::snapshot::Snapshot;

/// A whole number, of which contracts alone see all: at run time nothing is kept of it but whether it is 0.
#[derive(Drop)]
pub enum GhostNaturalNumber {
    Zero,
    OneMore(Snapshot<GhostNaturalNumber>),
}

/// A count without a bound. Contracts see the number, and code sees it up to 2^64-1.
#[derive(Drop)]
pub struct UnboundedCount {
    number: GhostNaturalNumber,
    shown: u64,
}

impl Model for UnboundedCount {
    ghost use Rattle.std.specs.Prelude.{◌≡◌, ◌-◌, ◌^◌, ℕ, min};
    ghost use Rattle.memory_system.specs.Numbers.{number_of};

    ghost Value = { ℕ };

    ghost view = { λ t. number_of t.number };

    ghost invariant = { λ t. t.shown ≡ min (number_of t.number) (2 ^ 64 - 1) };
}

impl UnboundedCount {
    /// None yet.
    pub fn new() -> UnboundedCount
        ensures none { result ≡ 0 }
    {
        UnboundedCount {
            number: GhostNaturalNumber::Zero,
            shown: 0,
        }
    }

    /// One more.
    pub fn add_one(&mut self)
        ensures one_more { self.new ≡ self.old + 1 }
    {
        self.number = GhostNaturalNumber::OneMore(Snapshot::of(&self.number));
        self.shown = self.shown.saturating_add(1);
    }

    /// The number, or 2^64-1 where it is greater.
    pub fn shown(&self) -> u64
        ensures number { result ≡ min self.now (2 ^ 64 - 1) }
    {
        self.shown
    }
}
