//! Each growth of a workspace refused in turn.
ghost use Rattle.std.specs.Prelude.{◌≡◌, ◌-◌, ◌^◌};
ghost use Rattle.romix.specs.SparseCosts.{SparseFitsMemory};

use super::admitted;
use romix::{GrantedWords, Sparse, WorkspaceMemory, reserve_from};
use std::alloc::{AllocError, Global};

// A source that grants so many requests and refuses the others. Of ten it counts how many are not made, and it keeps the
// length of the last.
#[derive(Drop)]
struct Refusing {
    alloc: Global,
    granted: usize,
    unasked: usize,
    last: usize,
}

impl Refusing {
    // Whether a request for so many words is granted.
    fn grants(&mut self, len: usize) -> bool
        ensures asked { self.new ≡ record self.old
            { granted = self.old.granted - 1; unasked = self.old.unasked - 1; last = len } }
    {
        let grants = self.granted > 0;
        self.granted = self.granted.saturating_sub(1);
        self.unasked = self.unasked.saturating_sub(1);
        self.last = len;
        grants
    }
}

impl WorkspaceMemory for Refusing {
    ghost after_words = { λ source len _. record source
        { granted = source.granted - 1; unasked = source.unasked - 1; last = len } };

    fn request_words(&mut self, len: usize) -> Result<GrantedWords, AllocError> {
        if !self.grants(len) {
            return Err(AllocError);
        }
        Ok(GrantedWords::new(vec![in self.alloc; 0; len]?))
    }

    fn no_words(&self) -> GrantedWords {
        GrantedWords::new(Vec::new(self.alloc))
    }
}

// Whether a source that grants so many requests is asked for these lengths alone, to the one that it refuses.
fn is_asked_in_turn(alloc: Global, sparse: &Sparse, requests: &[usize], granted: usize) -> bool
    requires memory { SparseFitsMemory sparse.now (2 ^ 40) }
{
    let mut source = Refusing {
        alloc,
        granted,
        unasked: 10,
        last: 0,
    };
    let is_reserved = reserve_from(&mut source, sparse).is_ok();
    let asked = requests.len().min(granted.saturating_add(1));
    is_reserved == (granted == requests.len())
        && source.unasked == 10usize.saturating_sub(asked)
        && Some(&source.last) == requests[..asked].last()
}

// Whether that is so of each number of requests that are granted.
fn are_asked_in_turn(alloc: Global, sparse: &Sparse, requests: &[usize]) -> bool
    requires memory { SparseFitsMemory sparse.now (2 ^ 40) }
{
    for granted in 0..=requests.len() {
        if !is_asked_in_turn(alloc, sparse, requests, granted) {
            return false;
        }
    }
    true
}

// The same with N = 16 and r = 1, so that a row has 32 words, where one of so many rows is kept.
fn are_refused_in_turn(alloc: Global, keep: u64, requests: &[usize]) -> bool {
    match admitted(4, 1, 1, keep) {
        Some(sparse) => are_asked_in_turn(alloc, &sparse, requests),
        None => false,
    }
}

// Each request is refused in turn, and nothing is asked for after it: the table and two rows where every row is kept,
// and a third row otherwise.
#[test]
fn each_growth_may_be_refused(rt: HostRuntime) {
    let alloc = rt.alloc();
    assert!(rt; are_refused_in_turn(alloc, 1, &[512, 32, 32]));
    assert!(rt; are_refused_in_turn(alloc, 2, &[256, 32, 32, 32]));
    assert!(rt; are_refused_in_turn(alloc, 4, &[128, 32, 32, 32]));
    assert!(rt; are_refused_in_turn(alloc, 16, &[32, 32, 32, 32]));
}
