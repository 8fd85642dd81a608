//! The last bytes that were read of a file: they may be its final code.
ghost use Rattle.std.specs.Prelude.{◌≡◌, ◌+◌, ◌-◌, ◌≤◌, ◌++◌, ◌↔◌, [], length, take, drop, IsTrue};

use comparison::are_same;
use std::marker::Model;

/// Bytes of the final code.
const CODE_LEN: usize = 32;

// At most 32 bytes, in an array. Contracts see them as a list.
#[derive(Drop)]
pub(crate) struct Tail {
    bytes: [u8; CODE_LEN],
    len: usize,
}

impl Model for Tail {
    ghost use Rattle.std.specs.Prelude.{ℕ, ◌≤◌, List, take};

    ghost Value = { List ℕ };

    ghost view = { λ h. take h.len h.bytes };

    ghost invariant = { λ h. h.len ≤ 32 };
}

impl Tail {
    // No bytes.
    pub(crate) fn new() -> Tail
        ensures nothing { result ≡ [] }
    {
        Tail {
            bytes: [0; CODE_LEN],
            len: 0,
        }
    }

    // How many there are.
    pub(crate) fn len(&self) -> usize
        ensures len { result ≡ length self.now }
        ensures at_most_32 { result ≤ 32 }
    {
        self.len
    }

    // Adds the piece, puts all the bytes at the front of `out`, of which the rest stays, holds the last 32,
    // and answers how many come before those.
    pub(crate) fn take_in(&mut self, piece: &[u8], out: &mut [u8]) -> usize
        requires room { length piece.now + 32 ≤ length out.old }
        ensures moved { result ≡ length self.old + length piece.now - 32 }
        ensures at_most_32 { length self.new ≤ 32 }
        ensures joined { take result out.new ++ self.new ≡ self.old ++ piece.now }
        ensures put { take (length self.old + length piece.now) out.new ≡ self.old ++ piece.now }
        ensures rest { drop (length self.old + length piece.now) out.new ≡ drop (length self.old + length piece.now) out.old }
    {
        let len = self.len + piece.len();
        out[..self.len].copy_from_slice(&self.bytes[..self.len]);
        out[self.len..len].copy_from_slice(piece);
        let moved = len.saturating_sub(CODE_LEN);
        self.len = len - moved;
        self.bytes[..self.len].copy_from_slice(&out[moved..len]);
        moved
    }

    // Whether they are this code, all 32 bytes of it.
    pub(crate) fn is(&self, code: &[u8; CODE_LEN]) -> bool
        ensures same { IsTrue result ↔ (self.now ≡ code.now) }
    {
        self.len == CODE_LEN && are_same(&self.bytes, code)
    }
}
