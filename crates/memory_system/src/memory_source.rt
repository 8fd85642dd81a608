//! A stream of a system in memory that is read.
ghost use Rattle.std.specs.Prelude.{◌≡◌, ◌↔◌, ◌<◌, ◌≤◌, [], None, length, min, option_map, take, IfOk, IsTrue, OnErr};
ghost use Rattle.host.specs.AskedSource.{name_bytes};
ghost use Rattle.memory_system.specs.Memory.{source_not_yet_opened};
ghost use Rattle.tools.specs.SystemState.{after_reading, opened_source};

use host::GhostName;
use std::io;
use std::io::ErrorKind;
use std::marker::Model;

/// A stream that is read, or is to be: the name under which it was opened, what it gives, how much of
/// that was taken, and whether a read found the end. Contracts see a `Source`.
#[derive(Drop)]
pub struct InMemoryStream {
    opened: Option<Option<GhostName>>,
    bytes: Vec<u8>,
    taken: usize,
    is_ended: bool,
}

impl Model for InMemoryStream {
    ghost use Rattle.std.specs.Prelude.{drop, length, option_map, ◌≤◌};
    ghost use Rattle.host.specs.AskedSource.{name_bytes};
    ghost use Rattle.tools.specs.SystemState.{Source};

    ghost Value = { Source };

    ghost view = { λ s. record {
      opened = option_map (option_map name_bytes) s.opened;
      left = drop s.taken s.bytes.items;
      is_ended = s.is_ended;
    } };

    ghost invariant = { λ s. s.taken ≤ length s.bytes.items };
}

impl InMemoryStream {
    /// A stream that is not opened yet.
    pub fn new(bytes: Vec<u8>) -> InMemoryStream
        ensures unopened { result ≡ source_not_yet_opened bytes.items }
    {
        InMemoryStream {
            opened: None,
            bytes,
            taken: 0,
            is_ended: false,
        }
    }

    /// The stream is opened under this name, and gives what is left of it.
    pub fn open(&mut self, name: Option<&str>)
        ensures opened { self.new ≡ opened_source (option_map (λ n. n.now) name.entry) self.old.left }
    {
        self.opened = Some(to_ghost_name(name));
        self.is_ended = false;
    }

    /// Whether it is not opened.
    pub fn is_unopened(&self) -> bool
        ensures exact { IsTrue result ↔ self.now.opened ≡ None }
    {
        self.opened.is_none()
    }

    /// Reads the next bytes, at most so many. A stream that is not opened is a fault.
    pub fn read(&mut self, buf: &mut [u8], most: usize) -> io::Result<usize>
        ensures bound { IfOk result (λ n. n ≤ length buf.old) }
        ensures kept { OnErr result (self.new ≡ self.old) }
        ensures within { IfOk result (λ n. n ≤ length self.old.left) }
        ensures bytes { IfOk result (λ n. take n buf.new ≡ take n self.old.left) }
        ensures taken { IfOk result (λ n. self.new ≡ after_reading n self.old) }
        ensures progress { IfOk result (λ n. 0 < length buf.old → 0 < most → n ≡ 0 → self.old.left ≡ []) }
    {
        if self.opened.is_none() {
            return Err(io::Error::from(ErrorKind::NotFound));
        }
        let room = buf.len().min(most);
        let n = fill(&self.bytes[self.taken..], &mut buf[..room]);
        self.taken += n;
        self.is_ended = n == 0;
        Ok(n)
    }
}

/// A name as it was asked for, of which contracts alone see all bytes.
pub fn to_ghost_name(name: Option<&str>) -> Option<GhostName>
    ensures asked { option_map name_bytes result ≡ option_map (λ n. n.now) name.entry }
{
    match name {
        None => None,
        Some(text) => Some(GhostName::of(text)),
    }
}

/// Copies as many of the bytes as fit, and says how many.
pub fn fill(bytes: &[u8], buf: &mut [u8]) -> usize
    ensures count { result ≡ min (length bytes.now) (length buf.old) }
    ensures same { take result buf.new ≡ take result bytes.now }
{
    let n = bytes.len().min(buf.len());
    buf[..n].copy_from_slice(&bytes[..n]);
    n
}
