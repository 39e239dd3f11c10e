//! A source and a sink in memory, which fail the calls that they are set to fail.
ghost use Rattle.std.specs.Prelude.{◌≡◌, ℕ, ◌+◌, ◌-◌, ◌^◌, ◌<◌, ◌≤◌, ◌↔◌, ◌⊎◌, List, [], ◌++◌, length, take, drop, min, Option, Some, Ok, IsErr, IfOk, OnErr, Contains, vec_capacity};
ghost use Rattle.std.specs.Io.KnownBytes.{ReadConsumes, WriteAppends};
ghost use Rattle.outside_io.specs.Causes.{next, HasCause};
ghost use Rattle.outside_io.specs.Known.{EndsExactly};
ghost use Rattle.outside_io.specs.Memory.{Feed, Store};

use crate::{Failed, NoMemory, Sink, Source, copy_front};
use std::alloc::Global;
use std::marker::Model;

/// Gives its bytes in pieces, and fails the reads that it is set to fail. The reads have the numbers
/// 0, 1, 2 and so on; the number stays at the greatest u64 once it stands there. It is seen as a
/// `Feed`.
#[derive(Drop)]
pub struct MemSource {
    bytes: Vec<u8>,
    at: usize,
    piece: usize,
    fails: Vec<u64>,
    number: u64,
    faults: u64,
}

impl Model for MemSource {
    ghost Value = { Feed };

    ghost view = { λ s. record {
      left = drop s.at s.bytes.items;
      most = s.piece;
      fails = s.fails.items;
      number = s.number;
      faults = s.faults;
    } };

    ghost invariant = { λ s. record {
      within : s.at ≤ length s.bytes.items;
      gives : 1 ≤ s.piece;
      counted : s.faults < 2 ^ 64;
    } };
}

impl MemSource {
    /// Gives at most `piece` bytes for each read, and fails the reads whose numbers are in `fails`.
    pub fn new(bytes: Vec<u8>, piece: usize, fails: Vec<u64>) -> MemSource
        requires { 1 ≤ piece }
        ensures { result ≡ record {
          left = bytes.items;
          most = piece;
          fails = fails.items;
          number = 0;
          faults = 0;
        } }
    {
        MemSource {
            bytes,
            at: 0,
            piece,
            fails,
            number: 0,
            faults: 0,
        }
    }

    /// The bytes not yet read.
    pub fn rest(&self) -> &[u8]
        ensures { result.now ≡ self.now.left }
    {
        &self.bytes[self.at..]
    }
}

impl Source for MemSource {
    ghost left = { λ s. Some s.left };

    ghost faults = { λ s. s.faults };

    fn read(&mut self, into: &mut [u8]) -> Result<usize, Failed>
        ensures bound { IfOk result (λ n. n ≤ length into.new) }
        ensures bytes { ReadConsumes (Some self.old.left) (Some self.new.left) result into.new }
        ensures end { IfOk result (λ n. 0 < length into.new → EndsExactly (Some self.old.left) n) }
        ensures cause { HasCause self.old.faults self.new.faults result }
        ensures counted { self.new.faults < 2 ^ 64 }

        ensures fails { IsErr result ↔ Contains self.old.fails self.old.number }
        ensures given { IfOk result (λ n.
            n ≡ min (length into.old) (min self.old.most (length self.old.left))) }
        ensures moved { IfOk result (λ n. self.new ≡ record self.old {
          left = drop n self.old.left;
          number = next self.old.number;
        }) }
        ensures copied { IfOk result (λ n. into.new ≡ take n self.old.left ++ drop n into.old) }
        ensures refused { OnErr result (self.new ≡ record self.old {
          number = next self.old.number;
          faults = next self.old.faults;
        }) }
        ensures untouched { OnErr result (into.new ≡ into.old) }
    {
        let number = self.number;
        self.number = self.number.saturating_add(1);
        if self.fails.contains(&number) {
            self.faults = self.faults.saturating_add(1);
            return Err(Failed);
        }
        let rest = &self.bytes[self.at..];
        let count = copy_front(&rest[..rest.len().min(self.piece)], into);
        self.at += count;
        Ok(count)
    }
}

/// Takes bytes in pieces into the room that it took at making, so that its writes take no memory, and
/// fails the writes that it is set to fail. The writes of pieces that are not empty have the numbers
/// 0, 1, 2 and so on; the number stays at the greatest u64 once it stands there. It is seen as a
/// `Store`.
#[derive(Drop)]
pub struct MemSink {
    bytes: Vec<u8>,
    room: usize,
    piece: usize,
    fails: Vec<u64>,
    number: u64,
    faults: u64,
}

impl Model for MemSink {
    ghost Value = { Store };

    ghost view = { λ s. record {
      held = s.bytes.items;
      room = s.room - length s.bytes.items;
      most = s.piece;
      fails = s.fails.items;
      number = s.number;
      faults = s.faults;
    } };

    ghost invariant = { λ s. record {
      within : length s.bytes.items ≤ s.room;
      taken : s.room ≤ vec_capacity s.bytes;
      takes : 1 ≤ s.piece;
      counted : s.faults < 2 ^ 64;
    } };
}

impl MemSink {
    /// Has room for `room` bytes in all, takes at most `piece` bytes for each write, and fails the
    /// writes whose numbers are in `fails`.
    pub fn new(
        alloc: Global,
        room: usize,
        piece: usize,
        fails: Vec<u64>,
    ) -> Result<MemSink, NoMemory>
        requires { 1 ≤ piece }
        ensures { IfOk result (λ sink. sink ≡ record {
          held = [];
          room = room;
          most = piece;
          fails = fails.items;
          number = 0;
          faults = 0;
        }) }
    {
        Ok(MemSink {
            bytes: Vec::with_capacity(alloc, room)?,
            room,
            piece,
            fails,
            number: 0,
            faults: 0,
        })
    }

    /// The bytes written so far.
    pub fn bytes(&self) -> &[u8]
        ensures { result.now ≡ self.now.held }
    {
        &self.bytes
    }
}

impl Sink for MemSink {
    ghost held = { λ s. Some s.held };

    ghost faults = { λ s. s.faults };

    fn write(&mut self, piece: &[u8]) -> Result<usize, Failed>
        ensures bound { IfOk result (λ n. n ≤ length piece.now) }
        ensures some { IfOk result (λ n. 0 < length piece.now → 1 ≤ n) }
        ensures bytes { WriteAppends (Some self.old.held) (Some self.new.held) result piece.now }
        ensures cause { HasCause self.old.faults self.new.faults result }
        ensures counted { self.new.faults < 2 ^ 64 }
        ensures empty { piece.now ≡ [] → result ≡ Ok 0 }
        ensures unchanged { piece.now ≡ [] → self.new ≡ self.old }

        ensures fails { 0 < length piece.now
            → IsErr result ↔ (Contains self.old.fails self.old.number ⊎ (self.old.room ≡ 0)) }
        ensures taken { IfOk result (λ n.
            n ≡ min (length piece.now) (min self.old.most self.old.room)) }
        ensures grown { IfOk result (λ n. 0 < length piece.now → self.new ≡ record self.old {
          held = self.old.held ++ take n piece.now;
          room = self.old.room - n;
          number = next self.old.number;
        }) }
        ensures refused { OnErr result (self.new ≡ record self.old {
          number = next self.old.number;
          faults = next self.old.faults;
        }) }
    {
        let number = self.number;
        if piece.is_empty() {
            return Ok(0);
        }
        self.number = self.number.saturating_add(1);
        let left = self.room - self.bytes.len();
        if left == 0 || self.fails.contains(&number) {
            self.faults = self.faults.saturating_add(1);
            return Err(Failed);
        }
        let count = piece.len().min(self.piece).min(left);
        match self.bytes.extend_from_slice(&piece[..count]) {
            Ok(()) => Ok(count),
            Err(_) => unreachable!(),
        }
    }
}
