//! A source and a sink that never fail.
ghost use Rattle.std.specs.Prelude.{◌≡◌, ℕ, ◌+◌, ◌-◌, ◌^◌, ◌<◌, ◌≤◌, List, [], length, drop, min, Option, Some, None, Ok, IfOk};
ghost use Rattle.std.specs.Io.KnownBytes.{ReadConsumes, WriteAppends};
ghost use Rattle.outside_io.specs.Causes.{HasCause};
ghost use Rattle.outside_io.specs.Known.{EndsExactly};

use crate::{Failed, Sink, Source, copy_front};
use std::marker::Model;

/// Gives its bytes, and never fails. It is seen as the bytes not yet read.
#[derive(Drop)]
pub struct SteadySource {
    bytes: Vec<u8>,
    at: usize,
}

impl Model for SteadySource {
    ghost Value = { List ℕ };

    ghost view = { λ s. drop s.at s.bytes.items };

    ghost invariant = { λ s. s.at ≤ length s.bytes.items };
}

impl SteadySource {
    /// Gives these bytes.
    pub fn new(bytes: Vec<u8>) -> SteadySource
        ensures { result ≡ bytes.items }
    {
        SteadySource { bytes, at: 0 }
    }
}

impl Source for SteadySource {
    ghost left = { λ s. Some s };

    ghost faults = { λ _. 0 };

    fn read(&mut self, into: &mut [u8]) -> Result<usize, Failed>
        ensures bound { IfOk result (λ n. n ≤ length into.new) }
        ensures bytes { ReadConsumes (Some self.old) (Some self.new) result into.new }
        ensures end { IfOk result (λ n. 0 < length into.new → EndsExactly (Some self.old) n) }
        ensures cause { HasCause 0 0 result }
        ensures counted { 0 < 2 ^ 64 }

        ensures given { result ≡ Ok (min (length into.old) (length self.old)) }
    {
        let count = copy_front(&self.bytes[self.at..], into);
        self.at += count;
        Ok(count)
    }
}

/// Takes every byte, keeps their number alone, and never fails. It is seen as that number, as a u64
/// that stands still at its greatest.
#[derive(Drop)]
pub struct SteadySink {
    count: u64,
}

impl Model for SteadySink {
    ghost Value = { ℕ };

    ghost view = { λ s. s.count };

    ghost invariant = { λ s. s.count < 2 ^ 64 };
}

impl SteadySink {
    /// A sink that has taken nothing yet.
    pub fn new() -> SteadySink
        ensures { result ≡ 0 }
    {
        SteadySink { count: 0 }
    }
}

impl Sink for SteadySink {
    ghost held = { λ _. None };

    ghost faults = { λ _. 0 };

    fn write(&mut self, piece: &[u8]) -> Result<usize, Failed>
        ensures bound { IfOk result (λ n. n ≤ length piece.now) }
        ensures some { IfOk result (λ n. 0 < length piece.now → 1 ≤ n) }
        ensures bytes { WriteAppends None None result piece.now }
        ensures cause { HasCause 0 0 result }
        ensures counted { 0 < 2 ^ 64 }
        ensures empty { piece.now ≡ [] → result ≡ Ok 0 }
        ensures unchanged { piece.now ≡ [] → self.new ≡ self.old }

        ensures taken { result ≡ Ok (length piece.now) }
        ensures count { self.new ≡ min (self.old + length piece.now) (2 ^ 64 - 1) }
    {
        self.count = self.count.saturating_add(piece.len() as u64);
        Ok(piece.len())
    }
}
