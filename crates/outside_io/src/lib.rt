//! Reads and writes bytes: sources and sinks.
//!
//! A `Source` and a `Sink` are traits with implementations in memory and adapters of std's readers and writers. If the bytes of
//! a device are known, they are read and written in order; the end of an input is reported exactly if nothing is left. A device
//! that fails says only that it failed, and counts it: `Failed`, `Wrote` and `Got` are returned only if its count of faults
//! rose, and no count ever falls. Contracts say what a refusal leaves.
#![tactic(auto)]

ghost use Rattle.std.specs.Prelude.{◌≡◌, ℕ, ◌^◌, ◌<◌, ◌≤◌, List, [], ◌++◌, length, take, drop, min, Option, Ok, IfOk, IfErr, OnOk};
ghost use Rattle.std.specs.Io.KnownBytes.{Appends, Consumes, IsAtEnd, ReadConsumes, WriteAppends};
ghost use Rattle.outside_io.specs.Causes.{HasCause};
ghost use Rattle.outside_io.specs.Known.{EndsExactly};

use std::alloc::{AllocError, AllocFailed};

mod adapters;
mod memory;
mod steady;

pub use adapters::{ReadSource, WriteSink};
pub use memory::{MemSink, MemSource};
pub use steady::{SteadySink, SteadySource};

/// The answer of a device that failed.
#[derive(Clone, Copy, Debug, PartialEq, Eq)]
pub struct Failed;

/// Want of memory.
#[derive(Clone, Copy, Debug, PartialEq, Eq)]
pub struct NoMemory;

impl From<AllocError> for NoMemory {
    fn from(_error: AllocError) -> NoMemory {
        NoMemory
    }
}

impl<T: Drop> From<AllocFailed<T>> for NoMemory {
    fn from(_error: AllocFailed<T>) -> NoMemory {
        NoMemory
    }
}

/// How many bytes of a piece were written before a write failed.
#[derive(Clone, Copy)]
pub struct Wrote {
    pub gone: usize,
}

/// How many bytes were read before a read failed.
#[derive(Clone, Copy)]
pub struct Got {
    pub arrived: usize,
}

/// Gives bytes in order.
pub trait Source {
    /// The bytes not yet read, known only of sources over memory.
    ghost left: { Self → Option (List ℕ) };

    /// How often the source has failed, as a u64 that stands still at its greatest.
    ghost faults: { Self → ℕ };

    /// Gives the next bytes at the front of `into`, and says how many. With room in `into`, `Ok(0)`
    /// is the end of the input. After `Failed` the bytes not yet read are as before.
    fn read(&mut self, into: &mut [u8]) -> Result<usize, Failed>
        ensures bound { IfOk result (λ n. n ≤ length into.new) }
        ensures bytes { ReadConsumes (left self.old) (left self.new) result into.new }
        ensures end { IfOk result (λ n. 0 < length into.new → EndsExactly (left self.old) n) }
        ensures cause { HasCause (faults self.old) (faults self.new) result }
        ensures counted { faults self.new < 2 ^ 64 };
}

/// Takes bytes in order.
pub trait Sink {
    /// The bytes written so far, known only of sinks over memory.
    ghost held: { Self → Option (List ℕ) };

    /// How often the sink has failed, as a u64 that stands still at its greatest.
    ghost faults: { Self → ℕ };

    /// Takes bytes from the front of `piece`, and says how many: at least one, unless the piece is
    /// empty. After `Failed` the bytes written so far are as before.
    fn write(&mut self, piece: &[u8]) -> Result<usize, Failed>
        ensures bound { IfOk result (λ n. n ≤ length piece.now) }
        ensures some { IfOk result (λ n. 0 < length piece.now → 1 ≤ n) }
        ensures bytes { WriteAppends (held self.old) (held self.new) result piece.now }
        ensures cause { HasCause (faults self.old) (faults self.new) result }
        ensures counted { faults self.new < 2 ^ 64 }

        // An empty piece changes nothing and never fails.
        ensures empty { piece.now ≡ [] → result ≡ Ok 0 }
        ensures unchanged { piece.now ≡ [] → self.new ≡ self.old };
}

/// Writes the whole piece, or as much of it as went out before a write failed.
pub fn write_all<K: Sink>(sink: &mut K, piece: &[u8]) -> Result<(), Wrote>
    ensures whole { OnOk result (Appends (K.held sink.old) (K.held sink.new) piece.now) }
    ensures part { IfErr result (λ w.
        Appends (K.held sink.old) (K.held sink.new) (take w.gone piece.now)) }
    ensures missing { IfErr result (λ w. w.gone < length piece.now) }
    ensures cause { HasCause (K.faults sink.old) (K.faults sink.new) result }
{
    let mut gone = 0;
    while gone < piece.len() {
        match sink.write(&piece[gone..]) {
            Ok(count) => gone += count,
            Err(_) => return Err(Wrote { gone }),
        }
    }
    Ok(())
}

/// Reads until `into` is full or the input ends, and says how many bytes were read. Where a read fails it says
/// how many were read before, which are not all.
pub fn read_full<S: Source>(source: &mut S, into: &mut [u8]) -> Result<usize, Got>
    ensures bound { IfOk result (λ n. n ≤ length into.new) }
    ensures bytes { IfOk result (λ n.
        Consumes (S.left source.old) (S.left source.new) (take n into.new)) }
    ensures end { IfOk result (λ n. n < length into.new → IsAtEnd (S.left source.new)) }
    ensures part { IfErr result (λ g.
        Consumes (S.left source.old) (S.left source.new) (take g.arrived into.new)) }
    ensures missing { IfErr result (λ g. g.arrived < length into.new) }
    ensures taken { (taken : List ℕ) × Consumes (S.left source.old) (S.left source.new) taken }
    ensures cause { HasCause (S.faults source.old) (S.faults source.new) result }
{
    let mut arrived = 0;
    while arrived < into.len() {
        match source.read(&mut into[arrived..]) {
            Ok(0) => return Ok(arrived),
            Ok(count) => arrived += count,
            Err(_) => return Err(Got { arrived }),
        }
    }
    Ok(arrived)
}

/// Copies as many bytes as both have to the front of `into`, and says how many.
pub fn copy_front(from: &[u8], into: &mut [u8]) -> usize
    ensures count { result ≡ min (length from.now) (length into.old) }
    ensures copied { into.new ≡ take result from.now ++ drop result into.old }
{
    let count = from.len().min(into.len());
    into[..count].copy_from_slice(&from[..count]);
    count
}
