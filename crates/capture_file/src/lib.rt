//! Captures: the bits of three TMDS lanes as a file.
//!
//! `write_capture` writes the capture of a tap of the columns, in the named version; if a write fails, its first part. A
//! `CaptureReader` allocates nothing, reads nothing ahead, and lends a capture block by block (`LaneBits`). It has the bits of
//! all blocks so far, or the fault at the first place that decides that the bytes are no capture. `damage` copies block by
//! block without allocating; `slip` writes nothing before everything is read. Bytes are the capture of at most one triple of
//! lanes, and a capture has no fault.
#![tactic(auto)]

mod block_damage;
mod capture_reader;
mod chunk;
mod damaging;
mod fault;
mod heading;
mod lanes;
pub mod laws;
mod slipping;
mod walking;
mod writing;

pub use block_damage::damage;
pub use capture_reader::CaptureReader;
pub use damaging::{DamageError, Hit};
pub use fault::{CaptureError, CaptureFault};
pub use lanes::LaneRows;
pub use slipping::{SlipError, slip};
pub use writing::{Tap, write_capture};

/// How many bytes of each lane a block of a capture has, but for the last ones.
pub const BLOCK_BYTES: usize = 4_096;

/// How many bits that are: as many as a sink takes in one feed.
pub const BLOCK_BITS: u32 = 32_768;
