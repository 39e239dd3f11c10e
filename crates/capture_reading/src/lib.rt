//! Reads a capture block by block into a sink, which reports to an ear.
//!
//! `read_capture` reads the whole capture, and the sink gets exactly its bits. Otherwise the bytes are no capture, or a read or
//! a call of the ear failed, which its count shows. Then the ear has what is reported of the whole blocks before
//! (`IsReadWhole`, `StopsShort`, `IsCausedBy`). This holds for every `BlockSink`. Nothing is allocated.
#![tactic(auto)]

mod reading;

pub use reading::{BlockSink, ReadCaptureError, read_capture};
