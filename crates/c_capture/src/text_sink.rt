//! A sink in memory that grows.
ghost use Rattle.std.specs.Prelude.{◌≡◌, []};

use outside_io::{Failed, Sink};
use std::alloc::Global;

/// Keeps all that is written, and fails where there is no memory for it.
#[derive(Drop)]
pub struct TextSink {
    bytes: Vec<u8>,
    faults: u64,
}

impl TextSink {
    /// One that holds nothing.
    pub fn new(alloc: Global) -> TextSink
        ensures bytes { result.bytes.items ≡ [] }
        ensures faults { result.faults ≡ 0 }
    {
        TextSink {
            bytes: Vec::new(alloc),
            faults: 0,
        }
    }

    /// What was written.
    pub fn bytes(&self) -> &[u8]
        ensures { result.now ≡ self.now.bytes.items }
    {
        &self.bytes
    }
}

impl Sink for TextSink {
    ghost use Rattle.std.specs.Prelude.{Some};

    ghost held = { λ s. Some s.bytes.items };

    ghost faults = { λ s. s.faults };

    fn write(&mut self, piece: &[u8]) -> Result<usize, Failed> {
        let raised = self.faults.saturating_add(1);
        if piece.is_empty() {
            return Ok(0);
        }
        match self.bytes.extend_from_slice(piece) {
            Ok(()) => Ok(piece.len()),
            Err(_) => {
                self.faults = raised;
                Err(Failed)
            }
        }
    }
}
