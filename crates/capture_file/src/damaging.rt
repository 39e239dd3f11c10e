//! The damage that a lane suffers, and why a capture is not damaged.
ghost use Rattle.std.specs.Prelude.{◌≡◌, ◌+◌, ◌<◌, IsTrue, ◌↔◌};

use crate::{CaptureError, CaptureFault};
use tmds_word::Word;

/// A character that stands in place of the ten bits of a lane from a place on.
#[derive(Clone, Copy, Debug, PartialEq, Eq)]
pub struct Hit {
    /// The lane: blue is 0, green is 1 and red is 2.
    pub lane: u8,
    /// Where the ten bits begin.
    pub place: u32,
    /// The character.
    pub value: Word,
}

/// Why no damaged capture was written, or not all of it.
#[derive(Clone, Copy, Debug, PartialEq, Eq)]
pub enum DamageError {
    /// The bytes are no capture.
    Bad(CaptureFault),
    /// The ten bits of the hit of this number, from 0, pass the end of their lane, and those of no hit before it do.
    Place(u32),
    /// The source failed.
    Read,
    /// The sink failed.
    Write,
}

impl From<CaptureError> for DamageError {
    ghost use Rattle.capture_file.specs.Refusals.{refused};

    ghost from_gives = { λ e r. r ≡ refused e };

    fn from(error: CaptureError) -> DamageError {
        match error {
            CaptureError::Bad(fault) => DamageError::Bad(fault),
            CaptureError::Read => DamageError::Read,
        }
    }
}

impl Hit {
    /// Whether the ten bits pass the end of lanes of so many bits.
    pub(crate) fn passes(self, bits: u32) -> bool
        ensures { IsTrue result ↔ (bits < self.place + 10) }
    {
        bits < 10 || bits - 10 < self.place
    }
}
