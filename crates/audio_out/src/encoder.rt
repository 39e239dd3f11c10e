//! Samples written as frames.
ghost use Rattle.std.specs.Prelude.{◌≡◌, ◌∷◌, ◌++◌, [], List, if◌then◌else◌};
ghost use Rattle.audio_packets.specs.Samples.{IsSample};
ghost use Rattle.audio_packets.specs.declared.sample.Sample.{Sample as SampleType};
ghost use Rattle.audio_out.specs.Frames.{IsEncoderAfter, biphase, frame_bytes, bytes_in};

use crate::subframe::{Mark, Subframe, write_subframe};
use audio_packets::Sample;
use std::marker::Model;

/// Writes the biphase stream of samples, one after another: it begins with the first that starts a
/// block. Contracts see it as whether one did.
#[derive(Drop)]
pub struct Encoder {
    started: bool,
}

impl Model for Encoder {
    ghost use Rattle.std.specs.Prelude.{Bool};

    ghost Value = { Bool };

    ghost view = { λ e. e.started };
}

impl Encoder {
    /// An encoder that has taken no sample.
    pub fn new() -> Encoder
        ensures { IsEncoderAfter result [] }
    {
        Encoder { started: false }
    }

    /// The frame of the next sample, where the stream has begun: 16 bytes.
    pub fn push(&mut self, sample: &Sample) -> Option<[u8; 16]>
        requires { IsSample sample.now }
        ensures stands { (past : List SampleType) → IsEncoderAfter self.old past → IsEncoderAfter self.new (past ++ sample.now ∷ []) }
        ensures written { (past : List SampleType) → IsEncoderAfter self.old past
            → biphase (past ++ sample.now ∷ []) ≡ biphase past ++ bytes_in result }
    {
        self.started = self.started || sample.start;
        frame_where(self.started, sample)
    }
}

/// A sample's frame, where the stream has begun.
fn frame_where(started: bool, sample: &Sample) -> Option<[u8; 16]>
    requires { IsSample sample.now }
    ensures { bytes_in result ≡ (if started then frame_bytes sample.now else []) }
{
    if started {
        Some(write_frame(sample))
    } else {
        None
    }
}

/// The two subframes of a sample.
pub fn write_frame(sample: &Sample) -> [u8; 16]
    requires { IsSample sample.now }
    ensures { result ≡ frame_bytes sample.now }
{
    let left = write_subframe(&Subframe {
        mark: left_mark(sample.start),
        value: sample.left,
        flags: sample.left_flags,
    });
    let right = write_subframe(&Subframe {
        mark: Mark::W,
        value: sample.right,
        flags: sample.right_flags,
    });
    let mut frame = [0; 16];
    frame[..8].copy_from_slice(&left);
    frame[8..].copy_from_slice(&right);
    frame
}

/// What the first subframe of a frame begins with, by whether a block starts.
fn left_mark(start: bool) -> Mark
    ensures { result ≡ (if start then Mark.B else Mark.M) }
{
    if start { Mark::B } else { Mark::M }
}
