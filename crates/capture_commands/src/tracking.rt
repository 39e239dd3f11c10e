//! Follows a capture from epoch to epoch, block by block, while it is read.
ghost use Rattle.std.specs.Prelude.{◌≡◌, ◌≤◌, ℕ, List, [], true, IfOk, OnOk, IfErr};
ghost use Rattle.std.specs.Io.KnownBytes.{Consumes, IsAtEnd};
ghost use Rattle.link_sink.specs.Pieces.{no_bits};
ghost use Rattle.track_sink.specs.TrackSinks.{EpochSinkRepresents, bits_fed, most_bits};
ghost use Rattle.capture_reading.specs.Reading.{IsCausedBy};
ghost use Rattle.capture_commands.specs.Tracking.{IsTrackedSoFar, IsTrackedWhole, LosesLast, LosesPast, StopsOn, TracksOn, TracksWhole};

use crate::feeding::Feeds;
use capture_reading::{BlockSink, ReadCaptureError, read_capture};
use outside_io::{Failed, Source};
use tmds_word::LaneBits;
use track_sink::{EpochSink, TrackEar, TrackOutcome, Watch};

/// A sink of epochs, and who feeds it.
#[derive(Drop)]
struct FedEpochs<'a, F: Feeds, W: Watch> {
    feeding: &'a F,
    sink: &'a mut EpochSink<W>,
}

impl<F: Feeds, W: Watch, E: TrackEar> BlockSink<E> for FedEpochs<'_, F, W> {
    ghost use Rattle.capture_commands.specs.Tracking.{tracked_so_far};

    type Outcome = TrackOutcome;

    ghost is_open = { λ s. s.sink.now.is_open };

    ghost bits = { λ s lane. bits_fed s.sink.now lane };

    ghost faults = { E.faults };

    ghost heard = { λ s fed x y. TracksOn W.rule W.looked W.passed E.tracked s.sink.now fed x y };

    ghost so_far = { λ fed x y. IsTrackedSoFar W.rule E.tracked fed x y };

    ghost stops = { λ before after x y. LosesPast W.rule E.tracked E.lost before after x y };

    ghost whole = { λ fed outcome x y. TracksWhole W.rule E.tracked fed outcome.epochs outcome.aligned x y };

    ghost stops_last = { λ fed x y. LosesLast W.rule E.tracked E.lost fed x y };

    fn feed_block(&mut self, block: LaneBits<'_>, ear: &mut E) -> Result<(), Failed> {
        self.feeding.feed_epochs(self.sink, block, ear)
    }

    fn end(&mut self, ear: &mut E) -> Result<TrackOutcome, Failed> {
        self.feeding.finish_epochs(self.sink, ear)
    }

    ghost reported = { λ sink fed x y h. tracked_so_far W.rule W.looked W.passed E.tracked sink.sink.now fed x y h };
}

/// Reads a capture, feeds each block to the sink and reports to the ear what it decides, and at the end the rest.
///
/// # Errors
///
/// `Bad` where the bytes are no capture, and `Read` where a read failed: what is reported so far of the whole blocks
/// before was reported to the ear. `Ear` where a call of the ear failed: it took all that was reported before the last block
/// that was read.
pub(crate) fn follow_capture<F: Feeds, S: Source, W: Watch, E: TrackEar>(
    feeding: &F,
    sink: &mut EpochSink<W>,
    input: &mut S,
    ear: &mut E,
) -> Result<TrackOutcome, ReadCaptureError>
    requires open { sink.old.is_open ≡ true }
    requires fresh { EpochSinkRepresents W.rule W.looked W.passed sink.old no_bits [] }
    requires unfed { most_bits sink.old ≡ 0 }
    ensures heard { IfOk result (λ outcome. IsTrackedWhole W.rule E.tracked (S.left input.old) outcome.epochs outcome.aligned ear.old ear.new) }
    ensures ended { OnOk result (IsAtEnd (S.left input.new)) }
    ensures short { IfErr result (StopsOn W.rule E.tracked E.lost (S.left input.old) (S.left input.new) ear.old ear.new) }
    ensures caused { IfErr result (IsCausedBy (S.faults input.old) (S.faults input.new) (E.faults ear.old) (E.faults ear.new)) }
    ensures taken { (taken : List ℕ) × Consumes (S.left input.old) (S.left input.new) taken }
    ensures input_later { S.faults input.old ≤ S.faults input.new }
    ensures ear_later { E.faults ear.old ≤ E.faults ear.new }
{
    read_capture(&mut FedEpochs { feeding, sink }, input, ear)
}
