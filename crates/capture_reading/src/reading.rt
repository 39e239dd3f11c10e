//! Reads a capture block by block into a sink, which reports to an ear what they decide.
ghost use Rattle.std.specs.Prelude.{◌≡◌, ◌≤◌, ◌+◌, ◌*◌, ◌^◌, ◌<◌, ℕ, List, Bool, true, false, Option, IfOk, OnOk, IfErr, OnErr};
ghost use Rattle.std.specs.Io.KnownBytes.{Consumes, IsAtEnd};
ghost use Rattle.outside_io.specs.Causes.{HasCause};
ghost use Rattle.capture_file.specs.declared.TheConstants.{BLOCK_BITS};
ghost use Rattle.capture_file.specs.Captures.{CanSay};
ghost use Rattle.link_sink.specs.Pieces.{no_bits};
ghost use Rattle.link_sink.specs.Received.{AreFedMore, CanFeedLanes};
ghost use Rattle.link_sink.specs.Sinks.{Fed, grown_by};
ghost use Rattle.capture_reading.specs.Reading.{AreFed, HasHeard, HasHeardAll, IsCausedBy, IsReadWhole, StopsShort, most_of, refused_as};

use capture_file::{CaptureError, CaptureFault, CaptureReader};
use outside_io::{Failed, Source};
use tmds_word::LaneBits;

/// Why a capture was not heard to its end.
#[derive(Clone, Copy)]
pub enum ReadCaptureError {
    /// The bytes are no capture.
    Bad(CaptureFault),
    /// The source failed.
    Read,
    /// A call of the ear failed.
    Ear,
}

/// Takes the blocks of a capture one after another, and reports to an ear what they decide.
pub trait BlockSink<E> {
    /// What the end of the capture answers.
    type Outcome;

    /// Whether it takes more.
    ghost is_open: { Self → Bool };

    /// How many bits it was fed of each lane.
    ghost bits: { Self → ℕ → ℕ };

    /// How often the ear has failed.
    ghost faults: { E → ℕ };

    /// It was fed these bits, and from the first state of the ear to the second that took what is reported of them so far.
    ghost heard: { Self → Fed → E → E → Type 0 };

    /// What that says of the ear alone.
    ghost so_far: { Fed → E → E → Type 0 };

    /// From the first state to the second the ear failed in what is reported of the latter bits, after all that is reported
    /// of the former.
    ghost stops: { Fed → Fed → E → E → Type 0 };

    /// From the first state to the second the ear took all that is reported of bits that end.
    ghost whole: { Fed → Self.Outcome → E → E → Type 0 };

    /// From the first state to the second the ear failed in what is reported of their end.
    ghost stops_last: { Fed → E → E → Type 0 };

    /// Takes a block, and reports to the ear what it decides.
    fn feed_block(&mut self, block: LaneBits<'_>, ear: &mut E) -> Result<(), Failed>
        requires open { is_open self.old ≡ true }
        requires block { CanFeedLanes (bits self.old) (most_of (bits self.old)) block }
        ensures open { OnOk result (is_open self.new ≡ true) }
        ensures more { OnOk result (AreFedMore (bits self.old) (bits self.new) block.entry) }
        ensures heard { (fed : Fed) (first : E) → heard self.old fed first ear.old → OnOk result (heard self.new (grown_by fed block.entry) first ear.new) }
        ensures stopped { (fed : Fed) (first : E) → heard self.old fed first ear.old → OnErr result (stops fed (grown_by fed block.entry) first ear.new) }
        ensures cause { HasCause (faults ear.old) (faults ear.new) result };

    /// Reports to the ear what is left to report at the end.
    fn end(&mut self, ear: &mut E) -> Result<Self::Outcome, Failed>
        requires open { is_open self.old ≡ true }
        ensures heard { (fed : Fed) (first : E) → heard self.old fed first ear.old → IfOk result (λ outcome. whole fed outcome first ear.new) }
        ensures stopped { (fed : Fed) (first : E) → heard self.old fed first ear.old → OnErr result (stops_last fed first ear.new) }
        ensures cause { HasCause (faults ear.old) (faults ear.new) result };

    /// An ear that heard bits through it took what is reported of them so far.
    ghost reported: { (sink : Self) (fed : Fed) (first now : E) → heard sink fed first now → so_far fed first now };
}

/// What an error of a reader is here.
fn refused(error: CaptureError) -> ReadCaptureError
    ensures refused { refused_as error ≡ result }
{
    match error {
        CaptureError::Bad(fault) => ReadCaptureError::Bad(fault),
        CaptureError::Read => ReadCaptureError::Read,
    }
}

/// Reads one block and feeds it to the sink, and says whether there was one.
fn read_block<S: Source, E, K: BlockSink<E>>(
    sink: &mut K,
    reader: &mut CaptureReader<'_, S>,
    ear: &mut E,
) -> Result<bool, ReadCaptureError>
    requires open { K.is_open sink.old ≡ true }
    requires more { reader.old.is_open ≡ true }
    requires fed { AreFed (K.bits sink.old) reader.old.bits reader.old.block }
    requires said { CanSay reader.old.version reader.old.bits }
    ensures same { reader.new.source.ghost_name ≡ reader.old.source.ghost_name }
    ensures version { reader.new.version ≡ reader.old.version }
    ensures bits { reader.new.bits ≡ reader.old.bits }
    ensures open { OnOk result (K.is_open sink.new ≡ true) }
    ensures more { IfOk result (λ more. reader.new.is_open ≡ more) }
    ensures below { IfOk result (λ more. more ≡ true → BLOCK_BITS * reader.old.block < 2 ^ 32) }
    ensures block { IfOk result (λ more. more ≡ true → reader.new.block ≡ reader.old.block + 1) }
    ensures fed { IfOk result (λ more. more ≡ true → AreFed (K.bits sink.new) reader.old.bits (reader.old.block + 1)) }
    ensures heard { (from : Option (List ℕ)) (first : E) → HasHeard K.heard reader.old.version reader.old.bits reader.old.block from (S.left reader.old.source.now) sink.old first ear.old
        → IfOk result (λ more. more ≡ true → HasHeard K.heard reader.old.version reader.old.bits (reader.old.block + 1) from (S.left reader.new.source.now) sink.new first ear.new) }
    ensures ended { IfOk result (λ more. more ≡ false → IsAtEnd (S.left reader.new.source.now)) }
    ensures whole { (from : Option (List ℕ)) (first : E) → HasHeard K.heard reader.old.version reader.old.bits reader.old.block from (S.left reader.old.source.now) sink.old first ear.old
        → IfOk result (λ more. more ≡ false → HasHeardAll K.heard from (S.left reader.new.source.now) sink.new first ear.new) }
    ensures short { (from : Option (List ℕ)) (first : E) → HasHeard K.heard reader.old.version reader.old.bits reader.old.block from (S.left reader.old.source.now) sink.old first ear.old
        → IfErr result (StopsShort K.so_far K.stops K.stops_last from (S.left reader.new.source.now) first ear.new) }
    ensures caused { IfErr result (IsCausedBy (S.faults reader.old.source.now) (S.faults reader.new.source.now) (K.faults ear.old) (K.faults ear.new)) }
    ensures taken { (taken : List ℕ) × Consumes (S.left reader.old.source.now) (S.left reader.new.source.now) taken }
    ensures input_later { S.faults reader.old.source.now ≤ S.faults reader.new.source.now }
    ensures ear_later { K.faults ear.old ≤ K.faults ear.new }
{
    match reader.next() {
        Ok(Some(block)) => match sink.feed_block(block, ear) {
            Ok(()) => Ok(true),
            Err(_) => Err(ReadCaptureError::Ear),
        },
        Ok(None) => Ok(false),
        Err(error) => Err(refused(error)),
    }
}

/// Reads and feeds block after block, to the end.
#[tactic(auto, using(crate::proofs::Consumed::takes_none))]
fn read_blocks<S: Source, E, K: BlockSink<E>>(
    sink: &mut K,
    reader: &mut CaptureReader<'_, S>,
    ear: &mut E,
) -> Result<(), ReadCaptureError>
    requires open { K.is_open sink.old ≡ true }
    requires more { reader.old.is_open ≡ true }
    requires fed { AreFed (K.bits sink.old) reader.old.bits reader.old.block }
    requires said { CanSay reader.old.version reader.old.bits }
    ensures same { reader.new.source.ghost_name ≡ reader.old.source.ghost_name }
    ensures open { OnOk result (K.is_open sink.new ≡ true) }
    ensures ended { OnOk result (IsAtEnd (S.left reader.new.source.now)) }
    ensures whole { (from : Option (List ℕ)) (first : E) → HasHeard K.heard reader.old.version reader.old.bits reader.old.block from (S.left reader.old.source.now) sink.old first ear.old
        → OnOk result (HasHeardAll K.heard from (S.left reader.new.source.now) sink.new first ear.new) }
    ensures short { (from : Option (List ℕ)) (first : E) → HasHeard K.heard reader.old.version reader.old.bits reader.old.block from (S.left reader.old.source.now) sink.old first ear.old
        → IfErr result (StopsShort K.so_far K.stops K.stops_last from (S.left reader.new.source.now) first ear.new) }
    ensures caused { IfErr result (IsCausedBy (S.faults reader.old.source.now) (S.faults reader.new.source.now) (K.faults ear.old) (K.faults ear.new)) }
    ensures taken { (taken : List ℕ) × Consumes (S.left reader.old.source.now) (S.left reader.new.source.now) taken }
    ensures input_later { S.faults reader.old.source.now ≤ S.faults reader.new.source.now }
    ensures ear_later { K.faults ear.old ≤ K.faults ear.new }
{
    while read_block(sink, reader, ear)? {}
    Ok(())
}

/// Reads a capture, feeds each block to the sink and reports to the ear what it decides, and at the end the rest.
///
/// # Errors
///
/// `Bad` where the bytes are no capture, and `Read` where a read failed: what is reported so far of the whole blocks
/// before was reported to the ear. `Ear` where a call of the ear failed: it took all that was reported before the last block
/// that was read.
pub fn read_capture<S: Source, E, K: BlockSink<E>>(
    sink: &mut K,
    input: &mut S,
    ear: &mut E,
) -> Result<K::Outcome, ReadCaptureError>
    requires open { K.is_open sink.old ≡ true }
    requires fresh { K.heard sink.old no_bits ear.old ear.old }
    requires unfed { most_of (K.bits sink.old) ≡ 0 }
    ensures heard { IfOk result (λ outcome. IsReadWhole K.whole (S.left input.old) outcome ear.old ear.new) }
    ensures ended { OnOk result (IsAtEnd (S.left input.new)) }
    ensures short { IfErr result (StopsShort K.so_far K.stops K.stops_last (S.left input.old) (S.left input.new) ear.old ear.new) }
    ensures caused { IfErr result (IsCausedBy (S.faults input.old) (S.faults input.new) (K.faults ear.old) (K.faults ear.new)) }
    ensures taken { (taken : List ℕ) × Consumes (S.left input.old) (S.left input.new) taken }
    ensures input_later { S.faults input.old ≤ S.faults input.new }
    ensures ear_later { K.faults ear.old ≤ K.faults ear.new }
{
    let mut reader = CaptureReader::new(input);
    if let Err(error) = reader.open() {
        return Err(refused(error));
    }
    read_blocks(sink, &mut reader, ear)?;
    match sink.end(ear) {
        Ok(outcome) => Ok(outcome),
        Err(_) => Err(ReadCaptureError::Ear),
    }
}
