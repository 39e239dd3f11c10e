//! Writes the capture of a tap of columns.
ghost use Rattle.std.specs.Prelude.{◌≡◌, ◌⊎◌, ◌≤◌};
ghost use Rattle.capture_commands.specs.Commands.{tap_asked};
ghost use Rattle.capture_commands.specs.Endings.{ColumnsEnd, ListingEnds, StreamEnds};

use crate::ending::Ending;
use capture_file::{LaneRows, Tap, write_capture};
use command_line::TapWords;
use listing_reader::ListError;
use outside_io::Sink;
use source_end::{FramedStream, Framing};
use std::alloc::Global;

/// Writes the capture of a tap of a listing that was read, with guard bands or without them.
pub(crate) fn write_listing<F: Framing, K: Sink>(
    alloc: Global,
    read: Result<FramedStream<F>, ListError>,
    words: &TapWords,
    output: &mut K,
) -> Ending
    requires version { (words.now.version ≡ 1) ⊎ (words.now.version ≡ 2) }
    ensures ends { ListingEnds F.spells (tap_asked words.now) read result (K.held output.old) (K.held output.new) (K.faults output.old) (K.faults output.new) }
    ensures later { K.faults output.old ≤ K.faults output.new }
{
    match read {
        Ok(stream) => write_stream(alloc, &stream, &tap_of(words), output),
        Err(error) => Ending::from(error),
    }
}

/// Writes the capture of a tap of the columns of a stream.
pub(crate) fn write_stream<F: Framing, K: Sink>(
    alloc: Global,
    stream: &FramedStream<F>,
    tap: &Tap,
    output: &mut K,
) -> Ending
    requires version { (tap.now.version ≡ 1) ⊎ (tap.now.version ≡ 2) }
    ensures ends { StreamEnds F.spells tap.now stream.now result (K.held output.old) (K.held output.new) (K.faults output.old) (K.faults output.new) }
    ensures later { K.faults output.old ≤ K.faults output.new }
{
    let mut lanes = match LaneRows::with_capacity(alloc, stream.columns()) {
        Ok(lanes) => lanes,
        Err(_) => return Ending::NoMemory,
    };
    match stream.spell(&mut lanes) {
        Ok(()) => write_lanes(&lanes, tap, output),
        Err(_) => Ending::NoMemory,
    }
}

/// Writes the capture of a tap of columns.
pub(crate) fn write_lanes<K: Sink>(lanes: &LaneRows, tap: &Tap, output: &mut K) -> Ending
    requires version { (tap.now.version ≡ 1) ⊎ (tap.now.version ≡ 2) }
    ensures ends { ColumnsEnd tap.now lanes.now.columns result (K.held output.old) (K.held output.new) (K.faults output.old) (K.faults output.new) }
    ensures later { K.faults output.old ≤ K.faults output.new }
{
    match write_capture(lanes, tap, output) {
        Ok(()) => Ending::Done,
        Err(_) => Ending::WriteFailed,
    }
}

/// The tap that the options of `make` ask for.
pub(crate) fn tap_of(words: &TapWords) -> Tap
    ensures { result ≡ tap_asked words.now }
{
    Tap {
        version: words.version,
        offset: words.offset,
        skews: words.skews,
        bits: words.bits,
    }
}
