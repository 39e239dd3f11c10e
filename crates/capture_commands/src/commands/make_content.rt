//! The command `make content`.
ghost use Rattle.std.specs.Prelude.{◌≡◌, ◌⊎◌, ℕ, ◌≤◌, List, OnErr, IfOk};
ghost use Rattle.std.specs.Io.KnownBytes.{Consumes};
ghost use Rattle.island_pack.specs.Spelling.{Spells};
ghost use Rattle.source_end.specs.Raster.{raster_of};
ghost use Rattle.source_end.specs.RasterRefusals.{raster_fault, AnswersRasterFault};
ghost use Rattle.capture_commands.specs.Endings.{Ends, StreamEnds, raster_ending, seen};
ghost use Rattle.command_line.specs.declared.command.Command.TheVariants.{MakeContent};

use crate::ending::Ending;
use crate::writing::{tap_of, write_lanes};
use capture_file::{LaneRows, Tap};
use command_line::TapWords;
use listing_reader::{ListError, read_content};
use outside_io::{Sink, Source};
use source_end::{Content, Mode, RasterFault, count_columns, spell_raster};
use std::alloc::Global;

/// Reads a content listing whole, and then writes the capture of its raster.
pub fn make_content<S: Source, K: Sink>(
    alloc: Global,
    words: &TapWords,
    input: &mut S,
    output: &mut K,
) -> Ending
    requires version { (words.now.version ≡ 1) ⊎ (words.now.version ≡ 2) }
    ensures ends { Ends (MakeContent words.now) result
        (seen (S.left input.old) (S.faults input.old) (K.held output.old) (K.faults output.old))
        (seen (S.left input.new) (S.faults input.new) (K.held output.new) (K.faults output.new)) }
    ensures taken { (taken : List ℕ) × Consumes (S.left input.old) (S.left input.new) taken }
    ensures input_later { S.faults input.old ≤ S.faults input.new }
    ensures output_later { K.faults output.old ≤ K.faults output.new }
{
    let (mode, content) = match read_content(alloc, input) {
        Ok(Ok(read)) => read,
        Ok(Err(fault)) => return unrastered(fault),
        Err(ListError::Bad(fault)) => return Ending::Listing(fault),
        Err(ListError::Read) => return Ending::ReadFailed,
        Err(ListError::NoMemory) => return Ending::NoMemory,
    };
    match write_raster(alloc, &mode, content, &tap_of(words), output) {
        Ok(ending) => ending,
        Err(fault) => unrastered(fault),
    }
}

/// How a command ends whose content has no raster.
fn unrastered(fault: RasterFault) -> Ending
    ensures { result ≡ raster_ending fault }
{
    match fault {
        RasterFault::NoMemory => Ending::NoMemory,
        RasterFault::BadMode(_) => Ending::Raster(fault),
        RasterFault::Row { .. } => Ending::Raster(fault),
        RasterFault::NoRoom { .. } => Ending::Raster(fault),
        RasterFault::Long => Ending::Raster(fault),
    }
}

/// Writes the capture of a tap of the raster of a content, or answers why there is none. The memory of each frame is given
/// back once its columns are laid in the lanes.
fn write_raster<K: Sink>(
    alloc: Global,
    mode: &Mode,
    content: Content,
    tap: &Tap,
    output: &mut K,
) -> Result<Ending, RasterFault>
    requires version { (tap.now.version ≡ 1) ⊎ (tap.now.version ≡ 2) }
    ensures fault { AnswersRasterFault (raster_fault mode.now content) result }
    ensures ends { IfOk result (λ ending. StreamEnds Spells tap.now (raster_of mode.now content) ending (K.held output.old) (K.held output.new) (K.faults output.old) (K.faults output.new)) }
    ensures kept { OnErr result (K.held output.new ≡ K.held output.old) }
    ensures later { K.faults output.old ≤ K.faults output.new }
{
    let columns = count_columns(mode, &content)?;
    let mut lanes = match LaneRows::with_capacity(alloc, columns) {
        Ok(lanes) => lanes,
        Err(_) => return Ok(Ending::NoMemory),
    };
    spell_raster(alloc, mode, content, &mut lanes)?;
    Ok(write_lanes(&lanes, tap, output))
}
