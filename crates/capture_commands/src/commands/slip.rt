//! The command `slip`.
ghost use Rattle.std.specs.Prelude.{◌≡◌, ℕ, ◌<◌, ◌≤◌, List};
ghost use Rattle.std.specs.Io.KnownBytes.{Consumes};
ghost use Rattle.capture_commands.specs.Endings.{Ends, seen, slip_ending};
ghost use Rattle.command_line.specs.declared.command.Command.TheVariants.{Slip};

use crate::ending::Ending;
use capture_file::SlipError;
use command_line::SlipWord;
use outside_io::{Sink, Source};
use std::alloc::Global;

/// Writes a capture without some bits of a lane.
pub fn slip<S: Source, K: Sink>(
    alloc: Global,
    words: SlipWord,
    input: &mut S,
    output: &mut K,
) -> Ending
    requires lane { words.lane < 3 }
    requires some { 1 ≤ words.bits }
    requires few { words.bits ≤ 9 }
    ensures ends { Ends (Slip words) result
        (seen (S.left input.old) (S.faults input.old) (K.held output.old) (K.faults output.old))
        (seen (S.left input.new) (S.faults input.new) (K.held output.new) (K.faults output.new)) }
    ensures taken { (taken : List ℕ) × Consumes (S.left input.old) (S.left input.new) taken }
    ensures input_later { S.faults input.old ≤ S.faults input.new }
    ensures output_later { K.faults output.old ≤ K.faults output.new }
{
    slipped(capture_file::slip(alloc, input, words.lane, words.place, words.bits, output))
}

/// How a command ends that wrote a slipped capture, or none.
fn slipped(written: Result<(), SlipError>) -> Ending
    ensures { result ≡ slip_ending written }
{
    match written {
        Ok(()) => Ending::Done,
        Err(SlipError::Bad(fault)) => Ending::Capture(fault),
        Err(SlipError::Place) => Ending::Place(0),
        Err(SlipError::Read) => Ending::ReadFailed,
        Err(SlipError::Write) => Ending::WriteFailed,
        Err(SlipError::NoMemory) => Ending::NoMemory,
    }
}
