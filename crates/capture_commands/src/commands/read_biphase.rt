//! The command `read biphase`.
ghost use Rattle.std.specs.Prelude.{◌≡◌, ℕ, ◌≤◌, List};
ghost use Rattle.std.specs.Io.KnownBytes.{Consumes};
ghost use Rattle.capture_commands.specs.Taken.{FramesStop};
ghost use Rattle.capture_commands.specs.Endings.{Ends, frames_ending, seen};
ghost use Rattle.command_line.specs.declared.command.Command.TheVariants.{ReadBiphase};

use crate::ending::Ending;
use biphase_listing::{BiphaseError, list_biphase};
use outside_io::{Sink, Source};

/// Writes the samples of frames of a biphase stream as lines, while they are read.
pub fn read_biphase<S: Source, K: Sink>(input: &mut S, output: &mut K) -> Ending
    ensures ends { Ends ReadBiphase result
        (seen (S.left input.old) (S.faults input.old) (K.held output.old) (K.faults output.old))
        (seen (S.left input.new) (S.faults input.new) (K.held output.new) (K.faults output.new)) }
    ensures stops { FramesStop result (S.left input.old) (S.left input.new) (K.held output.old) (K.held output.new) }
    ensures taken { (taken : List ℕ) × Consumes (S.left input.old) (S.left input.new) taken }
    ensures input_later { S.faults input.old ≤ S.faults input.new }
    ensures output_later { K.faults output.old ≤ K.faults output.new }
{
    listed(list_biphase(input, output))
}

/// How a command ends that listed frames, or a part of them.
fn listed(answer: Result<(), BiphaseError>) -> Ending
    ensures { result ≡ frames_ending answer }
{
    match answer {
        Ok(()) => Ending::Done,
        Err(BiphaseError::Bad(fault)) => Ending::Frames(fault),
        Err(BiphaseError::Read) => Ending::ReadFailed,
        Err(BiphaseError::Write) => Ending::WriteFailed,
    }
}
