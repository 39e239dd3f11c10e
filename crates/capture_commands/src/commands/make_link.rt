//! The command `make link`.
ghost use Rattle.std.specs.Prelude.{◌≡◌, ◌⊎◌, ℕ, ◌≤◌, List};
ghost use Rattle.std.specs.Io.KnownBytes.{Consumes};
ghost use Rattle.capture_commands.specs.Endings.{Ends, seen};
ghost use Rattle.command_line.specs.declared.command.Command.TheVariants.{MakeLink};

use crate::ending::Ending;
use crate::writing::write_listing;
use command_line::TapWords;
use listing_reader::read_link;
use outside_io::{Sink, Source};
use std::alloc::Global;

/// Reads a link listing whole, and then writes its capture.
pub fn make_link<S: Source, K: Sink>(
    alloc: Global,
    words: &TapWords,
    input: &mut S,
    output: &mut K,
) -> Ending
    requires version { (words.now.version ≡ 1) ⊎ (words.now.version ≡ 2) }
    ensures ends { Ends (MakeLink words.now) result
        (seen (S.left input.old) (S.faults input.old) (K.held output.old) (K.faults output.old))
        (seen (S.left input.new) (S.faults input.new) (K.held output.new) (K.faults output.new)) }
    ensures taken { (taken : List ℕ) × Consumes (S.left input.old) (S.left input.new) taken }
    ensures input_later { S.faults input.old ≤ S.faults input.new }
    ensures output_later { K.faults output.old ≤ K.faults output.new }
{
    write_listing(alloc, read_link(alloc, input), words, output)
}
