//! A capture is listed while it is read.
ghost use Rattle.std.specs.Prelude.{◌≡◌, ℕ, ◌≤◌, true, List};
ghost use Rattle.std.specs.Io.KnownBytes.{Consumes};
ghost use Rattle.link_sink.specs.Pieces.{no_bits};
ghost use Rattle.link_sink.specs.Streams.{StandsBy, most_bits};
ghost use Rattle.capture_commands.specs.ListsCommands.{IsLists};
ghost use Rattle.capture_commands.specs.Endings.{Ends, seen};
ghost use Rattle.command_line.specs.declared.command.Command.{Command as CommandValue};

use crate::ending::{Ending, judged, unheard};
use crate::feeding::Feeds;
use crate::hearing::hear_capture;
use crate::lister::Lister;
use link_sink::{Hears, LaneSink};
use outside_io::Source;
use std::alloc::Global;

/// Writes what a lister lists of a capture, while it is read.
#[tactic(auto, using(crate::proofs::Consumed::takes_none))]
pub(crate) fn list_capture<F: Feeds, S: Source, H: Hears, L: Lister>(
    feeding: &F,
    alloc: Global,
    input: &mut S,
    lister: &mut L,
) -> Ending
    requires { L.fresh lister.old }
    ensures ends { (command : CommandValue) → IsLists H.grammar (L.listing lister.old) command → Ends command result
        (seen (S.left input.old) (S.faults input.old) (L.held lister.old) (L.faults lister.old))
        (seen (S.left input.new) (S.faults input.new) (L.held lister.new) (L.faults lister.new)) }
    ensures same { L.name lister.new ≡ L.name lister.old }
    ensures taken { (taken : List ℕ) × Consumes (S.left input.old) (S.left input.new) taken }
    ensures input_later { S.faults input.old ≤ S.faults input.new }
    ensures output_later { L.faults lister.old ≤ L.faults lister.new }
{
    match LaneSink::open(alloc) {
        Ok(mut sink) => list_lanes::<F, S, H, L>(feeding, &mut sink, input, lister),
        Err(_) => Ending::NoMemory,
    }
}

/// The same with a sink that was fed nothing.
fn list_lanes<F: Feeds, S: Source, H: Hears, L: Lister>(
    feeding: &F,
    sink: &mut LaneSink<H>,
    input: &mut S,
    lister: &mut L,
) -> Ending
    requires open { sink.old.is_open ≡ true }
    requires fed { StandsBy H.goes_on sink.old no_bits }
    requires unfed { most_bits sink.old ≡ 0 }
    requires reported { L.fresh lister.old }
    ensures ends { (command : CommandValue) → IsLists H.grammar (L.listing lister.old) command → Ends command result
        (seen (S.left input.old) (S.faults input.old) (L.held lister.old) (L.faults lister.old))
        (seen (S.left input.new) (S.faults input.new) (L.held lister.new) (L.faults lister.new)) }
    ensures same { L.name lister.new ≡ L.name lister.old }
    ensures taken { (taken : List ℕ) × Consumes (S.left input.old) (S.left input.new) taken }
    ensures input_later { S.faults input.old ≤ S.faults input.new }
    ensures output_later { L.faults lister.old ≤ L.faults lister.new }
{
    match hear_capture(feeding, sink, input, lister) {
        Ok(heard) if heard.aligned => {
            let faults = lister.fault_lines();
            judged(lister.end(), faults)
        }
        Ok(_) => Ending::Unaligned,
        Err(error) => unheard(error),
    }
}
