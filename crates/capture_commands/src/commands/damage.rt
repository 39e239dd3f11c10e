//! The command `damage`.
ghost use Rattle.std.specs.Prelude.{◌≡◌, ℕ, ◌-◌, ◌^◌, ◌<◌, ◌≤◌, List, All, length, map, IfOk};
ghost use Rattle.std.specs.Io.KnownBytes.{Consumes};
ghost use Rattle.capture_commands.specs.Commands.{hit_asked};
ghost use Rattle.capture_commands.specs.Endings.{Ends, damage_ending, seen};
ghost use Rattle.command_line.specs.declared.command.Command.TheVariants.{Damage};

use crate::ending::Ending;
use capture_file::{DamageError, Hit};
use command_line::DamageWord;
use outside_io::{NoMemory, Sink, Source};
use std::alloc::Global;

// More hits than this have no number of their own.
const MOST_HITS: usize = 4_294_967_294;

/// Writes a capture with the ten bits of each hit replaced.
#[tactic(auto, using(crate::proofs::Consumed::takes_none))]
pub fn damage<S: Source, K: Sink>(
    alloc: Global,
    words: &[DamageWord],
    input: &mut S,
    output: &mut K,
) -> Ending
    requires { All (λ word. word.lane < 3) words.now }
    ensures ends { Ends (Damage words.now) result
        (seen (S.left input.old) (S.faults input.old) (K.held output.old) (K.faults output.old))
        (seen (S.left input.new) (S.faults input.new) (K.held output.new) (K.faults output.new)) }
    ensures taken { (taken : List ℕ) × Consumes (S.left input.old) (S.left input.new) taken }
    ensures input_later { S.faults input.old ≤ S.faults input.new }
    ensures output_later { K.faults output.old ≤ K.faults output.new }
{
    match hits_of(alloc, words) {
        Ok(hits) => damaged(capture_file::damage(input, hits.as_slice(), output)),
        Err(_) => Ending::NoMemory,
    }
}

/// How a command ends that wrote a damaged capture, or none.
fn damaged(written: Result<(), DamageError>) -> Ending
    ensures { result ≡ damage_ending written }
{
    match written {
        Ok(()) => Ending::Done,
        Err(DamageError::Bad(fault)) => Ending::Capture(fault),
        Err(DamageError::Place(hit)) => Ending::Place(hit),
        Err(DamageError::Read) => Ending::ReadFailed,
        Err(DamageError::Write) => Ending::WriteFailed,
    }
}

/// The hits of words, in order. More than can be numbered are want of memory.
fn hits_of(alloc: Global, words: &[DamageWord]) -> Result<Vec<Hit>, NoMemory>
    ensures hits { IfOk result (λ hits. hits.items ≡ map hit_asked words.now) }
    ensures few { IfOk result (λ hits. length hits.items < 2 ^ 32 - 1) }
{
    if words.len() > MOST_HITS {
        return Err(NoMemory);
    }
    let hits = words
        .iter()
        .map(
            |word|
                ensures { result ≡ hit_asked word.now }
            {
                Hit {
                    lane: word.lane,
                    place: word.place,
                    value: word.value,
                }
            },
        )
        .collect(alloc)?;
    Ok(hits)
}
