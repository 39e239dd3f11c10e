//! What the words of the command line ask for.
ghost use Rattle.std.specs.Prelude.{◌≡◌, ◌∷◌, IfOk, List, [], MatchOption, Some, None, map, option_map, string_bytes, codes};
ghost use Rattle.command_line.specs.Commands.{IsCommand, Means};
ghost use Rattle.command_line.specs.Grammar.{Text, texts};
ghost use Rattle.command_line.specs.Forms.{AreFound, HasOperands, IsParsed, Judges};
ghost use Rattle.clap.specs.Words.{Row, found_of, rows_of, subcommand_rows_of};
ghost use Rattle.command_line.specs.declared.options.OptionName.{OptionName as Name};

use crate::damage::{Damages, read_damages};
use crate::forms::{forms, operand_texts};
use crate::numbers::{read_digit, read_number};
use crate::slip::{SlipWord, read_slip};
use crate::tap::{TapWords, read_tap};
use clap::ArgMatches;
use clap::error::ErrorKind;
use outside_io::NoMemory;
use std::alloc::Global;

// The fewest and the most frames of a sample.
const FEWEST_FRAMES: u32 = 2;

const MOST_FRAMES: u32 = 20;

// The greatest pair of channels.
const LAST_PAIR: u8 = 3;

/// What the program is to do.
#[derive(Drop)]
pub enum Command {
    /// `make link`: make the capture of a tap of the columns that a listing describes.
    MakeLink(TapWords),
    /// `make content`: make the capture of a tap of the columns of frames with content.
    MakeContent(TapWords),
    /// `make dvi`: make the capture of a tap of the columns of a stream without guard bands that a listing describes.
    MakeDvi(TapWords),
    /// `recover link`: recover the listing of a capture.
    RecoverLink,
    /// `recover content`: recover the content listing of a capture.
    RecoverContent,
    /// `recover track`: recover the listing of a capture whose lanes may lack bits.
    RecoverTrack,
    /// `recover relock`: recover the listing of a capture whose lanes may lack bits and whose alignment is confirmed.
    RecoverRelock,
    /// `recover content relock`: recover the content listing of such a capture.
    RecoverContentRelock,
    /// `recover biphase K`: recover the line code of the pair of audio channels K of a capture, from 0 to 3.
    RecoverBiphase(u8),
    /// `recover dvi`: recover the listing of a capture of a stream without guard bands.
    RecoverDvi,
    /// `check`: list the faults of a capture.
    Check,
    /// `damage L:P:V ..`: damage a capture.
    Damage(Damages),
    /// `slip L:P:D`: leave bits of a lane out of a capture.
    Slip(SlipWord),
    /// `read biphase`: list the audio frames of a line code.
    ReadBiphase,
    /// `relay`: make a clean capture of a damaged one.
    Relay,
    /// `sample N`: make, damage and recover N generated frames, from 2 to 20.
    Sample(u32),
}

/// The command that the words name; none exactly where they are of no command's form. The words are those after the
/// program's name, in order.
///
/// # Errors
///
/// Want of memory alone.
pub fn read_command(alloc: Global, words: &[String]) -> Result<Option<Command>, NoMemory>
    ensures { IfOk result (λ answer. MatchOption answer ((c : Command) → IsCommand (map string_bytes words.now) c → ⊥) (λ c. IsCommand (map string_bytes words.now) c)) }
{
    match parsed(alloc, words)? {
        Some(matches) => found_command(alloc, &matches),
        None => Ok(None),
    }
}

/// What is found in words; none where they are of no command's form.
fn parsed<'a>(alloc: Global, words: &'a [String]) -> Result<Option<ArgMatches<'a>>, NoMemory>
    ensures { IfOk result (λ found. IsParsed (map string_bytes words.entry.now) (option_map subcommand_rows_of found)) }
{
    let command = forms(alloc)?;
    match command.try_get_matches_from(words) {
        Ok(matches) => Ok(Some(matches)),
        Err(e) => {
            if e.kind() == ErrorKind::OutOfMemory {
                Err(NoMemory)
            } else {
                Ok(None)
            }
        }
    }
}

/// The command that what was found asks for.
fn found_command(alloc: Global, matches: &ArgMatches<'_>) -> Result<Option<Command>, NoMemory>
    ensures { (name : Text) (rows : List Row) → subcommand_rows_of matches.now ≡ Some (name, rows) → IfOk result (Judges name rows) }
{
    match matches.subcommand() {
        Some((name, found)) => named_command(alloc, name, found),
        None => Ok(None),
    }
}

/// The command that a name, and the options and operands found after it, ask for.
fn named_command(
    alloc: Global,
    name: &str,
    matches: &ArgMatches<'_>,
) -> Result<Option<Command>, NoMemory>
    ensures { IfOk result (Judges name.now (rows_of (found_of matches.now))) }
{
    match operand_texts(matches) {
        Some(operands) => asked_command(alloc, name, matches, operands),
        None => asked_command(alloc, name, matches, &[]),
    }
}

/// The same, by the operands.
fn asked_command(
    alloc: Global,
    name: &str,
    matches: &ArgMatches<'_>,
    operands: &[&str],
) -> Result<Option<Command>, NoMemory>
    ensures { HasOperands (rows_of (found_of matches.now)) (texts operands.now) → IfOk result (Judges name.now (rows_of (found_of matches.now))) }
{
    if name == "make" {
        Ok(make_command(matches, operands))
    } else if name == "damage" {
        damage_command(alloc, operands)
    } else {
        Ok(plain_command(name, operands))
    }
}

/// `make link`, `make content` or `make dvi`.
fn make_command(matches: &ArgMatches<'_>, operands: &[&str]) -> Option<Command>
    ensures { (options : List (Name × Text)) (found : List Text) → AreFound (rows_of (found_of matches.now)) options found → MatchOption result ((c : Command) → Means c (codes "make") options (texts operands.now) → ⊥) (λ c. Means c (codes "make") options (texts operands.now)) }
{
    let [kind] = operands else {
        return None;
    };
    let tap = read_tap(matches)?;
    match *kind {
        "link" => Some(Command::MakeLink(tap)),
        "content" => Some(Command::MakeContent(tap)),
        "dvi" => Some(Command::MakeDvi(tap)),
        _ => None,
    }
}

/// `damage` with operands.
fn damage_command(alloc: Global, operands: &[&str]) -> Result<Option<Command>, NoMemory>
    ensures { IfOk result (λ answer. MatchOption answer ((c : Command) → Means c (codes "damage") [] (texts operands.now) → ⊥) (λ c. Means c (codes "damage") [] (texts operands.now))) }
{
    match read_damages(alloc, operands)? {
        Some(damages) => Ok(Some(Command::Damage(damages))),
        None => Ok(None),
    }
}

/// A command that takes neither options nor memory.
fn plain_command(name: &str, operands: &[&str]) -> Option<Command>
    requires make { name.now ≡ codes "make" → ⊥ }
    requires damage { name.now ≡ codes "damage" → ⊥ }
    ensures { MatchOption result ((c : Command) → Means c name.now [] (texts operands.now) → ⊥) (λ c. Means c name.now [] (texts operands.now)) }
{
    match name {
        "recover" => recover_command(operands),
        "check" => check_command(operands),
        "slip" => slip_command(operands),
        "read" => read_biphase_command(operands),
        "relay" => relay_command(operands),
        "sample" => sample_command(operands),
        _ => None,
    }
}

/// `recover` with operands.
fn recover_command(operands: &[&str]) -> Option<Command>
    ensures { MatchOption result ((c : Command) → Means c (codes "recover") [] (texts operands.now) → ⊥) (λ c. Means c (codes "recover") [] (texts operands.now)) }
{
    match operands {
        [kind] => recover_kind(kind),
        [kind, pair] => recover_pair(kind, pair),
        _ => None,
    }
}

/// `recover link`, `recover content`, `recover track`, `recover relock` or `recover dvi`.
fn recover_kind(kind: &str) -> Option<Command>
    ensures { MatchOption result ((c : Command) → Means c (codes "recover") [] (kind.now ∷ []) → ⊥) (λ c. Means c (codes "recover") [] (kind.now ∷ [])) }
{
    match kind {
        "link" => Some(Command::RecoverLink),
        "content" => Some(Command::RecoverContent),
        "track" => Some(Command::RecoverTrack),
        "relock" => Some(Command::RecoverRelock),
        "dvi" => Some(Command::RecoverDvi),
        _ => None,
    }
}

/// `recover content relock` or `recover biphase K`.
fn recover_pair(kind: &str, word: &str) -> Option<Command>
    ensures { MatchOption result ((c : Command) → Means c (codes "recover") [] (kind.now ∷ word.now ∷ []) → ⊥) (λ c. Means c (codes "recover") [] (kind.now ∷ word.now ∷ [])) }
{
    if kind == "content" {
        recover_content(word)
    } else {
        recover_biphase(kind, word)
    }
}

/// `recover content relock`.
fn recover_content(word: &str) -> Option<Command>
    ensures { MatchOption result ((c : Command) → Means c (codes "recover") [] (codes "content" ∷ word.now ∷ []) → ⊥) (λ c. Means c (codes "recover") [] (codes "content" ∷ word.now ∷ [])) }
{
    match word {
        "relock" => Some(Command::RecoverContentRelock),
        _ => None,
    }
}

/// `recover biphase K`.
fn recover_biphase(kind: &str, pair: &str) -> Option<Command>
    requires { kind.now ≡ codes "content" → ⊥ }
    ensures { MatchOption result ((c : Command) → Means c (codes "recover") [] (kind.now ∷ pair.now ∷ []) → ⊥) (λ c. Means c (codes "recover") [] (kind.now ∷ pair.now ∷ [])) }
{
    let number = read_digit(pair, 0, LAST_PAIR)?;
    if kind == "biphase" {
        Some(Command::RecoverBiphase(number))
    } else {
        None
    }
}

/// `check`.
fn check_command(operands: &[&str]) -> Option<Command>
    ensures { MatchOption result ((c : Command) → Means c (codes "check") [] (texts operands.now) → ⊥) (λ c. Means c (codes "check") [] (texts operands.now)) }
{
    if operands.is_empty() {
        Some(Command::Check)
    } else {
        None
    }
}

/// `slip L:P:D`.
fn slip_command(operands: &[&str]) -> Option<Command>
    ensures { MatchOption result ((c : Command) → Means c (codes "slip") [] (texts operands.now) → ⊥) (λ c. Means c (codes "slip") [] (texts operands.now)) }
{
    let [text] = operands else {
        return None;
    };
    let slip = read_slip(text)?;
    Some(Command::Slip(slip))
}

/// `read biphase`.
fn read_biphase_command(operands: &[&str]) -> Option<Command>
    ensures { MatchOption result ((c : Command) → Means c (codes "read") [] (texts operands.now) → ⊥) (λ c. Means c (codes "read") [] (texts operands.now)) }
{
    let [kind] = operands else {
        return None;
    };
    match *kind {
        "biphase" => Some(Command::ReadBiphase),
        _ => None,
    }
}

/// `relay`.
fn relay_command(operands: &[&str]) -> Option<Command>
    ensures { MatchOption result ((c : Command) → Means c (codes "relay") [] (texts operands.now) → ⊥) (λ c. Means c (codes "relay") [] (texts operands.now)) }
{
    if operands.is_empty() {
        Some(Command::Relay)
    } else {
        None
    }
}

/// `sample N`.
fn sample_command(operands: &[&str]) -> Option<Command>
    ensures { MatchOption result ((c : Command) → Means c (codes "sample") [] (texts operands.now) → ⊥) (λ c. Means c (codes "sample") [] (texts operands.now)) }
{
    let [text] = operands else {
        return None;
    };
    let frames = read_number(text, MOST_FRAMES)?;
    if frames >= FEWEST_FRAMES {
        Some(Command::Sample(frames))
    } else {
        None
    }
}
