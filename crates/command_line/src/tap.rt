//! What the options of `make` say.
ghost use Rattle.std.specs.Prelude.{ℕ, List, Option as Maybe, MatchOption, Some, None, option_map};
ghost use Rattle.clap.specs.Words.{found_of, rows_of};
ghost use Rattle.command_line.specs.Grammar.{Text};
ghost use Rattle.command_line.specs.Forms.{AreFound};
ghost use Rattle.command_line.specs.Commands.{AreSkews, IsLimit, IsOffset, IsTap, IsVersion};
ghost use Rattle.command_line.specs.declared.options.OptionName.{OptionName as Name};
ghost use Rattle.command_line.specs.declared.tap.TapWords.{TapWords as TapValue};

use crate::forms::option_text;
use crate::numbers::{read_number, three_numbers};
use crate::options::OptionName;
use clap::ArgMatches;

/// The most bits that a lane may leave out more than the others: far more than the 70 that lanes are aligned by, so that
/// captures which do not align can be made too.
pub const SKEW_LIMIT: u32 = 4_095;

// The greatest version.
const MAX_VERSION: u32 = 2;

/// Which bits of the lanes the options of `make` ask for, and in which layout.
#[derive(Clone, Copy)]
pub struct TapWords {
    /// The version of the capture, 1 or 2: 1 where `--version` is left out.
    pub version: u8,
    /// How many bits at the front of each lane are left out: 0 where `--offset` is left out.
    pub offset: u32,
    /// How many bits more each lane leaves out, at most `SKEW_LIMIT` each: 0 where `--skew` is left out.
    pub skews: [u32; 3],
    /// The most bits of a lane, where `--bits` gives them.
    pub bits: Option<u32>,
}

/// The tap that the options ask for that were found; none where the value of one is of another form.
pub(crate) fn read_tap(matches: &ArgMatches<'_>) -> Option<TapWords>
    ensures { (options : List (Name × Text)) (operands : List Text) → AreFound (rows_of (found_of matches.now)) options operands → MatchOption result ((tap : TapValue) → IsTap options tap → ⊥) (λ tap. IsTap options tap) }
{
    let offset = read_offset(option_text(matches, OptionName::Offset))?;
    let skews = read_skews(option_text(matches, OptionName::Skew))?;
    let bits = read_limit(option_text(matches, OptionName::Bits))?;
    let version = read_version(option_text(matches, OptionName::Version))?;
    Some(TapWords {
        version,
        offset,
        skews,
        bits,
    })
}

/// The offset, 0 where it is left out.
fn read_offset(text: Option<&str>) -> Option<u32>
    ensures { MatchOption result ((n : ℕ) → IsOffset (option_map (λ t. t.now) text.entry) n → ⊥) (λ n. IsOffset (option_map (λ t. t.now) text.entry) n) }
{
    match text {
        Some(text) => read_number(text, u32::MAX),
        None => Some(0),
    }
}

/// The skews, 0 where they are left out.
fn read_skews(text: Option<&str>) -> Option<[u32; 3]>
    ensures { MatchOption result ((skews : List ℕ) → AreSkews (option_map (λ t. t.now) text.entry) skews → ⊥) (λ skews. AreSkews (option_map (λ t. t.now) text.entry) skews) }
{
    match text {
        Some(text) => three_numbers(text, SKEW_LIMIT),
        None => Some([0, 0, 0]),
    }
}

/// The most bits of a lane, none where they are left out.
fn read_limit(text: Option<&str>) -> Option<Option<u32>>
    ensures { MatchOption result ((limit : Maybe ℕ) → IsLimit (option_map (λ t. t.now) text.entry) limit → ⊥) (λ limit. IsLimit (option_map (λ t. t.now) text.entry) limit) }
{
    match text {
        Some(text) => Some(Some(read_number(text, u32::MAX)?)),
        None => Some(None),
    }
}

/// The version, 1 or 2: 1 where it is left out.
fn read_version(text: Option<&str>) -> Option<u8>
    ensures { MatchOption result ((n : ℕ) → IsVersion (option_map (λ t. t.now) text.entry) n → ⊥) (λ n. IsVersion (option_map (λ t. t.now) text.entry) n) }
{
    match text {
        Some(text) => match read_number(text, MAX_VERSION)? {
            1 => Some(1),
            2 => Some(2),
            _ => None,
        },
        None => Some(1),
    }
}
