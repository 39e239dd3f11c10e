//! The word of a slip: `L:P:D`, the digit of a lane, a place, and the digit of how many bits are left out there.
ghost use Rattle.std.specs.Prelude.{◌≡◌};
ghost use Rattle.command_line.specs.Parsing.{slip_of};

use crate::damage::{colon_split, read_lane};
use crate::numbers::{read_digit, read_number};

// The fewest and the most bits of a slip.
const FEWEST_BITS: u8 = 1;

const MOST_BITS: u8 = 9;

/// Bits of one lane that are to be left out.
#[derive(Clone, Copy)]
pub struct SlipWord {
    /// The lane: blue is 0, green is 1 and red is 2.
    pub lane: u8,
    /// Where the bits begin.
    pub place: u32,
    /// How many bits are left out, 1 to 9.
    pub bits: u32,
}

/// The slip of a word.
#[tactic(auto, unfolding(crate::specs::Parsing::slip_of))]
pub(crate) fn read_slip(text: &str) -> Option<SlipWord>
    ensures { result ≡ slip_of text.now }
{
    let (lane, rest) = colon_split(text)?;
    let (place, digit) = colon_split(rest)?;
    Some(SlipWord {
        lane: read_lane(lane)?,
        place: read_number(place, u32::MAX)?,
        bits: u32::from(read_digit(digit, FEWEST_BITS, MOST_BITS)?),
    })
}
