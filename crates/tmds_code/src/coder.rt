//! The coder of one lane of a video period.
ghost use Rattle.std.specs.Prelude.{◌≡◌, ℕ, ◌*◌, ◌-ℤ◌, ◌≤ℤ◌, ◌%◌, ◌++◌, ◌∷◌, [], List, pos, negsuc};
ghost use Rattle.tmds_code.specs.Coding.{Coded};
ghost use Rattle.tmds_code.specs.Pasts.{IsCoderAfter};

use crate::stepping::stepped;
use std::marker::Model;
use tmds_word::Word;

/// Codes the bytes of one lane in order, from a video period's first pixel on. Contracts see it as
/// the disparity of the characters that it gave.
#[derive(Drop)]
pub struct VideoCoder {
    /// Where the row of the disparity begins in the table: 256 times half of it, counted from -4. The disparity
    /// is even and from -8 to 8.
    row: u16,
}

impl Model for VideoCoder {
    ghost use Rattle.std.specs.Prelude.{ℤ, pos, ◌-ℤ◌, ◌*◌, ◌/◌, ◌%◌, ◌≡◌, ◌≤◌};

    ghost Value = { ℤ };

    ghost view = { λ c. pos (2 * (c.row / 256)) -ℤ pos 8 };

    ghost invariant = { λ c. (c.row ≤ 2048) × (c.row % 256 ≡ 0) };
}

impl VideoCoder {
    /// A coder at a video period's first pixel, where the disparity is 0.
    pub fn new() -> VideoCoder
        ensures { IsCoderAfter result [] [] }
    {
        VideoCoder { row: 1024 }
    }

    /// The character of the next byte.
    pub fn next(&mut self, byte: u8) -> Word
        ensures coded { Coded self.old byte result }
        ensures stands { (bytes words : List ℕ) → IsCoderAfter self.old bytes words → IsCoderAfter self.new (bytes ++ byte ∷ []) (words ++ result ∷ []) }
    {
        let entry = stepped(usize::from(self.row) + usize::from(byte));
        self.row = (entry >> 16) as u16;
        Word::of((entry & 0xffff) as u16)
    }

    /// The ones minus the zeros of the characters given so far: even, and from -8 to 8.
    pub fn disparity(&self) -> i32
        ensures value { result ≡ self.now }
        ensures even { (k : ℕ) × (result ≡ pos (2 * k) -ℤ pos 8) }
        ensures low { negsuc 7 ≤ℤ result }
        ensures high { result ≤ℤ pos 8 }
    {
        2 * i32::from(self.row / 256) - 8
    }
}
