//! The judge of one lane of a video period.
ghost use Rattle.std.specs.Prelude.{◌≡◌, ℕ, ◌+◌, ◌*◌, ◌<◌, ◌≤◌, ◌↔◌, ◌++◌, ◌∷◌, [], List, length, IsTrue, pos, neg_ℤ, ◌-ℤ◌, ◌≤ℤ◌};
ghost use Rattle.tmds_word.specs.Bits.{word_bits, balance};
ghost use Rattle.tmds_code.specs.Coding.{Coded, decoded_byte};
ghost use Rattle.tmds_code.specs.Pasts.{IsJudgeAfter};
ghost use Rattle.tmds_code.specs.Lanes.{disparity_of};
ghost use Rattle.tmds_code.specs.Sixteen.{at_step};

use crate::coding::{decode, is_coded};
use std::marker::Model;
use tmds_word::Word;

/// Receives the characters of one lane in order, from a video period's first pixel on, and says of each
/// whether it is rightly coded.
#[derive(Clone, Copy)]
pub struct CodeJudge {
    /// How many characters were received, at most 4,097.
    count: u16,
    /// Their ones minus their zeros.
    disparity: i32,
}

impl Model for CodeJudge {
    ghost use Rattle.std.specs.Prelude.{◌≤◌, ◌≤ℤ◌, ◌+◌, ◌*◌, pos, neg_ℤ};
    ghost use Rattle.tmds_code.specs.Pasts.{Heard};

    ghost Value = { Heard };

    ghost view = { λ j. record { count = j.count; disparity = j.disparity } };

    ghost inverse = { λ h. record { count = h.count; disparity = h.disparity } };

    ghost invariant = { λ j. (j.count ≤ 4097) × (neg_ℤ (pos (10 * j.count + 8)) ≤ℤ j.disparity) × (j.disparity ≤ℤ pos (10 * j.count + 8)) };
}

impl CodeJudge {
    /// A judge at a video period's first pixel.
    pub fn new() -> CodeJudge
        ensures { IsJudgeAfter result [] }
    {
        CodeJudge {
            count: 0,
            disparity: 0,
        }
    }

    /// The byte of the next character, and whether the character codes that byte at the sum of the
    /// balances of the characters heard before.
    pub fn hear(&mut self, word: Word) -> (u8, bool)
        requires { self.old.count < 4097 }
        ensures byte { result.0 ≡ decoded_byte word }
        ensures right { IsTrue result.1 ↔ Coded self.old.disparity (decoded_byte word) word }
        ensures count { self.new.count ≡ self.old.count + 1 }
        ensures stands { (words : List ℕ) → IsJudgeAfter self.old words → IsJudgeAfter self.new (words ++ word ∷ []) }
    {
        let byte = decode(word);
        let right = is_coded(word, self.disparity);
        self.count += 1;
        self.disparity += balance_of(word);
        (byte, right)
    }

    /// The step of the disparity: half of it, counted from -4, and cut to 0 and 8. A lane that is rightly coded so far has
    /// a disparity from -8 to 8.
    #[inline(always)]
    pub fn step(&self) -> u8
        ensures within { result ≤ 8 }
        ensures step { (k : ℕ) → k ≤ 8 → self.now.disparity ≡ at_step k → result ≡ k }
    {
        (self.disparity + 8).clamp(0, 16) as u8 / 2
    }

    /// Receives characters at once whose ones were counted.
    #[inline(always)]
    pub fn hear_counted(&mut self, count: u16, ones: u16)
        requires few { self.old.count + count ≤ 4097 }
        requires ones { ones ≤ 10 * count }
        ensures count { self.new.count ≡ self.old.count + count }
        ensures stands { (words more : List ℕ) → IsJudgeAfter self.old words → length more ≡ count → disparity_of more ≡ pos (2 * ones) -ℤ pos (10 * count) → IsJudgeAfter self.new (words ++ more) }
    {
        self.count += count;
        self.disparity += balance_by_ones(count, ones);
    }
}

/// The ones minus the zeros of a character.
fn balance_of(word: Word) -> i32
    ensures value { result ≡ balance (word_bits word) }
    ensures low { neg_ℤ (pos 10) ≤ℤ result }
    ensures high { result ≤ℤ pos 10 }
{
    2 * word.value().count_ones() as i32 - 10
}

/// The ones minus the zeros of characters of which the ones are counted.
#[inline(always)]
fn balance_by_ones(count: u16, ones: u16) -> i32
    requires count { count ≤ 4097 }
    requires ones { ones ≤ 10 * count }
    ensures { result ≡ pos (2 * ones) -ℤ pos (10 * count) }
{
    2 * i32::from(ones) - 10 * i32::from(count)
}
