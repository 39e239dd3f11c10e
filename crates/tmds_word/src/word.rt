//! TMDS characters.
ghost use Rattle.std.specs.Prelude.{◌≡◌, ◌<◌, ◌≤◌, ◌↔◌, ℕ, IfSome, IsNone, pos, neg_ℤ, ◌≤ℤ◌};
ghost use Rattle.tmds_word.specs.Bits.{bit, word_bits, turns, balance};

use std::marker::Model;

/// A TMDS character: ten bits, seen as a number below 1024 whose bit 0 is q\[0\], which is sent
/// first (DVI 1.0, section 3.2.3).
#[derive(Clone, Copy, Debug, PartialEq, Eq)]
pub struct Word {
    value: u16,
}

impl Model for Word {
    ghost Value = { ℕ };

    ghost view = { λ w. w.value };

    ghost inverse = { λ n. record { value = n } };

    ghost invariant = { λ w. w.value < 1024 };
}

impl Word {
    /// The character of a number; none where the number has more than ten bits.
    pub fn new(value: u16) -> Option<Word>
        ensures some { IfSome result (λ w. w ≡ value) }
        ensures none { IsNone result ↔ (1024 ≤ value) }
    {
        if value < 1024 {
            Some(Word { value })
        } else {
            None
        }
    }

    /// The character of a number that has no more than ten bits.
    pub fn of(value: u16) -> Word
        requires { value < 1024 }
        ensures { result ≡ value }
    {
        Word { value }
    }

    /// The number.
    pub fn value(&self) -> u16
        ensures value { result ≡ self.now }
        ensures below { result < 1024 }
    {
        self.value
    }

    /// Bit q\[i\], the `i`th that is sent.
    pub fn sent_bit(&self, i: u8) -> bool
        requires { i < 10 }
        ensures { result ≡ bit self.now i }
    {
        (self.value >> i) & 1 == 1
    }

    /// How many of its neighbouring bits are unlike: its transitions, at most nine.
    pub fn turns(&self) -> u8
        ensures { result ≡ turns (word_bits self.now) }
    {
        let unlike = self.value ^ (self.value >> 1);
        (unlike & 0x1ff).count_ones() as u8
    }

    /// Its ones minus its zeros, from -10 to 10.
    pub fn balance(&self) -> i8
        ensures value { result ≡ balance (word_bits self.now) }
        ensures low { neg_ℤ (pos 10) ≤ℤ result }
        ensures high { result ≤ℤ pos 10 }
    {
        let ones = self.value.count_ones() as i8;
        ones - (10 - ones)
    }
}
