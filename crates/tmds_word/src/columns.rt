//! Columns that are lent.
ghost use Rattle.std.specs.Prelude.{◌≡◌, ◌<◌, ◌≤◌, ◌==◌, All, Some, length, take, drop, slice_get};
ghost use Rattle.tmds_word.specs.Column.{column_of, blues, greens, reds};
ghost use Rattle.tmds_word.specs.Words.{columns_of};

use crate::Word;

/// Columns that are lent: the characters of three lanes, as many of each, as numbers.
#[derive(Clone, Copy)]
pub struct Columns<'a> {
    blue: &'a [u16],
    green: &'a [u16],
    red: &'a [u16],
    ghost long_green: { length green.now ≡ length blue.now },
    ghost long_red: { length red.now ≡ length blue.now },
    ghost blue_words: { All (λ w. w < 1024) blue.now },
    ghost green_words: { All (λ w. w < 1024) green.now },
    ghost red_words: { All (λ w. w < 1024) red.now },
}

impl<'a> Columns<'a> {
    ghost use Rattle.tmds_word.specs.Lent.{columns_in};

    /// The columns of three lanes' characters.
    #[inline(always)]
    pub fn new(blue: &'a [u16], green: &'a [u16], red: &'a [u16]) -> Columns<'a>
        requires green { length green.now ≡ length blue.now }
        requires red { length red.now ≡ length blue.now }
        requires blue_words { All (λ w. w < 1024) blue.now }
        requires green_words { All (λ w. w < 1024) green.now }
        requires red_words { All (λ w. w < 1024) red.now }
        ensures { columns_in result ≡ columns_of blue.entry.now green.entry.now red.entry.now }
    {
        Columns { blue, green, red }
    }

    /// How many there are.
    #[inline(always)]
    pub fn len(&self) -> usize
        ensures { result ≡ length (columns_in self.now) }
    {
        self.blue.len()
    }

    /// Whether there are none.
    #[inline(always)]
    pub fn is_empty(&self) -> bool
        ensures { result ≡ (length (columns_in self.now) == 0) }
    {
        self.blue.is_empty()
    }

    /// Those from a place on.
    #[inline(always)]
    #[tactic(auto, using(crate::proofs::Lent::lent_blue, crate::proofs::Lent::lent_green, crate::proofs::Lent::lent_red))]
    pub fn from(&self, at: usize) -> Columns<'a>
        requires { at ≤ length (columns_in self.now) }
        ensures { columns_in result ≡ drop at (columns_in self.now) }
    {
        Columns {
            blue: past(self.blue, at),
            green: past(self.green, at),
            red: past(self.red, at),
        }
    }

    /// The first ones.
    #[inline(always)]
    #[tactic(auto, using(crate::proofs::Lent::lent_blue, crate::proofs::Lent::lent_green, crate::proofs::Lent::lent_red))]
    pub fn first(&self, count: usize) -> Columns<'a>
        requires { count ≤ length (columns_in self.now) }
        ensures { columns_in result ≡ take count (columns_in self.now) }
    {
        Columns {
            blue: front(self.blue, count),
            green: front(self.green, count),
            red: front(self.red, count),
        }
    }

    /// The column at a place, lane 0 first.
    #[inline(always)]
    #[tactic(auto, using(crate::proofs::Lent::lent_blue, crate::proofs::Lent::lent_green, crate::proofs::Lent::lent_red))]
    pub fn get(&self, i: usize) -> [Word; 3]
        requires { i < length (columns_in self.now) }
        ensures { slice_get (columns_in self.now) i ≡ Some (column_of result) }
    {
        [
            Word::of(self.blue[i]),
            Word::of(self.green[i]),
            Word::of(self.red[i]),
        ]
    }

    /// The characters of lane 0.
    #[inline(always)]
    pub fn blue(&self) -> &'a [u16]
        ensures lane { result.now ≡ blues (columns_in self.now) }
        ensures words { All (λ w. w < 1024) result.now }
    {
        self.blue
    }

    /// The characters of lane 1.
    #[inline(always)]
    pub fn green(&self) -> &'a [u16]
        ensures lane { result.now ≡ greens (columns_in self.now) }
        ensures words { All (λ w. w < 1024) result.now }
    {
        self.green
    }

    /// The characters of lane 2.
    #[inline(always)]
    pub fn red(&self) -> &'a [u16]
        ensures lane { result.now ≡ reds (columns_in self.now) }
        ensures words { All (λ w. w < 1024) result.now }
    {
        self.red
    }
}

/// The characters from a place on.
#[inline(always)]
fn past(words: &[u16], at: usize) -> &[u16]
    requires { at ≤ length words.now }
    ensures { result.now ≡ drop at words.entry.now }
{
    &words[at..]
}

/// The first characters.
#[inline(always)]
fn front(words: &[u16], count: usize) -> &[u16]
    requires { count ≤ length words.now }
    ensures { result.now ≡ take count words.entry.now }
{
    &words[..count]
}
