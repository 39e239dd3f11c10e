//! What takes columns one after another.
ghost use Rattle.std.specs.Prelude.{◌≡◌, ◌<◌, ◌≤◌, ◌+◌, ◌*◌, ◌/◌, ◌%◌, ◌^◌, ◌++◌, ◌∷◌, [], ℕ, List, length, take, OnOk, OnErr};
ghost use Rattle.outside_io.specs.Causes.{HasCause};
ghost use Rattle.tmds_word.specs.Column.{Column, column_of};
ghost use Rattle.tmds_word.specs.Words.{columns_of, packed_columns};

use crate::Word;
use crate::packing::word_at;
use outside_io::NoMemory;

/// Takes columns: one character of each lane at a time.
pub trait ColumnSink {
    /// The columns taken so far.
    ghost taken: { Self → List Column };

    /// How many calls were refused for want of memory: a u64 that never falls.
    ghost refusals: { Self → ℕ };

    /// Takes the column after those taken so far; after a refusal it holds the columns before.
    fn column(&mut self, words: [Word; 3]) -> Result<(), NoMemory>
        requires { length (taken self.old) < 429496729 }
        ensures ok { OnOk result (taken self.new ≡ taken self.old ++ column_of words ∷ []) }
        ensures err { OnErr result (taken self.new ≡ taken self.old) }
        ensures cause { HasCause (refusals self.old) (refusals self.new) result }
        ensures counted { refusals self.new < 2 ^ 64 };

    /// Takes the columns of three lanes' characters, as many of each. After a refusal it holds the columns
    /// before, and perhaps the first ones of these.
    fn columns(&mut self, blue: &[Word], green: &[Word], red: &[Word]) -> Result<(), NoMemory>
        requires green { length green.now ≡ length blue.now }
        requires red { length red.now ≡ length blue.now }
        requires room { length (taken self.old) + length blue.now ≤ 429496729 }
        ensures ok { OnOk result (taken self.new ≡ taken self.old ++ columns_of blue.now green.now red.now) }
        ensures part { OnErr result ((k : ℕ) × (taken self.new ≡ taken self.old ++ take k (columns_of blue.now green.now red.now))) }
        ensures cause { HasCause (refusals self.old) (refusals self.new) result }
    {
        for i in 0..blue.len() {
            self.column([blue[i], green[i], red[i]])?;
        }
        Ok(())
    }

    /// Takes the columns of three lanes' bits, as many of each: each five bytes are four characters. After a
    /// refusal it holds the columns before, and perhaps the first ones of these.
    fn packed(&mut self, blue: &[u8], green: &[u8], red: &[u8]) -> Result<(), NoMemory>
        requires fives { length blue.now % 5 ≡ 0 }
        requires green { length green.now ≡ length blue.now }
        requires red { length red.now ≡ length blue.now }
        requires room { length (taken self.old) + length blue.now / 5 * 4 ≤ 429496729 }
        ensures ok { OnOk result (taken self.new ≡ taken self.old ++ packed_columns blue.now green.now red.now) }
        ensures part { OnErr result ((k : ℕ) × (taken self.new ≡ taken self.old ++ take k (packed_columns blue.now green.now red.now))) }
        ensures cause { HasCause (refusals self.old) (refusals self.new) result }
    {
        for i in 0..blue.len() / 5 * 4 {
            self.column([word_at(blue, i), word_at(green, i), word_at(red, i)])?;
        }
        Ok(())
    }
}
