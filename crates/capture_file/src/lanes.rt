//! Three lanes that take columns and keep their bits.
ghost use Rattle.std.specs.Prelude.{◌≡◌, ℕ, ◌+◌, ◌*◌, ◌/◌, ◌%◌, ◌^◌, ◌<◌, ◌≤◌, ◌++◌, ◌∷◌, [], length, take, slice_index, All, IfOk, OnOk, OnErr};
ghost use Rattle.outside_io.specs.Causes.{next, HasCause};
ghost use Rattle.tmds_word.specs.Bits.{word_bits, row_bits, bytes_bits};
ghost use Rattle.tmds_word.specs.Column.{column_of};
ghost use Rattle.tmds_word.specs.Words.{columns_of, packed_columns};

use outside_io::NoMemory;
use std::alloc::Global;
use std::marker::Model;
use tmds_word::{BitRow, ColumnSink, Word};

/// Three rows of bits, one of each lane, which take columns.
#[derive(Drop)]
pub struct LaneRows {
    pub(crate) blue: BitRow,
    pub(crate) green: BitRow,
    pub(crate) red: BitRow,
    refusals: u64,
}

impl Model for LaneRows {
    ghost use Rattle.std.specs.Prelude.{◌≡◌, ◌%◌, ◌^◌, ◌<◌, length};
    ghost use Rattle.capture_file.specs.Lanes.{Collected};
    ghost use Rattle.tmds_word.specs.Words.{all_words, columns_of};

    ghost Value = { Collected };

    ghost view = { λ l. record {
      columns = columns_of (all_words l.blue) (all_words l.green) (all_words l.red);
      refusals = l.refusals;
    } };

    ghost invariant = { λ l. record {
      whole : length l.blue % 10 ≡ 0;
      short : length l.blue < 2 ^ 32;
      green : length l.green ≡ length l.blue;
      red : length l.red ≡ length l.blue;
      counted : l.refusals < 2 ^ 64;
    } };
}

impl LaneRows {
    /// No columns. The allocator is kept for the rows' growth.
    pub fn new(alloc: Global) -> LaneRows
        ensures { result ≡ record { columns = []; refusals = 0 } }
    {
        LaneRows {
            blue: BitRow::new(alloc),
            green: BitRow::new(alloc),
            red: BitRow::new(alloc),
            refusals: 0,
        }
    }

    /// No columns. It asks for room for so many at once, so that the rows need not grow for them; its contract says nothing of room.
    pub fn with_capacity(alloc: Global, columns: u32) -> Result<LaneRows, NoMemory>
        ensures { IfOk result (λ lanes. lanes ≡ record { columns = []; refusals = 0 }) }
    {
        let bits = columns.saturating_mul(10);
        Ok(LaneRows {
            blue: BitRow::with_capacity(alloc, bits)?,
            green: BitRow::with_capacity(alloc, bits)?,
            red: BitRow::with_capacity(alloc, bits)?,
            refusals: 0,
        })
    }
}

impl ColumnSink for LaneRows {
    ghost taken = { λ l. l.columns };

    ghost refusals = { λ l. l.refusals };

    fn column(&mut self, words: [Word; 3]) -> Result<(), NoMemory>
        requires { length self.old.columns < 429496729 }
        ensures ok { OnOk result (self.new.columns ≡ self.old.columns ++ column_of words ∷ []) }
        ensures err { OnErr result (self.new.columns ≡ self.old.columns) }
        ensures cause { HasCause self.old.refusals self.new.refusals result }
        ensures counted { self.new.refusals < 2 ^ 64 }

        ensures same { OnOk result (self.new.refusals ≡ self.old.refusals) }
        ensures raised { OnErr result (self.new.refusals ≡ next self.old.refusals) }
    {
        know_characters(&words);
        match push_column(&mut self.blue, &mut self.green, &mut self.red, words) {
            Ok(()) => Ok(()),
            Err(refused) => {
                self.refusals = self.refusals.saturating_add(1);
                Err(refused)
            }
        }
    }

    fn columns(&mut self, blue: &[Word], green: &[Word], red: &[Word]) -> Result<(), NoMemory>
        requires green { length green.now ≡ length blue.now }
        requires red { length red.now ≡ length blue.now }
        requires room { length self.old.columns + length blue.now ≤ 429496729 }
        ensures ok { OnOk result (self.new.columns ≡ self.old.columns ++ columns_of blue.now green.now red.now) }
        ensures part { OnErr result ((k : ℕ) × (self.new.columns ≡ self.old.columns ++ take k (columns_of blue.now green.now red.now))) }
        ensures cause { HasCause self.old.refusals self.new.refusals result }

        ensures err { OnErr result (self.new.columns ≡ self.old.columns) }
        ensures same { OnOk result (self.new.refusals ≡ self.old.refusals) }
        ensures raised { OnErr result (self.new.refusals ≡ next self.old.refusals) }
    {
        know_all(blue);
        know_all(green);
        know_all(red);
        match push_columns(
            &mut self.blue,
            &mut self.green,
            &mut self.red,
            blue,
            green,
            red,
        ) {
            Ok(()) => Ok(()),
            Err(refused) => {
                self.refusals = self.refusals.saturating_add(1);
                Err(refused)
            }
        }
    }

    fn packed(&mut self, blue: &[u8], green: &[u8], red: &[u8]) -> Result<(), NoMemory>
        requires fives { length blue.now % 5 ≡ 0 }
        requires green { length green.now ≡ length blue.now }
        requires red { length red.now ≡ length blue.now }
        requires room { length self.old.columns + length blue.now / 5 * 4 ≤ 429496729 }
        ensures ok { OnOk result (self.new.columns ≡ self.old.columns ++ packed_columns blue.now green.now red.now) }
        ensures part { OnErr result ((k : ℕ) × (self.new.columns ≡ self.old.columns ++ take k (packed_columns blue.now green.now red.now))) }
        ensures cause { HasCause self.old.refusals self.new.refusals result }

        ensures err { OnErr result (self.new.columns ≡ self.old.columns) }
        ensures same { OnOk result (self.new.refusals ≡ self.old.refusals) }
        ensures raised { OnErr result (self.new.refusals ≡ next self.old.refusals) }
    {
        match push_packed(
            &mut self.blue,
            &mut self.green,
            &mut self.red,
            blue,
            green,
            red,
        ) {
            Ok(()) => Ok(()),
            Err(refused) => {
                self.refusals = self.refusals.saturating_add(1);
                Err(refused)
            }
        }
    }
}

/// Appends one character to each of three rows of one length. After a refusal the rows are as before.
fn push_column(
    blue: &mut BitRow,
    green: &mut BitRow,
    red: &mut BitRow,
    words: [Word; 3],
) -> Result<(), NoMemory>
    requires green { length green.old ≡ length blue.old }
    requires red { length red.old ≡ length blue.old }
    requires room { length blue.old + 10 < 2 ^ 32 }
    ensures blue_ok { OnOk result (blue.new ≡ blue.old ++ word_bits (slice_index words 0)) }
    ensures green_ok { OnOk result (green.new ≡ green.old ++ word_bits (slice_index words 1)) }
    ensures red_ok { OnOk result (red.new ≡ red.old ++ word_bits (slice_index words 2)) }
    ensures blue_err { OnErr result (blue.new ≡ blue.old) }
    ensures green_err { OnErr result (green.new ≡ green.old) }
    ensures red_err { OnErr result (red.new ≡ red.old) }
{
    let bits = blue.len();
    blue.push_word(words[0])?;
    if let Err(refused) = green.push_word(words[1]) {
        blue.truncate(bits);
        return Err(refused);
    }
    if let Err(refused) = red.push_word(words[2]) {
        blue.truncate(bits);
        green.truncate(bits);
        return Err(refused);
    }
    Ok(())
}

/// Appends equally many characters to each of three rows of one length. After a refusal the rows are as
/// before.
fn push_columns(
    blue: &mut BitRow,
    green: &mut BitRow,
    red: &mut BitRow,
    blue_words: &[Word],
    green_words: &[Word],
    red_words: &[Word],
) -> Result<(), NoMemory>
    requires green { length green.old ≡ length blue.old }
    requires red { length red.old ≡ length blue.old }
    requires green_words { length green_words.now ≡ length blue_words.now }
    requires red_words { length red_words.now ≡ length blue_words.now }
    requires room { length blue.old + 10 * length blue_words.now < 2 ^ 32 }
    ensures blue_ok { OnOk result (blue.new ≡ blue.old ++ row_bits blue_words.now) }
    ensures green_ok { OnOk result (green.new ≡ green.old ++ row_bits green_words.now) }
    ensures red_ok { OnOk result (red.new ≡ red.old ++ row_bits red_words.now) }
    ensures blue_err { OnErr result (blue.new ≡ blue.old) }
    ensures green_err { OnErr result (green.new ≡ green.old) }
    ensures red_err { OnErr result (red.new ≡ red.old) }
{
    let before = blue.len();
    blue.push_words(blue_words)?;
    if let Err(refused) = green.push_words(green_words) {
        blue.truncate(before);
        return Err(refused);
    }
    if let Err(refused) = red.push_words(red_words) {
        blue.truncate(before);
        green.truncate(before);
        return Err(refused);
    }
    Ok(())
}

/// Appends equally many bytes to each of three rows of one length. After a refusal the rows are as before.
fn push_packed(
    blue: &mut BitRow,
    green: &mut BitRow,
    red: &mut BitRow,
    blue_bytes: &[u8],
    green_bytes: &[u8],
    red_bytes: &[u8],
) -> Result<(), NoMemory>
    requires green { length green.old ≡ length blue.old }
    requires red { length red.old ≡ length blue.old }
    requires green_bytes { length green_bytes.now ≡ length blue_bytes.now }
    requires red_bytes { length red_bytes.now ≡ length blue_bytes.now }
    requires room { length blue.old + 8 * length blue_bytes.now < 2 ^ 32 }
    ensures blue_ok { OnOk result (blue.new ≡ blue.old ++ bytes_bits blue_bytes.now) }
    ensures green_ok { OnOk result (green.new ≡ green.old ++ bytes_bits green_bytes.now) }
    ensures red_ok { OnOk result (red.new ≡ red.old ++ bytes_bits red_bytes.now) }
    ensures blue_err { OnErr result (blue.new ≡ blue.old) }
    ensures green_err { OnErr result (green.new ≡ green.old) }
    ensures red_err { OnErr result (red.new ≡ red.old) }
{
    let before = blue.len();
    blue.push_bytes(blue_bytes)?;
    if let Err(refused) = green.push_bytes(green_bytes) {
        blue.truncate(before);
        return Err(refused);
    }
    if let Err(refused) = red.push_bytes(red_bytes) {
        blue.truncate(before);
        green.truncate(before);
        return Err(refused);
    }
    Ok(())
}

/// Says that each character is below 1024, as every character is. It does nothing.
fn know_all(words: &[Word])
    ensures { All (λ w. w < 1024) words.now }
{
    for word in words {
        let _ = word.value();
    }
}

/// Says that each of three characters is below 1024, as every character is. It does nothing.
fn know_characters(words: &[Word; 3])
    ensures blue { slice_index words.now 0 < 1024 }
    ensures green { slice_index words.now 1 < 1024 }
    ensures red { slice_index words.now 2 < 1024 }
{
    let _ = (words[0].value(), words[1].value(), words[2].value());
}
