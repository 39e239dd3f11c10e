//! What the words of a column say (HDMI 1.4, sections 5.2 and 5.4).
ghost use Rattle.std.specs.Prelude.{◌≡◌, ◌<◌, ◌≤◌, ◌+◌, ◌%◌, ◌&&◌, ◌==◌, nat_le, unwrap_or, IfSome};
ghost use Rattle.tmds_word.specs.Column.{column_of};
ghost use Rattle.period_grammar.specs.Column.{control_bits, value_of, sync_digit};
ghost use Rattle.period_grammar.specs.GoesOn.{is_whole};

use terc4::{control_of, is_control_word, nibble};
use tmds_word::Word;

/// The two bits of a control word, and 0 for any other word.
#[tactic(auto, unfolding(crate::specs::Column::control_bits))]
fn control_pair(word: Word) -> u8
    ensures value { result ≡ control_bits word }
    ensures below { result < 4 }
{
    match control_of(word) {
        Some(value) => value,
        None => 0,
    }
}

/// Whether the words of a column are three control words, and its value is this one.
pub fn has_value(column: &[Word; 3], value: u8) -> bool
    ensures { result ≡ is_whole value (column_of column.now) }
{
    let a = is_control_word(blue(column));
    let b = is_control_word(green(column));
    let c = is_control_word(red(column));
    a & (b & (c & (column_value(column) == value)))
}

/// HSYNC, VSYNC, CTL0 to CTL3.
#[tactic(auto, unfolding(crate::specs::Column::value_of))]
pub fn column_value(column: &[Word; 3]) -> u8
    ensures { result ≡ value_of (column_of column.now) }
{
    control_pair(blue(column)) + 4 * control_pair(green(column)) + 16 * control_pair(red(column))
}

/// The word of lane 0.
pub fn blue(column: &[Word; 3]) -> Word
    ensures { result ≡ (column_of column.now).blue }
{
    column[0]
}

/// The word of lane 1.
pub fn green(column: &[Word; 3]) -> Word
    ensures { result ≡ (column_of column.now).green }
{
    column[1]
}

/// The word of lane 2.
pub fn red(column: &[Word; 3]) -> Word
    ensures { result ≡ (column_of column.now).red }
{
    column[2]
}

/// Whether two numbers together are at least a third.
pub fn at_least(wanted: u8, a: u8, b: u8) -> bool
    ensures { result ≡ nat_le wanted (a + b) }
{
    u16::from(a) + u16::from(b) >= u16::from(wanted)
}

/// The low two bits of a TERC4 value, and 0 for any other word.
#[tactic(auto, unfolding(crate::specs::Column::sync_digit, island_pack::specs::Nibbles::nibble_of))]
pub fn digit(word: Word) -> u8
    ensures { result ≡ sync_digit word }
{
    match nibble(word) {
        Some(value) => value % 4,
        None => 0,
    }
}
