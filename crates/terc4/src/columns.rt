//! The kinds of columns.
ghost use Rattle.std.specs.Prelude.{◌≡◌, ◌+◌, ◌≤◌};
ghost use Rattle.tmds_word.specs.Column.{column_of};
ghost use Rattle.terc4.specs.Tables.{terc_words, value_in, is_control};
ghost use Rattle.terc4.specs.Columns.{one_if, is_control_column, is_video_guard, is_island_guard, is_twelve_or_more, video_words, closing_words, island_words};
ghost use Rattle.terc4.specs.Kinds.{kind_of};

use crate::tables::{ISLAND_GUARD, VIDEO_GUARD};
use crate::values::{control_of, nibble};
use tmds_word::Word;

/// How many control words a control column has at least: one of the three may have been received damaged.
const ENOUGH: u8 = 2;

/// What the three words of a column say together.
#[derive(Clone, Copy)]
pub enum ColumnKind {
    /// Two or three of the words are control words.
    Control,
    /// The words that open a video period (HDMI 1.4, section 5.2.2.1).
    VideoGuard,
    /// The words that open and close a data island (HDMI 1.4, section 5.2.3.3).
    IslandGuard,
    /// All other columns: pixels, packets, and columns received damaged.
    Other,
}

/// The kind of a column of the words of lanes 0, 1 and 2.
pub fn column_kind(words: &[Word; 3]) -> ColumnKind
    ensures { result ≡ kind_of (column_of words.now) }
{
    if is_control_column(words) {
        ColumnKind::Control
    } else if is_video_guard(words) {
        ColumnKind::VideoGuard
    } else if is_island_guard(words) {
        ColumnKind::IslandGuard
    } else {
        ColumnKind::Other
    }
}

/// Whether two or three of the words of lanes 0, 1 and 2 are control words: the kind is `Control`.
#[tactic(auto, unfolding(crate::specs::Columns::is_control_column))]
pub fn is_control_column(words: &[Word; 3]) -> bool
    ensures { result ≡ is_control_column (column_of words.now) }
{
    // Nearly every column that is none has no control word on these two lanes.
    if !is_control_word(words[1]) && !is_control_word(words[2]) {
        return false;
    }
    controls(words[0], words[1], words[2]) >= ENOUGH
}

/// Whether the words of lanes 0, 1 and 2 are those that open a video period (HDMI 1.4, section 5.2.2.1).
pub fn is_video_guard(words: &[Word; 3]) -> bool
    ensures { result ≡ is_video_guard (column_of words.now) }
{
    video_guard_words(words) == 3
}

/// Whether the words of lanes 0, 1 and 2 are those that open and close a data island (HDMI 1.4, section 5.2.3.3).
pub fn is_island_guard(words: &[Word; 3]) -> bool
    ensures { result ≡ is_island_guard (column_of words.now) }
{
    island_guard_words(words) == 3
}

/// How many of the words of lanes 0, 1 and 2 are those that open a video period (HDMI 1.4, section 5.2.2.1): three are
/// in a column of kind `VideoGuard`, fewer where words were received damaged.
#[tactic(auto, unfolding(crate::specs::Columns::video_words, crate::specs::Columns::one_if, crate::specs::Tables::video_guard))]
pub fn video_guard_words(words: &[Word; 3]) -> u8
    ensures count { result ≡ video_words (column_of words.now) }
    ensures most { result ≤ 3 }
{
    let blue = words[0].value() == VIDEO_GUARD[0];
    let green = words[1].value() == VIDEO_GUARD[1];
    let red = words[2].value() == VIDEO_GUARD[2];
    u8::from(blue) + u8::from(green) + u8::from(red)
}

/// How many of the words of lanes 1 and 2 are the guard word of a data island (HDMI 1.4, section 5.2.3.3).
#[tactic(auto, unfolding(crate::specs::Columns::closing_words, crate::specs::Columns::one_if, crate::specs::Tables::island_guard))]
pub fn closing_guard_words(words: &[Word; 3]) -> u8
    ensures count { result ≡ closing_words (column_of words.now) }
    ensures most { result ≤ 2 }
{
    let green = words[1].value() == ISLAND_GUARD;
    let red = words[2].value() == ISLAND_GUARD;
    u8::from(green) + u8::from(red)
}

/// How many of the words of lanes 0, 1 and 2 are those that open and close a data island (HDMI 1.4, section 5.2.3.3):
/// three are in a column of kind `IslandGuard`, fewer where words were received damaged.
#[tactic(auto, unfolding(crate::specs::Columns::island_words, crate::specs::Columns::one_if))]
pub fn island_guard_words(words: &[Word; 3]) -> u8
    ensures count { result ≡ island_words (column_of words.now) }
    ensures most { result ≤ 3 }
{
    u8::from(is_island_guard_on_blue(words[0])) + closing_guard_words(words)
}

/// How many of three words are control words.
fn controls(blue: Word, green: Word, red: Word) -> u8
    ensures { result ≡ one_if (is_control blue) + one_if (is_control green) + one_if (is_control red) }
{
    u8::from(is_control_word(blue))
        + u8::from(is_control_word(green))
        + u8::from(is_control_word(red))
}

/// Whether a word is one of the four control words.
pub fn is_control_word(word: Word) -> bool
    ensures { result ≡ is_control word }
{
    control_of(word).is_some()
}

/// Whether a word is a TERC4 word of 12 to 15.
fn is_island_guard_on_blue(word: Word) -> bool
    ensures { result ≡ is_twelve_or_more (value_in terc_words word) }
{
    match nibble(word) {
        Some(value) => value >= 12,
        None => false,
    }
}
