//! The characters that are not pixels: control, TERC4 and guard characters (HDMI 1.4, chapter 5).
//!
//! The tables are those of the standard. No control character is a TERC4 or guard character, and the island guard character of
//! lanes 1 and 2 is no TERC4 character. `column_kind` returns the kind of a column, and the guard functions return how many of
//! its characters are correct. Laws give the transitions of these characters, and where two control characters can overlap.
#![tactic(auto)]

mod columns;
pub mod laws;
mod tables;
mod values;

pub use columns::{
    ColumnKind, closing_guard_words, column_kind, is_control_column, is_control_word,
    is_island_guard, is_video_guard, island_guard_words, video_guard_words,
};
pub use values::{control, control_of, nibble, nibble_code, terc};

/// How many control words stand in a row at least in each control period: locks and edges stand on as many (HDMI 1.4,
/// section 5.4.2).
pub const RUN: u32 = 12;
