//! Characters, bits and columns of a TMDS link.
//!
//! A `Word` is a number below 1,024. A `BitRow` is the list of bits that were pushed, stored as packed bytes; its windows,
//! copies and cuts are those of the list. `Columns` lends columns as three slices, with equally many characters of each lane,
//! and a `ColumnSink` takes them singly or many at a time. The crate defines columns, the characters of bits, parts of a lane's
//! bits, and taps. Its laws are about transitions and balance.
#![tactic(auto)]

mod column;
mod columns;
mod lane_bits;
pub mod laws;
mod packing;
mod row;
mod word;

pub use column::ColumnSink;
pub use columns::Columns;
pub use lane_bits::LaneBits;
pub use packing::pack_four;
pub use row::BitRow;
pub use word::Word;

/// How many bits two lanes of a link may be apart at most: seven characters, fewer than any run of control characters has.
pub const GREATEST_SKEW: u32 = 70;

/// A lane that is received has fewer bits, 2^60: at the 3.4 Gbit/s of HDMI 1.4's fastest link ten years of them. Sums of places
/// and of counts stay far below what 64 bits hold.
pub const MOST_BITS: u64 = 1_152_921_504_606_846_976;

/// No lanes carry more columns: a column takes ten bits of each.
pub const MOST_COLUMNS: u64 = 115_292_150_460_684_698;
