//! Writes the columns of one part of a link into three rows of the caller's.
//!
//! For a run, a guard or a packet these are exactly its columns, for a line columns that spell its pixels. They are in the
//! first places of the rows; the rest keeps its values. If a row is too short, or there is no such part, no row changes
//! (`Lays`).
#![tactic(auto)]

mod calls;
mod laid;
mod rows;

pub use calls::{
    encode_island_guard, encode_packet, encode_pixels, encode_run, encode_video_guard,
};
pub use laid::{Laid, RowStatus};
