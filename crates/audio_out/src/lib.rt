//! Sound as a biphase stream: subframes of IEC 60958-1, and the channel status of blocks.
//!
//! A subframe is written as the one list of eight bytes that it has. `read_subframe` returns it, and nothing exactly if the
//! bytes are no subframe. The bytes of an `Encoder` are the frames of its samples, from the first start of a block on. `Blocks`
//! returns the status of a block exactly at the 192nd sample of a run of which only the first starts a block. Nothing is
//! allocated.
#![tactic(auto)]

mod blocks;
mod encoder;
pub mod laws;
mod subframe;
mod tables;

pub use blocks::{BlockStatus, Blocks};
pub use encoder::Encoder;
pub use subframe::{Mark, Subframe, read_subframe, write_subframe};
