//! The generator's content after damage and recovery, counted (`sample`).
//!
//! `hits_of` returns the hits that the definition gives for the generator's capture. The counts of a `Tally` are those of the
//! content listing of all that was reported to it, whatever that is. If a raster is received from after its first sync lines
//! on, the frames reported are those after the first, in order, if their sync lines are received. The ten lines are written
//! whole, or a part of them if a write fails.
#![tactic(auto)]

mod counter;
mod counts;
mod hits;
pub mod laws;
mod pictures;
mod tally;

pub use counts::{Counts, write_counts};
pub use hits::hits_of;
pub use tally::Tally;
