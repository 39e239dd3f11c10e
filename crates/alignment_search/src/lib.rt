//! Finds the full alignments of three lanes one after another.
//!
//! An `AlignmentFinder` gets the bits of the lanes in any parts. It returns exactly the full alignments in the order of their
//! greatest edges: each that the lanes have, also if two share edges, and none twice. It takes the next edge of each lane from
//! an `EdgeFinder` and compares the three.
#![tactic(auto)]

mod finder;
mod lane;
pub mod laws;

pub use finder::{AlignmentFinder, LaneParts};
pub use lane::LanePart;
