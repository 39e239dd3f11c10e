//! Finds the edges of a lane: the places where runs of at least twelve control characters end.
//!
//! `EdgeFinder::seek` returns exactly the next edge, over any parts of the lane's bits. Most characters are passed many at a
//! time by a quick test.
#![tactic(auto)]

mod finder;
pub mod laws;
mod stretches;
mod window;

pub use finder::EdgeFinder;
pub use window::word_at;
