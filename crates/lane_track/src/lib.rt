//! Finds strays: control characters at another bit phase than the lane's own.
//!
//! `Scout::seek` returns exactly the first stray of a lane, over parts of its bits. Laws over definitions say that a lane with
//! few damaged characters has no stray, and that in a lane that loses bits once the strays are the runs after the loss.
#![tactic(auto)]

mod ahead;
pub mod laws;
mod scout;

pub use ahead::{eight_bytes, next_run};
pub use scout::Scout;
