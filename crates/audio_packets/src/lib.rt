//! Reads and writes audio packets: clock regeneration and samples (HDMI 1.4, sections 5.3.3 and 5.3.4; IEC 60958-1).
//!
//! Clock numbers, two-channel samples and the samples of one pair of channels of either layout are read exactly, with the
//! parity of each side. A packet is refused because of its first lost block, then for unequal bodies or for its layout. What is
//! written reads back, with even parity on both sides.
#![tactic(auto)]

mod clock;
mod fault;
pub mod laws;
mod reading;
mod sample;
mod writing;

pub use clock::{Acr, read_acr, write_acr};
pub use fault::AudioFault;
pub use reading::{SampleIter, pair, samples};
pub use sample::{Sample, SampleNote};
pub use writing::{side_bits, write_samples};
