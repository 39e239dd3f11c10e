//! Reads InfoFrames from packets and writes them (CTA-861, section 6; HDMI 1.4, sections 5.3.5 and 8.2).
//!
//! `InfoRef::read` reads an InfoFrame exactly, or refuses the packet because of its first lost block, then its length, then its
//! checksum. The payload is lent, not copied, and nothing is allocated. `write` returns the one packet that says the InfoFrame,
//! and reading it returns what was written.
#![tactic(auto)]

mod content;
mod fields;
pub mod laws;
mod lent;
mod writing;

pub use content::{AudioInfo, Avi, Info, InfoFault, InfoKind, Spd};
pub use lent::InfoRef;
pub use writing::write;
