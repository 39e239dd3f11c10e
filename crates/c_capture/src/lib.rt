//! Whole captures behind `vabgrot.h`: the program's listings and captures in a buffer of the caller's.
//!
//! For every input the buffer has exactly what the program's command writes, or its first bytes, and `size` says how many there
//! are. From a listing that is refused it has the note. What `make` writes is a capture that the theorem speaks of. The
//! commands run on the caller's own thread (`InTurn`) and write into memory that grows, which is then copied.
#![tactic(auto)]

mod calls;
mod maker;
mod making;
mod reader;
mod status;
mod tap;
mod text_sink;

pub use calls::{Listed, check, recover};
pub use maker::Maker;
pub use making::make;
pub use reader::Reader;
pub use status::ListingStatus;
pub use tap::{LentTap, Skews};
