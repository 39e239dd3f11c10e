//! Lists the frames of a biphase stream, and writes the biphase stream of a link's samples.
//!
//! `list_biphase` writes the lines of the frames, or of the whole frames before the first fault, in whatever pieces the source
//! gives them, and allocates nothing. After the greatest number of frames exactly one byte is read. A `BiphaseLister` writes
//! the stream of a pair's samples and counts packets with a lost block. Bytes are the stream of at most one list of samples,
//! except the mark of flat lines.
#![tactic(auto)]

mod fault;
mod frame_line;
mod frame_lines;
pub mod laws;
mod lister;
mod reading;
mod side;
mod text;

pub use fault::{BiphaseError, BiphaseFault};
pub use lister::BiphaseLister;
pub use reading::list_biphase;
