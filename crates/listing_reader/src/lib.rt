//! Reads listings: of a link, of a link without guard bands, and of a content.
//!
//! The answer is what the whole text reads as (`reads_as`, `dvi_reads_as`, `content_reads_as`), in whatever pieces the source
//! gives it. It is the items; or the mode and the frames, or the first fault of their raster. If a line is wrong, it is the
//! first such line and its first cause. If a read fails, `LineReader` loses no byte.
#![tactic(auto)]

mod content_digits;
mod content_fields;
mod content_form;
mod content_reader;
mod digits;
mod dvi_reader;
mod fault;
mod form;
pub mod laws;
mod lines;
mod packet;
mod periods;
mod pixels;
mod read;
mod reader;
mod teller;
mod text;

pub use fault::{ListCause, ListError, ListFault};
pub use lines::{LineReader, Piece};
pub use read::{read_content, read_dvi, read_link};
