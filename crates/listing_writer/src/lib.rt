//! Writes listings: of a link, of a check, and of a content.
//!
//! The listers are ears that write. The sink grows by exactly the lines of the events reported, or the line of a slip
//! (`LinkLister::slip`), and faults are counted. A lister that fails has counted nothing for that line. The lines of a content
//! listing are those of the whole list of events (`content_text`).
#![tactic(auto)]

mod checker;
mod content_info;
mod content_lines;
mod content_lister;
mod content_packets;
mod content_state;
mod digit_pairs;
mod line;
mod lister;
mod packet_line;

pub use checker::CheckLister;
pub use content_lister::ContentLister;
pub use line::TextLine;
pub use lister::LinkLister;
