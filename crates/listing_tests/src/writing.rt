//! What listers write of the tables' events.

mod content_rows;
mod contents;
mod link_rows;
mod links;
