//! What is read of the tables' texts.

mod content_rows;
mod contents;
mod links;
mod reading_rows;
mod sources;
