//! Short lanes, compared with values that were computed apart from these crates.

mod alignment_cases;
mod alignment_rows;
mod alignments;
mod edges;
mod reference;
mod strays;
mod teams;
mod word_rows;
mod words;
