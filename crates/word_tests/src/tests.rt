//! Worked rows, and rows of models in other languages.

mod bit_rows;
mod block_rows;
mod blocks;
mod bytes;
mod characters;
mod coding;
mod columns;
mod frame_lists;
mod frames;
mod kinds;
mod vectors;
