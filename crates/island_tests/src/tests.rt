//! Worked rows, and rows of independent models of the formats.

mod audio;
mod biphase;
mod hearings;
mod info_rows;
mod infoframes;
mod packet_rows;
mod packets;
mod rows;
