//! Tests of what is listed, read and counted: of `listing_writer`, `listing_reader`, `sampling`, `biphase_listing` and `c_capture`.
#![tactic(auto)]

#[cfg(test)]
mod buffers;
#[cfg(test)]
mod counting;
#[cfg(test)]
mod events;
#[cfg(test)]
mod frames;
#[cfg(test)]
mod reading;
#[cfg(test)]
mod writing;
