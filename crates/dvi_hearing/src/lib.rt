//! Turns the columns of a stream without preambles and guard bands into events (DVI 1.0).
//!
//! The events of a `DviHearing` are exactly those that the whole list of columns has by definition. A `DviSink` reports them of
//! the bits of three lanes, in whatever feeds they arrive, and can be restarted.
#![tactic(auto)]

mod hearing;
pub mod laws;
mod phase;
mod sink;

pub use hearing::DviHearing;
pub use sink::DviSink;
