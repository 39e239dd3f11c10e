//! Tests of `capture_file`: captures that are written, read, damaged and cut, and devices that fail.
#![tactic(auto)]

#[cfg(test)]
mod tests;
