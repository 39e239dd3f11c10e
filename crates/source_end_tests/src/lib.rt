//! Tests of `source_end`: lists of items, their columns, and rasters.
#![tactic(auto)]

#[cfg(test)]
mod tests;
