//! Tests of `command_line`: words of the command line, and what they name.
#![tactic(auto)]

#[cfg(test)]
mod rows;
#[cfg(test)]
mod tests;
