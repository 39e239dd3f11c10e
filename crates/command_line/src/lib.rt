//! Reads the words of the command line.
//!
//! The first word is the command. Its operands follow, in order, and its options, which may be between and around them, each at
//! most once, as `--name VALUE` or `--name=VALUE`. After the word `--` each word is an operand. `read_command` accepts exactly
//! this grammar, and words name at most one command. `clap` takes the words apart; that it agrees with the grammar is proved
//! for all lists of words.
#![tactic(auto)]

mod command;
mod damage;
mod forms;
pub mod laws;
mod numbers;
mod options;
mod slip;
mod tap;

pub use command::{Command, read_command};
pub use damage::{DamageWord, Damages};
pub use slip::SlipWord;
pub use tap::{SKEW_LIMIT, TapWords};
