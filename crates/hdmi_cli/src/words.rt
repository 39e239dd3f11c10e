//! The words of the command line.
ghost use Rattle.std.specs.Prelude.{◌≡◌, ◌++◌, ◌∷◌, [], IfOk, MatchOption, OnOk, OnErr};
ghost use Rattle.command_line.specs.Commands.{IsCommand as IsLine};

use command_line::{Command, read_command};
use outside_io::NoMemory;
use std::alloc::Global;
use std::marker::Model;

/// The words after the program's name, in order.
#[derive(Drop)]
pub struct Words {
    alloc: Global,
    list: Vec<String>,
}

impl Model for Words {
    ghost use Rattle.std.specs.Prelude.{List, ℕ, map, string_bytes};

    ghost Value = { List (List ℕ) };

    ghost view = { λ w. map string_bytes w.list.items };
}

impl Words {
    /// No words yet; keeps the allocator for its growth.
    pub fn new(alloc: Global) -> Words
        ensures { result ≡ [] }
    {
        Words {
            alloc,
            list: Vec::new(alloc),
        }
    }

    /// Appends a word. After a refusal the words are as before.
    pub fn push(&mut self, word: &str) -> Result<(), NoMemory>
        ensures ok { OnOk result (self.new ≡ self.old ++ word.now ∷ []) }
        ensures err { OnErr result (self.new ≡ self.old) }
    {
        let text = String::from_str(self.alloc, word)?;
        self.list.push(text)?;
        Ok(())
    }

    /// The command that they name; none where they are of no command's form.
    pub(crate) fn command(&self) -> Result<Option<Command>, NoMemory>
        ensures { IfOk result (λ answer. MatchOption answer ((c : Command) → IsLine self.now c → ⊥) (λ c. IsLine self.now c)) }
    {
        read_command(self.alloc, self.list.as_slice())
    }
}
