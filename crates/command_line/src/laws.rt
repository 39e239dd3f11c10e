//! What holds of all words. The function does nothing: what it ensures is the law.
ghost use Rattle.command_line.specs.Laws.{OneCommand};

/// Words name one command at most.
pub fn one_command()
    ensures { OneCommand }
{}
