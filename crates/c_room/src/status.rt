//! What a call answers.
ghost use Rattle.std.specs.Prelude.{◌≡◌};
ghost use Rattle.c_room.specs.Statuses.{code_of};

/// What a call answers.
#[derive(Clone, Copy, Drop)]
pub enum Status {
    /// All was done.
    Done,
    /// There was no room for the rest.
    Full,
    /// The call does not fit what was called before, or its bits do not fit those before.
    Misuse,
    /// Too many bits.
    TooMany,
    /// The memory is not there.
    NoMemory,
}

impl Status {
    /// Its number.
    pub fn code(self) -> i32
        ensures { result ≡ code_of self }
    {
        match self {
            Status::Done => 0,
            Status::Full => 1,
            Status::Misuse => 2,
            Status::TooMany => 3,
            Status::NoMemory => 4,
        }
    }
}
