//! What a call answers.
ghost use Rattle.std.specs.Prelude.{◌≡◌};
ghost use Rattle.c_capture.specs.Statuses.{code_of, status_of, has_text};

use capture_commands::Ending;

/// What a call answers.
#[derive(Clone, Copy, Drop)]
pub enum ListingStatus {
    /// All was listed, and it has no faults.
    Done,
    /// The buffer has no room for all that was listed.
    Full,
    /// No reader has this number, or no maker, or there is no such tap.
    Misuse,
    /// The memory is not there.
    NoMemory,
    /// All was listed, and it has faults.
    Faulty,
    /// The bytes are no capture: what the whole blocks before the fault say was listed.
    NoCapture,
    /// The lanes have no full alignment.
    Unaligned,
    /// The bytes are no listing.
    NoListing,
}

impl ListingStatus {
    /// What it is where a reader ends so. No read of memory fails, and no write but for want of memory.
    pub fn of(ending: Ending) -> ListingStatus
        ensures { result ≡ status_of ending }
    {
        match ending {
            Ending::Done => ListingStatus::Done,
            Ending::Faulty => ListingStatus::Faulty,
            Ending::Capture(_) => ListingStatus::NoCapture,
            Ending::Unaligned => ListingStatus::Unaligned,
            _ => ListingStatus::NoMemory,
        }
    }

    /// Whether all was listed that there is to list.
    pub fn has_text(self) -> bool
        ensures { result ≡ has_text self }
    {
        match self {
            ListingStatus::Done => true,
            ListingStatus::Faulty => true,
            ListingStatus::NoCapture => true,
            ListingStatus::Unaligned => true,
            _ => false,
        }
    }

    /// Its number.
    pub fn code(self) -> i32
        ensures { result ≡ code_of self }
    {
        match self {
            ListingStatus::Done => 0,
            ListingStatus::Full => 1,
            ListingStatus::Misuse => 2,
            ListingStatus::NoMemory => 4,
            ListingStatus::Faulty => 5,
            ListingStatus::NoCapture => 6,
            ListingStatus::Unaligned => 7,
            ListingStatus::NoListing => 8,
        }
    }
}
