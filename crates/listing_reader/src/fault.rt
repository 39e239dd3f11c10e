//! What a listing is refused for.

/// The cause of a refused line, tried in this order.
#[derive(Clone, Copy)]
pub enum ListCause {
    /// A fault line or a cut line, which only a receiver writes.
    Fault,
    /// A line of no form, or of more than 32,768 bytes.
    Form,
    /// A number or a digit out of its range, or a video period of no pixel or of more than 4,096.
    Range,
    /// A line that does not follow the line before it.
    Order,
    /// A control period of fewer than twelve columns.
    Control,
    /// The preamble of a video period is missing.
    Preamble,
    /// A size that is not the mode's.
    Size,
    /// More than 20,000,000 columns, or a text of more than 4,294,967,295 bytes.
    Long,
    /// The input ends before the line feed of the line `end`.
    Unended,
    /// A byte follows the line `end`.
    After,
}

/// The first wrong line, counted from 1, and its cause.
#[derive(Clone, Copy)]
pub struct ListFault {
    pub line: u32,
    pub cause: ListCause,
}

/// Why a listing was not read.
#[derive(Clone, Copy)]
pub enum ListError {
    /// It is no listing.
    Bad(ListFault),
    /// A read failed.
    Read,
    /// Want of memory.
    NoMemory,
}
