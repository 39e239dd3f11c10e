//! When an alignment is doubted. Each law is over definitions alone.
ghost use Rattle.relock_laws.specs.Doubted.{PayloadHasNoContender, SlipHasNoContender, UntilIsUndoubted, ClearHasNoContender, DoubtsAtWhole, HasUndoubtedExample};

/// By the alignment of a tap whose damage lies only in pixels and packets no control period ends in the midst of edges of another
/// skew at which a guard band is received whole.
pub fn payload_has_no_contender()
    ensures { PayloadHasNoContender }
{}

/// Nor does one by the first alignment where a lane slips once within a line.
pub fn slip_has_no_contender()
    ensures { SlipHasNoContender }
{}

/// Where damage is sparse, wherever it lies, spares control and guard characters until a column that each lane has, and from there on
/// the beginning or the end of each control period, the alignment of a tap is not doubted.
pub fn until_is_undoubted()
    ensures { UntilIsUndoubted }
{}

/// Nor does one if any characters are received after the alignment. But near the end of a control period none may be received as a
/// control or guard character that it was not.
pub fn clear_has_no_contender()
    ensures { ClearHasNoContender }
{}

/// Each earlier alignment with another skew is doubted at a control period of nineteen characters that is received whole, from three
/// characters before it to fifteen after it: it is dropped there at the latest.
pub fn doubts_at_whole()
    ensures { DoubtsAtWhole }
{}

/// The premises can be met: a stream with a damaged pixel beside the end of a control period, and a tap of it.
pub fn undoubted_example()
    ensures { HasUndoubtedExample }
{}
