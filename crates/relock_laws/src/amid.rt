//! A control period that comes whole among any characters.
ghost use Rattle.relock_laws.specs.WholeAmid.{SettlesAmid, RowsAfter, HasAmidExample};

/// Whatever came before a control period that came whole, and whatever is received after it: an epoch has its last twelve columns and its
/// skew, and is the last, and its columns from there on are the received ones. No lane may have a stray from there on, and near the end
/// of a control period no character may be received as a control or guard character that it was not.
pub fn settles_amid()
    ensures { SettlesAmid }
{}

/// Of columns that end with received ones, each line and each island among these that stands alone is reported as its row.
pub fn rows_after()
    ensures { RowsAfter }
{}

/// The premises can be met: a tap after other bits, with columns before the control period and after a line that stands alone of which no character
/// was received as it was sent.
pub fn amid_example()
    ensures { HasAmidExample }
{}
