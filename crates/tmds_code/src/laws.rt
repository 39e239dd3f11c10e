//! Laws of the coding, over its definition alone.
ghost use Rattle.tmds_code.specs.Laws.{DecodesCoded, CodedIsMinimized, HasExample};

/// A coded character carries the byte that it codes, at every disparity.
pub fn decodes_coded()
    ensures { DecodesCoded }
{}

/// A coded character has at most five transitions, so it is no control character.
pub fn coded_is_minimized()
    ensures { CodedIsMinimized }
{}

/// There is a character that meets the premises of both.
pub fn has_example()
    ensures { HasExample }
{}
