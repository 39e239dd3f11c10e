//! Laws on the transitions of lists of bits, over the definitions alone.
ghost use Rattle.tmds_word.specs.Cuts.{PartsBelow, CutAbove, PieceBelow, PartOfWord, CalmBelow, HasExample};

/// A list that is cut into parts has at least the turns of its parts.
pub fn parts_below()
    ensures { PartsBelow }
{}

/// A list that is cut into k parts, k at least 1, has at most their turns and k - 1 more.
pub fn cut_above()
    ensures { CutAbove }
{}

/// A piece of a list has at most the list's turns.
pub fn piece_below()
    ensures { PieceBelow }
{}

/// A part of n bits in a character of at most five turns has at most the lesser of 5 and n - 1.
pub fn part_of_word()
    ensures { PartOfWord }
{}

/// A list that is cut into parts of at most five turns has fewer turns than the lesser of 6 and the
/// length of each part, summed.
pub fn calm_below()
    ensures { CalmBelow }
{}

/// There are parts and a character that meet the premises of these laws.
pub fn has_example()
    ensures { HasExample }
{}
