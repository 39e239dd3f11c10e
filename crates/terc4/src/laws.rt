//! What holds of the words of the tables. The functions do nothing: what they ensure is the law.
ghost use Rattle.terc4.specs.Tables.{control_words, terc_words};
ghost use Rattle.terc4.specs.Laws.{ControlTurns, TercTurns, GuardTurns, FewTurns, TercApart, GuardApart, IslandGuardApart, AreDistinct, ControlShape, ControlOverlap, VideoGuardWords, IslandGuardWords, HasExample};

/// A control word has seven or eight turns.
pub fn control_turns()
    ensures { ControlTurns }
{}

/// A TERC4 word has at most five turns.
pub fn terc_turns()
    ensures { TercTurns }
{}

/// A guard word has at most five turns.
pub fn guard_turns()
    ensures { GuardTurns }
{}

/// A word of at most five turns is no control word.
pub fn few_turns()
    ensures { FewTurns }
{}

/// No TERC4 word is a control word.
pub fn terc_apart()
    ensures { TercApart }
{}

/// No guard word is a control word.
pub fn guard_apart()
    ensures { GuardApart }
{}

/// The island guard word of lanes 1 and 2 is no TERC4 word.
pub fn island_guard_apart()
    ensures { IslandGuardApart }
{}

/// The four control words are distinct.
pub fn control_distinct()
    ensures { AreDistinct control_words }
{}

/// The sixteen TERC4 words are distinct.
pub fn terc_distinct()
    ensures { AreDistinct terc_words }
{}

/// A control word is sent as two like bits, then seven bits each unlike the one before, then a
/// tenth bit.
pub fn control_shape()
    ensures { ControlShape }
{}

/// The last bits of a control word are the first bits of a control word only where they are none,
/// one, two or all ten.
pub fn control_overlap()
    ensures { ControlOverlap }
{}

/// A column is a guard column where all three of its words are those of one.
pub fn guard_words()
    ensures video { VideoGuardWords }
    ensures island { IslandGuardWords }
{}

/// There are words that meet the premises of these laws.
pub fn has_example()
    ensures { HasExample }
{}
