//! A text has one answer, and a link listing that is taken conforms. The functions have no code: their contracts are the laws.
ghost use Rattle.listing_reader.specs.Laws.{OneContentAnswer, OneLinkAnswer, TakenConforms};

/// Two answers of a reader that fit a text are equal.
pub fn one_answer()
    ensures link { OneLinkAnswer }
    ensures content { OneContentAnswer }
{}

/// The periods of a link listing that is taken conform.
pub fn taken_conforms()
    ensures { TakenConforms }
{}
