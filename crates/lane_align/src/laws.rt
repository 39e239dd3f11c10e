//! Laws on locks and edges. The functions do nothing: what they ensure is the law.
ghost use Rattle.lane_align.specs.Words.{WordsAreWindows, WordEdges, EdgeWords};
ghost use Rattle.lane_align.specs.Laws.{OneLock, OneFirstRun, EdgesApart, RunTurns, NoFalseLock, TapLock, HasExample};

/// A row has at most one lock.
pub fn one_lock()
    ensures { OneLock }
{}

/// A row has at most one first run of those that `first_run` looks for.
pub fn one_first_run()
    ensures { OneFirstRun }
{}

/// Two edges of one row are at least `EDGE_DISTANCE` bits apart.
pub fn edges_apart()
    ensures { EdgesApart }
{}

/// Twelve control words in a row have at least 84 turns.
pub fn run_turns()
    ensures { RunTurns }
{}

/// In the bits of a lane of whose characters at most two in eleven were received damaged, twelve control words
/// in a row begin where a character begins.
pub fn no_false_lock()
    ensures { NoFalseLock }
{}

/// So they do in a part of those bits.
pub fn tap_lock()
    ensures { TapLock }
{}

/// There are lanes that meet the premises of these laws, with a marked character among theirs.
pub fn has_example()
    ensures { HasExample }
{}

/// The edges of a lane are those of its characters from the lock on.
pub fn word_edges()
    ensures { WordEdges }
{}

/// The characters from an edge's run on are the last of those from the lock on.
pub fn edge_words()
    ensures { EdgeWords }
{}

/// Character j of a lane from a place on is the window ten times j bits past the place.
pub fn words_are_windows()
    ensures { WordsAreWindows }
{}
