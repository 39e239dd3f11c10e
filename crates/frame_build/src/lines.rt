//! The lines of a group.

ghost use Rattle.std.specs.Prelude.{◌≡◌, ◌++◌, ◌∷◌, [], List, ℕ, Bool, false, true, ◌&&◌, length, if◌then◌else◌};
ghost use Rattle.frame_build.specs.Group.{frame_of, is_unlike, reported_count};
ghost use Rattle.frame_build.specs.FramesRepresent.{IsGroup};

use super::{FrameNote, LineNote};
use std::marker::Model;

/// Whether the group counts, its first line's width, and its number of lines, which stops at the greatest `u32`.
#[derive(Clone, Copy)]
pub struct Lines {
    counts: bool,
    first: Option<u32>,
    count: u32,
}

impl Model for Lines {
    ghost use Rattle.frame_build.specs.State.{Lines as Seen};

    ghost Value = { Seen };

    ghost view = { λ l. record { counts = l.counts; first = l.first; count = l.count } };

    ghost inverse = { λ l. record { counts = l.counts; first = l.first; count = l.count } };
}

impl Lines {
    pub fn new() -> Lines
        ensures { IsGroup result false [] }
    {
        Lines {
            counts: false,
            first: None,
            count: 0,
        }
    }

    /// Ends the group at a change, and begins one that counts. The answer is the frame of the one that ended, if
    /// it counts and has a line.
    pub fn end(&mut self) -> Option<FrameNote>
        ensures next { IsGroup self.new true [] }
        ensures frame { (counting : Bool) (widths : List ℕ) → IsGroup self.old counting widths → result ≡ (if counting then frame_of widths else None) }
    {
        let ended = *self;
        self.counts = true;
        self.first = None;
        self.count = 0;
        if ended.counts {
            let height = ended.count;
            ended.first.map(|width| FrameNote { width, height })
        } else {
            None
        }
    }

    /// Adds a line to the group.
    pub fn add(&mut self, width: u32) -> LineNote
        ensures more { (counting : Bool) (widths : List ℕ) → IsGroup self.old counting widths → IsGroup self.new counting (widths ++ width ∷ []) }
        ensures counts { (counting : Bool) (widths : List ℕ) → IsGroup self.old counting widths → result.counts ≡ counting }
        ensures ragged { (counting : Bool) (widths : List ℕ) → IsGroup self.old counting widths → result.ragged ≡ (counting && is_unlike widths width) }
        ensures row { (counting : Bool) (widths : List ℕ) → IsGroup self.old counting widths → result.row ≡ reported_count (length widths) }
    {
        let first = *self.first.get_or_insert(width);
        let row = self.count;
        self.count = row.saturating_add(1);
        LineNote {
            counts: self.counts,
            ragged: self.counts && width != first,
            row,
        }
    }
}
