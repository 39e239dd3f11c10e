//! Three lanes whose characters arrive piece by piece, and the columns that they carry from their first
//! full alignment on.

ghost use Rattle.std.specs.Prelude.{ℕ, ◌≡◌, ◌<◌, ◌≤◌, ◌+◌, ◌-◌, ◌*◌, ◌^◌, ◌↔◌, ◌++◌, List, [], IsTrue, IfSome, MatchOption, Some, None, length, take, drop, slice_index, true, min, cond, is_some};
ghost use Rattle.lane_align.specs.Words.{AreWords};
ghost use Rattle.lane_deskew.specs.Pushed.{History, no_history, pushed, ended, settled, consumed, AreEven, IsPastTriple, IsPastAlignment, AreKnown, Awaits, IsAligned, DeskewRepresents, CanPush, kept_of, IsCut, reach_of, ready_of, past_columns};
ghost use Rattle.tmds_word.specs.Lent.{columns_in};
ghost use Rattle.lane_deskew.specs.Stretches.{IsStretchTriple, AreFirstAt};
ghost use Rattle.lane_deskew.specs.declared.Aligned.{Aligned};

use crate::lane::DeskewLane;
use crate::stretch::first_triple;
use crate::{Aligned, RUN};
use lane_align::ROW_WORDS;
use std::marker::Model;
use tmds_word::Columns;

/// Lines three lanes up. It is seen as where they are aligned and what is kept of each.
#[derive(Drop)]
pub struct Deskew {
    pub(crate) blue: DeskewLane,
    pub(crate) green: DeskewLane,
    pub(crate) red: DeskewLane,
    found: Option<Aligned>,
}

impl Model for Deskew {
    ghost use Rattle.lane_deskew.specs.Seen.{Seen, held_of};

    ghost Value = { Seen };

    ghost view = { λ d. record {
      blue = held_of d.blue;
      green = held_of d.green;
      red = held_of d.red;
      found = d.found;
    } };
}

impl Deskew {
    /// A deskew to which nothing was pushed. Its rows are within it: it takes no memory.
    pub fn open() -> Deskew
        ensures stands { DeskewRepresents result no_history }
        ensures found { result.found ≡ None }
    {
        Deskew {
            blue: DeskewLane::open(),
            green: DeskewLane::open(),
            red: DeskewLane::open(),
            found: None,
        }
    }

    /// Makes it as after `open`.
    pub fn restart(&mut self)
        ensures stands { DeskewRepresents self.new no_history }
        ensures found { self.new.found ≡ None }
    {
        self.blue.clear();
        self.green.clear();
        self.red.clear();
        self.found = None;
    }

    /// Appends characters of a lane, whose first one of all stands at its lock, so many bits from the
    /// lane's first. The lock is the lane's in every call, no more than 4,160 characters are kept,
    /// and none arrive of a lane that has ended.
    pub fn push(&mut self, lane: u8, lock: u64, words: &[u16])
        requires lane { lane < 3 }
        requires words { AreWords words.now }
        requires push { CanPush self.old lane lock words.now }
        ensures stands { (p : History) → DeskewRepresents self.old p → DeskewRepresents self.new (pushed lane lock words.now p) }
        ensures found { self.new.found ≡ self.old.found }
    {
        let reach = self.room();
        match lane {
            0 => self.blue.push(lock, words, reach),
            1 => self.green.push(lock, words, reach),
            _ => self.red.push(lock, words, reach),
        }
    }

    /// Notes that a lane gets no more characters.
    pub fn end(&mut self, lane: u8)
        requires { lane < 3 }
        ensures stands { (p : History) → DeskewRepresents self.old p → DeskewRepresents self.new (ended lane p) }
        ensures found { self.new.found ≡ self.old.found }
    {
        self.mark(lane);
        if self.found.is_some() {
            self.cut();
        }
    }

    /// Marks a lane as ended.
    fn mark(&mut self, lane: u8)
        requires { lane < 3 }
        ensures known { (p : History) → AreKnown self.old p → AreKnown self.new (ended lane p) }
        ensures blue { self.new.blue.kept ≡ self.old.blue.kept }
        ensures green { self.new.green.kept ≡ self.old.green.kept }
        ensures red { self.new.red.kept ≡ self.old.red.kept }
        ensures found { self.new.found ≡ self.old.found }
    {
        match lane {
            0 => self.blue.end(),
            1 => self.green.end(),
            _ => self.red.end(),
        }
    }

    /// How many characters of a lane are kept.
    pub fn held(&self, lane: u8) -> usize
        requires { lane < 3 }
        ensures held { result ≡ length (kept_of self.now lane) }
        ensures within { result ≤ ROW_WORDS }
    {
        match lane {
            0 => self.blue.held(),
            1 => self.green.held(),
            _ => self.red.held(),
        }
    }

    /// The first full alignment of all characters pushed so far; None exactly where they have none. Until
    /// there is one, the lanes are to be pushed evenly.
    pub fn settle(&mut self) -> Option<Aligned>
        ensures stands { (p : History) → DeskewRepresents self.old p → (self.old.found ≡ None → AreEven p) → DeskewRepresents self.new (settled p) }
        ensures answer { (p : History) → DeskewRepresents self.old p → (self.old.found ≡ None → AreEven p) → MatchOption result ((d e f : ℕ) → IsPastTriple p d e f → ⊥) (λ at. IsPastAlignment p at.edges) }
        ensures few { result ≡ None → (lane : ℕ) → length (kept_of self.new lane) ≤ 32 }
        ensures found { self.new.found ≡ result }
    {
        if self.found.is_some() {
            return self.found;
        }
        let found = self.seek();
        self.found = found;
        found
    }

    /// Looks for it in what is kept.
    fn seek(&mut self) -> Option<Aligned>
        ensures known { (p : History) → AreKnown self.old p → AreKnown self.new (settled p) }
        ensures few { result ≡ None → (lane : ℕ) → length (kept_of self.new lane) ≤ 32 }
        ensures found { (p : History) → AreKnown self.old p → Awaits self.old p → AreEven p → MatchOption result (Awaits self.new (settled p)) (λ at. IsAligned self.new (settled p) at.edges) }
    {
        self.blue.gather();
        self.green.gather();
        self.red.gather();
        let places = [self.blue.place(), self.green.place(), self.red.place()];
        match self.look(places) {
            Some(at) => {
                let [i, j, k] = at;
                let edges = [
                    places[0] + 10 * i as u64,
                    places[1] + 10 * j as u64,
                    places[2] + 10 * k as u64,
                ];
                self.blue.consume(i - RUN);
                self.green.consume(j - RUN);
                self.red.consume(k - RUN);
                self.cut();
                Some(Aligned { edges })
            }
            None => {
                self.blue.rest();
                self.green.rest();
                self.red.rest();
                None
            }
        }
    }

    /// The characters at the edges of the first full alignment of the rows, whose first characters lie at
    /// three places; None exactly where they have none.
    fn look(&self, places: [u64; 3]) -> Option<[usize; 3]>
        requires blue { slice_index places 0 + 10 * length self.now.blue.kept.row < 2 ^ 63 }
        requires green { slice_index places 1 + 10 * length self.now.green.kept.row < 2 ^ 63 }
        requires red { slice_index places 2 + 10 * length self.now.red.kept.row < 2 ^ 63 }
        ensures { MatchOption result ((d e f : ℕ) → IsStretchTriple places self.now.blue.kept.row self.now.green.kept.row self.now.red.kept.row d e f → ⊥)
            (λ at. AreFirstAt places self.now.blue.kept.row self.now.green.kept.row self.now.red.kept.row at) }
    {
        let blue = self.blue.words();
        let green = self.green.words();
        let red = self.red.words();
        first_triple(blue, green, red, places)
    }

    /// Where the lanes are aligned, as the last settling found it.
    pub fn found(&self) -> Option<Aligned>
        ensures { result ≡ self.now.found }
    {
        self.found
    }

    /// The columns that are aligned and not consumed; none before the alignment.
    pub fn columns(&self) -> Columns<'_>
        ensures count { length (columns_in result) ≡ ready_of self.now }
        ensures before { self.now.found ≡ None → columns_in result ≡ [] }
        ensures columns { (p : History) (at : Aligned) → DeskewRepresents self.now p → self.now.found ≡ Some at
            → columns_in result ≡ drop p.taken (past_columns p at.edges) }
    {
        let n = self.ready();
        let blue = self.blue.words();
        let green = self.green.words();
        let red = self.red.words();
        Columns::new(&blue[..n], &green[..n], &red[..n])
    }

    /// Drops the first columns.
    pub fn consume(&mut self, n: usize)
        requires { n ≤ ready_of self.old }
        ensures ready { ready_of self.new ≡ ready_of self.old - n }
        ensures stands { (p : History) → DeskewRepresents self.old p → DeskewRepresents self.new (consumed n p) }
        ensures found { self.new.found ≡ self.old.found }
    {
        self.blue.consume(n);
        self.green.consume(n);
        self.red.consume(n);
    }

    /// Drops what no column can reach since a lane has ended.
    fn cut(&mut self)
        ensures blue { IsCut (reach_of self.old) self.old.blue self.new.blue }
        ensures green { IsCut (reach_of self.old) self.old.green self.new.green }
        ensures red { IsCut (reach_of self.old) self.old.red self.new.red }
        ensures found { self.new.found ≡ self.old.found }
    {
        let reach = self.reach();
        self.blue.truncate(reach);
        self.green.truncate(reach);
        self.red.truncate(reach);
    }

    /// How many characters of each lane a column can reach.
    fn reach(&self) -> usize
        ensures { result ≡ reach_of self.now }
    {
        self.blue
            .limit()
            .min(self.green.limit().min(self.red.limit()))
    }

    /// How many columns can be lent.
    fn ready(&self) -> usize
        ensures { result ≡ ready_of self.now }
    {
        if self.found.is_some() {
            let blue = self.blue.words().len();
            let green = self.green.words().len();
            let red = self.red.words().len();
            blue.min(green.min(red))
        } else {
            0
        }
    }

    /// How many characters of a lane are to be kept.
    fn room(&self) -> usize
        ensures { result ≡ cond (is_some self.now.found) (reach_of self.now) (2 ^ 64 - 1) }
    {
        if self.found.is_some() {
            self.reach()
        } else {
            usize::MAX
        }
    }
}
