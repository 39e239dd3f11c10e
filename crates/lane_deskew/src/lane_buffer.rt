//! What is kept of the characters of one lane: at most 4,160, the last 32 of them aside while the lanes wait
//! for their alignment.

ghost use Rattle.std.specs.Prelude.{ℕ, ◌≡◌, ◌<◌, ◌≤◌, ◌+◌, ◌-◌, ◌++◌, List, [], length, take, drop, slice_range};
ghost use Rattle.lane_deskew.specs.Keeping.{keep_last, stored};

use lane_align::ROW_WORDS;
use std::marker::Model;

/// How many are kept from one settling to the next. A new edge of one lane may lie near an edge whose
/// run began 31 characters ago on another.
const LAST: usize = 32;

/// The characters of a lane that are kept.
#[derive(Drop)]
pub(crate) struct LaneBuffer {
    /// The last characters of what was looked through, while the lanes wait.
    aside: [u16; LAST],
    /// How many these are.
    waiting: usize,
    row: [u16; ROW_WORDS],
    /// How many characters of the row are kept.
    len: usize,
}

impl Model for LaneBuffer {
    ghost use Rattle.std.specs.Prelude.{ℕ, ◌≡◌, ◌<◌, ◌≤◌, ◌+◌, [], length, take};
    ghost use Rattle.lane_align.specs.declared.TheConstants.{ROW_WORDS};
    ghost use Rattle.lane_deskew.specs.Keeping.{Stored};

    ghost Value = { Stored };

    ghost view = { λ k. record { ring = take k.waiting k.aside; row = take k.len k.row } };

    ghost invariant = { λ k. (k.waiting ≤ 32) × (k.waiting + k.len ≤ ROW_WORDS) × (0 < k.len → k.waiting ≡ 0) };
}

impl LaneBuffer {
    /// Room for all that is ever kept.
    pub(crate) fn open() -> LaneBuffer
        ensures { result ≡ record { ring = []; row = [] } }
    {
        LaneBuffer {
            aside: [0; LAST],
            waiting: 0,
            row: [0; ROW_WORDS],
            len: 0,
        }
    }

    /// How many are kept.
    pub(crate) fn len(&self) -> usize
        ensures len { result ≡ length (stored self.now) }
        ensures within { result ≤ ROW_WORDS }
    {
        self.waiting + self.row().len()
    }

    /// The row.
    pub(crate) fn row(&self) -> &[u16]
        ensures { result.now ≡ self.now.row }
    {
        &self.row[..self.len]
    }

    /// Moves the characters that are kept aside into the row.
    pub(crate) fn gather(&mut self)
        ensures ring { self.new.ring ≡ [] }
        ensures row { self.new.row ≡ stored self.old }
    {
        if self.waiting > 0 {
            put(&mut self.row, 0, &self.aside[..self.waiting]);
            self.len = self.waiting;
            self.waiting = 0;
        }
    }

    /// Appends characters.
    pub(crate) fn push(&mut self, words: &[u16])
        requires { length (stored self.old) + length words.now ≤ ROW_WORDS }
        ensures ring { self.new.ring ≡ [] }
        ensures row { self.new.row ≡ stored self.old ++ words.now }
    {
        self.gather();
        put(&mut self.row, self.len, words);
        self.len += words.len();
    }

    /// Keeps the last 32 alone, aside.
    pub(crate) fn rest(&mut self)
        requires { self.old.ring ≡ [] }
        ensures ring { self.new.ring ≡ keep_last 32 self.old.row }
        ensures row { self.new.row ≡ [] }
    {
        self.waiting = put_last(&mut self.aside, &self.row[..self.len]);
        self.len = 0;
    }

    /// Drops the first ones of the row.
    pub(crate) fn consume(&mut self, n: usize)
        requires { n ≤ length self.old.row }
        ensures ring { self.new.ring ≡ self.old.ring }
        ensures row { self.new.row ≡ drop n self.old.row }
    {
        move_to_front(&mut self.row, n, self.len);
        self.len -= n;
    }

    /// Keeps the first ones of the row.
    pub(crate) fn truncate(&mut self, n: usize)
        ensures ring { self.new.ring ≡ self.old.ring }
        ensures row { self.new.row ≡ take n self.old.row }
    {
        self.len = self.len.min(n);
    }

    /// Keeps none.
    pub(crate) fn clear(&mut self)
        ensures ring { self.new.ring ≡ [] }
        ensures row { self.new.row ≡ [] }
    {
        self.waiting = 0;
        self.len = 0;
    }
}

/// Puts characters after those before a place.
fn put(row: &mut [u16], at: usize, words: &[u16])
    requires { at + length words.now ≤ length row.old }
    ensures long { length row.new ≡ length row.old }
    ensures put { take (at + length words.now) row.new ≡ take at row.old ++ words.now }
{
    row[at..at + words.len()].copy_from_slice(words);
}

/// Puts the last 32 characters to the front of a room for so many, and answers how many they are.
fn put_last(aside: &mut [u16], words: &[u16]) -> usize
    requires { length aside.old ≡ 32 }
    ensures few { result ≤ 32 }
    ensures long { length aside.new ≡ length aside.old }
    ensures put { take result aside.new ≡ keep_last 32 words.now }
{
    let last = &words[words.len().saturating_sub(LAST)..];
    put(aside, 0, last);
    last.len()
}

/// Moves the part from `start` to `end` to the front.
fn move_to_front(words: &mut [u16], start: usize, end: usize)
    requires order { start ≤ end }
    requires within { end ≤ length words.old }
    ensures { take (end - start) words.new ≡ slice_range words.old start end }
{
    if start > 0 {
        words.copy_within(start..end, 0);
    }
}
