//! Aligns three lanes, side by side or one after another.
//!
//! A `Team` gives each lane the characters and the lock that an aligner of its own gives it. `feed_three` forks one worker for
//! each lane and joins all within the call; `feed_in_turn` uses the caller's own thread. The result is the same for every gate
//! whose `pass` returns. Workers share nothing but the gate, and nothing is allocated.
#![tactic(auto)]

ghost use Rattle.std.specs.Prelude.{◌≡◌, ◌<◌, List, Bool};
ghost use Rattle.lane_align.specs.Lanes.{IsLockOf};
ghost use Rattle.lane_align.specs.Aligners.{AlignerRepresents, lock_of};
ghost use Rattle.lane_team.specs.Sides.{IsFresh, AreFresh, CanTake, CanTakeLanes, HasTaken, HaveTaken, side_at};

pub mod laws;

use lane_align::{LaneAligner, ROW_WORDS};
use std::marker::Model;
use std::thread::{Threads, join_mut};
use tmds_word::LaneBits;

/// What a worker goes through before it searches its lane.
pub trait Gate: Sync {
    /// Called once by the worker of a lane, in each feed.
    fn pass(&self, lane: u8)
        requires { lane < 3 };
}

/// A gate that does nothing.
#[derive(Clone, Copy, Debug)]
pub struct Open;

impl Gate for Open {
    fn pass(&self, _: u8) {}
}

/// A lane, and the characters of its last feed.
#[derive(Drop)]
struct Side {
    aligner: LaneAligner,
    /// The characters, and room after them.
    row: [u16; ROW_WORDS],
    /// How many characters the last feed gave.
    count: usize,
}

/// Three lanes, each with an aligner and a row of its own.
#[derive(Drop)]
pub struct Team {
    blue: Side,
    green: Side,
    red: Side,
}

impl Model for Side {
    ghost use Rattle.std.specs.Prelude.{◌≤◌, take};
    ghost use Rattle.lane_align.specs.declared.TheConstants.{ROW_WORDS};
    ghost use Rattle.lane_team.specs.Sides as sides;

    ghost Value = { sides.Side };

    ghost view = { λ s. record { aligner = s.aligner; words = take s.count s.row } };

    ghost invariant = { λ s. s.count ≤ ROW_WORDS };
}

impl Model for Team {
    ghost use Rattle.lane_team.specs.Sides.{Sides};

    ghost Value = { Sides };

    ghost view = { λ t. record { blue = t.blue; green = t.green; red = t.red } };
}

impl Side {
    /// A lane to which no bit was fed.
    fn open() -> Side
        ensures { IsFresh result }
    {
        Side {
            aligner: LaneAligner::new(),
            row: [0; ROW_WORDS],
            count: 0,
        }
    }

    /// Takes bits of the lane.
    fn feed(&mut self, bytes: &[u8], bits: u32)
        requires { CanTake self.old bytes.now bits }
        ensures { HasTaken self.old bytes.now bits self.new }
    {
        self.count = self.aligner.feed(bytes, bits, &mut self.row);
    }

    /// The characters of the last feed.
    fn words(&self) -> &[u16]
        ensures { result.now ≡ self.now.words }
    {
        &self.row[..self.count]
    }

    /// Makes it as after `open`.
    fn restart(&mut self)
        ensures { IsFresh self.new }
    {
        self.aligner = LaneAligner::new();
        self.count = 0;
    }
}

impl Team {
    /// Three lanes to which no bit was fed. Their rows are within them: they take no memory.
    pub fn open() -> Team
        ensures { AreFresh result }
    {
        Team {
            blue: Side::open(),
            green: Side::open(),
            red: Side::open(),
        }
    }

    /// Takes the bits of each lane. One worker for each lane passes the gate and then feeds the lane; returns when all
    /// three have ended.
    pub fn feed_three<R: Threads, G: Gate>(&mut self, rt: &R, lanes: LaneBits<'_>, gate: &G)
        requires { CanTakeLanes self.old lanes }
        ensures { HaveTaken self.old lanes.entry self.new }
    {
        let [x, y, z] = lanes.bits;
        let blue = &mut self.blue;
        let green = &mut self.green;
        let red = &mut self.red;
        join_mut(
            rt,
            &mut ||
                requires { CanTake blue.now lanes.blue.now x }
            {
                gate.pass(0);
                blue.feed(lanes.blue, x)
            },
            &mut ||
                requires green { CanTake green.now lanes.green.now y }
                requires red { CanTake red.now lanes.red.now z }
            {
                join_mut(
                    rt,
                    &mut ||
                        requires { CanTake green.now lanes.green.now y }
                    {
                        gate.pass(1);
                        green.feed(lanes.green, y)
                    },
                    &mut ||
                        requires { CanTake red.now lanes.red.now z }
                    {
                        gate.pass(2);
                        red.feed(lanes.red, z)
                    },
                );
            },
        );
    }

    /// Takes the bits of each lane as `feed_three` does, one lane after another: for so few that workers take longer.
    pub fn feed_in_turn(&mut self, lanes: LaneBits<'_>)
        requires { CanTakeLanes self.old lanes }
        ensures { HaveTaken self.old lanes.entry self.new }
    {
        self.blue.feed(lanes.blue, lanes.bits[0]);
        self.green.feed(lanes.green, lanes.bits[1]);
        self.red.feed(lanes.red, lanes.bits[2]);
    }

    /// The characters that the last feed gave of a lane.
    pub fn words(&self, lane: u8) -> &[u16]
        requires { lane < 3 }
        ensures { result.now ≡ (side_at self.now lane).words }
    {
        match lane {
            0 => self.blue.words(),
            1 => self.green.words(),
            _ => self.red.words(),
        }
    }

    /// The lock of all bits that were fed of a lane; None exactly where they have none.
    pub fn locked(&self, lane: u8) -> Option<u64>
        requires { lane < 3 }
        ensures lock { result ≡ lock_of (side_at self.now lane).aligner }
        ensures found { (xs : List Bool) → AlignerRepresents (side_at self.now lane).aligner xs → IsLockOf xs result }
    {
        match lane {
            0 => self.blue.aligner.locked(),
            1 => self.green.aligner.locked(),
            _ => self.red.aligner.locked(),
        }
    }

    /// Makes them as after `open`.
    pub fn restart(&mut self)
        ensures { AreFresh self.new }
    {
        self.blue.restart();
        self.green.restart();
        self.red.restart();
    }
}
