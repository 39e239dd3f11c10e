//! The three lanes run side by side, and each gives what an aligner of its own gives.
ghost use Rattle.std.specs.Prelude.{◌<◌};

use lane_align::LaneAligner;
use lane_team::{Gate, Open, Team};
use std::sync::atomic::{AtomicU64, Ordering};
use std::test::*;
use tmds_word::LaneBits;

/// For how many turns a lane looks for another at most.
const TURNS: u64 = 1_000_000_000;

/// Twelve control words of each lane, ten bits a word, the lowest first: those of 0, 1 and 2.
static LANES: [[u8; 15]; 3] = [
    [
        0x54, 0x53, 0x4d, 0x35, 0xd5, 0x54, 0x53, 0x4d, 0x35, 0xd5, 0x54, 0x53, 0x4d, 0x35, 0xd5,
    ],
    [
        0xab, 0xac, 0xb2, 0xca, 0x2a, 0xab, 0xac, 0xb2, 0xca, 0x2a, 0xab, 0xac, 0xb2, 0xca, 0x2a,
    ],
    [
        0x54, 0x51, 0x45, 0x15, 0x55, 0x54, 0x51, 0x45, 0x15, 0x55, 0x54, 0x51, 0x45, 0x15, 0x55,
    ],
];

/// Those words as numbers.
static WORDS: [u16; 3] = [0x354, 0x0ab, 0x154];

/// Where the workers of the three lanes meet: each counts its own passes, and looks for the others to
/// have passed as often.
#[derive(Drop)]
struct Meeting {
    passes: [AtomicU64; 3],
    missed: AtomicU64,
}

impl Meeting {
    /// Whether a lane is seen to have passed so often.
    fn saw(&self, lane: usize, pass: u64) -> bool
        requires { lane < 3 }
    {
        for _ in 0..TURNS {
            if self.passes[lane].load(Ordering::SeqCst) >= pass {
                return true;
            }
        }
        false
    }
}

impl Gate for Meeting {
    fn pass(&self, lane: u8) {
        if lane < 3 {
            let own = &self.passes[usize::from(lane)];
            let pass = own.fetch_add(1, Ordering::SeqCst).wrapping_add(1);
            if !(self.saw(0, pass) && self.saw(1, pass) && self.saw(2, pass)) {
                self.missed.fetch_add(1, Ordering::SeqCst);
            }
        }
    }
}

/// Whether a lane has twelve words of its own, from its first bit on.
fn has_words(team: &Team, lane: u8, word: u16) -> bool
    requires { lane < 3 }
{
    let words = team.words(lane);
    team.locked(lane) == Some(0) && words.len() == 12 && words.iter().all(|found| *found == word)
}

/// Whether each lane has twelve words of its own, from its first bit on.
fn have_words(team: &Team) -> bool {
    has_words(team, 0, WORDS[0]) && has_words(team, 1, WORDS[1]) && has_words(team, 2, WORDS[2])
}

/// Whether a lane passed three times.
fn passed_thrice(gate: &Meeting, lane: usize) -> bool
    requires { lane < 3 }
{
    gate.passes[lane].load(Ordering::SeqCst) == 3
}

#[test]
fn lanes_meet(rt: HostRuntime) {
    let gate = Meeting {
        passes: [AtomicU64::new(0), AtomicU64::new(0), AtomicU64::new(0)],
        missed: AtomicU64::new(0),
    };
    let lanes = LaneBits {
        blue: &LANES[0],
        green: &LANES[1],
        red: &LANES[2],
        bits: [120; 3],
    };
    let mut team = Team::open();
    team.feed_three(&rt, lanes, &gate);
    assert!(rt; have_words(&team));
    team.feed_three(&rt, lanes, &gate);
    assert!(rt; have_words(&team));
    team.restart();
    team.feed_three(&rt, lanes, &gate);
    assert!(rt; have_words(&team));
    assert!(rt; gate.missed.load(Ordering::SeqCst) == 0);
    assert!(rt; passed_thrice(&gate, 0) && passed_thrice(&gate, 1) && passed_thrice(&gate, 2));
}

/// Whether a lane of fourteen bytes has what an aligner of its own gives, and one of none has nothing.
fn have_own_words(team: &Team) -> bool {
    let mut aligner = LaneAligner::new();
    let mut row = [0; 25];
    let count = aligner.feed(&LANES[1][..14], 112, &mut row);
    has_words(team, 0, WORDS[0])
        && team.locked(1) == aligner.locked()
        && team.words(1).len() == count
        && team.locked(2).is_none()
        && team.words(2).is_empty()
}

#[test]
fn lanes_end_apart(rt: HostRuntime) {
    let lanes = LaneBits {
        blue: &LANES[0],
        green: &LANES[1][..14],
        red: &[],
        bits: [120, 112, 0],
    };
    let mut team = Team::open();
    team.feed_three(&rt, lanes, &Open);
    assert!(rt; have_own_words(&team));
}
