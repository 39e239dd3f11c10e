//! The workers of three lanes run side by side.
ghost use Rattle.std.specs.Prelude.{◌<◌};

use crate::listener::Listener;
use lane_team::Gate;
use link_sink::LinkSink;
use std::sync::atomic::{AtomicU64, Ordering};
use std::test::*;
use tmds_word::LaneBits;

/// For how many turns a lane looks for another at most.
const TURNS: u64 = 1_000_000_000;

/// Twelve control words 00 of each lane, ten bits a word, the lowest first.
static CONTROL: [u8; 15] = [
    0x54, 0x53, 0x4d, 0x35, 0xd5, 0x54, 0x53, 0x4d, 0x35, 0xd5, 0x54, 0x53, 0x4d, 0x35, 0xd5,
];

/// Where the workers of the three lanes meet: each counts its own passes, and looks for the others to have passed as
/// often.
#[derive(Drop)]
struct Meeting {
    passes: [AtomicU64; 3],
    missed: AtomicU64,
}

impl Meeting {
    /// Whether a lane is seen to have passed so often.
    fn saw(&self, lane: usize, pass: u64) -> bool
        requires { lane < 3 }
    {
        for _ in 0..TURNS {
            if self.passes[lane].load(Ordering::SeqCst) >= pass {
                return true;
            }
        }
        false
    }
}

impl Gate for Meeting {
    fn pass(&self, lane: u8) {
        if lane < 3 {
            let own = &self.passes[usize::from(lane)];
            let pass = own.fetch_add(1, Ordering::SeqCst).wrapping_add(1);
            if !(self.saw(0, pass) && self.saw(1, pass) && self.saw(2, pass)) {
                self.missed.fetch_add(1, Ordering::SeqCst);
            }
        }
    }
}

#[test]
fn lanes_meet(rt: HostRuntime) -> Result<(), Fail> {
    let gate = Meeting {
        passes: [AtomicU64::new(0), AtomicU64::new(0), AtomicU64::new(0)],
        missed: AtomicU64::new(0),
    };
    let mut ear = Listener::to(&[]);
    let mut sink = LinkSink::open(rt.alloc())?;
    let lanes = LaneBits {
        blue: &CONTROL,
        green: &CONTROL,
        red: &CONTROL,
        bits: [120; 3],
    };
    for _ in 0..3 {
        sink.restart();
        assert!(&rt; sink.feed(&rt, lanes, &gate, &mut ear).is_ok());
    }
    assert!(&rt; ear.took(0, 0) && gate.missed.load(Ordering::SeqCst) == 0);
    for lane in 0..3usize {
        assert!(&rt; gate.passes[lane].load(Ordering::SeqCst) == 3);
    }
    Ok(())
}
