//! The epochs of lanes that may lose bits, and what is reported of them, however they are cut into feeds.
ghost use Rattle.std.specs.Prelude.{◌≡◌, ◌+◌, ◌≤◌, ◌%◌, true, min, OnOk, slice_index};
ghost use Rattle.track_sink.specs.TrackSinks.{bits_fed};

mod doubted_rows;
mod ends;
mod refuted_rows;
mod relock_rows;
mod slip_rows;

use crate::lanes::{Lanes, part};
use crate::listener::Listener;
use crate::tell::Tell;
use ends::Ends;
use link_sink::Ear;
use outside_io::Failed;
use relock_sink::{Refuter, Relock};
use std::alloc::Global;
use std::test::*;
use std::thread::Threads;
use tmds_word::LaneBits;
use track_sink::{EpochSink, TrackOutcome, TrackSink, Watch};

/// Lanes that lose bits: how many bits each has, its digits, how many epochs they have, how many of these are aligned, and what is
/// reported.
#[derive(Clone, Copy)]
struct Slipped {
    bits: [u32; 3],
    digits: [&'static str; 3],
    epochs: u64,
    aligned: u64,
    tells: &'static [Tell],
}

/// Lanes whose alignment is to be confirmed, the same of them, and how many slips and refuted alignments are reported.
#[derive(Clone, Copy)]
struct Doubted {
    bits: [u32; 3],
    digits: [&'static str; 3],
    epochs: u64,
    aligned: u64,
    slips: u64,
    refuted: u64,
}

/// How many bits of each lane that loses bits arrive in a feed.
static PIECES: [u32; 4] = [8, 40, 1000, 32768];

/// How many bits of each lane whose alignment is to be confirmed arrive in a feed.
static SHORT_PIECES: [u32; 4] = [8, 40, 200, 32768];

/// Feeds a sink the next bits of three lanes, as many of each as there are up to a number.
fn feed_next<R: Threads, W: Watch, E: Ear>(
    rt: &R,
    sink: &mut EpochSink<W>,
    lanes: &Lanes,
    from: u32,
    most: u32,
    ear: &mut E,
) -> Result<(), Failed>
    requires open { sink.old.is_open ≡ true }
    requires whole { from % 8 ≡ 0 }
    requires most { most ≤ 32768 }
    requires blue { bits_fed sink.old 0 ≡ min from (slice_index lanes.now.bits 0) }
    requires green { bits_fed sink.old 1 ≡ min from (slice_index lanes.now.bits 1) }
    requires red { bits_fed sink.old 2 ≡ min from (slice_index lanes.now.bits 2) }
    ensures open { OnOk result (sink.new.is_open ≡ true) }
    ensures blue { OnOk result (bits_fed sink.new 0 ≡ min (from + most) (slice_index lanes.now.bits 0)) }
    ensures green { OnOk result (bits_fed sink.new 1 ≡ min (from + most) (slice_index lanes.now.bits 1)) }
    ensures red { OnOk result (bits_fed sink.new 2 ≡ min (from + most) (slice_index lanes.now.bits 2)) }
{
    let x = most.min(lanes.bits[0].saturating_sub(from));
    let y = most.min(lanes.bits[1].saturating_sub(from));
    let z = most.min(lanes.bits[2].saturating_sub(from));
    let blue = part(&lanes.bytes[0], from, x);
    let green = part(&lanes.bytes[1], from, y);
    let red = part(&lanes.bytes[2], from, z);
    if blue.len() != (x as usize + 7) / 8
        || green.len() != (y as usize + 7) / 8
        || red.len() != (z as usize + 7) / 8
    {
        return Err(Failed);
    }
    let lent = LaneBits {
        blue,
        green,
        red,
        bits: [x, y, z],
    };
    sink.feed(rt, lent, ear)
}

/// Feeds a sink that was fed nothing all bits of three lanes, and finishes it.
fn feed_all<R: Threads, W: Watch, E: Ear>(
    rt: &R,
    sink: &mut EpochSink<W>,
    lanes: &Lanes,
    most: u32,
    ear: &mut E,
) -> Result<TrackOutcome, Failed>
    requires open { sink.old.is_open ≡ true }
    requires blue { bits_fed sink.old 0 ≡ 0 }
    requires green { bits_fed sink.old 1 ≡ 0 }
    requires red { bits_fed sink.old 2 ≡ 0 }
{
    let all = lanes.bits[0].max(lanes.bits[1]).max(lanes.bits[2]);
    let mut from: u32 = 0;
    while from < all {
        if most == 0 || most > 32768 || most % 8 != 0 || from > 1_000_000 {
            return Err(Failed);
        }
        feed_next(rt, sink, lanes, from, most, ear)?;
        from += most;
    }
    sink.finish(rt, ear)
}

/// Whether lanes have this many epochs, and this many that are aligned.
fn has(answer: Result<TrackOutcome, Failed>, epochs: u64, aligned: u64) -> bool {
    match answer {
        Ok(it) => it.epochs == epochs && it.aligned == aligned,
        Err(_) => false,
    }
}

/// Whether a sink reports a row's events, in feeds of this many bits.
fn reports<R: Threads>(rt: &R, sink: &mut TrackSink, row: &Slipped, most: u32) -> bool {
    let lanes = Lanes::of_digits(row.bits, row.digits);
    let mut ear = Listener::to(row.tells);
    sink.restart();
    let answer = feed_all(rt, sink, &lanes, most, &mut ear);
    has(answer, row.epochs, row.aligned) && !sink.is_open() && ear.took(row.tells.len(), 0)
}

/// Whether an ear that fails at an event of a row was given those before it and no more, and the sink is then spent.
fn stops_at<R: Threads>(rt: &R, sink: &mut TrackSink, row: &Slipped, most: u32, at: usize) -> bool {
    let lanes = Lanes::of_digits(row.bits, row.digits);
    let mut ear = Listener::up_to(row.tells, at);
    sink.restart();
    let failed = feed_all(rt, sink, &lanes, most, &mut ear).is_err();
    failed && !sink.is_open() && ear.took(at, 1)
}

#[test]
fn slips(rt: HostRuntime) -> Result<(), Fail> {
    let mut sink = TrackSink::open(rt.alloc())?;
    for row in &slip_rows::ROWS {
        for most in PIECES {
            assert!(&rt; reports(&rt, &mut sink, row, most));
            for at in 0..row.tells.len() {
                assert!(&rt; stops_at(&rt, &mut sink, row, most, at));
            }
        }
    }
    Ok(())
}

/// Whether a fresh sink finds a row's epochs, in feeds of this many bits.
fn finds<R: Threads, W: Watch>(rt: &R, alloc: Global, row: &Doubted, most: u32) -> bool {
    let lanes = Lanes::of_digits(row.bits, row.digits);
    let mut ends = Ends::new();
    match EpochSink::<W>::open(alloc) {
        Ok(mut sink) => {
            let answer = feed_all(rt, &mut sink, &lanes, most, &mut ends);
            has(answer, row.epochs, row.aligned)
                && !sink.is_open()
                && ends.slips == row.slips
                && ends.refuted == row.refuted
        }
        Err(_) => false,
    }
}

/// Whether sinks find the epochs of all rows, in feeds of each size.
fn finds_all<R: Threads, W: Watch>(rt: &R, alloc: Global, rows: &[Doubted]) -> bool {
    let mut all = true;
    for row in rows {
        for most in SHORT_PIECES {
            all = finds::<R, W>(rt, alloc, row, most) && all;
        }
    }
    all
}

#[test]
fn epochs(rt: HostRuntime) {
    assert!(&rt; finds_all::<HostRuntime, Relock>(&rt, rt.alloc(), &relock_rows::ROWS));
}

#[test]
fn refuted_epochs(rt: HostRuntime) {
    assert!(&rt; finds_all::<HostRuntime, Refuter>(&rt, rt.alloc(), &refuted_rows::ROWS));
}

#[test]
fn doubted_epochs(rt: HostRuntime) {
    assert!(&rt; finds_all::<HostRuntime, Refuter>(&rt, rt.alloc(), &doubted_rows::ROWS));
}
