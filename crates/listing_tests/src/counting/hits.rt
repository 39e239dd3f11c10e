//! The hits of taps of one small stream. The places were worked by hand.
use capture_file::{Hit, Tap};
use island_pack::Packet;
use sampling::hits_of;
use source_end::{Island, Item, Items, Pixels, Run, Runs, Stream};
use std::alloc::Global;
use std::test::*;

/// A tap, and the lane, the place and the character of each hit.
#[derive(Clone, Copy)]
struct Row {
    tap: Tap,
    hits: &'static [(u8, u32, u16)],
}

fn tap(version: u8, offset: u32, skews: [u32; 3], bits: Option<u32>) -> Tap {
    Tap {
        version,
        offset,
        skews,
        bits,
    }
}

/// The stream has 207 columns: its two packets begin in columns 14 and 46, and the 101 pixels of its line in column 94.
fn rows() -> [Row; 9] {
    [
        Row {
            tap: tap(1, 0, [0, 0, 0], None),
            hits: &[(1, 190, 0x354), (1, 510, 0x354), (2, 1940, 0x0ab)],
        },
        Row {
            tap: tap(1, 150, [0, 70, 35], None),
            hits: &[(1, 290, 0x354), (2, 1755, 0x0ab)],
        },
        Row {
            tap: tap(1, 150, [0, 40, 0], None),
            hits: &[(1, 0, 0x354), (1, 320, 0x354), (2, 1790, 0x0ab)],
        },
        Row {
            tap: tap(1, 150, [0, 41, 0], None),
            hits: &[(1, 319, 0x354), (2, 1790, 0x0ab)],
        },
        Row {
            tap: tap(1, 150, [0, 70, 35], Some(300)),
            hits: &[(1, 290, 0x354)],
        },
        Row {
            tap: tap(1, 150, [0, 70, 35], Some(299)),
            hits: &[],
        },
        Row {
            tap: tap(1, 0, [160, 0, 0], None),
            hits: &[(1, 190, 0x354), (1, 510, 0x354)],
        },
        Row {
            tap: tap(2, 0, [160, 0, 0], None),
            hits: &[(1, 190, 0x354), (1, 510, 0x354), (2, 1940, 0x0ab)],
        },
        Row {
            tap: tap(2, u32::MAX, [u32::MAX; 3], None),
            hits: &[],
        },
    ]
}

/// A control period: a run of four columns of value 0, and one of eight.
fn control(alloc: Global, value: u8) -> Result<Item, Fail> {
    let mut runs = Runs::new(alloc);
    runs.push(Run { value: 0, count: 4 })?;
    runs.push(Run { value, count: 8 })?;
    Ok(Item::Control(runs))
}

/// A data island of two packets.
fn island(alloc: Global) -> Result<Item, Fail> {
    let packet = Packet {
        header: [0; 3],
        bodies: [0; 28],
        sync: [0; 32],
    };
    let mut island = Island::new(alloc, [0; 2], [0; 2]);
    island.push(packet)?;
    island.push(packet)?;
    Ok(Item::Island(island))
}

/// A line of 101 black pixels.
fn video(alloc: Global) -> Result<Item, Fail> {
    let mut pixels = Pixels::new(alloc);
    for _ in 0..101 {
        pixels.push(0, 0, 0)?;
    }
    Ok(Item::Video(pixels))
}

fn stream(alloc: Global) -> Result<Stream, Fail> {
    let mut items = Items::new(alloc);
    items.push(control(alloc, 0x14)?)?;
    items.push(island(alloc)?)?;
    items.push(control(alloc, 0x04)?)?;
    items.push(video(alloc)?)?;
    items.push(control(alloc, 0x00)?)?;
    Ok(items.close()?)
}

/// Whether the hits of a tap are the wanted ones.
fn are_hits(hits: &[Hit], wanted: &[(u8, u32, u16)]) -> bool {
    let mut left = wanted.iter();
    for hit in hits {
        if left.next() != Some(&(hit.lane, hit.place, hit.value.value())) {
            return false;
        }
    }
    left.next().is_none()
}

/// Whether a row's tap of a stream has its hits.
fn has_hits(alloc: Global, stream: &Stream, row: &Row) -> bool {
    match hits_of(alloc, stream, &row.tap) {
        Ok(hits) => are_hits(&hits, row.hits),
        Err(_) => false,
    }
}

#[test]
fn hits_of_taps(rt: HostRuntime) -> Result<(), Fail> {
    let stream = stream(rt.alloc())?;
    assert!(rt; stream.columns() == 207);
    for row in &rows() {
        assert!(rt; has_hits(rt.alloc(), &stream, row));
    }
    Ok(())
}
