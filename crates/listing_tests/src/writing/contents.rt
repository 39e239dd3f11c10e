//! What the lister of contents writes of the tables' events.
use super::content_rows::{CUT_OFF, GROUPS, ISLAND, PACKETS, PacketRow, SIZES};
use crate::events::{Step, packet_of, tell, tell_line};
use listing_writer::ContentLister;
use outside_io::MemSink;
use std::test::Fail;

/// Whether a row's packet is listed, or a write of it fails, and its faults are counted.
fn lists_packet(sink: &mut MemSink, row: &PacketRow, whole: bool) -> bool {
    let (header, front, faults, _) = *row;
    let mut lister = ContentLister::open(sink);
    let answer = tell(&mut lister, &Step::Packet(packet_of(header, front)));
    answer.is_ok() == whole && lister.faults() == faults
}

#[test]
fn packets(rt: HostRuntime) -> Result<(), Fail> {
    let alloc = rt.alloc();
    for row in &PACKETS {
        let mut sink = MemSink::new(alloc, 1000, 7, Vec::new(alloc))?;
        assert!(rt; lists_packet(&mut sink, row, true) && sink.bytes() == row.3.as_bytes());
    }
    Ok(())
}

#[test]
fn a_packet_cut_off(rt: HostRuntime) -> Result<(), Fail> {
    let alloc = rt.alloc();
    let mut sink = MemSink::new(alloc, 1000, 7, vec![in alloc; 3]?)?;
    assert!(rt; lists_packet(&mut sink, &CUT_OFF, false) && sink.bytes() == CUT_OFF.3.as_bytes());
    Ok(())
}

/// Whether the events of a table and the end are listed, and their faults are counted.
fn lists_events(sink: &mut MemSink, table: &[(Step, &str)], faults: u64) -> bool {
    let mut lister = ContentLister::open(sink);
    let mut right = true;
    for (step, _) in table {
        right = tell(&mut lister, step).is_ok() && right;
    }
    lister.end().is_ok() && lister.faults() == faults && right
}

/// Whether bytes are the lines of a table and of the end.
fn are_lines(bytes: &[u8], table: &[(Step, &str)]) -> bool {
    let mut left = bytes;
    for (_, lines) in table {
        match left.strip_prefix(lines.as_bytes()) {
            Some(rest) => left = rest,
            None => return false,
        }
    }
    left == b"end\n".as_slice()
}

#[test]
fn groups(rt: HostRuntime) -> Result<(), Fail> {
    let mut sink = MemSink::new(rt.alloc(), 1000, 7, Vec::new(rt.alloc()))?;
    assert!(rt; lists_events(&mut sink, &GROUPS, 4) && are_lines(sink.bytes(), &GROUPS));
    Ok(())
}

#[test]
fn an_island(rt: HostRuntime) -> Result<(), Fail> {
    let mut sink = MemSink::new(rt.alloc(), 1000, 7, Vec::new(rt.alloc()))?;
    assert!(rt; lists_events(&mut sink, &ISLAND, 4) && are_lines(sink.bytes(), &ISLAND));
    Ok(())
}

/// The greatest line of the table's frames.
static ZEROS: [u8; 5760] = [0; 5760];

/// Whether the lines of a frame of zeros, between two changes of VSYNC, and an event after the lines are listed.
fn lists_frame(sink: &mut MemSink, width: usize, height: usize, step: &Step) -> bool {
    if width < 1 || width > 1920 {
        return false;
    }
    let mut lister = ContentLister::open(sink);
    let mut right = tell(&mut lister, &Step::Run(0, 12)).is_ok();
    right = tell(&mut lister, &Step::Run(2, 12)).is_ok() && right;
    for _ in 0..height {
        right = tell_line(&mut lister, &ZEROS[..3 * width]).is_ok() && right;
    }
    right = tell(&mut lister, step).is_ok() && right;
    tell(&mut lister, &Step::Run(0, 12)).is_ok() && right
}

#[test]
fn sizes(rt: HostRuntime) -> Result<(), Fail> {
    let alloc = rt.alloc();
    for (width, height, step, text) in &SIZES {
        let rows = width
            .saturating_mul(6)
            .saturating_add(5)
            .saturating_mul(*height);
        let mut sink = MemSink::new(alloc, rows.saturating_add(100), 30_000, Vec::new(alloc))?;
        assert!(rt; lists_frame(&mut sink, *width, *height, step));
        assert!(rt; sink.bytes().get(rows..) == Some(text.as_bytes()));
    }
    Ok(())
}
