//! The lines of a raster, from left to right and from top to bottom. What each function writes is specified as
//! long as all columns so far fit 32 bits; a raster that is not refused has at most 20,000,000.
ghost use Rattle.std.specs.Prelude.{◌≡◌, ◌+◌, ◌-◌, ◌*◌, ◌^◌, ◌<◌, ◌≤◌, ◌++◌, List, length, map, replicate, OnOk, IfOk, Some, None};
ghost use Rattle.island_pack.specs.declared.packet.Packet.{Packet};
ghost use Rattle.source_end.specs.Gathering.{size, Has};
ghost use Rattle.source_end.specs.Raster.{Part, packets, columns, blank, row_line, sync_at, up_from, island_of, whole, room, row_room, blank_room, laid, lines_of, guard_at, active, front, sync, back, total};
ghost use Rattle.source_end.specs.RasterRefusals.{numbers_of, bad_mode};
ghost use Rattle.source_end.specs.Lines.{lead, lead_end, left, AreWide};

use crate::content::FrameContent;
use crate::gathering::Gathering;
use crate::mode::{active, back, front, sync, total};
use crate::rows::ByteRows;
use crate::{Island, Mode};
use island_pack::{ISLAND_CTL, Packet, VIDEO_CTL};
use outside_io::NoMemory;
use std::alloc::Global;

/// CTL0 to CTL3 of a video preamble, in bits 2 to 5 of a control column's value.
const VIDEO_PREAMBLE: u8 = VIDEO_CTL << 2;

/// CTL0 to CTL3 of an island preamble, in bits 2 to 5 of a control column's value.
const ISLAND_PREAMBLE: u8 = ISLAND_CTL << 2;

/// Writes control columns `from` up to `to` of a line, with these control bits.
fn span(
    mode: &Mode,
    vsync: bool,
    ctl: u8,
    from: u32,
    to: u32,
    out: &mut Gathering,
) -> Result<(), NoMemory>
    requires order { from ≤ to }
    requires ctl { ctl < 64 }
    ensures { (parts : List Part) → Has out.old parts → size parts + (to - from) < 2 ^ 32 → OnOk result (Has out.new (parts ++ columns (λ x. sync_at mode.now (blank vsync) x + ctl) from to)) }
{
    let edge = sync(&mode.across).max(from).min(to);
    out.columns(mode.sync_value(true, vsync) + ctl, edge - from)?;
    out.columns(mode.sync_value(false, vsync) + ctl, to - edge)
}

/// HSYNC plus twice VSYNC in the 32 columns of a packet.
fn packet_sync(mode: &Mode, vsync: bool, from: u32) -> [u8; 32]
    requires { from < 65536 }
    ensures { result ≡ map (sync_at mode.now (blank vsync)) (up_from from 32) }
{
    let mut values = [0; 32];
    for i in 0..32u32 {
        values[i as usize] = mode.sync_at(vsync, from + i);
    }
    values
}

/// The data island of a line with these packets.
fn island_of(
    alloc: Global,
    mode: &Mode,
    vsync: bool,
    packets: &[Packet],
) -> Result<Island, NoMemory>
    requires { length packets.now ≤ 18 }
    ensures { IfOk result (λ island. island ≡ island_of mode.now (blank vsync) packets.now) }
{
    let mut placed = Vec::with_capacity(alloc, packets.len())?;
    let mut x: u32 = 14;
    for packet in packets {
        let header = packet.header;
        let bodies = packet.bodies;
        let sync = packet_sync(mode, vsync, x);
        placed.push(Packet {
            header,
            bodies,
            sync,
        })?;
        x += 32;
    }
    let opening = [mode.sync_at(vsync, 12), mode.sync_at(vsync, 13)];
    let closing = [mode.sync_at(vsync, x), mode.sync_at(vsync, x + 1)];
    Ok(Island::from_packets(opening, placed, closing))
}

/// Writes what a line begins with because of its packets: the columns before the data island, and the
/// island. Answers the column after it.
fn lead(mode: &Mode, vsync: bool, packets: &[Packet], out: &mut Gathering) -> Result<u32, NoMemory>
    requires { length packets.now ≤ 18 }
    ensures end { IfOk result (λ x. x ≡ lead_end packets.now) }
    ensures parts { (parts : List Part) → Has out.old parts → size parts + lead_end packets.now < 2 ^ 32 → OnOk result (Has out.new (parts ++ lead mode.now (blank vsync) packets.now)) }
{
    if packets.is_empty() {
        return Ok(0);
    }
    span(mode, vsync, 0, 0, 4, out)?;
    span(mode, vsync, ISLAND_PREAMBLE, 4, 12, out)?;
    out.island(island_of(out.alloc(), mode, vsync, packets)?)?;
    Ok(16 + 32 * packets.len() as u32)
}

/// Writes a line without a row.
fn blank_line(
    mode: &Mode,
    vsync: bool,
    packets: &[Packet],
    out: &mut Gathering,
) -> Result<(), NoMemory>
    requires { length packets.now ≤ blank_room mode.now }
    ensures { (parts : List Part) → Has out.old parts → size parts + total mode.now.across < 2 ^ 32 → OnOk result (Has out.new (parts ++ whole mode.now (blank vsync) packets.now None)) }
{
    let from = lead(mode, vsync, packets, out)?;
    span(mode, vsync, 0, from, total(&mode.across), out)
}

/// Writes a line with a row.
fn row_line(
    mode: &Mode,
    row: &[u8],
    packets: &[Packet],
    out: &mut Gathering,
) -> Result<(), NoMemory>
    requires mode { bad_mode 0 (numbers_of mode.now) ≡ None }
    requires width { length row.now ≡ 3 * active mode.now.across }
    requires room { length packets.now ≤ row_room mode.now }
    ensures { (parts : List Part) → Has out.old parts → size parts + total mode.now.across < 2 ^ 32 → OnOk result (Has out.new (parts ++ whole mode.now (row_line row.now) packets.now (Some row.now))) }
{
    let guard = mode.guard_at();
    let from = lead(mode, false, packets, out)?;
    span(mode, false, 0, from, guard - 8, out)?;
    span(mode, false, VIDEO_PREAMBLE, guard - 8, guard, out)?;
    out.row(row)?;
    let end = total(&mode.across);
    span(mode, false, 0, end - front(&mode.across), end, out)
}

/// Writes lines without rows. Answers the packets that they did not take.
fn blank_lines<'a>(
    mode: &Mode,
    vsync: bool,
    count: u32,
    packets: &'a [Packet],
    out: &mut Gathering,
) -> Result<&'a [Packet], NoMemory>
    ensures rest { IfOk result (λ rest. rest.now ≡ left mode.now (replicate count (blank vsync)) packets.entry.now) }
    ensures parts { (parts : List Part) → Has out.old parts → size parts + count * total mode.now.across < 2 ^ 32 → OnOk result (Has out.new (parts ++ laid mode.now (replicate count (blank vsync)) packets.entry.now)) }
{
    let mut rest = packets;
    for _ in 0..count {
        let (taken, left) = rest.split_at(rest.len().min(mode.blank_room() as usize));
        blank_line(mode, vsync, taken, out)?;
        rest = left;
    }
    Ok(rest)
}

/// Writes lines with rows. Answers the packets that they did not take.
fn row_lines<'a>(
    mode: &Mode,
    rows: &ByteRows,
    packets: &'a [Packet],
    out: &mut Gathering,
) -> Result<&'a [Packet], NoMemory>
    requires mode { bad_mode 0 (numbers_of mode.now) ≡ None }
    requires rows { AreWide (active mode.now.across) rows.now }
    ensures rest { IfOk result (λ rest. rest.now ≡ left mode.now (map row_line rows.now) packets.entry.now) }
    ensures parts { (parts : List Part) → Has out.old parts → size parts + length rows.now * total mode.now.across < 2 ^ 32 → OnOk result (Has out.new (parts ++ laid mode.now (map row_line rows.now) packets.entry.now)) }
{
    let mut rest = packets;
    for i in 0..rows.len() {
        let (taken, left) = rest.split_at(rest.len().min(mode.row_room() as usize));
        row_line(mode, rows.get(i), taken, out)?;
        rest = left;
    }
    Ok(rest)
}

/// Writes the lines of a frame.
pub(crate) fn frame(mode: &Mode, frame: &FrameContent, out: &mut Gathering) -> Result<(), NoMemory>
    requires mode { bad_mode 0 (numbers_of mode.now) ≡ None }
    requires rows { AreWide (active mode.now.across) frame.now.rows }
    requires height { length frame.now.rows ≡ active mode.now.down }
    ensures { (parts : List Part) → Has out.old parts → size parts + total mode.now.across * total mode.now.down < 2 ^ 32 → OnOk result (Has out.new (parts ++ laid mode.now (lines_of mode.now frame.now) frame.now.packets)) }
{
    let rest = blank_lines(mode, true, sync(&mode.down), frame.packets(), out)?;
    let rest = blank_lines(mode, false, back(&mode.down), rest, out)?;
    let rest = row_lines(mode, frame.rows(), rest, out)?;
    blank_lines(mode, false, front(&mode.down), rest, out)?;
    Ok(())
}
