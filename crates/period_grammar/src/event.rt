//! What a hearing reports.

use island_pack::PacketRef;

/// An event that is reported, with what it lends. A column is named by its number, counted from 0.
pub enum EventRef<'a> {
    /// Control columns of one value: HSYNC is bit 0 of it, VSYNC bit 1, CTL0 to CTL3 are bits 2 to 5.
    Run { value: u8, count: u64 },
    /// The pixels of a video period, at most 4,096: three bytes for each, red, green, blue.
    Line { pixels: &'a [u8] },
    /// The guard that opens a data island: of each of its columns HSYNC plus twice VSYNC.
    Open { sync: [u8; 2] },
    /// A packet as it was taken, with the verdicts on its blocks, and its first column.
    Packet { packet: PacketRef<'a>, column: u64 },
    /// The guard that closes a data island.
    Close { sync: [u8; 2] },
    /// What is wrong.
    Fault(Fault),
    /// The columns ended: the first of which nothing whole was reported.
    Cut { column: u64 },
}

/// What is wrong with columns.
#[derive(Clone, Copy, Debug, PartialEq, Eq)]
pub enum Fault {
    /// A word of a control column that is no control word.
    Word { lane: u8, column: u64 },
    /// Fewer than twelve control columns before the period that is opened at the column.
    Short { column: u64 },
    /// Not the eight columns of its preamble before the period that is opened at the column.
    Preamble { column: u64 },
    /// Columns from this one on that open nothing.
    Noise { column: u64 },
    /// A video period with no pixel, or an island with no packet, opened at the column.
    Empty { column: u64 },
    /// The first word of the line on a lane that does not code its own byte.
    Code { lane: u8, column: u64 },
    /// More than 4,096 pixels in the video period that is opened at the column.
    LongLine { column: u64 },
    /// How many of the packet's 96 words are no TERC4 words.
    Symbols { column: u64, count: u8 },
    /// A block of the packet with one wrong bit, which was turned over.
    Mended { column: u64, block: u8, bit: u8 },
    /// A block of the packet with more wrong bits.
    Lost { column: u64, block: u8 },
    /// The packet is its island's nineteenth.
    LongIsland { column: u64 },
    /// A packet or a closing guard that control columns cut short.
    Broken { column: u64 },
    /// A column of an opening or a closing guard that is no guard column.
    Guard { column: u64 },
}
