//! Rows are filled with columns.

ghost use Rattle.std.specs.Prelude.{◌≡◌, ◌<◌, ◌+◌, ◌*◌, ◌++◌, All, List, [], length, map, replicate, slice_index};
ghost use Rattle.tmds_code.specs.Lanes.{IsLane};
ghost use Rattle.tmds_word.specs.Words.{columns_of};
ghost use Rattle.island_pack.specs.Periods.{pixels_of};
ghost use Rattle.island_pack.specs.Packets.{Carries};
ghost use Rattle.island_pack.specs.Spelling.{SpellsPixels, column_words, control_column, guard_column};
ghost use Rattle.tmds_word.specs.Column.{column_of};
ghost use Rattle.column_rows.specs.Laid.{IsPacket, packet_of};
ghost use Rattle.terc4.specs.Tables.{video_guard};
ghost use Rattle.source_end.specs.LineCoding.{byte_of};

use island_pack::{Packet, lay};
use tmds_code::VideoCoder;
use tmds_word::Word;

/// How many columns a packet has.
const PACKET_COLUMNS: usize = 32;

/// Fills rows with the columns of a control value.
pub(crate) fn lay_control(value: u8, blue: &mut [u16], green: &mut [u16], red: &mut [u16])
    requires value { value < 64 }
    requires green { length green.old ≡ length blue.old }
    requires red { length red.old ≡ length blue.old }
    ensures { columns_of blue.new green.new red.new ≡ replicate (length blue.old) (control_column value) }
{
    fill(terc4::control(value % 4).value(), blue);
    fill(terc4::control(value / 4 % 4).value(), green);
    fill(terc4::control(value / 16 % 4).value(), red);
}

/// Fills a row with one word.
fn fill(word: u16, row: &mut [u16])
    ensures { row.new ≡ replicate (length row.old) word }
{
    for i in 0..row.len() {
        row[i] = word;
    }
}

/// Fills rows with the columns of the pixels of a video period, from its first one on.
pub(crate) fn lay_pixels(bytes: &[u8], blue: &mut [u16], green: &mut [u16], red: &mut [u16])
    requires blue { length bytes.now ≡ 3 * length blue.old }
    requires green { length green.old ≡ length blue.old }
    requires red { length red.old ≡ length blue.old }
    ensures { SpellsPixels (pixels_of bytes.now) (columns_of blue.new green.new red.new) }
{
    code_row(bytes, 2, blue);
    code_row(bytes, 1, green);
    code_row(bytes, 0, red);
}

/// Codes one of the three bytes of each pixel of a video period as the words of a row.
fn code_row(bytes: &[u8], part: usize, row: &mut [u16])
    requires part { part < 3 }
    requires pixels { length bytes.now ≡ 3 * length row.old }
    ensures coded { IsLane (map (byte_of part) (pixels_of bytes.now)) row.new }
    ensures size { length row.new ≡ length row.old }
{
    let mut coder = VideoCoder::new();
    for i in 0..row.len() {
        row[i] = coder.next(bytes[3 * i + part]).value();
    }
}

/// Fills rows with guard columns of a video period.
pub(crate) fn lay_video_guard(blue: &mut [u16], green: &mut [u16], red: &mut [u16])
    requires green { length green.old ≡ length blue.old }
    requires red { length red.old ≡ length blue.old }
    ensures { columns_of blue.new green.new red.new ≡ replicate (length blue.old) (column_of video_guard) }
{
    fill(0x2cc, blue);
    fill(0x133, green);
    fill(0x2cc, red);
}

/// Fills rows with guard columns of a data island.
pub(crate) fn lay_island_guard(sync: u8, blue: &mut [u16], green: &mut [u16], red: &mut [u16])
    requires sync { sync < 4 }
    requires green { length green.old ≡ length blue.old }
    requires red { length red.old ≡ length blue.old }
    ensures { columns_of blue.new green.new red.new ≡ replicate (length blue.old) (guard_column sync) }
{
    fill(terc4::terc(12 + sync).value(), blue);
    fill(0x133, green);
    fill(0x133, red);
}

/// Fills rows with the columns of a packet, as the first of its island or as a later one.
pub(crate) fn lay_packet(
    bytes: &[u8],
    first: bool,
    blue: &mut [u16],
    green: &mut [u16],
    red: &mut [u16],
)
    requires packet { IsPacket bytes.now }
    requires blue { length blue.old ≡ 32 }
    requires green { length green.old ≡ 32 }
    requires red { length red.old ≡ 32 }
    ensures { Carries (packet_of bytes.now) first (map column_words (columns_of blue.new green.new red.new)) }
{
    let mut block = [[Word::of(0); 3]; PACKET_COLUMNS];
    lay(&read_packet(bytes), first, &mut block);
    copy_lane(&block, 0, blue);
    copy_lane(&block, 1, green);
    copy_lane(&block, 2, red);
}

/// Copies the words of one lane of a packet's columns.
fn copy_lane(block: &[[Word; 3]; PACKET_COLUMNS], lane: usize, row: &mut [u16])
    requires lane { lane < 3 }
    requires row { length row.old ≡ 32 }
    ensures { row.new ≡ map (λ words. slice_index words lane) block.now }
{
    for (i, words) in block.iter().enumerate() {
        row[i] = words[lane].value();
    }
}

/// The packet of 63 bytes.
fn read_packet(bytes: &[u8]) -> Packet
    requires { length bytes.now ≡ 63 }
    ensures { result ≡ packet_of bytes.now }
{
    let mut header = [0; 3];
    let mut bodies = [0; 28];
    let mut sync = [0; 32];
    header.copy_from_slice(&bytes[..3]);
    bodies.copy_from_slice(&bytes[3..31]);
    sync.copy_from_slice(&bytes[31..]);
    Packet {
        header,
        bodies,
        sync,
    }
}
