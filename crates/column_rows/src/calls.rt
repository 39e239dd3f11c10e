//! Lays parts of periods where there is room for them.
ghost use Rattle.std.specs.Prelude.{◌≡◌, ◌<◌, ◌/◌, All, [], ◌∷◌, replicate, length, map};
ghost use Rattle.std.specs.Bool.{OnTrue, OnFalse};
ghost use Rattle.tmds_word.specs.Column.{column_of};
ghost use Rattle.terc4.specs.Tables.{video_guard};
ghost use Rattle.island_pack.specs.Packets.{Carries};
ghost use Rattle.island_pack.specs.Periods.{pixels_of};
ghost use Rattle.island_pack.specs.Spelling.{SpellsPixels, column_words, control_column, guard_column};
ghost use Rattle.column_rows.specs.Laid.{AreLine, IsPacket, IsRun, Lays, packet_of, rows_of};

use crate::laid::{Laid, RowStatus, has_room};
use crate::rows::{lay_control, lay_island_guard, lay_packet, lay_pixels, lay_video_guard};
use island_pack::{COLUMN_LIMIT, PIXEL_LIMIT};

/// The most bytes of a line.
const MOST_BYTES: usize = 3 * PIXEL_LIMIT as usize;

/// Lays control columns of one value.
pub fn encode_run(
    value: u32,
    count: u32,
    blue: &mut [u16],
    green: &mut [u16],
    red: &mut [u16],
) -> Laid
    ensures { Lays (IsRun value count) (λ columns. columns ≡ replicate count (control_column value)) count
        result.status result.columns (rows_of blue.old green.old red.old) (rows_of blue.new green.new red.new) }
{
    if value >= 64 || count == 0 || count > COLUMN_LIMIT {
        return Laid::misuse();
    }
    let columns = count as usize;
    if !has_room(columns, blue, green, red) {
        return Laid::full(columns);
    }
    lay_control(
        value as u8,
        &mut blue[..columns],
        &mut green[..columns],
        &mut red[..columns],
    );
    Laid::done(columns)
}

/// Lays the two guard columns of a video period.
pub fn encode_video_guard(blue: &mut [u16], green: &mut [u16], red: &mut [u16]) -> Laid
    ensures { Lays (Unit {0}) (λ columns. columns ≡ column_of video_guard ∷ column_of video_guard ∷ []) 2
        result.status result.columns (rows_of blue.old green.old red.old) (rows_of blue.new green.new red.new) }
{
    if !has_room(2, blue, green, red) {
        return Laid::full(2);
    }
    lay_video_guard(&mut blue[..2], &mut green[..2], &mut red[..2]);
    Laid::done(2)
}

/// Lays the columns of the pixels of a video period, all of them: bytes red, green, blue of each.
pub fn encode_pixels(pixels: &[u8], blue: &mut [u16], green: &mut [u16], red: &mut [u16]) -> Laid
    ensures { Lays (AreLine pixels.now) (SpellsPixels (pixels_of pixels.now)) (length pixels.now / 3)
        result.status result.columns (rows_of blue.old green.old red.old) (rows_of blue.new green.new red.new) }
{
    if !is_line(pixels) {
        return Laid::misuse();
    }
    let columns = pixels.len() / 3;
    if !has_room(columns, blue, green, red) {
        return Laid::full(columns);
    }
    lay_pixels(
        pixels,
        &mut blue[..columns],
        &mut green[..columns],
        &mut red[..columns],
    );
    Laid::done(columns)
}

/// Lays a guard column of a data island, of HSYNC plus twice VSYNC.
pub fn encode_island_guard(sync: u32, blue: &mut [u16], green: &mut [u16], red: &mut [u16]) -> Laid
    ensures { Lays (sync < 4) (λ columns. columns ≡ guard_column sync ∷ []) 1
        result.status result.columns (rows_of blue.old green.old red.old) (rows_of blue.new green.new red.new) }
{
    if sync >= 4 {
        return Laid::misuse();
    }
    if !has_room(1, blue, green, red) {
        return Laid::full(1);
    }
    lay_island_guard(sync as u8, &mut blue[..1], &mut green[..1], &mut red[..1]);
    Laid::done(1)
}

/// Lays the columns of a packet, as the first of its island or as a later one.
pub fn encode_packet(
    bytes: &[u8],
    first: bool,
    blue: &mut [u16],
    green: &mut [u16],
    red: &mut [u16],
) -> Laid
    ensures { Lays (IsPacket bytes.now) (λ columns. Carries (packet_of bytes.now) first (map column_words columns)) 32
        result.status result.columns (rows_of blue.old green.old red.old) (rows_of blue.new green.new red.new) }
{
    if !is_packet(bytes) {
        return Laid::misuse();
    }
    if !has_room(32, blue, green, red) {
        return Laid::full(32);
    }
    lay_packet(
        bytes,
        first,
        &mut blue[..32],
        &mut green[..32],
        &mut red[..32],
    );
    Laid::done(32)
}

/// Whether bytes are one to `PIXEL_LIMIT` whole pixels.
fn is_line(bytes: &[u8]) -> bool
    ensures line { OnTrue result (AreLine bytes.now) }
    ensures none { OnFalse result (AreLine bytes.now → ⊥) }
{
    bytes.len() % 3 == 0 && !bytes.is_empty() && bytes.len() <= MOST_BYTES
}

/// Whether bytes are a packet.
fn is_packet(bytes: &[u8]) -> bool
    ensures packet { OnTrue result (IsPacket bytes.now) }
    ensures none { OnFalse result (IsPacket bytes.now → ⊥) }
{
    if bytes.len() != 63 {
        return false;
    }
    if !are_small(&bytes[31..]) {
        return false;
    }
    true
}

/// Whether each value is below 4.
fn are_small(values: &[u8]) -> bool
    ensures small { OnTrue result (All (λ value. value < 4) values.now) }
    ensures none { OnFalse result (All (λ value. value < 4) values.now → ⊥) }
{
    values.iter().all(|value| *value < 4)
}
