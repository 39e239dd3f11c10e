//! Writing the capture of a tap.
ghost use Rattle.std.specs.Prelude.{◌≡◌, ◌⊎◌, ◌+◌, ◌-◌, ◌*◌, ◌/◌, ◌^◌, ◌<◌, ◌≤◌, length, take, drop, min, slice_index, IfOk, IfErr, OnOk};
ghost use Rattle.std.specs.Io.KnownBytes.{Appends};
ghost use Rattle.outside_io.specs.Causes.{HasCause};
ghost use Rattle.capture_file.specs.Layout.{packed, header, chunk};
ghost use Rattle.capture_file.specs.Captures.{header_of, header_two};
ghost use Rattle.capture_file.specs.Taps.{limited, tap_lag, tapped_capture, HasBits, part_capture, part_block};

use crate::chunk::{blocks_for, chunk_len};
use crate::{BLOCK_BITS, BLOCK_BYTES, LaneRows};
use outside_io::{Sink, Wrote, write_all};
use tmds_word::BitRow;

/// Which bits of three lanes a capture has: of each lane those from the offset plus the lane's skew on, and at
/// most `bits`. In version 1 all lanes have equally many.
#[derive(Clone, Copy, Debug, PartialEq, Eq)]
pub struct Tap {
    /// The version of the capture's layout, 1 or 2.
    pub version: u8,
    /// Where the tap begins, in bits.
    pub offset: u32,
    /// How many bits later each lane begins, lane 0 first.
    pub skews: [u32; 3],
    /// The greatest number of bits, if there is one.
    pub bits: Option<u32>,
}

/// Writes the capture of a tap in the version that it names: the header, and then block after block.
///
/// # Errors
///
/// `Wrote` where the sink fails: only the first `gone` bytes of the capture are written.
pub fn write_capture<K: Sink>(lanes: &LaneRows, tap: &Tap, out: &mut K) -> Result<(), Wrote>
    requires version { (tap.now.version ≡ 1) ⊎ (tap.now.version ≡ 2) }
    ensures whole { OnOk result (Appends (K.held out.old) (K.held out.new) (tapped_capture lanes.now.columns tap.now)) }
    ensures part { IfErr result (λ w. Appends (K.held out.old) (K.held out.new) (take w.gone (tapped_capture lanes.now.columns tap.now))) }
    ensures missing { IfErr result (λ w. w.gone < length (tapped_capture lanes.now.columns tap.now)) }
    ensures cause { HasCause (K.faults out.old) (K.faults out.new) result }
{
    let lags = tap.lags();
    let bits = [
        lanes.length(tap, lags[0]),
        lanes.length(tap, lags[1]),
        lanes.length(tap, lags[2]),
    ];
    let starts = [
        tap.offset.saturating_add(tap.skews[0]),
        tap.offset.saturating_add(tap.skews[1]),
        tap.offset.saturating_add(tap.skews[2]),
    ];
    write_rows(
        &lanes.blue,
        &lanes.green,
        &lanes.red,
        tap.version,
        starts,
        bits,
        out,
    )
}

impl Tap {
    /// How many bits after the offset each lane may begin.
    fn lags(&self) -> [u32; 3]
        ensures blue { slice_index result 0 ≡ tap_lag self.now 0 }
        ensures green { slice_index result 1 ≡ tap_lag self.now 1 }
        ensures red { slice_index result 2 ≡ tap_lag self.now 2 }
    {
        if self.version == 2 {
            return [self.skews[0], self.skews[1], self.skews[2]];
        }
        let latest = self.skews[0].max(self.skews[1].max(self.skews[2]));
        [latest; 3]
    }
}

impl LaneRows {
    /// How many bits a tap takes of a lane that begins so many bits after the offset.
    fn length(&self, tap: &Tap, lag: u32) -> u32
        ensures { result ≡ limited tap.now.bits (10 * length self.now.columns - tap.now.offset - lag) }
    {
        let left = self
            .blue
            .len()
            .saturating_sub(tap.offset)
            .saturating_sub(lag);
        match tap.bits {
            Some(most) => left.min(most),
            None => left,
        }
    }
}

/// The header of version 1 for lanes of so many bits.
fn header_bytes(bits: u32) -> [u8; 8]
    ensures { result ≡ header bits }
{
    let [a, b, c, d] = bits.to_be_bytes();
    [b'T', b'M', b'C', b'1', a, b, c, d]
}

/// The header of version 2 for lanes of so many bits each.
fn wide_header_bytes(bits: [u32; 3]) -> [u8; 16]
    ensures { result ≡ header_two bits }
{
    let [a, b, c, d] = bits[0].to_be_bytes();
    let [e, f, g, h] = bits[1].to_be_bytes();
    let [i, j, k, l] = bits[2].to_be_bytes();
    [b'T', b'M', b'C', b'2', a, b, c, d, e, f, g, h, i, j, k, l]
}

/// Writes a piece, and says how many bytes it has.
pub(crate) fn write_piece<K: Sink>(out: &mut K, piece: &[u8]) -> Result<usize, Wrote>
    ensures size { IfOk result (λ n. n ≡ length piece.now) }
    ensures whole { OnOk result (Appends (K.held out.old) (K.held out.new) piece.now) }
    ensures part { IfErr result (λ w. Appends (K.held out.old) (K.held out.new) (take w.gone piece.now)) }
    ensures missing { IfErr result (λ w. w.gone < length piece.now) }
    ensures cause { HasCause (K.faults out.old) (K.faults out.new) result }
{
    match write_all(out, piece) {
        Ok(()) => Ok(piece.len()),
        Err(part) => Err(part),
    }
}

/// Writes the header of a version, and says how many bytes it has.
pub(crate) fn write_header<K: Sink>(
    version: u8,
    bits: [u32; 3],
    out: &mut K,
) -> Result<usize, Wrote>
    ensures size { IfOk result (λ n. n ≡ length (header_of version bits)) }
    ensures whole { OnOk result (Appends (K.held out.old) (K.held out.new) (header_of version bits)) }
    ensures part { IfErr result (λ w. Appends (K.held out.old) (K.held out.new) (take w.gone (header_of version bits))) }
    ensures missing { IfErr result (λ w. w.gone < length (header_of version bits)) }
    ensures cause { HasCause (K.faults out.old) (K.faults out.new) result }
{
    if version == 2 {
        write_piece(out, &wide_header_bytes(bits))
    } else {
        write_piece(out, &header_bytes(bits[0]))
    }
}

/// Writes the capture of some bits of three rows, each from a place of its own on.
pub(crate) fn write_rows<K: Sink>(
    blue: &BitRow,
    green: &BitRow,
    red: &BitRow,
    version: u8,
    starts: [u32; 3],
    bits: [u32; 3],
    out: &mut K,
) -> Result<(), Wrote>
    requires blue { HasBits blue.now (slice_index starts 0) (slice_index bits 0) }
    requires green { HasBits green.now (slice_index starts 1) (slice_index bits 1) }
    requires red { HasBits red.now (slice_index starts 2) (slice_index bits 2) }
    ensures whole { OnOk result (Appends (K.held out.old) (K.held out.new) (part_capture version blue.now green.now red.now starts bits)) }
    ensures part { IfErr result (λ w. Appends (K.held out.old) (K.held out.new) (take w.gone (part_capture version blue.now green.now red.now starts bits))) }
    ensures missing { IfErr result (λ w. w.gone < length (part_capture version blue.now green.now red.now starts bits)) }
    ensures cause { HasCause (K.faults out.old) (K.faults out.new) result }
{
    let most = bits[0].max(bits[1].max(bits[2]));
    let mut gone = write_header(version, bits, out)?;
    let mut room = [0; BLOCK_BYTES];
    for j in 0..blocks_for(most) {
        match write_block(blue, green, red, starts, bits, j, &mut room, out) {
            Ok(count) => gone += count,
            Err(part) => {
                return Err(Wrote {
                    gone: gone + part.gone,
                });
            }
        }
    }
    Ok(())
}

/// Writes block `j` of such a capture, the three lanes' chunks one after another, and says how many bytes it has.
/// A chunk's bytes are made in `room`.
fn write_block<K: Sink>(
    blue: &BitRow,
    green: &BitRow,
    red: &BitRow,
    starts: [u32; 3],
    bits: [u32; 3],
    j: u32,
    room: &mut [u8; BLOCK_BYTES],
    out: &mut K,
) -> Result<usize, Wrote>
    requires below { BLOCK_BITS * j < 2 ^ 32 }
    requires blue { HasBits blue.now (slice_index starts 0) (slice_index bits 0) }
    requires green { HasBits green.now (slice_index starts 1) (slice_index bits 1) }
    requires red { HasBits red.now (slice_index starts 2) (slice_index bits 2) }
    ensures size { IfOk result (λ n. (n ≡ length (part_block j blue.now green.now red.now starts bits)) × (n ≤ 12288)) }
    ensures whole { OnOk result (Appends (K.held out.old) (K.held out.new) (part_block j blue.now green.now red.now starts bits)) }
    ensures part { IfErr result (λ w. Appends (K.held out.old) (K.held out.new) (take w.gone (part_block j blue.now green.now red.now starts bits))) }
    ensures missing { IfErr result (λ w. w.gone < length (part_block j blue.now green.now red.now starts bits)) }
    ensures small { IfErr result (λ w. w.gone < 12288) }
    ensures cause { HasCause (K.faults out.old) (K.faults out.new) result }
{
    let first = write_chunk(blue, starts[0], bits[0], j, room, out)?;
    let second = match write_chunk(green, starts[1], bits[1], j, room, out) {
        Ok(count) => first + count,
        Err(part) => {
            return Err(Wrote {
                gone: first + part.gone,
            });
        }
    };
    match write_chunk(red, starts[2], bits[2], j, room, out) {
        Ok(count) => Ok(second + count),
        Err(part) => Err(Wrote {
            gone: second + part.gone,
        }),
    }
}

/// Writes chunk `j` of the lane that the `bits` bits of a row from `from` on are, and says how many bytes it has.
/// They are made in `room`.
fn write_chunk<K: Sink>(
    row: &BitRow,
    from: u32,
    bits: u32,
    j: u32,
    room: &mut [u8; BLOCK_BYTES],
    out: &mut K,
) -> Result<usize, Wrote>
    requires below { BLOCK_BITS * j < 2 ^ 32 }
    requires has { HasBits row.now from bits }
    ensures size { IfOk result (λ n. n ≡ length (chunk j (packed (take bits (drop from row.now))))) }
    ensures small { IfOk result (λ n. n ≤ BLOCK_BYTES) }
    ensures whole { OnOk result (Appends (K.held out.old) (K.held out.new) (chunk j (packed (take bits (drop from row.now))))) }
    ensures part { IfErr result (λ w. Appends (K.held out.old) (K.held out.new) (take w.gone (chunk j (packed (take bits (drop from row.now)))))) }
    ensures missing { IfErr result (λ w. w.gone < length (chunk j (packed (take bits (drop from row.now))))) }
    ensures few { IfErr result (λ w. w.gone < BLOCK_BYTES) }
    ensures cause { HasCause (K.faults out.old) (K.faults out.new) result }
{
    let count = chunk_len(bits, j);
    if count == 0 {
        return Ok(0);
    }
    let part = &mut room[..count.div_ceil(8) as usize];
    copy_packed(row, from + BLOCK_BITS * j, count, part);
    write_piece(out, part)
}

/// Fills `into` with the `count` bits of a row from `from` on, packed.
pub(crate) fn copy_packed(row: &BitRow, from: u32, count: u32, into: &mut [u8])
    requires within { from + count ≤ length row.now }
    requires room { length into.old ≡ (count + 7) / 8 }
    ensures { into.new ≡ packed (take count (drop from row.now)) }
{
    row.copy_bytes(from, into);
    let spare = count % 8;
    if spare != 0 {
        let last = into.len() - 1;
        into[last] &= (1 << spare) - 1;
    }
}
