//! The search for the lock while bits arrive: for the first run of control words that ends within them.
ghost use Rattle.std.specs.Prelude.{ℕ, ◌≡◌, ◌<◌, ◌≤◌, ◌+◌, ◌-◌, ◌*◌, ◌/◌, ◌%◌, ◌^◌, ◌++◌, ⊤, List, Bool, MatchOption, None, min, length, take, drop, get_or};
ghost use Rattle.tmds_word.specs.Bits.{bytes_bits};
ghost use Rattle.tmds_word.specs.Words.{words_of};
ghost use Rattle.lane_align.specs.Lanes.{IsRun};
ghost use Rattle.lane_align.specs.Words.{AreWords};
ghost use Rattle.lane_align.specs.Aligners.{AlignerRepresents, EndsFirst};

use crate::aligner::{KEPT, write_four};
use crate::eights::write_eight;
use crate::search::{eight_bytes, first_run};
use crate::{FEED_BITS, LaneAligner, RUN_BITS};

/// The phase at which the search leaves out no place.
const ANY: u32 = 10;

/// From the first bit of a run to its last.
const SPAN: u32 = RUN_BITS - 1;

/// As many bytes of a piece as a run may reach into that began before it.
const REACH: usize = 16;

impl LaneAligner {
    /// Looks for the first run that ends within the bits, and writes its characters. Answers how many of the bits were
    /// taken up to its end; None where there is none.
    pub(crate) fn seek(&self, bytes: &[u8], bits: u32, row: &mut [u16]) -> Option<u32>
        requires seeks { self.now.lock ≡ None }
        requires whole { self.now.fed % 8 ≡ 0 }
        requires bits { bits ≤ FEED_BITS }
        requires bytes { length bytes.now ≡ (bits + 7) / 8 }
        requires row { 12 ≤ length row.old }
        ensures length { length row.new ≡ length row.old }
        ensures within { MatchOption result ⊤ (λ used. (used ≤ bits) × (120 ≤ self.now.fed + used) × AreWords (take 12 row.new)) }
        ensures found { (xs : List Bool) → AlignerRepresents self.now xs → MatchOption result ((p : ℕ) → IsRun (xs ++ take bits (bytes_bits bytes.now)) p → ⊥)
            (λ used. EndsFirst (xs ++ take bits (bytes_bits bytes.now)) (length xs + used) (take 12 row.new)) }
    {
        match self.begun_run(bytes, bits, row) {
            Some(used) => Some(used),
            None => whole_run(bytes, bits, row),
        }
    }

    /// Looks for the first run that began before the bits and ends within them, and writes its characters. Answers how
    /// many of the bits were taken up to its end.
    fn begun_run(&self, bytes: &[u8], bits: u32, row: &mut [u16]) -> Option<u32>
        requires seeks { self.now.lock ≡ None }
        requires whole { self.now.fed % 8 ≡ 0 }
        requires bits { bits ≤ FEED_BITS }
        requires bytes { length bytes.now ≡ (bits + 7) / 8 }
        requires row { 12 ≤ length row.old }
        ensures length { length row.new ≡ length row.old }
        ensures within { MatchOption result ⊤ (λ used. (used ≤ bits) × (120 ≤ self.now.fed + used) × AreWords (take 12 row.new)) }
        ensures found { (xs : List Bool) → AlignerRepresents self.now xs → MatchOption result ((p : ℕ) → p < length xs → IsRun (xs ++ take bits (bytes_bits bytes.now)) p → ⊥)
            (λ used. EndsFirst (xs ++ take bits (bytes_bits bytes.now)) (length xs + used) (take 12 row.new)) }
    {
        if self.fed == 0 {
            return None;
        }
        let kept = (self.fed / 8).min(KEPT as u64) as usize;
        let had = 8 * kept as u32;
        let joined = joined(&self.kept, bytes);
        let view = &joined[KEPT - kept..];
        let until = had.min((had + bits.min(128)).saturating_sub(SPAN));
        match first_run(view, had.saturating_sub(SPAN), until, ANY) {
            Some(place) => {
                write_run(view, place, row);
                Some(place + SPAN + 1 - had)
            }
            None => None,
        }
    }

    /// Keeps the last bytes, after these arrived.
    pub(crate) fn keep(&mut self, bytes: &[u8], bits: u32)
        requires fed { self.old.fed + bits < 2 ^ 63 }
        ensures fed { self.new.fed ≡ self.old.fed + bits }
        ensures lock { self.new.lock ≡ self.old.lock }
        ensures kept { self.new.kept ≡ drop (length bytes.now) (self.old.kept ++ bytes.now) }
        ensures rest { self.new.rest ≡ self.old.rest }
        ensures held { self.new.held ≡ self.old.held }
    {
        self.kept = last_of(&self.kept, bytes);
        self.fed += u64::from(bits);
    }
}

/// Looks for the first run of the bits, and writes its characters. Answers how many of the bits were taken up
/// to its end.
fn whole_run(bytes: &[u8], bits: u32, row: &mut [u16]) -> Option<u32>
    requires bits { bits ≤ FEED_BITS }
    requires bytes { length bytes.now ≡ (bits + 7) / 8 }
    requires row { 12 ≤ length row.old }
    ensures length { length row.new ≡ length row.old }
    ensures found { MatchOption result ((p : ℕ) → IsRun (take bits (bytes_bits bytes.now)) p → ⊥)
        (λ used. (used ≤ bits) × (120 ≤ used) × AreWords (take 12 row.new) × EndsFirst (take bits (bytes_bits bytes.now)) used (take 12 row.new)) }
{
    match first_run(bytes, 0, bits.saturating_sub(SPAN), ANY) {
        Some(place) => {
            write_run(bytes, place, row);
            Some(place + SPAN + 1)
        }
        None => None,
    }
}

/// Writes the twelve characters from a place on.
fn write_run(bytes: &[u8], place: u32, row: &mut [u16])
    requires row { 12 ≤ length row.old }
    requires room { place + 120 ≤ 8 * length bytes.now }
    requires small { place < 2 ^ 31 }
    ensures row { take 12 row.new ≡ words_of 12 (drop place (bytes_bits bytes.now)) }
    ensures words { AreWords (take 12 row.new) }
    ensures length { length row.new ≡ length row.old }
{
    let first = place as usize / 8;
    // the run ends in the last of these eight bytes
    let last = (place as usize + 120).div_ceil(8) - 8;
    write_eight(
        eight_bytes(bytes, first),
        eight_bytes(bytes, first + 5),
        place % 8,
        row,
        0,
    );
    write_four(
        eight_bytes(bytes, last) >> (place + 80 - 8 * last as u32),
        row,
        8,
    );
}

/// The bytes that are kept and the first of a piece after them.
fn joined(kept: &[u8; KEPT], bytes: &[u8]) -> [u8; KEPT + REACH]
    ensures { take (16 + min (length bytes.now) 16) result ≡ take (16 + min (length bytes.now) 16) (kept.now ++ bytes.now) }
{
    let mut joined = [0; KEPT + REACH];
    let first = bytes.len().min(REACH);
    joined[..KEPT].copy_from_slice(kept);
    joined[KEPT..KEPT + first].copy_from_slice(&bytes[..first]);
    joined
}

/// The last of the bytes that are kept with a piece after them, as many as are kept.
fn last_of(kept: &[u8; KEPT], bytes: &[u8]) -> [u8; KEPT]
    ensures { result ≡ drop (length bytes.now) (kept.now ++ bytes.now) }
{
    let mut last = [0; KEPT];
    let first = bytes.len().min(KEPT);
    last[..KEPT - first].copy_from_slice(&kept[first..]);
    last[KEPT - first..].copy_from_slice(&bytes[bytes.len() - first..]);
    last
}
