//! The search for runs of twelve control words in packed bytes: a quick test of eighty places at a time, and where it
//! finds something sixteen at a time.
ghost use Rattle.std.specs.Prelude.{◌≡◌, ◌<◌, ◌≤◌, ◌+◌, ◌*◌, ◌/◌, ◌%◌, ◌^◌, ◌↔◌, ℕ, true, false, IsTrue, length, MatchOption, slice_index, take, drop};
ghost use Rattle.tmds_word.specs.Bits.{bit, bytes_bits, number};
ghost use Rattle.terc4.specs.Tables.{is_control};
ghost use Rattle.lane_align.specs.Lanes.{HasControl, IsRun};
ghost use Rattle.lane_align.specs.Search.{control_at, IsOther, IsFirstOther};

use terc4::RUN;

/// How many places the quick test sees.
const STEP: u32 = 80;

/// How many places are looked at together where a run may begin.
const NEAR: u32 = 16;

/// The ten lowest bits but one, by that one; all of them at place 10.
static OTHERS: [u64; 11] = [
    0x3fe, 0x3fd, 0x3fb, 0x3f7, 0x3ef, 0x3df, 0x3bf, 0x37f, 0x2ff, 0x1ff, 0x3ff,
];

/// The least place from `from` on and before `until` at which a run begins that lies no whole characters from a phase;
/// phase 10 is none, so that no place is left out. All bits of a run that begins before `until` are to be there.
pub fn first_run(bytes: &[u8], from: u32, until: u32, phase: u32) -> Option<u32>
    requires phase { phase ≤ 10 }
    requires room { from < until → until + 119 ≤ 8 * length bytes.now }
    requires small { until < 2 ^ 31 }
    ensures { MatchOption result ((p : ℕ) → IsOther (bytes_bits bytes.now) from until phase p → ⊥) (λ p. IsFirstOther (bytes_bits bytes.now) from until phase p) }
{
    if from < until && until - from <= NEAR {
        first_near(bytes, from, until, phase)
    } else {
        first_far(bytes, from, until, phase)
    }
}

/// Answers as `first_run` does, by a quick test of eighty places at a time.
#[inline(never)]
fn first_far(bytes: &[u8], from: u32, until: u32, phase: u32) -> Option<u32>
    requires phase { phase ≤ 10 }
    requires room { from < until → until + 119 ≤ 8 * length bytes.now }
    requires small { until < 2 ^ 31 }
    ensures { MatchOption result ((p : ℕ) → IsOther (bytes_bits bytes.now) from until phase p → ⊥) (λ p. IsFirstOther (bytes_bits bytes.now) from until phase p) }
{
    let mut p = from;
    let mut at = from.div_ceil(STEP);
    while p < until {
        let end = (STEP * at + 1).min(until);
        let marks = marks_of(eight_from(bytes, 10 * at as usize), phase);
        at += 1;
        if marks != 0 {
            if let Some(found) = first_in(bytes, p, end, phase) {
                return Some(found);
            }
        }
        p = end;
    }
    None
}

/// At which of the ten lowest places that are no whole characters from a phase three control words in a row begin. It may
/// mark others.
fn marks_of(bits: u64, phase: u32) -> u64
    requires { phase ≤ 10 }
    ensures { (k : ℕ) → k < 10 → (k ≡ phase → ⊥) → control_at bits k ≡ true → control_at bits (k + 10) ≡ true → control_at bits (k + 20) ≡ true → bit result k ≡ true }
{
    let controls = control_places(bits);
    controls & (controls >> 10) & (controls >> 20) & others(phase)
}

/// The ten lowest bits but one.
fn others(phase: u32) -> u64
    requires { phase ≤ 10 }
    ensures { result ≡ slice_index OTHERS phase }
{
    OTHERS[phase as usize]
}

/// At which of the 56 lowest places control words begin: a control word is a bit that is like the next one, and then
/// seven transitions.
fn control_places(bits: u64) -> u64
    ensures { (k : ℕ) → k < 55 → bit result k ≡ control_at bits k }
{
    let turns = bits ^ (bits >> 1);
    let twos = turns & (turns >> 1);
    let fours = twos & (twos >> 2);
    let sevens = fours & (fours >> 3);
    let after = sevens >> 1;
    after & (after ^ turns)
}

/// The least place of a stretch at which a run begins that lies no whole characters from a phase, a few places at a time.
#[cold]
fn first_in(bytes: &[u8], from: u32, until: u32, phase: u32) -> Option<u32>
    requires room { from < until → until + 119 ≤ 8 * length bytes.now }
    requires small { until < 2 ^ 31 }
    ensures { MatchOption result ((p : ℕ) → IsOther (bytes_bits bytes.now) from until phase p → ⊥) (λ p. IsFirstOther (bytes_bits bytes.now) from until phase p) }
{
    let mut p = from;
    while p < until {
        let end = (p + NEAR).min(until);
        if let Some(found) = first_near(bytes, p, end, phase) {
            return Some(found);
        }
        p = end;
    }
    None
}

/// The least of a few places at which a run begins that lies no whole characters from a phase.
fn first_near(bytes: &[u8], from: u32, until: u32, phase: u32) -> Option<u32>
    requires order { from < until }
    requires few { until ≤ from + 16 }
    requires room { until + 119 ≤ 8 * length bytes.now }
    requires small { until < 2 ^ 31 }
    ensures { MatchOption result ((p : ℕ) → IsOther (bytes_bits bytes.now) from until phase p → ⊥) (λ p. IsFirstOther (bytes_bits bytes.now) from until phase p) }
{
    let mut left = fours_at(bytes, from) & ((1 << (until - from)) - 1);
    while left != 0 {
        let place = from + left.trailing_zeros();
        if place % 10 != phase && goes_on(bytes, place) {
            return Some(place);
        }
        // all but the lowest
        left &= left - 1;
    }
    None
}

/// Whether after the first four control words of a run the other eight stand.
fn goes_on(bytes: &[u8], p: u32) -> bool
    requires room { p + 120 ≤ 8 * length bytes.now }
    requires small { p < 2 ^ 31 }
    ensures { IsTrue result ↔ ((k : ℕ) → 4 ≤ k → k < 12 → HasControl (bytes_bits bytes.now) (p + 10 * k)) }
{
    for k in 1..RUN / 4 {
        if !has_four(bytes, p + 40 * k) {
            return false;
        }
    }
    true
}

/// Whether four control words in a row begin at a place.
fn has_four(bytes: &[u8], p: u32) -> bool
    requires room { p + 40 ≤ 8 * length bytes.now }
    ensures { IsTrue result ↔ ((k : ℕ) → k < 4 → HasControl (bytes_bits bytes.now) (p + 10 * k)) }
{
    fours_at(bytes, p) & 1 == 1
}

/// At which of sixteen places from one on four control words in a row begin.
#[inline(always)]
fn fours_at(bytes: &[u8], p: u32) -> u64
    requires { p ≤ 8 * length bytes.now }
    ensures { (i : ℕ) → i < 16 → p + i + 40 ≤ 8 * length bytes.now → bit result i ≡ true ↔ ((k : ℕ) → k < 4 → HasControl (bytes_bits bytes.now) (p + i + 10 * k)) }
{
    let controls = control_places(eight_from(bytes, p as usize / 8) >> (p % 8));
    controls & (controls >> 10) & (controls >> 20) & (controls >> 30)
}

/// Eight bytes from a place on as a number, the first lowest; zeros are read after the last one.
#[inline(always)]
fn eight_from(bytes: &[u8], at: usize) -> u64
    requires { at ≤ length bytes.now }
    ensures { result ≡ (number (bytes_bits bytes.now) / 2 ^ (8 * at)) % 2 ^ 64 }
{
    if bytes.len() - at >= 8 {
        eight_bytes(bytes, at)
    } else {
        last_bytes(bytes, at)
    }
}

/// The last bytes from a place on as a number, the first lowest, where they are fewer than eight.
#[inline(always)]
fn last_bytes(bytes: &[u8], at: usize) -> u64
    requires place { at ≤ length bytes.now }
    requires few { length bytes.now < at + 8 }
    ensures { result ≡ (number (bytes_bits bytes.now) / 2 ^ (8 * at)) % 2 ^ 64 }
{
    let len = bytes.len();
    if len < 8 || at == len {
        few_bytes(bytes, at)
    } else {
        eight_bytes(bytes, len - 8) >> (8 * (at + 8 - len))
    }
}

/// The last bytes from a place on as a number, byte by byte.
#[cold]
fn few_bytes(bytes: &[u8], at: usize) -> u64
    requires place { at ≤ length bytes.now }
    requires few { length bytes.now < at + 8 }
    ensures { result ≡ (number (bytes_bits bytes.now) / 2 ^ (8 * at)) % 2 ^ 64 }
{
    let mut value = 0;
    let mut i = bytes.len();
    while i > at {
        i -= 1;
        value = (value << 8) | u64::from(bytes[i]);
    }
    value
}

/// Eight bytes from a place on as a number, the first lowest.
#[inline(always)]
pub(crate) fn eight_bytes(bytes: &[u8], at: usize) -> u64
    requires { at + 8 ≤ length bytes.now }
    ensures { result ≡ (number (bytes_bits bytes.now) / 2 ^ (8 * at)) % 2 ^ 64 }
{
    u64::from_le_bytes([
        bytes[at],
        bytes[at + 1],
        bytes[at + 2],
        bytes[at + 3],
        bytes[at + 4],
        bytes[at + 5],
        bytes[at + 6],
        bytes[at + 7],
    ])
}
