//! Eight characters of a lane at once, in a vector.

ghost use Rattle.std.specs.Prelude.{◌≡◌, ◌<◌, ◌≤◌, ◌+◌, ◌/◌, ◌^◌, ◌++◌, length, take};
ghost use Rattle.lane_align.specs.Words.{words_in};

use std::simd::prelude::*;

/// The two bytes in which each character lies: four characters in the first five bytes of each eight.
const PAIRS: [usize; 16] = [0, 1, 1, 2, 2, 3, 3, 4, 8, 9, 9, 10, 10, 11, 11, 12];

/// The eight characters that forty bits of each of two numbers say, from the same bit of each on.
#[inline(always)]
fn eight_words(low: u64, high: u64, from: u32) -> u16x8
    requires { from < 8 }
    ensures { result ≡ words_in 4 (low / 2 ^ from) ++ words_in 4 (high / 2 ^ from) }
{
    let bits = u64x2::from_array([low, high]) >> u64x2::splat(from as u64);
    let pairs = u16x8::from_le_bytes(bits.to_le_bytes().swizzle(PAIRS));
    // each character to the upper ten bits, and from there to the lower ten
    (pairs * u16x8::from_array([64, 16, 4, 1, 64, 16, 4, 1])) >> u16x8::splat(6)
}

/// Writes these.
#[inline(always)]
pub(crate) fn write_eight(low: u64, high: u64, from: u32, row: &mut [u16], at: usize)
    requires from { from < 8 }
    requires room { at + 8 ≤ length row.old }
    ensures row { take (at + 8) row.new ≡ take at row.old ++ (words_in 4 (low / 2 ^ from) ++ words_in 4 (high / 2 ^ from)) }
    ensures length { length row.new ≡ length row.old }
{
    eight_words(low, high, from).copy_to_slice(&mut row[at..at + 8]);
}
