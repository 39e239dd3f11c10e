//! Sixteen characters of a lane at a time: their bytes, and whether each is rightly coded.
ghost use Rattle.std.specs.Int.Bits.{bit_and};
ghost use Rattle.std.specs.Prelude.{ℕ, ◌≡◌, ◌<◌, ◌≤◌, ◌+◌, ◌/◌, ◌%◌, ◌^◌, List, All, length, map, take, slice_index};
ghost use Rattle.std.specs.Simd.Lanes.{mask_l};
ghost use Rattle.tmds_code.specs.Coding.{decoded_byte};
ghost use Rattle.tmds_code.specs.Sixteen.{AreWords, at_step, wrongs, all_ones};
ghost use Rattle.tmds_code.specs.Vectors.{HasLanes, lane_byte, lane_counts, nibble_counts, sum_of, right_of, fives, half_before, sum_to};

use std::simd::prelude::*;

/// The ones of four bits, and sixteen times their transitions.
const NIBBLES: [u8; 16] = [
    0x00, 0x11, 0x21, 0x12, 0x21, 0x32, 0x22, 0x13, 0x11, 0x22, 0x32, 0x23, 0x12, 0x23, 0x13, 0x04,
];

/// The places of lanes moved up by one, two, four and eight; place 16 is a zero.
const UP_1: [usize; 16] = [16, 0, 1, 2, 3, 4, 5, 6, 7, 8, 9, 10, 11, 12, 13, 14];

const UP_2: [usize; 16] = [16, 16, 0, 1, 2, 3, 4, 5, 6, 7, 8, 9, 10, 11, 12, 13];

const UP_4: [usize; 16] = [16, 16, 16, 16, 0, 1, 2, 3, 4, 5, 6, 7, 8, 9, 10, 11];

const UP_8: [usize; 16] = [16, 16, 16, 16, 16, 16, 16, 16, 0, 1, 2, 3, 4, 5, 6, 7];

/// Five for each character before, taken off a byte.
const FIVES: [u8; 16] = [
    0, 251, 246, 241, 236, 231, 226, 221, 216, 211, 206, 201, 196, 191, 186, 181,
];

/// The places of sixteen lanes in order.
const ALL: [usize; 16] = [0, 1, 2, 3, 4, 5, 6, 7, 8, 9, 10, 11, 12, 13, 14, 15];

/// The low eight bits of sixteen characters, and the upper two.
#[inline(always)]
pub fn parts_of(words: &[u16]) -> (u8x16, u8x16)
    requires long { length words.now ≡ 16 }
    requires small { All (λ w. w < 1024) words.now }
    ensures { AreWords words.now result.0 result.1 }
{
    let a = u16x8::from_slice(words);
    let b = u16x8::from_slice(&words[8..]);
    let full = u16x8::splat(255);
    let eight = u16x8::splat(8);
    let low = (a & full)
        .cast::<u8>()
        .shuffle((b & full).cast::<u8>(), ALL);
    let high = (a >> eight)
        .cast::<u8>()
        .shuffle((b >> eight).cast::<u8>(), ALL);
    (low, high)
}

/// Judges sixteen characters from a step on. Returns their bytes, which of them are wrong, and how many ones there are up to
/// each. A character is wrong if it does not code its byte at the disparity after all characters before it, right or wrong.
#[inline(always)]
pub fn judge_sixteen(low: u8x16, high: u8x16, step: u8) -> (u8x16, u64, u8x16)
    requires { step ≤ 8 }
    ensures bytes { (ws : List ℕ) → AreWords ws low high → result.0 ≡ map decoded_byte ws }
    ensures wrong { (ws : List ℕ) → AreWords ws low high → result.1 ≡ mask_l (wrongs (at_step step) ws) }
    ensures ones { (ws : List ℕ) → AreWords ws low high → (k : ℕ) → k < 16 → slice_index result.2 k ≡ all_ones (take (k + 1) ws) }
{
    let counts = counts_of(low);
    let ones = ones_of(counts, high);
    let total = sums(ones);
    let before = before_of(u8x16::splat(step + 124), total, ones);
    let rights = rights_of(low, high, counts, before);
    let wrong = rights.simd_lt(u8x16::splat(128)).to_bitmask();
    (bytes_of(low, high), wrong, total)
}

/// The bytes of characters.
#[inline(always)]
fn bytes_of(low: u8x16, high: u8x16) -> u8x16
    ensures { HasLanes result (λ k. lane_byte (slice_index low k) (slice_index high k)) }
{
    let one = u8x16::splat(1);
    let zero = u8x16::splat(0);
    let q9 = high.simd_gt(one).select(u8x16::splat(255), zero);
    let x = low ^ q9;
    let y = x ^ (x + x);
    y ^ (((high & one) - one) & u8x16::splat(254))
}

/// The sums of the lanes up to each.
#[inline(always)]
fn sums(v: u8x16) -> u8x16
    ensures { (k : ℕ) → k < 16 → slice_index result k ≡ sum_to k v % 256 }
{
    let zero = u8x16::splat(0);
    let p1 = v + v.shuffle(zero, UP_1);
    let p2 = p1 + p1.shuffle(zero, UP_2);
    let p4 = p2 + p2.shuffle(zero, UP_4);
    p4 + p4.shuffle(zero, UP_8)
}

/// Reads the table at the low four bits of each lane.
#[inline(always)]
fn by_low(v: u8x16) -> u8x16
    ensures { HasLanes result (λ k. slice_index nibble_counts (bit_and (slice_index v k) 15)) }
{
    u8x16::from_array(NIBBLES).swizzle_dyn(v & u8x16::splat(15))
}

/// Reads the table at the high four bits of each lane.
#[inline(always)]
fn by_high(v: u8x16) -> u8x16
    ensures { HasLanes result (λ k. slice_index nibble_counts (slice_index v k / 2 ^ 4)) }
{
    u8x16::from_array(NIBBLES).swizzle_dyn(v >> u8x16::splat(4))
}

/// The ones of the low eight bits, and sixteen times their transitions except the one in their middle.
#[inline(always)]
fn counts_of(low: u8x16) -> u8x16
    ensures { HasLanes result (λ k. lane_counts (slice_index low k)) }
{
    by_low(low) + by_high(low)
}

/// The ones of the characters.
#[inline(always)]
fn ones_of(counts: u8x16, high: u8x16) -> u8x16
    ensures { HasLanes result (λ k. sum_of (slice_index counts k) (slice_index high k)) }
{
    let one = u8x16::splat(1);
    let q9 = high.simd_gt(one).select(u8x16::splat(255), u8x16::splat(0));
    ((counts & u8x16::splat(15)) + (high & one)) - q9
}

/// Half the disparity before each character, counted from -128: that never wraps for any sixteen characters.
#[inline(always)]
fn before_of(carry: u8x16, sums: u8x16, ones: u8x16) -> u8x16
    ensures { HasLanes result (λ k. half_before (slice_index carry k) (slice_index fives k) (slice_index sums k) (slice_index ones k)) }
{
    (carry + u8x16::from_array(FIVES)) + (sums - ones)
}

/// The top bit of each lane says whether the character is rightly coded.
#[inline(always)]
fn rights_of(low: u8x16, high: u8x16, counts: u8x16, before: u8x16) -> u8x16
    ensures { HasLanes result (λ k. right_of (slice_index low k) (slice_index high k) (slice_index counts k) (slice_index before k)) }
{
    let zero = u8x16::splat(0);
    let one = u8x16::splat(1);
    let full = u8x16::splat(255);
    let half = u8x16::splat(128);
    let q9 = high.simd_gt(one).select(full, zero);
    let x = low ^ q9;
    let y = x ^ (x + x);
    // at most three transitions in the low eight bits
    let many = (counts + (y & u8x16::splat(16))) + u8x16::splat(64);
    let u = (counts & u8x16::splat(15)) - u8x16::splat(4);
    let minus = before.simd_lt(half).select(full, zero);
    let some = before.simd_eq(half).select(zero, full);
    // the balance turned by the sign of the disparity is less than q[8] xor q[9]
    let signed = ((u ^ minus) - minus) & some;
    let e = (high ^ (high >> one)) & one;
    (signed - e) & (many ^ full)
}
