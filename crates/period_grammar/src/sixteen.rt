//! Sixteen columns at a time: the bytes of those before the first control column, and what their words say.
ghost use Rattle.std.specs.Int.Bits.{bit_and};
ghost use Rattle.std.specs.List.{prefix_len};
ghost use Rattle.std.specs.Prelude.{ℕ, ◌≡◌, ◌<◌, ◌≤◌, ◌+◌, ◌-◌, ◌*◌, ◌^◌, ◌++◌, List, All, length, map, take, slice_index};
ghost use Rattle.std.specs.Simd.Lanes.{mask_l};
ghost use Rattle.tmds_word.specs.Column.{Column, blues, greens, reds};
ghost use Rattle.tmds_word.specs.Lent.{columns_in};
ghost use Rattle.tmds_word.specs.Words.{columns_of};
ghost use Rattle.terc4.specs.Columns.{is_control_column};
ghost use Rattle.tmds_code.specs.Coding.{decoded_byte};
ghost use Rattle.tmds_code.specs.Sixteen.{AreWords, at_step, wrongs, all_ones};
ghost use Rattle.period_grammar.specs.Heard.{line_bytes};
ghost use Rattle.period_grammar.specs.Pixels.{is_pixel};
ghost use Rattle.period_grammar.specs.Sixteen.{AreControls, IsHeard, pixels};

use std::simd::prelude::*;
use tmds_code::{judge_sixteen, parts_of};
use tmds_word::Columns;

/// How many columns are received at once.
pub const SIXTEEN: usize = 16;

/// The places of the bytes of sixteen pixels, sixteen bytes at a time: first of red and green, then of these and blue.
const RED_GREEN_1: [usize; 16] = [0, 16, 0, 1, 17, 0, 2, 18, 0, 3, 19, 0, 4, 20, 0, 5];

const BLUE_1: [usize; 16] = [0, 1, 16, 3, 4, 17, 6, 7, 18, 9, 10, 19, 12, 13, 20, 15];

const RED_GREEN_2: [usize; 16] = [21, 0, 6, 22, 0, 7, 23, 0, 8, 24, 0, 9, 25, 0, 10, 26];

const BLUE_2: [usize; 16] = [0, 21, 2, 3, 22, 5, 6, 23, 8, 9, 24, 11, 12, 25, 14, 15];

const RED_GREEN_3: [usize; 16] = [0, 11, 27, 0, 12, 28, 0, 13, 29, 0, 14, 30, 0, 15, 31, 0];

const BLUE_3: [usize; 16] = [26, 1, 2, 27, 4, 5, 28, 7, 8, 29, 10, 11, 30, 13, 14, 31];

/// The steps of the disparities of the three lanes.
#[derive(Clone, Copy, Drop)]
pub struct Steps {
    pub blue: u8,
    pub green: u8,
    pub red: u8,
}

/// What words of a lane say: a bit for each that is wrong, given all before it, and how many ones they have.
#[derive(Clone, Copy, Drop)]
pub struct LaneFront {
    pub wrong: u64,
    pub ones: u8,
}

/// What the columns before the first control column say: how many they are, and their words.
#[derive(Clone, Copy, Drop)]
pub struct Front {
    pub count: usize,
    pub blue: LaneFront,
    pub green: LaneFront,
    pub red: LaneFront,
}

/// Puts the bytes of the columns before the first control column of sixteen after those before a place, and judges their
/// words from a step for each lane, whatever is wrong in them.
#[inline(always)]
pub fn hear_sixteen(room: &mut [u8], place: usize, columns: Columns<'_>, steps: Steps) -> Front
    requires sixteen { length (columns_in columns) ≡ 16 }
    requires room { place + 48 ≤ length room.old }
    requires blue { steps.blue ≤ 8 }
    requires green { steps.green ≤ 8 }
    requires red { steps.red ≤ 8 }
    ensures within { result.count ≤ 16 }
    ensures pixels { result.count ≡ prefix_len is_pixel (columns_in columns.entry) }
    ensures long { length room.new ≡ length room.old }
    ensures put { take (place + 3 * result.count) room.new ≡ take place room.old ++ line_bytes (take result.count (columns_in columns.entry)) }
    ensures blue { IsHeard steps.blue (take result.count (blues (columns_in columns.entry))) result.blue }
    ensures green { IsHeard steps.green (take result.count (greens (columns_in columns.entry))) result.green }
    ensures red { IsHeard steps.red (take result.count (reds (columns_in columns.entry))) result.red }
{
    let (b, blue_wrong, blue_ones, blue_controls) = judge_words(columns.blue(), steps.blue);
    let (g, green_wrong, green_ones, green_controls) = judge_words(columns.green(), steps.green);
    let (r, red_wrong, red_ones, red_controls) = judge_words(columns.red(), steps.red);
    put_pixels(r, g, b, room, place);
    let controls = control_columns(blue_controls, green_controls, red_controls);
    let count = count_pixels(controls);
    let blue = front_of(blue_wrong, blue_ones, count);
    let green = front_of(green_wrong, green_ones, count);
    let red = front_of(red_wrong, red_ones, count);
    Front {
        count,
        blue,
        green,
        red,
    }
}

/// What sixteen words of a lane say from a step on: their bytes, which of them are wrong, given all before them, how many
/// ones they have up to each, and which are control words.
#[inline(always)]
fn judge_words(words: &[u16], step: u8) -> (u8x16, u64, u8x16, u8x16)
    requires long { length words.now ≡ 16 }
    requires small { All (λ w. w < 1024) words.now }
    requires step { step ≤ 8 }
    ensures bytes { result.0 ≡ map decoded_byte words.now }
    ensures wrong { result.1 ≡ mask_l (wrongs (at_step step) words.now) }
    ensures ones { (k : ℕ) → k < 16 → slice_index result.2 k ≡ all_ones (take (k + 1) words.now) }
    ensures controls { AreControls result.3 words.now }
    ensures words { (k : ℕ) → k < 16 → slice_index words.now k < 1024 }
{
    let (low, high) = parts_of(words);
    let (bytes, wrong, ones) = judge_sixteen(low, high, step);
    (bytes, wrong, ones, controls_of(low, high))
}

/// What the first of sixteen words say, by what all say.
#[inline(always)]
fn front_of(wrong: u64, ones: u8x16, count: usize) -> LaneFront
    requires { count ≤ 16 }
    ensures wrong { result.wrong ≡ bit_and wrong (2 ^ count - 1) }
    ensures ones { (ws : List ℕ) → ((k : ℕ) → k < 16 → slice_index ones k ≡ all_ones (take (k + 1) ws)) → result.ones ≡ all_ones (take count ws) }
{
    LaneFront {
        wrong: wrong & ((1u64 << count) - 1),
        ones: ones_of_first(ones, count),
    }
}

/// The ones of the first characters, by the ones up to each.
#[inline(always)]
fn ones_of_first(ones: u8x16, n: usize) -> u8
    requires { n ≤ 16 }
    ensures { (ws : List ℕ) → ((k : ℕ) → k < 16 → slice_index ones k ≡ all_ones (take (k + 1) ws)) → result ≡ all_ones (take n ws) }
{
    if n == 0 {
        return 0;
    }
    let sums = ones.to_array();
    sums[n - 1]
}

/// 255 for each character that is a control word, else 0, by the low eight bits and the upper two.
#[inline(always)]
fn controls_of(low: u8x16, high: u8x16) -> u8x16
    ensures { (ws : List ℕ) → AreWords ws low high → AreControls result ws }
{
    let zero = u8x16::splat(0);
    let odd = zero - (high & u8x16::splat(1));
    ((low ^ u8x16::splat(171)) ^ odd)
        .simd_eq(zero)
        .select(u8x16::splat(255), zero)
}

/// Which columns have two control words or three, by the control words of each lane.
#[inline(always)]
fn control_columns(blue: u8x16, green: u8x16, red: u8x16) -> u64
    ensures { (bs gs rs : List ℕ) → AreControls blue bs → AreControls green gs → AreControls red rs → result ≡ mask_l (map is_control_column (columns_of bs gs rs)) }
{
    ((blue & green) | ((blue | green) & red))
        .simd_eq(u8x16::splat(255))
        .to_bitmask()
}

/// How many columns come before the first of sixteen that is a control column.
#[inline(always)]
fn count_pixels(controls: u64) -> usize
    ensures { (cs : List Column) → length cs ≡ 16 → controls ≡ mask_l (map is_control_column cs) → result ≡ prefix_len is_pixel cs }
{
    if controls == 0 {
        SIXTEEN
    } else {
        controls.trailing_zeros() as usize
    }
}

/// Puts the bytes of sixteen pixels after those before a place.
#[inline(always)]
fn put_pixels(r: u8x16, g: u8x16, b: u8x16, room: &mut [u8], at: usize)
    requires room { at + 48 ≤ length room.old }
    ensures long { length room.new ≡ length room.old }
    ensures put { take (at + 48) room.new ≡ take at room.old ++ pixels r g b }
{
    let (first, second, third) = mixed(r, g, b);
    put_one(first, room, at);
    put_one(second, room, at + 16);
    put_one(third, room, at + 32);
}

/// Puts sixteen bytes after those before a place.
#[inline(always)]
fn put_one(v: u8x16, room: &mut [u8], at: usize)
    requires room { at + 16 ≤ length room.old }
    ensures long { length room.new ≡ length room.old }
    ensures put { take (at + 16) room.new ≡ take at room.old ++ v }
{
    v.copy_to_slice(&mut room[at..at + 16]);
}

/// The bytes of sixteen pixels.
#[inline(always)]
fn mixed(r: u8x16, g: u8x16, b: u8x16) -> (u8x16, u8x16, u8x16)
    ensures { result.0 ++ (result.1 ++ result.2) ≡ pixels r g b }
{
    (
        r.shuffle(g, RED_GREEN_1).shuffle(b, BLUE_1),
        r.shuffle(g, RED_GREEN_2).shuffle(b, BLUE_2),
        r.shuffle(g, RED_GREEN_3).shuffle(b, BLUE_3),
    )
}
