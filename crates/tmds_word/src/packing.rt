//! Characters packed into bytes: four characters are the bits of five bytes.
ghost use Rattle.std.specs.Prelude.{◌≡◌, ◌<◌, ◌≤◌, ◌+◌, ◌*◌, ◌/◌, ◌%◌, ◌^◌, ◌++◌, length, take, drop, slice_index};
ghost use Rattle.tmds_word.specs.Bits.{bits_of, row_bits, bytes_bits, bytes_of, number};
ghost use Rattle.tmds_word.specs.Words.{all_words};

use crate::Word;

/// Fills `into` with the bits of a tail of `held` bits and of groups of four characters after it, and
/// answers the `held` bits that are left over.
pub(crate) fn pack(words: &[Word], held: u8, tail: u8, into: &mut [u8]) -> u8
    requires few { held < 8 }
    requires narrow { tail < 2 ^ held }
    requires fours { length words.now % 4 ≡ 0 }
    requires room { length into.old ≡ length words.now / 4 * 5 }
    ensures bits { bytes_bits into.new ++ bits_of held result ≡ bits_of held tail ++ row_bits words.now }
    ensures narrow { result < 2 ^ held }
    ensures size { length into.new ≡ length words.now / 4 * 5 }
{
    let mut left = tail;
    for i in 0..words.len() / 4 {
        let bits = after(left, held, four(words, 4 * i));
        put_five(into, 5 * i, bits);
        left = (bits >> 40) as u8;
    }
    left
}

/// Writes the bits of four characters from a place on, as five bytes.
pub fn pack_four(words: [Word; 4], into: &mut [u8], at: usize)
    requires { at + 5 ≤ length into.old }
    ensures bits { bytes_bits (take (at + 5) into.new) ≡ bytes_bits (take at into.old) ++ row_bits words }
    ensures size { length into.new ≡ length into.old }
{
    put_five(into, at, four(&words, 0));
}

/// The character at a place of bytes that have four characters in each five.
pub(crate) fn word_at(bytes: &[u8], i: usize) -> Word
    requires { 10 * i + 10 ≤ 8 * length bytes.now }
    ensures { result ≡ slice_index (all_words (bytes_bits bytes.now)) i }
{
    let at = i + i / 4;
    let pair = u16::from_le_bytes([bytes[at], bytes[at + 1]]);
    Word::of((pair >> (2 * (i % 4))) & 0x3ff)
}

/// Fills `into` with the bits of a tail of `held` bits and of groups of eight bytes after it, and
/// answers the `held` bits that are left over.
pub(crate) fn shift(bytes: &[u8], held: u8, tail: u8, into: &mut [u8]) -> u8
    requires few { held < 8 }
    requires narrow { tail < 2 ^ held }
    requires eights { length bytes.now % 8 ≡ 0 }
    requires room { length into.old ≡ length bytes.now }
    ensures bits { bytes_bits into.new ++ bits_of held result ≡ bits_of held tail ++ bytes_bits bytes.now }
    ensures narrow { result < 2 ^ held }
    ensures size { length into.new ≡ length bytes.now }
{
    let mut left = tail;
    for i in 0..bytes.len() / 8 {
        let bits = above(left, held, eight(bytes, 8 * i));
        put_eight(into, 8 * i, bits);
        left = (bits >> 64) as u8;
    }
    left
}

/// Eight bytes from a place on as a number, the first lowest.
fn eight(bytes: &[u8], at: usize) -> u64
    requires { at + 8 ≤ length bytes.now }
    ensures { bits_of 64 result ≡ bytes_bits (take 8 (drop at bytes.now)) }
{
    u64::from_le_bytes([
        bytes[at],
        bytes[at + 1],
        bytes[at + 2],
        bytes[at + 3],
        bytes[at + 4],
        bytes[at + 5],
        bytes[at + 6],
        bytes[at + 7],
    ])
}

/// The number whose lowest bits are a tail of `held` bits, with 64 bits above it.
fn above(tail: u8, held: u8, bits: u64) -> u128
    requires few { held < 8 }
    requires narrow { tail < 2 ^ held }
    ensures sum { result ≡ tail + 2 ^ held * bits }
    ensures below { result < 2 ^ (held + 64) }
{
    (u128::from(bits) << (held % 8)) | u128::from(tail)
}

/// Writes the eight lowest bytes of a number from a place on.
fn put_eight(into: &mut [u8], at: usize, number: u128)
    requires { at + 8 ≤ length into.old }
    ensures written { take (at + 8) into.new ≡ take at into.old ++ bytes_of 8 number }
    ensures size { length into.new ≡ length into.old }
{
    into[at..at + 8].copy_from_slice(&number.to_le_bytes()[..8]);
}

/// Four characters from a place on as a number, the first lowest.
fn four(words: &[Word], at: usize) -> u64
    requires { at + 4 ≤ length words.now }
    ensures bits { bits_of 40 result ≡ row_bits (take 4 (drop at words.now)) }
    ensures below { result < 2 ^ 40 }
{
    let first = u64::from(words[at].value());
    let second = u64::from(words[at + 1].value());
    let third = u64::from(words[at + 2].value());
    let fourth = u64::from(words[at + 3].value());
    first + 1024 * (second + 1024 * (third + 1024 * fourth))
}

/// The number whose lowest bits are a tail of `held` bits, with forty bits above it.
fn after(tail: u8, held: u8, bits: u64) -> u64
    requires few { held < 8 }
    requires narrow_tail { tail < 2 ^ held }
    requires narrow { bits < 2 ^ 40 }
    ensures sum { result ≡ tail + 2 ^ held * bits }
    ensures below { result < 2 ^ (held + 40) }
{
    (bits << held) | u64::from(tail)
}

/// Writes the five lowest bytes of a number from a place on.
fn put_five(into: &mut [u8], at: usize, number: u64)
    requires { at + 5 ≤ length into.old }
    ensures written { take (at + 5) into.new ≡ take at into.old ++ bytes_of 5 number }
    ensures size { length into.new ≡ length into.old }
{
    into[at..at + 5].copy_from_slice(&number.to_le_bytes()[..5]);
}
