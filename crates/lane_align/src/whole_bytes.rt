//! Whole bytes of a lane from the lock on: the bits of five bytes are those of four characters.

ghost use Rattle.std.specs.Prelude.{ℕ, ◌≡◌, ◌<◌, ◌≤◌, ◌+◌, ◌-◌, ◌*◌, ◌^◌, ◌++◌, List, Bool, is_some, true, length, take, drop};
ghost use Rattle.tmds_word.specs.Bits.{bits_of, bytes_bits, number};
ghost use Rattle.lane_align.specs.Words.{AreWords, lane_words};
ghost use Rattle.lane_align.specs.Aligners.{AlignerRepresents};

use crate::LaneAligner;
use crate::aligner::cut_fives;

impl LaneAligner {
    /// Takes bytes from the lock on, and writes the characters that became whole.
    pub(crate) fn cut_bytes(&mut self, bytes: &[u8], row: &mut [u16], at: usize) -> usize
        requires lock { is_some self.old.lock ≡ true }
        requires fed { self.old.fed + 8 * length bytes.now < 2 ^ 63 }
        requires room { 10 * at + self.old.held + 8 * length bytes.now ≤ 10 * length row.old }
        ensures fed { self.new.fed ≡ self.old.fed + 8 * length bytes.now }
        ensures length { length row.new ≡ length row.old }
        ensures lock { self.new.lock ≡ self.old.lock }
        ensures room { 10 * result + self.new.held ≡ 10 * at + self.old.held + 8 * length bytes.now }
        ensures small { AreWords (take at row.old) → AreWords (take result row.new) }
        ensures stands { (xs : List Bool) → AlignerRepresents self.old xs → AlignerRepresents self.new (xs ++ bytes_bits bytes.now) }
        ensures words { (xs : List Bool) (ws : List ℕ) → AlignerRepresents self.old xs → ws ++ take at row.old ≡ lane_words self.old.lock xs
            → ws ++ take result row.new ≡ lane_words self.new.lock (xs ++ bytes_bits bytes.now) }
    {
        let fives = self.most(bytes, row, at);
        let mut next = at + 4 * fives;
        for i in 5 * fives..bytes.len() {
            next = self.byte(bytes[i], row, next);
        }
        next
    }

    /// Takes all but the last few bytes from the lock on, and writes the characters that became whole: four of
    /// each five bytes. Answers how many fives were taken.
    fn most(&mut self, bytes: &[u8], row: &mut [u16], at: usize) -> usize
        requires lock { is_some self.old.lock ≡ true }
        requires fed { self.old.fed + 8 * length bytes.now < 2 ^ 63 }
        requires room { 10 * at + self.old.held + 8 * length bytes.now ≤ 10 * length row.old }
        ensures few { 5 * result ≤ length bytes.now }
        ensures fed { self.new.fed ≡ self.old.fed + 40 * result }
        ensures length { length row.new ≡ length row.old }
        ensures lock { self.new.lock ≡ self.old.lock }
        ensures held { self.new.held ≡ self.old.held }
        ensures small { AreWords (take at row.old) → AreWords (take (at + 4 * result) row.new) }
        ensures stands { (xs : List Bool) → AlignerRepresents self.old xs → AlignerRepresents self.new (xs ++ bytes_bits (take (5 * result) bytes.now)) }
        ensures words { (xs : List Bool) (ws : List ℕ) → AlignerRepresents self.old xs → ws ++ take at row.old ≡ lane_words self.old.lock xs
            → ws ++ take (at + 4 * result) row.new ≡ lane_words self.new.lock (xs ++ bytes_bits (take (5 * result) bytes.now)) }
    {
        if bytes.len() < 8 {
            return 0;
        }
        let next = self.five(&bytes[..5], row, at);
        // the last group is read with three bytes more
        let groups = (bytes.len() - 8) / 5;
        self.fives(bytes, groups, row, next);
        groups + 1
    }

    /// Takes groups of five bytes from the lock on, after the first five, which were taken last, and writes the
    /// four characters of each that became whole. What is left of one for the next is read again with the next.
    fn fives(&mut self, bytes: &[u8], groups: usize, row: &mut [u16], at: usize)
        requires lock { is_some self.old.lock ≡ true }
        requires bytes { 5 * groups + 8 ≤ length bytes.now }
        requires fed { self.old.fed + 40 * groups < 2 ^ 63 }
        requires room { at + 4 * groups ≤ length row.old }
        ensures fed { self.new.fed ≡ self.old.fed + 40 * groups }
        ensures length { length row.new ≡ length row.old }
        ensures lock { self.new.lock ≡ self.old.lock }
        ensures held { self.new.held ≡ self.old.held }
        ensures small { AreWords (take at row.old) → AreWords (take (at + 4 * groups) row.new) }
        ensures stands { (xs : List Bool) → AlignerRepresents self.old (xs ++ bytes_bits (take 5 bytes.now))
            → AlignerRepresents self.new (xs ++ bytes_bits (take (5 * (groups + 1)) bytes.now)) }
        ensures words { (xs : List Bool) (ws : List ℕ) → AlignerRepresents self.old (xs ++ bytes_bits (take 5 bytes.now))
            → ws ++ take at row.old ≡ lane_words self.old.lock (xs ++ bytes_bits (take 5 bytes.now))
            → ws ++ take (at + 4 * groups) row.new ≡ lane_words self.new.lock (xs ++ bytes_bits (take (5 * (groups + 1)) bytes.now)) }
    {
        // the bit with which the next character begins
        let first = 40 - self.held;
        cut_fives(&bytes[first as usize / 8..], first % 8, groups, row, at);
        self.rest = last_bits(&bytes[5 * groups + 3..5 * groups + 5], self.held);
        self.fed += 40 * groups as u64;
    }

    /// Takes five bytes from the lock on, and writes the four characters that became whole.
    fn five(&mut self, bytes: &[u8], row: &mut [u16], at: usize) -> usize
        requires lock { is_some self.old.lock ≡ true }
        requires five { length bytes.now ≡ 5 }
        requires fed { self.old.fed + 40 < 2 ^ 63 }
        requires room { 10 * at + self.old.held + 40 ≤ 10 * length row.old }
        ensures fed { self.new.fed ≡ self.old.fed + 40 }
        ensures length { length row.new ≡ length row.old }
        ensures lock { self.new.lock ≡ self.old.lock }
        ensures room { 10 * result + self.new.held ≡ 10 * at + self.old.held + 40 }
        ensures small { AreWords (take at row.old) → AreWords (take result row.new) }
        ensures stands { (xs : List Bool) → AlignerRepresents self.old xs → AlignerRepresents self.new (xs ++ bytes_bits bytes.now) }
        ensures words { (xs : List Bool) (ws : List ℕ) → AlignerRepresents self.old xs → ws ++ take at row.old ≡ lane_words self.old.lock xs
            → ws ++ take result row.new ≡ lane_words self.new.lock (xs ++ bytes_bits bytes.now) }
    {
        self.cut_four(number_of(bytes), row, at);
        at + 4
    }

    /// Takes a byte from the lock on, and writes the character that became whole.
    fn byte(&mut self, byte: u8, row: &mut [u16], at: usize) -> usize
        requires lock { is_some self.old.lock ≡ true }
        requires fed { self.old.fed + 8 < 2 ^ 63 }
        requires room { 10 * at + self.old.held + 8 ≤ 10 * length row.old }
        ensures fed { self.new.fed ≡ self.old.fed + 8 }
        ensures length { length row.new ≡ length row.old }
        ensures lock { self.new.lock ≡ self.old.lock }
        ensures room { 10 * result + self.new.held ≡ 10 * at + self.old.held + 8 }
        ensures small { AreWords (take at row.old) → AreWords (take result row.new) }
        ensures stands { (xs : List Bool) → AlignerRepresents self.old xs → AlignerRepresents self.new (xs ++ bits_of 8 byte) }
        ensures words { (xs : List Bool) (ws : List ℕ) → AlignerRepresents self.old xs → ws ++ take at row.old ≡ lane_words self.old.lock xs
            → ws ++ take result row.new ≡ lane_words self.new.lock (xs ++ bits_of 8 byte) }
    {
        self.cut(byte, 8, row, at)
    }
}

/// Five bytes as a number.
fn number_of(bytes: &[u8]) -> u64
    requires { length bytes.now ≡ 5 }
    ensures value { result ≡ number (bytes_bits bytes.now) }
    ensures below { result < 2 ^ 40 }
{
    u64::from_le_bytes([bytes[0], bytes[1], bytes[2], bytes[3], bytes[4], 0, 0, 0])
}

/// The last bits of two bytes as a number.
fn last_bits(bytes: &[u8], count: u32) -> u64
    requires two { length bytes.now ≡ 2 }
    requires count { count ≤ 16 }
    ensures value { result ≡ number (drop (16 - count) (bytes_bits bytes.now)) }
    ensures below { result < 2 ^ count }
{
    u64::from(u16::from_le_bytes([bytes[0], bytes[1]])) >> (16 - count)
}
