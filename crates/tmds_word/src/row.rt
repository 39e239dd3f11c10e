//! Rows of the bits that one lane sends.
ghost use Rattle.std.specs.Prelude.{ℕ, Bool, List, ◌≡◌, ◌<◌, ◌≤◌, ◌+◌, ◌-◌, ◌*◌, ◌/◌, ◌%◌, ◌↔◌, ◌^◌, ◌++◌, [], take, drop, length, slice_get, slice_index, ◌∷◌, IfSome, IsNone, IsTrue, Some, IfOk, OnOk, OnErr, min};
ghost use Rattle.tmds_word.specs.Bits.{bits_of, word_bits, row_bits, bytes_bits, bytes_of, number};

use crate::Word;
use crate::packing::{pack, shift};
use outside_io::{NoMemory, copy_front};
use std::alloc::Global;
use std::marker::Model;

/// How many characters are packed at a time.
const BLOCK_WORDS: usize = 64;

/// How many whole bytes are shifted at a time.
const PART_BYTES: usize = 320;

/// The bits of one lane in the order in which they are sent, fewer than 2^32, packed eight to a
/// byte.
#[derive(Drop)]
pub struct BitRow {
    /// The whole bytes, bit 0 of each the first.
    whole: Vec<u8>,
    /// The bits past the last whole byte, the lowest first.
    tail: u8,
    /// How many bits `tail` has.
    held: u8,
}

impl Model for BitRow {
    ghost use Rattle.std.specs.Prelude.{List, Bool, length, ◌<◌, ◌^◌, ◌*◌, ◌+◌, ◌++◌};
    ghost use Rattle.tmds_word.specs.Bits.{bits_of, bytes_bits};

    ghost Value = { List Bool };

    ghost view = { λ r. bytes_bits r.whole.items ++ bits_of r.held r.tail };

    ghost invariant = { λ r. (r.held < 8) × (r.tail < 2 ^ r.held) × (8 * length r.whole.items + r.held < 2 ^ 32) };
}

impl BitRow {
    /// A row with no bits, which keeps the allocator for its growth.
    pub fn new(alloc: Global) -> BitRow
        ensures { result ≡ [] }
    {
        BitRow {
            whole: Vec::new(alloc),
            tail: 0,
            held: 0,
        }
    }

    /// A row with no bits. It asks for room for so many at once, so that it need not grow for them; its contract says nothing of room.
    pub fn with_capacity(alloc: Global, bits: u32) -> Result<BitRow, NoMemory>
        ensures { IfOk result (λ row. row ≡ []) }
    {
        Ok(BitRow {
            whole: Vec::with_capacity(alloc, bits as usize / 8 + 1)?,
            tail: 0,
            held: 0,
        })
    }

    /// How many bits there are.
    pub fn len(&self) -> u32
        ensures { result ≡ length self.now }
    {
        8 * self.whole.len() as u32 + u32::from(self.held)
    }

    /// Whether there is no bit.
    pub fn is_empty(&self) -> bool
        ensures { IsTrue result ↔ (length self.now ≡ 0) }
    {
        self.len() == 0
    }

    /// The bit at a place.
    pub fn bit(&self, i: u32) -> bool
        requires { i < length self.now }
        ensures { slice_get self.now i ≡ Some result }
    {
        (self.byte(i as usize / 8) >> (i % 8)) & 1 == 1
    }

    /// The character whose ten bits begin at a place; none where fewer than ten bits stand from
    /// there on.
    pub fn window(&self, p: u32) -> Option<Word>
        ensures none { IsNone result ↔ (length self.now < p + 10) }
        ensures some { IfSome result (λ w. w ≡ number (take 10 (drop p self.now))) }
    {
        let at = p as usize / 8;
        // All windows but a row's last ones lie in four of its whole bytes.
        let bits = if at + 4 <= self.whole.len() {
            four_bytes(self.whole.as_slice(), at)
        } else {
            self.bits_near_end(p)?
        };
        Word::new(((bits >> (p % 8)) & 0x3ff) as u16)
    }

    /// Fills `into` with the bits from a place on, eight to a byte, the first lowest, with zeros past
    /// the row's end.
    pub fn copy_bytes(&self, from: u32, into: &mut [u8])
        ensures { into.new ≡ bytes_of (length into.old) (number self.now / 2 ^ from) }
    {
        let done = copy_whole(self.whole.as_slice(), self.held, self.tail, from, into);
        // The last bytes have bits of the tail, or zeros past it.
        for i in done..into.len() {
            into[i] = self.byte_from(from, i);
        }
    }

    /// Appends the ten bits of a character, q\[0\] first. After a refusal the row is as before.
    pub fn push_word(&mut self, word: Word) -> Result<(), NoMemory>
        requires { length self.old + 10 < 2 ^ 32 }
        ensures ok { OnOk result (self.new ≡ self.old ++ word_bits word) }
        ensures err { OnErr result (self.new ≡ self.old) }
    {
        self.put(word.value(), 10)
    }

    /// Appends the ten bits of each character, one character after another. After a refusal the row is as
    /// before.
    pub fn push_words(&mut self, words: &[Word]) -> Result<(), NoMemory>
        requires { length self.old + 10 * length words.now < 2 ^ 32 }
        ensures ok { OnOk result (self.new ≡ self.old ++ row_bits words.now) }
        ensures err { OnErr result (self.new ≡ self.old) }
    {
        let before = self.len();
        match self.push_blocks(words) {
            Ok(()) => Ok(()),
            Err(refusal) => {
                self.truncate(before);
                Err(refusal)
            }
        }
    }

    /// Appends `bits` bits: bit `i` is bit `i % 8` of byte `i / 8`. After a refusal the row is as before.
    pub fn push_bits(&mut self, bytes: &[u8], bits: u32) -> Result<(), NoMemory>
        requires bytes { length bytes.now ≡ (bits + 7) / 8 }
        requires room { length self.old + bits < 2 ^ 32 }
        ensures ok { OnOk result (self.new ≡ self.old ++ take bits (bytes_bits bytes.now)) }
        ensures err { OnErr result (self.new ≡ self.old) }
    {
        let before = self.len();
        let whole = bits as usize / 8;
        let rest = (bits % 8) as u8;
        self.push_bytes(&bytes[..whole])?;
        if rest == 0 {
            return Ok(());
        }
        let last = bytes[whole] & ((1 << rest) - 1);
        match self.put(u16::from(last), rest) {
            Ok(()) => Ok(()),
            Err(refusal) => {
                self.truncate(before);
                Err(refusal)
            }
        }
    }

    /// Appends the bits of whole bytes, bit 0 of each first. After a refusal the row is as before.
    pub fn push_bytes(&mut self, bytes: &[u8]) -> Result<(), NoMemory>
        requires { length self.old + 8 * length bytes.now < 2 ^ 32 }
        ensures ok { OnOk result (self.new ≡ self.old ++ bytes_bits bytes.now) }
        ensures err { OnErr result (self.new ≡ self.old) }
    {
        if self.held == 0 {
            self.whole.extend_from_slice(bytes)?;
            return Ok(());
        }
        let before = self.len();
        match self.push_parts(bytes) {
            Ok(()) => Ok(()),
            Err(refusal) => {
                self.truncate(before);
                Err(refusal)
            }
        }
    }

    /// Keeps the first bits, as many as are asked for.
    pub fn truncate(&mut self, bits: u32)
        requires { bits ≤ length self.old }
        ensures { self.new ≡ take bits self.old }
    {
        let at = bits as usize / 8;
        let held = (bits % 8) as u8;
        let byte = byte_at(self.whole.as_slice(), self.held, self.tail, at);
        self.tail = byte & ((1 << held) - 1);
        self.held = held;
        self.whole.truncate(at);
    }

    /// A number whose ten bits from bit `p % 8` on are the row's from `p` on; none where fewer than ten
    /// bits stand from there on. It reads byte by byte, and so the row's last bits too.
    #[cold]
    fn bits_near_end(&self, p: u32) -> Option<u32>
        ensures none { IsNone result ↔ (length self.now < p + 10) }
        ensures some { IfSome result (λ n. (n / 2 ^ (p % 8)) % 1024 ≡ number (take 10 (drop p self.now))) }
    {
        let len = self.len();
        if len < 10 || len - 10 < p {
            return None;
        }
        let at = p as usize / 8;
        let bytes = [self.byte(at), self.byte(at + 1), self.byte(at + 2), 0];
        Some(u32::from_le_bytes(bytes))
    }

    /// The eight bits from `8 * at` on as a number, with zeros past the row's end.
    fn byte(&self, at: usize) -> u8
        ensures { result ≡ (number self.now / 2 ^ (8 * at)) % 256 }
    {
        byte_at(self.whole.as_slice(), self.held, self.tail, at)
    }

    /// The eight bits from `from + 8 * i` on as a number, with zeros past the row's end.
    fn byte_from(&self, from: u32, i: usize) -> u8
        requires { i < 2 ^ 63 }
        ensures { result ≡ (number self.now / 2 ^ (from + 8 * i)) % 256 }
    {
        let at = from as usize / 8 + i;
        byte_across(self.byte(at), self.byte(at + 1), from % 8)
    }

    /// Appends whole bytes, part after part. After a refusal some of their bits may be appended.
    fn push_parts(&mut self, bytes: &[u8]) -> Result<(), NoMemory>
        requires { length self.old + 8 * length bytes.now < 2 ^ 32 }
        ensures ok { OnOk result (self.new ≡ self.old ++ bytes_bits bytes.now) }
        ensures err { OnErr result ((more : List Bool) × (self.new ≡ self.old ++ more)) }
    {
        for i in 0..bytes.len().div_ceil(PART_BYTES) {
            let from = PART_BYTES * i;
            let upto = bytes.len().min(from + PART_BYTES);
            self.push_part(&bytes[from..upto])?;
        }
        Ok(())
    }

    /// Appends the whole bytes of a part. After a refusal some of their bits may be appended.
    fn push_part(&mut self, bytes: &[u8]) -> Result<(), NoMemory>
        requires few { length bytes.now ≤ 320 }
        requires room { length self.old + 8 * length bytes.now < 2 ^ 32 }
        ensures ok { OnOk result (self.new ≡ self.old ++ bytes_bits bytes.now) }
        ensures err { OnErr result ((more : List Bool) × (self.new ≡ self.old ++ more)) }
    {
        let eights = bytes.len() / 8 * 8;
        self.push_eights(&bytes[..eights])?;
        self.push_last(&bytes[eights..])?;
        Ok(())
    }

    /// Appends groups of eight bytes. After a refusal the row is as before.
    fn push_eights(&mut self, bytes: &[u8]) -> Result<(), NoMemory>
        requires few { length bytes.now ≤ 320 }
        requires eights { length bytes.now % 8 ≡ 0 }
        requires room { length self.old + 8 * length bytes.now < 2 ^ 32 }
        ensures ok { OnOk result (self.new ≡ self.old ++ bytes_bits bytes.now) }
        ensures err { OnErr result (self.new ≡ self.old) }
    {
        let mut room = [0; PART_BYTES];
        let shifted = &mut room[..bytes.len()];
        let tail = shift(bytes, self.held, self.tail, shifted);
        self.whole.extend_from_slice(shifted)?;
        self.tail = tail;
        Ok(())
    }

    /// Appends whole bytes one by one. After a refusal some of their bits may be appended.
    fn push_last(&mut self, bytes: &[u8]) -> Result<(), NoMemory>
        requires { length self.old + 8 * length bytes.now < 2 ^ 32 }
        ensures ok { OnOk result (self.new ≡ self.old ++ bytes_bits bytes.now) }
        ensures err { OnErr result ((more : List Bool) × (self.new ≡ self.old ++ more)) }
    {
        for byte in bytes {
            self.put(u16::from(*byte), 8)?;
        }
        Ok(())
    }

    /// Appends characters, block after block. After a refusal some of their bits may be appended.
    fn push_blocks(&mut self, words: &[Word]) -> Result<(), NoMemory>
        requires { length self.old + 10 * length words.now < 2 ^ 32 }
        ensures ok { OnOk result (self.new ≡ self.old ++ row_bits words.now) }
        ensures err { OnErr result ((more : List Bool) × (self.new ≡ self.old ++ more)) }
    {
        for i in 0..words.len().div_ceil(BLOCK_WORDS) {
            let from = BLOCK_WORDS * i;
            let upto = words.len().min(from + BLOCK_WORDS);
            self.push_block(&words[from..upto])?;
        }
        Ok(())
    }

    /// Appends the characters of a block. After a refusal some of their bits may be appended.
    fn push_block(&mut self, words: &[Word]) -> Result<(), NoMemory>
        requires few { length words.now ≤ 64 }
        requires room { length self.old + 10 * length words.now < 2 ^ 32 }
        ensures ok { OnOk result (self.new ≡ self.old ++ row_bits words.now) }
        ensures err { OnErr result ((more : List Bool) × (self.new ≡ self.old ++ more)) }
    {
        let fours = words.len() / 4 * 4;
        self.push_fours(&words[..fours])?;
        self.push_each(&words[fours..])?;
        Ok(())
    }

    /// Appends groups of four characters. After a refusal the row is as before.
    fn push_fours(&mut self, words: &[Word]) -> Result<(), NoMemory>
        requires few { length words.now ≤ 64 }
        requires fours { length words.now % 4 ≡ 0 }
        requires room { length self.old + 10 * length words.now < 2 ^ 32 }
        ensures ok { OnOk result (self.new ≡ self.old ++ row_bits words.now) }
        ensures err { OnErr result (self.new ≡ self.old) }
    {
        let mut bytes = [0; 80];
        let packed = &mut bytes[..words.len() / 4 * 5];
        let tail = pack(words, self.held, self.tail, packed);
        self.whole.extend_from_slice(packed)?;
        self.tail = tail;
        Ok(())
    }

    /// Appends characters one by one. After a refusal some of their bits may be appended.
    fn push_each(&mut self, words: &[Word]) -> Result<(), NoMemory>
        requires { length self.old + 10 * length words.now < 2 ^ 32 }
        ensures ok { OnOk result (self.new ≡ self.old ++ row_bits words.now) }
        ensures err { OnErr result ((more : List Bool) × (self.new ≡ self.old ++ more)) }
    {
        for word in words {
            self.push_word(*word)?;
        }
        Ok(())
    }

    /// Appends the `count` lowest bits of a number that has no others.
    fn put(&mut self, bits: u16, count: u8) -> Result<(), NoMemory>
        requires few { count ≤ 16 }
        requires narrow { bits < 2 ^ count }
        requires room { length self.old + count < 2 ^ 32 }
        ensures ok { OnOk result (self.new ≡ self.old ++ bits_of count bits) }
        ensures err { OnErr result (self.new ≡ self.old) }
    {
        let [low, middle, high, _] = joined(self.tail, self.held, bits, count).to_le_bytes();
        let held = self.held + count;
        if held < 8 {
            self.tail = low;
            self.held = held;
        } else if held < 16 {
            self.whole.push(low)?;
            self.tail = middle;
            self.held = held - 8;
        } else {
            self.whole.extend_from_slice(&[low, middle])?;
            self.tail = high;
            self.held = held - 16;
        }
        Ok(())
    }
}

/// Fills the front of `into` with the bits from a place on that the whole bytes have, and says how many
/// bytes it filled.
fn copy_whole(whole: &[u8], held: u8, tail: u8, from: u32, into: &mut [u8]) -> usize
    requires few { held < 8 }
    requires narrow { tail < 2 ^ held }
    ensures within { result ≤ length into.new }
    ensures copied { (k : ℕ) → k < result
        → slice_index into.new k ≡ (number (bytes_bits whole.now ++ bits_of held tail) / 2 ^ (from + 8 * k)) % 256 }
{
    let at = (from as usize / 8).min(whole.len());
    let bytes = &whole[at..];
    if from % 8 == 0 {
        copy_front(bytes, into)
    } else {
        shift_front(bytes, from % 8, into)
    }
}

/// Fills the front of `into` with the bits of bytes from bit `shift` on, as long as a byte with one after
/// it is left, and says how many bytes it filled.
fn shift_front(bytes: &[u8], shift: u32, into: &mut [u8]) -> usize
    requires { shift < 8 }
    ensures count { result ≡ min (length bytes.now - 1) (length into.old) }
    ensures shifted { (k : ℕ) → k < result
        → slice_index into.new k ≡ ((slice_index bytes.now k + slice_index bytes.now (k + 1) * 256) / 2 ^ shift) % 256 }
{
    let count = bytes.len().saturating_sub(1).min(into.len());
    for i in 0..count {
        into[i] = byte_across(bytes[i], bytes[i + 1], shift);
    }
    count
}

/// The eight bits from bit `shift` on of two bytes, the second above the first.
fn byte_across(low: u8, high: u8, shift: u32) -> u8
    requires { shift < 8 }
    ensures { result ≡ ((low + high * 256) / 2 ^ shift) % 256 }
{
    ((u16::from_le_bytes([low, high]) >> shift) & 0xff) as u8
}

/// Four bytes from a place on as a number, the first lowest.
fn four_bytes(bytes: &[u8], at: usize) -> u32
    requires { at + 4 ≤ length bytes.now }
    ensures { result ≡ (number (bytes_bits bytes.now) / 2 ^ (8 * at)) % 2 ^ 32 }
{
    u32::from_le_bytes([bytes[at], bytes[at + 1], bytes[at + 2], bytes[at + 3]])
}

/// The eight bits from `8 * at` on of whole bytes and a tail, with zeros past the end.
fn byte_at(whole: &[u8], held: u8, tail: u8, at: usize) -> u8
    requires few { held < 8 }
    requires narrow { tail < 2 ^ held }
    ensures byte { result ≡ slice_index (whole.now ++ tail ∷ []) at }
    ensures bits { result ≡ (number (bytes_bits whole.now ++ bits_of held tail) / 2 ^ (8 * at)) % 256 }
{
    match whole.get(at) {
        Some(byte) => *byte,
        None if at == whole.len() => tail,
        None => 0,
    }
}

/// The number whose lowest bits are a tail, with more bits above it.
fn joined(tail: u8, held: u8, bits: u16, count: u8) -> u32
    requires few { held < 8 }
    requires narrow_tail { tail < 2 ^ held }
    requires few_more { count ≤ 16 }
    requires narrow { bits < 2 ^ count }
    ensures sum { result ≡ tail + 2 ^ held * bits }
    ensures below { result < 2 ^ (held + count) }
{
    (u32::from(bits) << held) | u32::from(tail)
}
