//! Blocks of the BCH code that protects packets (HDMI 1.4, sections 5.2.3.4 and 5.2.3.5).
//!
//! `parity32` and `parity64` return the one byte that completes a block. `repair32` and `repair64` return exactly one verdict:
//! clean, mended at a bit, or lost. One wrong bit is restored and two are noticed, because two different blocks differ in at
//! least four places. The generator polynomial is G(x) = 1 + x^6 + x^7 + x^8. The order of the bits is this project's own: each
//! byte's lowest first, and the first bit is the highest power.
#![tactic(auto)]

ghost use Rattle.std.specs.Prelude.{◌≡◌, ◌≢◌, ◌+◌, ◌*◌, ◌<◌, ◌≤◌, ℕ, Bool, List, [], ◌∷◌, ◌++◌, length, bit_xor, IfSome, Some};
ghost use Rattle.bch_block.specs.Bits.{bits_of_bytes, flipped};
ghost use Rattle.bch_block.specs.Block.{IsBlock};
ghost use Rattle.bch_block.specs.Division.{remainder, kept, power, times_power};
ghost use Rattle.bch_block.specs.Repair.{IsVerdict, Repairs};

pub mod laws;
mod tables;

use tables::{POWERS, TIMES_X8};

/// What bytes that should have been a block are found to be.
#[derive(Clone, Copy)]
pub enum Verdict {
    /// A block.
    Clean,
    /// No block, but one with this bit turned over. Bit i is bit i % 8 of byte i / 8.
    Mended(u8),
    /// Every block differs in two bits at least.
    Lost,
}

impl Verdict {
    ghost use Rattle.bch_block.specs.Repair.{is_lost};

    /// Whether no repair was possible.
    pub fn is_lost(self) -> bool
        ensures { result ≡ is_lost self }
    {
        matches!(self, Verdict::Lost)
    }
}

/// The byte that makes a block of 32 bits, after three bytes.
pub fn parity32(bytes: &[u8; 3]) -> u8
    ensures block { IsBlock (bits_of_bytes (bytes.now ++ result ∷ [])) }
    ensures only { (p : ℕ) → p < 256 → IsBlock (bits_of_bytes (bytes.now ++ p ∷ [])) → p ≡ result }
{
    parity(bytes)
}

/// The byte that makes a block of 64 bits, after seven bytes.
pub fn parity64(bytes: &[u8; 7]) -> u8
    ensures block { IsBlock (bits_of_bytes (bytes.now ++ result ∷ [])) }
    ensures only { (p : ℕ) → p < 256 → IsBlock (bits_of_bytes (bytes.now ++ p ∷ [])) → p ≡ result }
{
    parity(bytes)
}

/// Repairs one wrong bit of a block of 32 bits. What differs from every block in two bits or more stays as it is.
/// So one wrong bit is restored and two wrong bits are lost, as `laws` has it; three may be taken for another one.
pub fn repair32(block: &mut [u8; 4]) -> Verdict
    ensures verdict { IsVerdict (bits_of_bytes block.old) result }
    ensures after { Repairs block.old block.new result }
    ensures restored { result ≢ Verdict.Lost → IsBlock (bits_of_bytes block.new) }
{
    repair(block)
}

/// Repairs one wrong bit of a block of 64 bits. What differs from every block in two bits or more stays as it is.
/// So one wrong bit is restored and two wrong bits are lost, as `laws` has it; three may be taken for another one.
pub fn repair64(block: &mut [u8; 8]) -> Verdict
    ensures verdict { IsVerdict (bits_of_bytes block.old) result }
    ensures after { Repairs block.old block.new result }
    ensures restored { result ≢ Verdict.Lost → IsBlock (bits_of_bytes block.new) }
{
    repair(block)
}

/// The byte that makes a block after some bytes: with another last byte, the remainder is the sum of the two.
fn parity(bytes: &[u8]) -> u8
    ensures { (last : ℕ) → remainder (bits_of_bytes (bytes.now ++ last ∷ [])) ≡ kept (bit_xor result last) }
{
    let mut left = 0;
    for byte in bytes {
        left = times_x8(left ^ *byte);
    }
    left
}

/// The remainder of a polynomial times x^8.
fn times_x8(left: u8) -> u8
    ensures { kept result ≡ times_power (kept left) 8 }
{
    TIMES_X8[usize::from(left)]
}

/// The power of x below 64 that leaves this remainder, if one does.
fn power_of(left: u8) -> Option<u8>
    ensures some { IfSome result (λ k. (k < 64) × (power k ≡ kept left)) }
    ensures only { (k : ℕ) → k < 64 → power k ≡ kept left → result ≡ Some k }
{
    POWERS[usize::from(left)]
}

/// The verdict on a list of bits, by its remainder and its length.
fn verdict_of(left: u8, bits: u8) -> Verdict
    requires least { 8 ≤ bits }
    requires most { bits ≤ 64 }
    ensures { (x : List Bool) → length x ≡ bits → remainder x ≡ kept left → IsVerdict x result }
{
    if left == 0 {
        return Verdict::Clean;
    }
    match power_of(left) {
        Some(power) if power < bits => Verdict::Mended(bits - 1 - power),
        _ => Verdict::Lost,
    }
}

/// Turns one bit over.
fn flip(block: &mut [u8], place: u8)
    requires { place < 8 * length block.old }
    ensures { bits_of_bytes block.new ≡ flipped (bits_of_bytes block.old) place }
{
    block[usize::from(place / 8)] ^= 1 << (place % 8);
}

/// Finds the verdict, and turns over the bit that it names.
fn repair(block: &mut [u8]) -> Verdict
    requires least { 0 < length block.old }
    requires most { length block.old ≤ 8 }
    ensures verdict { IsVerdict (bits_of_bytes block.old) result }
    ensures after { Repairs block.old block.new result }
{
    let last = block.len() - 1;
    let left = parity(&block[..last]) ^ block[last];
    let verdict = verdict_of(left, 8 * block.len() as u8);
    if let Verdict::Mended(place) = verdict {
        flip(block, place);
    }
    verdict
}
