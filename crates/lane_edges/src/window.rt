//! Characters at any place of packed bits.
ghost use Rattle.std.specs.Prelude.{◌≡◌, ◌≤◌, ◌+◌, ◌/◌, length, take, drop};
ghost use Rattle.tmds_word.specs.Bits.{bytes_bits, number};

use tmds_word::Word;

/// The character whose ten bits begin at a place of the bits that the bytes hold.
#[inline(always)]
pub fn word_at(bytes: &[u8], place: u32) -> Word
    requires { place / 8 + 3 ≤ length bytes.now }
    ensures { result ≡ number (take 10 (drop place (bytes_bits bytes.now))) }
{
    let at = place as usize / 8;
    let bits = u32::from_le_bytes([bytes[at], bytes[at + 1], bytes[at + 2], 0]);
    Word::of(((bits >> (place % 8)) & 0x3ff) as u16)
}
