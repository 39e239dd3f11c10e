//! The character of a byte, and the byte of a character.
ghost use Rattle.std.specs.Prelude.{◌≡◌, ℕ, ◌+◌, ◌*◌, ◌^◌, ◌<◌, ◌↔◌, IsTrue};
ghost use Rattle.tmds_code.specs.Coding.{Coded, decoded_byte};
ghost use Rattle.tmds_code.specs.Places.{sign_place};

use crate::tables;
use tmds_word::Word;

/// The character that codes a byte at a disparity, which is the ones minus the zeros of the
/// characters sent before (DVI 1.0, section 3.2.2 with figure 3-5).
pub fn encode(byte: u8, disparity: i32) -> Word
    ensures { Coded disparity byte result }
{
    let value = tables::coded(256 * sign(disparity) + usize::from(byte));
    Word::of(value)
}

/// The byte that a character carries; each of the 1,024 has one (DVI 1.0, section 3.3.3 with figure 3-6).
pub fn decode(word: Word) -> u8
    ensures { result ≡ decoded_byte word }
{
    tables::decoded(word.value())
}

/// Whether a character codes the byte that it carries, at a disparity.
pub(crate) fn is_coded(word: Word, disparity: i32) -> bool
    ensures { IsTrue result ↔ Coded disparity (decoded_byte word) word }
{
    tables::signs(word.value()) & sign_bit(disparity) != 0
}

/// 1 for a negative number, 2 for 0, 4 for a positive one.
fn sign_bit(disparity: i32) -> u8
    ensures { result ≡ 2 ^ sign_place disparity }
{
    if disparity == 0 {
        2
    } else if disparity < 0 {
        1
    } else {
        4
    }
}

/// 0 for a negative number, 1 for 0, 2 for a positive one.
fn sign(disparity: i32) -> usize
    ensures { result ≡ sign_place disparity }
{
    usize::from(disparity >= 0) + usize::from(disparity > 0)
}
