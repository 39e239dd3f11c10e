//! The line of one frame.
ghost use Rattle.std.specs.Prelude.{◌≡◌, ◌++◌, ◌+◌, ◌<◌, codes, slice_index};
ghost use Rattle.hex.specs.Hex.{lower_digits};
ghost use Rattle.listing_writer.specs.ContentText.{digit_of, sample_words, value_digits};
ghost use Rattle.audio_out.specs.Subframes.{IsSound};
ghost use Rattle.biphase_listing.specs.FrameText.{last_words};
ghost use Rattle.biphase_listing.specs.Fours.{HasFours, six_bytes, turned};
ghost use Rattle.biphase_listing.specs.Groups.{is_block, sample_of};

use crate::side::Side;
use audio_out::Mark;

/// The line of the sample of two sides: three parts of eight bytes, each worked out as one number.
pub(crate) fn frame_line(left: &Side, right: &Side) -> [u8; 24]
    requires left { IsSound left.now.sub }
    requires right { IsSound right.now.sub }
    requires left_fours { HasFours left.now.sub left.now.fours }
    requires right_fours { HasFours right.now.sub right.now.fours }
    ensures { result ≡ sample_words (sample_of left.now.sub right.now.sub) ++ codes "\n" }
{
    let mut line = [0; 24];
    line[..8].copy_from_slice(&first_part(left));
    line[8..16].copy_from_slice(&second_part(right));
    line[16..].copy_from_slice(&last_part(left, right));
    line
}

/// What begins the line of a sample, and the digits of the value of a side.
fn first_part(side: &Side) -> [u8; 8]
    requires { HasFours side.now.sub side.now.fours }
    ensures { result ≡ codes "s " ++ value_digits side.now.sub.value }
{
    (0x2073 + 0x1_0000 * digits(side)).to_le_bytes()
}

/// The digits of the value of a side between two spaces.
fn second_part(side: &Side) -> [u8; 8]
    requires { HasFours side.now.sub side.now.fours }
    ensures { result ≡ codes " " ++ value_digits side.now.sub.value ++ codes " " }
{
    (0x2000_0000_0000_0020 + 0x100 * digits(side)).to_le_bytes()
}

/// The flags of both sides, whether a block starts, and 0, each but the first after a space; then the line's end.
fn last_part(left: &Side, right: &Side) -> [u8; 8]
    requires left { IsSound left.now.sub }
    requires right { IsSound right.now.sub }
    requires left_fours { HasFours left.now.sub left.now.fours }
    requires right_fours { HasFours right.now.sub right.now.fours }
    ensures { result ≡ last_words left.now.sub.flags right.now.sub.flags (is_block left.now.sub.mark) }
{
    let (x, y) = (u64::from(flags_of(left)), u64::from(flags_of(right)));
    let z = u64::from(block_digit(left.sub.mark));
    (0x0a30_2000_2030_2030 + x + 0x1_0000 * y + 0x1_0000_0000 * z).to_le_bytes()
}

/// The digits of the value of a side, in six bytes, the first digit in the lowest one. Where four bits are 10 or more, their
/// digit is a letter: 39 codes further than those of the others.
fn digits(side: &Side) -> u64
    requires { HasFours side.now.sub side.now.fours }
    ensures digits { result ≡ six_bytes (slice_index lower_digits) (turned side.now.sub.value) }
    ensures below { result < 0x1_0000_0000_0000 }
{
    let fours = side.fours.swap_bytes() / 0x100 % 0x1_0000_0000_0000;
    let letters = ((fours + 0x0606_0606_0606) >> 4) & 0x0101_0101_0101;
    fours + 0x3030_3030_3030 + 39 * letters
}

/// The flags of a side.
pub(crate) fn flags_of(side: &Side) -> u8
    requires sound { IsSound side.now.sub }
    requires fours { HasFours side.now.sub side.now.fours }
    ensures { result ≡ side.now.sub.flags }
{
    (side.fours >> 56) as u8 % 8
}

/// Whether a block starts with the mark, as a digit.
fn block_digit(mark: Mark) -> u8
    ensures { result ≡ 48 + digit_of (is_block mark) }
{
    match mark {
        Mark::B => b'1',
        Mark::M | Mark::W => b'0',
    }
}
