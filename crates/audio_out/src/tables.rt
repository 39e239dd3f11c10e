//! Four bits in biphase-mark code.
ghost use Rattle.std.specs.Prelude.{◌≡◌, ◌<◌, true, slice_index};
ghost use Rattle.tmds_word.specs.Bits.{bits_of};
ghost use Rattle.audio_out.specs.Subframes.{carries};
ghost use Rattle.audio_out.specs.Levels.{level_after};

/// The eight half cells of four bits, for each of their sixteen values after level 0, then after
/// level 1.
static CELLS: [u8; 32] = [
    51, 205, 203, 53, 211, 45, 43, 213, 179, 77, 75, 181, 83, 173, 171, 85, 204, 50, 52, 202, 44,
    210, 212, 42, 76, 178, 180, 74, 172, 82, 84, 170,
];

/// The half cells of four bits after a byte of half cells.
pub(crate) fn cells(before: u8, bits: u8) -> u8
    requires { bits < 16 }
    ensures { carries (level_after before) (bits_of 4 bits) (bits_of 8 result) ≡ true }
{
    cells_at(16 * usize::from(before >> 7) + usize::from(bits))
}

fn cells_at(place: usize) -> u8
    requires { place < 32 }
    ensures entry { result ≡ slice_index CELLS place }
    ensures below { result < 256 }
{
    CELLS[place]
}
