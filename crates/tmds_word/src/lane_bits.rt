//! Bits of three lanes that are lent.

/// Bits of three lanes that are lent: bit i of a lane is bit `i % 8` of byte `i / 8`. Each lane has its own number of bits.
#[derive(Clone, Copy)]
pub struct LaneBits<'a> {
    /// Lane 0.
    pub blue: &'a [u8],
    /// Lane 1.
    pub green: &'a [u8],
    /// Lane 2.
    pub red: &'a [u8],
    /// How many bits each lane has, lane 0 first.
    pub bits: [u32; 3],
}
