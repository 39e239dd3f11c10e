//! Samples of two channels.

/// A sample of two channels, and the bits of IEC 60958-1 that go with it.
#[derive(Clone, Copy)]
pub struct Sample {
    /// The left value, of 24 bits.
    pub left: u32,
    /// The right value, of 24 bits.
    pub right: u32,
    /// Validity plus twice the user data bit plus four times the channel status bit of the left side.
    pub left_flags: u8,
    /// The same of the right side.
    pub right_flags: u8,
    /// A block of 192 frames, over which the channel status bits are spread, starts here.
    pub start: bool,
    /// The sample is a flat line: the source had no audio to sample.
    pub flat: bool,
}

/// A sample that was read.
#[derive(Clone, Copy)]
pub struct SampleNote {
    /// The body that has it, 0 to 3.
    pub place: u8,
    /// The sample.
    pub sample: Sample,
    /// The left side has an even number of ones, its parity bit included.
    pub left_even: bool,
    /// So has the right side.
    pub right_even: bool,
}
