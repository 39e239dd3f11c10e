//! Why bytes are no capture.

/// Why bytes are no capture: the first byte at which they stop being the beginning of one, or that they end before one is
/// whole. Places are those of bytes, from 0.
#[derive(Clone, Copy, Debug, PartialEq, Eq)]
pub enum CaptureFault {
    /// A byte of the mark `TMC` is another one: its place, which is below 3.
    Magic(u64),
    /// The byte after the mark is neither `1` nor `2`: that byte.
    Version(u8),
    /// The bytes begin a capture, and end before it is whole: how many they are.
    Short(u64),
    /// A spare bit of a lane's last byte is not 0: the byte's place.
    Padding(u64),
    /// Bytes follow the capture: the first one's place.
    Trailing(u64),
}

/// Why no capture was read.
#[derive(Clone, Copy, Debug, PartialEq, Eq)]
pub enum CaptureError {
    /// The bytes are no capture.
    Bad(CaptureFault),
    /// The source failed.
    Read,
}
