//! Blocks of 192 frames, over which channel status is spread.
ghost use Rattle.std.specs.Prelude.{◌≡◌, ◌+◌, ◌<◌, ◌≤◌, ◌==◌, ◌∷◌, ◌++◌, [], List, Some, is_some, length, take, drop};
ghost use Rattle.tmds_word.specs.Bits.{bytes_of, number};
ghost use Rattle.bch_block.specs.Bits.{bit};
ghost use Rattle.audio_packets.specs.declared.sample.Sample.{Sample as SampleType};
ghost use Rattle.audio_out.specs.Blocks.{IsBlocksAfter, block_of, full_status};

use audio_packets::Sample;
use std::marker::Model;

/// The 192 channel status bits of each side of a block, as 24 bytes: the first frame's bit is the
/// lowest of the first byte (IEC 60958-3, section 5).
#[derive(Clone, Copy)]
pub struct BlockStatus {
    pub left: [u8; 24],
    pub right: [u8; 24],
}

/// Collects channel status from samples, one after another. Contracts see it as the bits of the last
/// block that has begun.
#[derive(Drop)]
pub struct Blocks {
    left: [bool; 192],
    right: [bool; 192],
    /// How many samples the block has, up to 192; 0 where none has begun.
    count: usize,
}

impl Model for Blocks {
    ghost use Rattle.std.specs.Prelude.{◌≤◌, take};
    ghost use Rattle.audio_out.specs.Blocks.{OpenBlock};

    ghost Value = { OpenBlock };

    ghost view = { λ b. record { left = take b.count b.left; right = take b.count b.right } };

    ghost invariant = { λ b. b.count ≤ 192 };
}

impl Blocks {
    /// Nothing collected.
    pub fn new() -> Blocks
        ensures { IsBlocksAfter result [] }
    {
        Blocks {
            left: [false; 192],
            right: [false; 192],
            count: 0,
        }
    }

    /// Takes the next sample, and answers the channel status where it is the 192nd of a run of which
    /// the first alone starts a block.
    pub fn push(&mut self, sample: &Sample) -> Option<BlockStatus>
        ensures stands { (past : List SampleType) → IsBlocksAfter self.old past → IsBlocksAfter self.new (past ++ sample.now ∷ []) }
        ensures answers { (past : List SampleType) → IsBlocksAfter self.old past → result ≡ block_of (past ++ sample.now ∷ []) }
    {
        let _ = self.take(sample);
        self.status()
    }

    /// Takes the next sample, and answers whether it is the 192nd of a run of which the first alone starts a block: then
    /// `status` has the channel status.
    pub fn take(&mut self, sample: &Sample) -> bool
        ensures stands { (past : List SampleType) → IsBlocksAfter self.old past → IsBlocksAfter self.new (past ++ sample.now ∷ []) }
        ensures answers { (past : List SampleType) → IsBlocksAfter self.old past → result ≡ is_some (block_of (past ++ sample.now ∷ [])) }
    {
        if sample.start {
            self.count = 0;
        } else if self.count == 0 || self.count == 192 {
            self.count = 0;
            return false;
        }
        self.put(
            has_status(sample.left_flags),
            has_status(sample.right_flags),
        );
        self.is_full()
    }

    /// Adds a bit of each side.
    fn put(&mut self, left: bool, right: bool)
        requires { length self.old.left < 192 }
        ensures left { self.new.left ≡ self.old.left ++ left ∷ [] }
        ensures right { self.new.right ≡ self.old.right ++ right ∷ [] }
    {
        let count = self.count;
        self.left[count] = left;
        self.right[count] = right;
        self.count = count + 1;
    }

    /// The channel status of the last block that has begun, where it is full.
    pub fn status(&self) -> Option<BlockStatus>
        ensures { (past : List SampleType) → IsBlocksAfter self.now past → result ≡ block_of past }
    {
        if self.is_full() {
            Some(self.whole())
        } else {
            None
        }
    }

    /// Whether the block has its 192 samples.
    fn is_full(&self) -> bool
        ensures { result ≡ (length self.now.left == 192) }
    {
        self.count == 192
    }

    /// The status of a full block: seldom worked out, and so in no caller's way.
    #[inline(never)]
    fn whole(&self) -> BlockStatus
        requires { length self.now.left ≡ 192 }
        ensures { full_status self.now ≡ Some result }
    {
        BlockStatus {
            left: packed(&self.left),
            right: packed(&self.right),
        }
    }
}

/// The C bit of a side.
fn has_status(flags: u8) -> bool
    ensures { result ≡ bit flags 2 }
{
    (flags >> 2) & 1 == 1
}

/// The bytes of 192 bits, the first bit lowest.
fn packed(bits: &[bool; 192]) -> [u8; 24]
    ensures { result ≡ bytes_of 24 (number bits.now) }
{
    let mut bytes = [0; 24];
    for (place, byte) in bytes.iter_mut().enumerate() {
        *byte = byte_from(bits, 8 * place);
    }
    bytes
}

/// The number of eight bits from a place on, the first one lowest.
fn byte_from(bits: &[bool; 192], from: usize) -> u8
    requires { from + 8 ≤ 192 }
    ensures { result ≡ number (take 8 (drop from bits.now)) }
{
    u8::from(bits[from])
        + 2 * u8::from(bits[from + 1])
        + 4 * u8::from(bits[from + 2])
        + 8 * u8::from(bits[from + 3])
        + 16 * u8::from(bits[from + 4])
        + 32 * u8::from(bits[from + 5])
        + 64 * u8::from(bits[from + 6])
        + 128 * u8::from(bits[from + 7])
}
