//! Which bits of three lanes a capture has, as C says it.
ghost use Rattle.std.specs.Prelude.{◌≡◌, ◌≤◌, MatchOption};
ghost use Rattle.std.specs.Bool.{OnTrue, OnFalse};
ghost use Rattle.c_capture.specs.Taps.{AreShort, IsTaken, IsVersion, limit_of, words_of};

use command_line::{SKEW_LIMIT, TapWords};

/// How many bits later each lane begins.
#[repr(C)]
#[derive(Clone, Copy, Drop)]
pub struct Skews {
    pub blue: u32,
    pub green: u32,
    pub red: u32,
}

/// Which bits of three lanes a capture has: of each lane those from the offset plus its skew on, and at most `bits`.
#[repr(C)]
#[derive(Clone, Copy, Drop)]
pub struct LentTap {
    /// The version of the capture's layout, 1 or 2.
    pub version: u32,
    /// How many bits at the front of each lane are left out.
    pub offset: u32,
    /// How many bits more each lane leaves out, at most 4,095.
    pub skews: Skews,
    /// 1 where a lane has at most `bits` bits, 0 where it has all.
    pub limited: u32,
    /// The most bits of a lane.
    pub bits: u32,
}

impl LentTap {
    /// The options of `make` that it stands for; none where the command line takes no such.
    pub fn words(&self) -> Option<TapWords>
        ensures { MatchOption result (IsTaken self.now → ⊥) (λ words. (words ≡ words_of self.now) × IsTaken self.now) }
    {
        let version = read_version(self.version)?;
        let bits = read_limit(self.limited, self.bits)?;
        if !self.skews.are_short() {
            return None;
        }
        Some(TapWords {
            version,
            offset: self.offset,
            skews: [self.skews.blue, self.skews.green, self.skews.red],
            bits,
        })
    }
}

impl Skews {
    /// Whether no lane begins more bits later than the command line takes.
    fn are_short(&self) -> bool
        ensures short { OnTrue result (AreShort self.now) }
        ensures long { OnFalse result (AreShort self.now → ⊥) }
    {
        self.blue <= SKEW_LIMIT && self.green <= SKEW_LIMIT && self.red <= SKEW_LIMIT
    }
}

/// The version, 1 or 2.
fn read_version(version: u32) -> Option<u8>
    ensures { MatchOption result (IsVersion version → ⊥) (λ byte. (byte ≡ version) × IsVersion version) }
{
    match version {
        1 => Some(1),
        2 => Some(2),
        _ => None,
    }
}

/// The most bits of a lane, none where they are not limited; nothing where the flag is neither 0 nor 1.
fn read_limit(limited: u32, bits: u32) -> Option<Option<u32>>
    ensures { MatchOption result (limited ≤ 1 → ⊥) (λ limit. (limit ≡ limit_of limited bits) × (limited ≤ 1)) }
{
    match limited {
        0 => Some(None),
        1 => Some(Some(bits)),
        _ => None,
    }
}
