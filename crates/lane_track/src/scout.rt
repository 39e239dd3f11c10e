//! Looks through the bits of a lane, part after part, for its lock and its first stray.
ghost use Rattle.std.specs.Prelude.{◌≡◌, ◌<◌, ◌≤◌, ◌+◌, ◌*◌, ◌%◌, ◌^◌, ℕ, Bool, List, length, drop, MatchOption, IfSome, None, Some, Option};
ghost use Rattle.lane_align.specs.Lanes.{IsRun, IsLock};
ghost use Rattle.tmds_word.specs.Bits.{bytes_bits};
ghost use Rattle.lane_track.specs.Strays.{IsFirstStray};
ghost use Rattle.lane_track.specs.Scouts.{HoldsBits, HasSought};

use crate::ahead::next_past;

/// The phase at which nothing is left out.
const ANY: u32 = 10;

/// From the lock to the first place that can be a stray's: no run overlaps one at another phase by more than nine bits.
const APART: u32 = 111;

/// Where the characters of a lane begin, as far as its bits were looked through.
#[derive(Clone, Copy, Debug)]
pub struct Scout {
    /// The lock, counted from the epoch's first bit.
    lock: Option<u64>,
}

impl Scout {
    /// A scout that has looked at nothing.
    pub fn new() -> Scout
        ensures { (xs : List Bool) → HasSought xs 0 result.lock }
    {
        Scout { lock: None }
    }

    /// Looks at the places from `from` on and before `until`, counted from the first bit that the bytes hold after
    /// `skip` others, and answers the first stray of the epoch; None where it has none before `until`.
    pub fn seek(&mut self, bytes: &[u8], skip: u32, base: u64, from: u32, until: u32) -> Option<u32>
        requires order { from ≤ until }
        requires room { from < until → skip + until + 119 ≤ 8 * length bytes.now }
        requires small { skip + until < 2 ^ 31 }
        requires total { base + until < 2 ^ 64 }
        ensures within { IfSome result (λ p. p < until) }
        ensures sought { (xs : List Bool) (count : ℕ) → HoldsBits (drop skip (bytes_bits bytes.now)) xs base count → until + 119 ≤ count → HasSought xs (base + from) self.old.lock
            → MatchOption result (HasSought xs (base + until) self.new.lock) (λ p. IsFirstStray xs (base + p)) }
    {
        match self.lock {
            Some(lock) => stray_in(bytes, skip, base, from, until, lock),
            None => match next_past(bytes, skip, from, until, ANY) {
                None => None,
                Some(p) => {
                    let lock = base + u64::from(p);
                    self.lock = Some(lock);
                    let next = (p + APART).min(until);
                    stray_in(bytes, skip, base, next, until, lock)
                }
            },
        }
    }
}

/// The first stray of a lane with a lock, before `until`.
fn stray_in(bytes: &[u8], skip: u32, base: u64, from: u32, until: u32, lock: u64) -> Option<u32>
    requires order { from ≤ until }
    requires room { from < until → skip + until + 119 ≤ 8 * length bytes.now }
    requires small { skip + until < 2 ^ 31 }
    ensures within { IfSome result (λ p. p < until) }
    ensures sought { (xs : List Bool) (count : ℕ) → HoldsBits (drop skip (bytes_bits bytes.now)) xs base count → until + 119 ≤ count → HasSought xs (base + from) (Some lock)
        → MatchOption result (HasSought xs (base + until) (Some lock)) (λ p. IsFirstStray xs (base + p)) }
{
    next_past(bytes, skip, from, until, phase_of(lock, base))
}

/// The phase of a lock among places that are counted from another bit.
fn phase_of(lock: u64, base: u64) -> u32
    ensures phase { (result + base) % 10 ≡ lock % 10 }
    ensures below { result < 10 }
{
    ((lock % 10 + 10 - base % 10) % 10) as u32
}
