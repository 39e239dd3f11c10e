//! The reasons for which an epoch ends: a stray of a lane, or an alignment that is not confirmed.
ghost use Rattle.std.specs.Prelude.{◌≡◌, ◌≤◌, ◌+◌, ◌-◌, ◌^◌, ◌<◌, ℕ, false, None, MatchOption};
ghost use Rattle.link_sink.specs.Sinks.{Fed};
ghost use Rattle.track_sink.specs.Epochs.{most_of};
ghost use Rattle.track_sink.specs.Lents.{AreLent};
ghost use Rattle.relock_sink.specs.Relocks.{relock_rule, relock_ends};
ghost use Rattle.relock_sink.specs.Watches.{HasNoneWhatever, HasWatched, IsDoubt, HasNoDoubt, passed_of};

use crate::columns::doubt_at;
use crate::lent::{front, parts_of};
use alignment_search::AlignmentFinder;
use lane_align::RUN_BITS;
use track_sink::{Cause, End, LentLanes, Strays, Watch};

/// How many places of each lane are looked at before those of the next: an epoch that ends early costs no more.
const STRETCH: u64 = 2560;

/// From the first bit of a run to its last.
const SPAN: u64 = RUN_BITS as u64 - 1;

/// How many bits two characters have.
const TWO_WORDS: u64 = 20;

/// From a place to the first edge whose two columns end after a run from the place on.
const AHEAD: u64 = RUN_BITS as u64 - TWO_WORDS;

/// How far before the first place that can be a stray's an unconfirmed alignment can be left.
const BEHIND: u64 = 90;

/// Looks for the first stray of three lanes, and whether their first alignment is confirmed.
#[derive(Clone, Copy)]
pub struct Relock {
    strays: Strays,
    alignment: AlignmentFinder,
    /// Whether the first alignment was found: it stands, or is not shown to be none.
    is_judged: bool,
}

impl Watch for Relock {
    ghost use Rattle.relock_sink.specs.RelockRule.{relock_is_rule, relock_is_watch};

    ghost rule = { relock_rule };

    ghost looked = { HasWatched };

    ghost passed = { passed_of };

    fn open() -> Relock {
        Relock {
            strays: Strays::open(),
            alignment: AlignmentFinder::new(),
            is_judged: false,
        }
    }

    fn restart(&mut self) {
        self.strays.restart();
        self.alignment = AlignmentFinder::new();
        self.is_judged = false;
    }

    fn passed(&self) -> u64 {
        self.strays.passed().saturating_sub(BEHIND)
    }

    fn next_end(&mut self, lanes: LentLanes<'_>) -> Option<End> {
        let longest = lanes.blue.count.max(lanes.green.count.max(lanes.red.count));
        let all = lanes.base + u64::from(longest);
        let mut seen = self.strays.passed();
        'stretches: while !self.is_judged && seen + SPAN < all {
            let shown = all.min(seen + SPAN + STRETCH);
            if let Some(end) = self.look(lanes, shown) {
                return Some(end);
            }
            seen = shown - SPAN;
        }
        if self.is_judged {
            self.strays.next_end(lanes)
        } else {
            None
        }
    }

    ghost is_rule = { relock_is_rule };

    ghost is_watch = { relock_is_watch };
}

impl Relock {
    /// Looks on in the bits before a place, and answers the epoch's end, where they show it.
    fn look(&mut self, lanes: LentLanes<'_>, shown: u64) -> Option<End>
        requires lent { (fed : Fed) × AreLent lanes fed × HasWatched self.old fed × (shown ≤ most_of fed) }
        requires open { self.old.is_judged ≡ false }
        requires from { lanes.base ≤ passed_of self.old }
        requires more { self.old.strays.seen + 119 < shown }
        ensures found { (fed : Fed) → AreLent lanes.entry fed → HasWatched self.old fed → shown ≤ most_of fed
            → MatchOption result (HasWatched self.new fed × (self.new.strays.seen + 119 ≡ shown)) (λ end. relock_ends fed end.cause end.place) }
    {
        let slip = self.strays.next_end(front(lanes, shown));
        let until = until_of(slip, shown);
        match self.unconfirmed(lanes, until + AHEAD) {
            Some(place) => Some(End {
                cause: Cause::Unconfirmed,
                place,
            }),
            None => slip,
        }
    }

    /// Looks for edges before `limit`, and answers where the epoch ends if it is aligned at some of them and no period opens there.
    fn unconfirmed(&mut self, lanes: LentLanes<'_>, limit: u64) -> Option<u64>
        requires lent { (fed : Fed) × AreLent lanes fed × HasNoneWhatever self.old fed × (limit + 19 ≤ most_of fed) }
        requires open { self.old.is_judged ≡ false }
        requires from { lanes.base ≤ self.old.alignment.limit - 119 }
        requires rises { self.old.alignment.limit ≤ limit }
        ensures strays { self.new.strays ≡ self.old.strays }
        ensures found { (fed : Fed) → AreLent lanes.entry fed → HasNoneWhatever self.old fed → limit + 19 ≤ most_of fed
            → MatchOption result (HasNoDoubt self.new fed limit) (IsDoubt fed limit) }
    {
        match self.alignment.seek(parts_of(lanes), limit) {
            Some(edges) => {
                self.is_judged = true;
                doubt_at(lanes, edges)
            }
            None => None,
        }
    }
}

/// The place of a stray; where there is none, the first place that bits before another do not decide.
fn until_of(slip: Option<End>, shown: u64) -> u64
    requires { 119 ≤ shown }
    ensures { MatchOption slip (result ≡ shown - 119) (λ end. result ≡ end.place) }
{
    match slip {
        Some(end) => end.place,
        None => shown - SPAN,
    }
}
