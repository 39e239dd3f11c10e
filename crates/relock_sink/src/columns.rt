//! Whether a period opens at an alignment.
ghost use Rattle.std.specs.Prelude.{◌≡◌, ◌≤◌, ◌+◌, ◌^◌, ◌<◌, Bool, List, Some, None, MatchOption, slice_index};
ghost use Rattle.tmds_word.specs.Bits.{window};
ghost use Rattle.tmds_word.specs.Column.{column_of};
ghost use Rattle.alignment_search.specs.Alignments.{greatest, least};
ghost use Rattle.link_sink.specs.Sinks.{Fed};
ghost use Rattle.track_sink.specs.Lents.{HasRoom, IsLent, AreLent};
ghost use Rattle.relock_sink.specs.Relocks.{is_announced};
ghost use Rattle.relock_sink.specs.Columns.{HaveRoom, column_here, IsOpened, IsDoubted};

use lane_align::RUN_BITS;
use lane_edges::word_at;
use terc4::{island_guard_words, video_guard_words};
use tmds_word::Word;
use track_sink::{LentBits, LentLanes};

/// How many characters of a guard band's first column are right at least: all of them.
const ALL: u8 = 3;

/// How many of the second column are: one may have been received damaged.
const ENOUGH: u8 = 2;

/// From the place at which an unconfirmed alignment is left to its least edge: the edge's run is forgotten, and nothing else.
const FORGOTTEN: u64 = RUN_BITS as u64 - 1;

/// How many bits a character has.
const WORD_BITS: u64 = 10;

/// Whether two columns are the guard band of a period.
#[tactic(auto, unfolding(crate::specs::Relocks::is_announced))]
pub(crate) fn is_announced(here: &[Word; 3], next: &[Word; 3]) -> bool
    ensures { result ≡ is_announced (column_of here.now) (column_of next.now) }
{
    (video_guard_words(here) >= ALL && video_guard_words(next) >= ENOUGH)
        || (island_guard_words(here) >= ALL && island_guard_words(next) >= ENOUGH)
}

/// Where an epoch ends that is aligned at three edges; None where a period opens there, or a lane ends before the end of both
/// columns.
pub(crate) fn doubt_at(lanes: LentLanes<'_>, edges: [u64; 3]) -> Option<u64>
    requires room { HaveRoom lanes }
    requires base { lanes.base ≤ least edges }
    requires small { greatest edges < 2 ^ 61 }
    requires far { 119 ≤ least edges }
    ensures { (fed : Fed) → AreLent lanes.entry fed → MatchOption result (IsOpened fed edges) (IsDoubted fed edges) }
{
    let [blue, green, red] = edges;
    let here = words_at(lanes, [blue, green, red])?;
    let next = words_at(
        lanes,
        [blue + WORD_BITS, green + WORD_BITS, red + WORD_BITS],
    )?;
    if is_announced(&here, &next) {
        None
    } else {
        Some(blue.min(green.min(red)) - FORGOTTEN)
    }
}

/// The characters that begin at three places of three lanes; None where a lane ends before the end of its own.
pub(crate) fn words_at(lanes: LentLanes<'_>, places: [u64; 3]) -> Option<[Word; 3]>
    requires room { HaveRoom lanes }
    requires base { lanes.base ≤ least places }
    requires small { greatest places < 2 ^ 62 }
    ensures { (fed : Fed) → AreLent lanes.entry fed
        → MatchOption result (column_here fed places ≡ None) (λ words. column_here fed places ≡ Some (column_of words)) }
{
    let [blue, green, red] = places;
    let blue = lent_word(lanes.blue, lanes.base, blue)?;
    let green = lent_word(lanes.green, lanes.base, green)?;
    let red = lent_word(lanes.red, lanes.base, red)?;
    Some([blue, green, red])
}

/// The character that begins at a place of a lane; None where the lane ends before its end.
fn lent_word(lane: LentBits<'_>, base: u64, place: u64) -> Option<Word>
    requires room { HasRoom lane }
    requires after { base ≤ place }
    requires small { place < 2 ^ 62 }
    ensures { (xs : List Bool) → IsLent lane.entry base xs → result ≡ window xs place }
{
    let from = place - base;
    if u64::from(lane.count) < from + WORD_BITS {
        return None;
    }
    Some(word_at(lane.bytes, lane.skip + from as u32))
}
