//! The first full alignment of three whole rows and the columns from it on, found as their definitions
//! say: what the tests compare a deskew with.
ghost use Rattle.std.specs.Prelude.{ℕ, ◌≡◌, ◌<◌, ◌≤◌, ◌+◌, ◌*◌, ◌^◌, ◌↔◌, IsTrue, MatchOption, IfSome, Some, None, length, slice_index};
ghost use Rattle.tmds_word.specs.Bits.{window};
ghost use Rattle.tmds_word.specs.Column.{column_of};
ghost use Rattle.lane_align.specs.Lanes.{HasControl, IsRun, IsLock, IsEdge, IsNextEdge};
ghost use Rattle.lane_deskew.specs.Triples.{IsTriple, IsAlignment};
ghost use Rattle.lane_deskew.specs.Candidates.{AreAllNear, AreReached, sum_of};
ghost use Rattle.lane_deskew.specs.Aligned.{place, column_at};

use crate::Aligned;
use lane_align::{RUN_BITS, is_control_word};
use terc4::RUN;
use tmds_word::{BitRow, GREATEST_SKEW, Word};

/// The bits of a character.
const WORD: u32 = 10;

/// The first full alignment: the edges, one of each lane, any two near each other, whose
/// largest is least. None exactly where there are no such edges.
pub(crate) fn first_alignment(blue: &BitRow, green: &BitRow, red: &BitRow) -> Option<Aligned>
    ensures { MatchOption result ((d e f : ℕ) → IsTriple blue.now green.now red.now d e f → ⊥) (λ at. IsAlignment blue.now green.now red.now at.edges) }
{
    let mut edges = first_edges(blue, green, red)?;
    while !are_near(edges) {
        edges = later_edges(blue, green, red, edges)?;
    }
    let [d, e, f] = edges;
    Some(Aligned {
        edges: [u64::from(d), u64::from(e), u64::from(f)],
    })
}

/// The first edge of each lane; none where some lane has none.
fn first_edges(blue: &BitRow, green: &BitRow, red: &BitRow) -> Option<[u32; 3]>
    ensures { MatchOption result ((d e f : ℕ) → IsTriple blue.now green.now red.now d e f → ⊥)
        (λ edges. AreReached blue.now green.now red.now (slice_index edges 0) (slice_index edges 1) (slice_index edges 2)) }
{
    let d = next_edge(blue, 0)?;
    let e = next_edge(green, 0)?;
    let f = next_edge(red, 0)?;
    Some([d, e, f])
}

/// The edges with the least of them, which is too far from another, replaced by its lane's next; none
/// where that lane has no later edge.
fn later_edges(blue: &BitRow, green: &BitRow, red: &BitRow, edges: [u32; 3]) -> Option<[u32; 3]>
    requires reached { AreReached blue.now green.now red.now (slice_index edges 0) (slice_index edges 1) (slice_index edges 2) }
    requires far { AreAllNear (slice_index edges 0) (slice_index edges 1) (slice_index edges 2) → ⊥ }
    ensures edges { MatchOption result ((d e f : ℕ) → IsTriple blue.now green.now red.now d e f → ⊥)
        (λ later. AreReached blue.now green.now red.now (slice_index later 0) (slice_index later 1) (slice_index later 2)) }
    ensures later { IfSome result (λ later. sum_of edges < sum_of later) }
{
    let [d, e, f] = edges;
    if d <= e && d <= f {
        Some([edge_after(blue, d)?, e, f])
    } else if e <= f {
        Some([d, edge_after(green, e)?, f])
    } else {
        Some([d, e, edge_after(red, f)?])
    }
}

/// Whether any two of three edges are near each other.
fn are_near(edges: [u32; 3]) -> bool
    ensures { IsTrue result ↔ AreAllNear (slice_index edges 0) (slice_index edges 1) (slice_index edges 2) }
{
    let [d, e, f] = edges;
    d.abs_diff(e) <= GREATEST_SKEW
        && e.abs_diff(f) <= GREATEST_SKEW
        && d.abs_diff(f) <= GREATEST_SKEW
}

/// The next edge of a lane after one.
fn edge_after(row: &BitRow, edge: u32) -> Option<u32>
    requires { IsEdge row.now edge }
    ensures { MatchOption result ((e : ℕ) → edge + 1 ≤ e → IsEdge row.now e → ⊥) (λ e. IsNextEdge row.now (edge + 1) e) }
{
    let within = edge < row.len();
    prove!(within);
    next_edge(row, edge + 1)
}

/// The least edge of a lane at or after a place; none exactly where it has no such edge.
fn next_edge(row: &BitRow, from: u32) -> Option<u32>
    ensures { MatchOption result ((e : ℕ) → from ≤ e → IsEdge row.now e → ⊥) (λ e. IsNextEdge row.now from e) }
{
    let lock = find_lock(row)?;
    for e in from..row.len().saturating_sub(WORD - 1) {
        if is_edge(row, lock, e) {
            return Some(e);
        }
    }
    None
}

/// The lock of a lane: the least place of a run. None exactly where it has none.
fn find_lock(row: &BitRow) -> Option<u32>
    ensures { MatchOption result ((p : ℕ) → IsRun row.now p → ⊥) (λ p. IsLock row.now p) }
{
    for p in 0..row.len().saturating_sub(RUN_BITS - 1) {
        if has_run(row, p) {
            return Some(p);
        }
    }
    None
}

/// Whether a run ends at a place of a lane, so many whole characters past its lock.
fn is_edge(row: &BitRow, lock: u32, e: u32) -> bool
    requires lock { IsLock row.now lock }
    requires within { e + 10 ≤ length row.now }
    ensures { IsTrue result ↔ IsEdge row.now e }
{
    if e < RUN_BITS || e - RUN_BITS < lock || e % WORD != lock % WORD {
        return false;
    }
    has_run(row, e - RUN_BITS) && !has_control(row, e)
}

/// Whether twelve control words stand one after another from a place on.
fn has_run(row: &BitRow, p: u32) -> bool
    requires within { p + 120 ≤ length row.now }
    requires small { p + 120 < 2 ^ 32 }
    ensures { IsTrue result ↔ IsRun row.now p }
{
    for k in 0..RUN {
        if !has_control(row, p + WORD * k) {
            return false;
        }
    }
    true
}

/// Whether the window at a place is a control word.
fn has_control(row: &BitRow, p: u32) -> bool
    ensures { IsTrue result ↔ HasControl row.now p }
{
    match row.window(p) {
        Some(word) => is_control_word(word.value()),
        None => false,
    }
}

/// The three characters of a column, lane 0 first: the windows of the lanes at 120 bits before their
/// edges and `10 * j` bits on, where `at` is the rows' alignment. None exactly where not all three
/// lanes have such a window.
pub(crate) fn column(
    blue: &BitRow,
    green: &BitRow,
    red: &BitRow,
    at: &Aligned,
    j: u32,
) -> Option<[Word; 3]>
    requires { IsAlignment blue.now green.now red.now at.now.edges }
    ensures { MatchOption result (column_at blue.now green.now red.now at.now.edges j ≡ None) (λ words. column_at blue.now green.now red.now at.now.edges j ≡ Some (column_of words)) }
{
    let [d, e, f] = at.edges;
    Some([word(blue, d, j)?, word(green, e, j)?, word(red, f, j)?])
}

/// The character of a column on a lane with an edge.
fn word(row: &BitRow, edge: u64, j: u32) -> Option<Word>
    requires { IsEdge row.now edge }
    ensures { result ≡ window row.now (place edge j) }
{
    let len = u64::from(row.len());
    let place = edge - u64::from(RUN_BITS) + 10 * u64::from(j);
    if place < len {
        row.window(place as u32)
    } else {
        None
    }
}
