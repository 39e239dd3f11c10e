//! What follows the control columns, and the step of a column.
ghost use Rattle.std.specs.Prelude.{◌≡◌, ◌<◌, ◌≤◌, ◌+◌, ◌^◌, ◌++◌, ◌∷◌, [], List, ℕ, length, true, false};
ghost use Rattle.tmds_word.specs.Column.{Column, column_of};
ghost use Rattle.period_grammar.specs.Column.{value_of};
ghost use Rattle.terc4.specs.Columns.{is_control_column, is_video_guard};
ghost use Rattle.terc4.specs.Tables.{is_control};
ghost use Rattle.period_grammar.specs.Cut.{Stretch};
ghost use Rattle.period_grammar.specs.Heard.{other_words, other_word};
ghost use Rattle.period_grammar.specs.After.{gains, grown, gap_of, ends};
ghost use Rattle.period_grammar.specs.ControlAfter.{IsControlAfter, IsCounted};
ghost use Rattle.period_grammar.specs.IslandAfter.{IsBlocked, at_some};
ghost use Rattle.period_grammar.specs.Events.{broken, cut};
ghost use Rattle.period_grammar.specs.Noted.{events, lent, Lent};
ghost use Rattle.period_grammar.specs.Seen.{IsPlaced};
ghost use Rattle.period_grammar.specs.Stands.{IsStretchAfter, closed, going_on};

use crate::column;
use crate::control::ControlState;
use crate::event::Fault;
use crate::event_queue::{EventQueue, QueuedEvent};
use crate::island::{Island, tell_guard};
use crate::line::Line;
use island_pack::{ISLAND_CTL, VIDEO_CTL};
use terc4::{
    is_control_word, is_island_guard, is_video_guard, island_guard_words, video_guard_words,
};
use tmds_word::Word;

/// Where in the columns that are no control columns the hearing is.
#[derive(Clone, Copy, Drop)]
pub enum Phase {
    Control,
    First {
        start: u64,
        video: u8,
        island: u8,
        digit: u8,
    },
    Video {
        start: u64,
    },
    Island {
        start: u64,
    },
    Noise,
}

/// Reports what ends at a control column, and gives what is kept of the control columns that go on.
pub fn close(
    phase: Phase,
    n: u64,
    value: u8,
    kept: ControlState,
    line: &Line,
    island: &Island,
    notes: &mut EventQueue,
) -> ControlState
    requires room { length notes.old ≤ 0 }
    requires counted { IsCounted kept }
    requires fits { n + 40 < 2 ^ 64 }
    requires few { kept.columns ≤ n }
    requires placed { IsPlaced phase line.now.count island.now n }
    ensures room { length notes.new ≤ 5 }
    ensures counted { IsCounted result }
    ensures few { result.columns ≤ n }
    ensures reported { (x : Stretch) (b : ℕ) → IsStretchAfter phase kept line.now island.now n x → b + length (gap_of x) ≡ n → events (lent line.now.bytes island.now.whole) notes.new ≡ closed value b x }
    ensures kept { (x : Stretch) → IsStretchAfter phase kept line.now island.now n x → IsControlAfter result (going_on x) }
{
    match phase {
        Phase::Control => {
            kept.tell_change(value, notes);
            kept
        }
        Phase::First { start, .. } => {
            notes.push(QueuedEvent::Fault(Fault::Noise { column: start }));
            ControlState::new()
        }
        Phase::Video { start } => {
            line.tell(start, notes);
            ControlState::new()
        }
        Phase::Island { start } => {
            tell_broken(island.broken_at(start), notes);
            ControlState::new()
        }
        Phase::Noise => ControlState::new(),
    }
}

fn tell_word(lane: u8, n: u64, word: Word, notes: &mut EventQueue)
    requires room { length notes.old + length (other_word lane n (is_control word)) ≤ 8 }
    ensures room { length notes.new ≡ length notes.old + length (other_word lane n (is_control word)) }
    ensures reported { (bytes : Lent) → events bytes notes.new ≡ events bytes notes.old ++ other_word lane n (is_control word) }
{
    if !is_control_word(word) {
        notes.push(QueuedEvent::Fault(Fault::Word { lane, column: n }));
    }
}

/// Reports the word of a control column that is no control word: there is one at most.
pub fn tell_words(n: u64, column: &[Word; 3], notes: &mut EventQueue)
    requires room { length notes.old ≤ 7 }
    requires control { is_control_column (column_of column.now) ≡ true }
    ensures room { length notes.new ≤ length notes.old + 1 }
    ensures reported { (bytes : Lent) → events bytes notes.new ≡ events bytes notes.old ++ other_words n (column_of column.now) }
{
    tell_word(0, n, column::blue(column), notes);
    tell_word(1, n, column::green(column), notes);
    tell_word(2, n, column::red(column), notes);
}

/// Makes the reports at a column that is no control column.
pub fn go_on(
    phase: Phase,
    n: u64,
    column: &[Word; 3],
    kept: &ControlState,
    line: &mut Line,
    island: &mut Island,
    notes: &mut EventQueue,
) -> Phase
    requires room { length notes.old ≤ 0 }
    requires placed { IsPlaced phase line.old.count island.old n }
    requires blocked { IsBlocked island.old }
    requires fits { n + 40 < 2 ^ 64 }
    ensures blocked { IsBlocked island.new }
    ensures room { length notes.new ≤ 8 }
    ensures placed { IsPlaced result line.new.count island.new (n + 1) }
    ensures reported { (x : Stretch) (b : ℕ) → IsStretchAfter phase kept.now line.old island.old n x → b + length (gap_of x) ≡ n → events (lent line.new.bytes island.new.whole) notes.new ≡ gains false b n (column_of column.now) x }
    ensures stands { (x : Stretch) → IsStretchAfter phase kept.now line.old island.old n x → IsStretchAfter result kept.now line.new island.new (n + 1) (grown false (column_of column.now) x) }
{
    match phase {
        Phase::Control => {
            kept.tell_run(notes);
            Phase::First {
                start: n,
                video: video_guard_words(column),
                island: island_guard_words(column),
                digit: column::digit(column::blue(column)),
            }
        }
        Phase::First {
            start,
            video,
            island: opens,
            digit,
        } => {
            if column::at_least(5, video, video_guard_words(column)) {
                kept.tell_lacks(start, VIDEO_CTL, notes);
                tell_guard(video == 3, start, notes);
                tell_guard(is_video_guard(column), start + 1, notes);
                line.clear();
                return Phase::Video { start };
            }
            if column::at_least(5, opens, island_guard_words(column)) {
                kept.tell_lacks(start, ISLAND_CTL, notes);
                notes.push(QueuedEvent::Open {
                    first: digit,
                    second: column::digit(column::blue(column)),
                });
                tell_guard(opens == 3, start, notes);
                tell_guard(is_island_guard(column), start + 1, notes);
                island.clear();
                return Phase::Island { start };
            }
            notes.push(QueuedEvent::Fault(Fault::Noise { column: start }));
            Phase::Noise
        }
        Phase::Island { start } => {
            island.hear(start, column, notes);
            Phase::Island { start }
        }
        Phase::Video { start } => {
            line.hear(column);
            Phase::Video { start }
        }
        Phase::Noise => Phase::Noise,
    }
}

/// Reports what is left to report at the end.
pub fn end(
    phase: Phase,
    n: u64,
    kept: &ControlState,
    line: &Line,
    island: &Island,
    notes: &mut EventQueue,
)
    requires fits { n + 40 < 2 ^ 64 }
    requires room { length notes.old ≤ 0 }
    requires placed { IsPlaced phase line.now.count island.now n }
    ensures room { length notes.new ≤ 8 }
    ensures reported { (x : Stretch) (b : ℕ) → IsStretchAfter phase kept.now line.now island.now n x → b + length (gap_of x) ≡ n → events (lent line.now.bytes island.now.whole) notes.new ≡ ends b x }
{
    match phase {
        Phase::Control => kept.tell_run(notes),
        Phase::First { start, .. } => notes.push(QueuedEvent::Cut { column: start }),
        Phase::Video { start } => notes.push(QueuedEvent::Cut { column: start + 2 }),
        Phase::Island { start } => tell_cut(island.broken_at(start), notes),
        Phase::Noise => {}
    }
}

fn tell_broken(at: Option<u64>, notes: &mut EventQueue)
    requires room { length notes.old ≤ 0 }
    ensures room { length notes.new ≤ 1 }
    ensures reported { (bytes : Lent) → events bytes notes.new ≡ at_some broken at }
{
    if let Some(column) = at {
        notes.push(QueuedEvent::Fault(Fault::Broken { column }));
    }
}

fn tell_cut(at: Option<u64>, notes: &mut EventQueue)
    requires room { length notes.old ≤ 0 }
    ensures room { length notes.new ≤ 1 }
    ensures reported { (bytes : Lent) → events bytes notes.new ≡ at_some cut at }
{
    if let Some(column) = at {
        notes.push(QueuedEvent::Cut { column });
    }
}
