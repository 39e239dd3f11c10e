//! What an item is asked before it follows others, each question with a yes or a no.
ghost use Rattle.std.specs.Prelude.{◌≡◌, ℕ, List, map, IsTrue};
ghost use Rattle.std.specs.List.{list_all};
ghost use Rattle.island_pack.specs.Periods.{DataIsland, video, island};
ghost use Rattle.source_end.specs.ItemPeriods.{period_of};
ghost use Rattle.source_end.specs.Kept.{has_pixels, is_run_in_range};
ghost use Rattle.source_end.specs.Refusals.{last_period, is_in_range, is_in_order, has_control, is_announced, is_control_last, is_long_enough, first_fault, close_fault};

use crate::{Item, ItemFault, Run};
use island_pack::{is_control_in_range, is_line_in_range};

/// The first fault of an item after others, where it is `announced` or not, and its columns have `room` or not.
pub(crate) fn first_fault(
    items: &[Item],
    item: &Item,
    announced: bool,
    room: bool,
) -> Option<ItemFault>
    ensures answer { result ≡ first_fault (map period_of items.now) (period_of item.now) announced room }
    ensures whole { IsTrue (has_pixels (period_of item.now)) }
{
    if !is_in_range(item) {
        Some(ItemFault::Range)
    } else if !is_in_order(items, item) {
        Some(ItemFault::Order)
    } else if !has_control(items, item) {
        Some(ItemFault::Control)
    } else if !announced {
        Some(ItemFault::Preamble)
    } else if !room {
        Some(ItemFault::Long)
    } else {
        None
    }
}

/// The first fault of the end of items.
pub(crate) fn end_fault(items: &[Item]) -> Option<ItemFault>
    ensures { result ≡ close_fault (map period_of items.now) }
{
    if !is_control_last(items) {
        Some(ItemFault::Order)
    } else if !is_long_enough(items) {
        Some(ItemFault::Control)
    } else {
        None
    }
}

/// Whether values and counts are in their ranges.
fn is_in_range(item: &Item) -> bool
    ensures answer { result ≡ is_in_range (period_of item.now) }
    ensures whole { IsTrue (has_pixels (period_of item.now)) }
{
    match item {
        Item::Control(runs) => are_in_range(runs.as_slice()),
        Item::Video(pixels) => is_line_in_range(pixels.len()),
        Item::Island(island) => island.is_in_range(),
    }
}

fn are_in_range(runs: &[Run]) -> bool
    ensures { result ≡ list_all is_run_in_range runs.now }
{
    runs.iter().all(|run| run.is_in_range())
}

/// Whether it takes its turn after the items before it.
fn is_in_order(items: &[Item], item: &Item) -> bool
    ensures { result ≡ is_in_order (last_period (map period_of items.now)) (period_of item.now) }
{
    match item {
        Item::Control(_) => !is_control_last(items),
        Item::Video(_) => is_control_last(items),
        Item::Island(_) => is_control_last(items),
    }
}

/// Whether the last item is a control period.
fn is_control_last(items: &[Item]) -> bool
    ensures { result ≡ is_control_last (last_period (map period_of items.now)) }
{
    match items.last() {
        Some(Item::Control(_)) => true,
        Some(Item::Video(_)) => false,
        Some(Item::Island(_)) => false,
        None => false,
    }
}

/// Whether it needs no control period before it, or a long enough one is there.
fn has_control(items: &[Item], item: &Item) -> bool
    ensures { result ≡ has_control (last_period (map period_of items.now)) (period_of item.now) }
{
    match item {
        Item::Control(_) => true,
        Item::Video(_) => is_long_enough(items),
        Item::Island(_) => is_long_enough(items),
    }
}

/// Whether the last item is a control period of at least twelve columns.
fn is_long_enough(items: &[Item]) -> bool
    ensures { result ≡ is_long_enough (last_period (map period_of items.now)) }
{
    match items.last() {
        Some(Item::Control(runs)) => is_control_in_range(runs.columns()),
        Some(Item::Video(_)) => false,
        Some(Item::Island(_)) => false,
        None => false,
    }
}

/// Whether it needs no preamble before it, or its own is there.
pub(crate) fn is_announced(items: &[Item], item: &Item) -> bool
    ensures { result ≡ is_announced (last_period (map period_of items.now)) (period_of item.now) }
{
    match item {
        Item::Control(_) => true,
        Item::Video(_) => is_video_announced(items),
        Item::Island(_) => is_island_announced(items),
    }
}

/// Whether the last item is a control period that ends with a video preamble.
fn is_video_announced(items: &[Item]) -> bool
    ensures { (bytes : List ℕ) → result ≡ is_announced (last_period (map period_of items.now)) (video bytes) }
{
    match items.last() {
        Some(Item::Control(runs)) => runs.announces_video(),
        Some(Item::Video(_)) => false,
        Some(Item::Island(_)) => false,
        None => false,
    }
}

/// Whether the last item is a control period that ends with an island preamble.
fn is_island_announced(items: &[Item]) -> bool
    ensures { (x : DataIsland) → result ≡ is_announced (last_period (map period_of items.now)) (island x) }
{
    match items.last() {
        Some(Item::Control(runs)) => runs.announces_island(),
        Some(Item::Video(_)) => false,
        Some(Item::Island(_)) => false,
        None => false,
    }
}
