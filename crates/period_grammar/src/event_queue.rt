//! What a call reported.
ghost use Rattle.std.specs.Prelude.{◌≡◌, ◌<◌, ◌≤◌, ◌+◌, ◌++◌, ◌∷◌, [], length, take, slice_get, Some};

use crate::event::Fault;
use std::marker::Model;

/// An event that was reported, but for the bytes of a line and for a packet.
#[derive(Clone, Copy, Drop)]
pub enum QueuedEvent {
    Run { value: u8, count: u64 },
    Line,
    Open { first: u8, second: u8 },
    Packet { column: u64 },
    Close { first: u8, second: u8 },
    Fault(Fault),
    Cut { column: u64 },
}

/// Up to eight events.
#[derive(Drop)]
pub struct EventQueue {
    list: [QueuedEvent; 8],
    count: u8,
}

impl Model for EventQueue {
    ghost use Rattle.std.specs.Prelude.{List, ◌≡◌, ◌≤◌, length, take};
    ghost use Rattle.period_grammar.specs.declared.event_queue.QueuedEvent.{QueuedEvent};

    ghost Value = { List QueuedEvent };

    ghost view = { λ n. take n.count n.list };

    ghost invariant = { λ n. (length n.list ≡ 8) × (n.count ≤ 8) };
}

impl EventQueue {
    pub fn new() -> EventQueue
        ensures { result ≡ [] }
    {
        EventQueue {
            list: [QueuedEvent::Line; 8],
            count: 0,
        }
    }

    pub fn clear(&mut self)
        ensures { self.new ≡ [] }
    {
        self.count = 0;
    }

    pub fn push(&mut self, note: QueuedEvent)
        requires { length self.old < 8 }
        ensures { self.new ≡ self.old ++ note ∷ [] }
    {
        put(&mut self.list, self.count, note);
        self.count += 1;
    }

    pub fn len(&self) -> u8
        ensures { result ≡ length self.now }
    {
        self.count
    }

    pub fn get(&self, i: u8) -> QueuedEvent
        requires { i < length self.now }
        ensures { slice_get self.now i ≡ Some result }
    {
        self.list[usize::from(i)]
    }
}

/// Puts an event after those before a place.
fn put(list: &mut [QueuedEvent; 8], at: u8, note: QueuedEvent)
    requires { at < 8 }
    ensures whole { length list.new ≡ 8 }
    ensures put { take (at + 1) list.new ≡ take at list.old ++ note ∷ [] }
{
    list[usize::from(at)] = note;
}
