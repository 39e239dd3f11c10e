//! Takes what is reported of a capture: it lists each event, and keeps a record of it until it is told.
ghost use Rattle.std.specs.Prelude.{◌≡◌, ◌≤◌, [], ◌∷◌, map, OnOk, OnErr};
ghost use Rattle.std.specs.Io.KnownBytes.{Appends};
ghost use Rattle.period_grammar.specs.Events.{event_of, at};
ghost use Rattle.period_grammar.specs.Lending.{lent_event};
ghost use Rattle.period_grammar.specs.Sizes.{IsSized};
ghost use Rattle.link_sink.specs.Ears.{both_alone};
ghost use Rattle.listing_writer.specs.Texts.{lines_of, fault_lines, counted};
ghost use Rattle.c_room.specs.Written.{link_writing, HasTaken};
ghost use Rattle.page.specs.Ears.{StopsAt, seen};

use c_room::{EventRoom, Record};
use link_sink::Ear;
use listing_writer::LinkLister;
use outside_io::{Failed, Sink};
use period_grammar::EventRef;

/// Lists each event that is reported to it, and writes a record of it.
#[derive(Drop)]
pub struct PageEar<'a, K: Sink> {
    pub(crate) lister: LinkLister<'a, K>,
    pub(crate) room: EventRoom<'a>,
    failed: u64,
}

impl<'a, K: Sink> PageEar<'a, K> {
    /// An ear to which nothing was reported.
    pub fn open(sink: &'a mut K, records: &'a mut [Record], bytes: &'a mut [u8]) -> PageEar<'a, K>
        ensures same { result.lister.sink.ghost_name ≡ sink.entry.ghost_name }
        ensures sink { result.lister.sink.now ≡ sink.old }
        ensures faults { result.lister.faults ≡ 0 }
        ensures count { result.room.count ≡ 0 }
        ensures used { result.room.used ≡ 0 }
    {
        PageEar {
            lister: LinkLister::open(sink),
            room: EventRoom::open(records, bytes),
            failed: 0,
        }
    }

    /// Lists an event and writes its record.
    fn hear_both(&mut self, column: u64, event: EventRef<'_>) -> Result<(), Failed>
        requires { IsSized (lent_event event) }
        ensures failed { self.new.failed ≡ self.old.failed }
        ensures same { self.new.lister.sink.ghost_name ≡ self.old.lister.sink.ghost_name }
        ensures faults { OnOk result (self.new.lister.faults ≡ counted self.old.lister.faults (fault_lines (lent_event event.entry ∷ []))) }
        ensures listed { OnOk result (Appends (K.held self.old.lister.sink.now) (K.held self.new.lister.sink.now) (lines_of (lent_event event.entry ∷ []))) }
        ensures later { K.faults self.old.lister.sink.now ≤ K.faults self.new.lister.sink.now }
        ensures room { OnOk result (HasTaken link_writing self.old.room self.new.room (at column (lent_event event.entry) ∷ [])) }
        ensures stopped { OnErr result (StopsAt (seen K.held K.faults self.old) (seen K.held K.faults self.new) (lent_event event.entry)) }
    {
        let (first, second) = twice(event);
        let kept = self.room.hear(column, first);
        match self.lister.hear(column, second) {
            Ok(()) => kept,
            Err(e) => Err(e),
        }
    }
}

/// The same event again.
fn twice<'a>(event: EventRef<'a>) -> (EventRef<'a>, EventRef<'a>)
    ensures first { lent_event result.0 ≡ lent_event event.entry }
    ensures second { lent_event result.1 ≡ lent_event event.entry }
{
    match event {
        EventRef::Run { value, count } => (
            EventRef::Run { value, count },
            EventRef::Run { value, count },
        ),
        EventRef::Line { pixels } => (EventRef::Line { pixels }, EventRef::Line { pixels }),
        EventRef::Open { sync } => (EventRef::Open { sync }, EventRef::Open { sync }),
        EventRef::Packet { packet, column } => (
            EventRef::Packet { packet, column },
            EventRef::Packet { packet, column },
        ),
        EventRef::Close { sync } => (EventRef::Close { sync }, EventRef::Close { sync }),
        EventRef::Fault(fault) => (EventRef::Fault(fault), EventRef::Fault(fault)),
        EventRef::Cut { column } => (EventRef::Cut { column }, EventRef::Cut { column }),
    }
}

impl<'a, K: Sink> Ear for PageEar<'a, K> {
    ghost use Rattle.std.proofs.Common.{refl, ◌∙◌};
    ghost use Rattle.c_room.specs.WrittenLaws.{taken_none, taken_both};
    ghost use Rattle.page.specs.Ears.{HasListed, StopsAt, listed_none, listed_both, seen};

    ghost faults = { λ e. e.failed };

    // The sink grew by the lines of the events, and the count by their fault lines.
    ghost took = { λ x y events.
        (y.lister.sink.ghost_name ≡ x.lister.sink.ghost_name)
        × HasListed (seen K.held K.faults x) (seen K.held K.faults y) events };

    // Their records were written, too.
    ghost took_at = { λ x y events.
        ((y.lister.sink.ghost_name ≡ x.lister.sink.ghost_name)
        × HasListed (seen K.held K.faults x) (seen K.held K.faults y) (map event_of events))
        × HasTaken link_writing x.room y.room events };

    // The sink failed, or there was no room.
    ghost broke = { λ x y event.
        (y.lister.sink.ghost_name ≡ x.lister.sink.ghost_name)
        × StopsAt (seen K.held K.faults x) (seen K.held K.faults y) event };

    fn hear(&mut self, column: u64, event: EventRef<'_>) -> Result<(), Failed> {
        match self.hear_both(column, event) {
            Ok(()) => Ok(()),
            Err(e) => {
                self.failed = self.failed.saturating_add(1);
                Err(e)
            }
        }
    }

    ghost took_none = { λ x. (refl, listed_none (seen K.held K.faults x)) };

    ghost took_both = { λ x y z h k first then. (
      then.0 ∙ first.0,
      listed_both (seen K.held K.faults x) (seen K.held K.faults y) (seen K.held K.faults z) h k first.1 then.1,
    ) };

    ghost took_none_at = { λ x. ((refl, listed_none (seen K.held K.faults x)), taken_none link_writing x.room) };

    ghost took_both_at = { λ x y z h k first then. (
      (
        then.0.0 ∙ first.0.0,
        both_alone (λ events. HasListed (seen K.held K.faults x) (seen K.held K.faults z) events) h k (listed_both (seen K.held K.faults x) (seen K.held K.faults y) (seen K.held K.faults z) (map event_of h) (map event_of k) first.0.1 then.0.1),
      ),
      taken_both link_writing x.room y.room z.room h k first.1 then.1,
    ) };

    ghost forgets = { λ x y events t. t.0 };
}
