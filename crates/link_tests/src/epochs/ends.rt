//! An ear that counts the ends of epochs that are reported.
ghost use Rattle.std.specs.Prelude.{⊤};
ghost use Rattle.outside_io.specs.Causes.{HasCause};

use link_sink::Ear;
use outside_io::Failed;
use period_grammar::EventRef;
use track_sink::TrackEar;

/// How many slips and how many refuted alignments were reported to it.
#[derive(Drop)]
pub(crate) struct Ends {
    pub(crate) slips: u64,
    pub(crate) refuted: u64,
}

impl Ends {
    pub(crate) fn new() -> Ends {
        Ends {
            slips: 0,
            refuted: 0,
        }
    }
}

impl Ear for Ends {
    ghost faults = { λ _. 0 };

    ghost took = { λ _ _ _. ⊤ };

    ghost took_at = { λ _ _ _. ⊤ };

    ghost broke = { λ _ _ _. ⊤ };

    fn hear(&mut self, _: u64, event: EventRef<'_>) -> Result<(), Failed> {
        match event {
            EventRef::Run { value: _, count: _ }
            | EventRef::Line { pixels: _ }
            | EventRef::Open { sync: _ }
            | EventRef::Packet {
                packet: _,
                column: _,
            }
            | EventRef::Close { sync: _ }
            | EventRef::Fault(_)
            | EventRef::Cut { column: _ } => Ok(()),
        }
    }

    ghost took_none = { λ _. tt };

    ghost took_both = { λ _ _ _ _ _ _ _. tt };

    ghost took_none_at = { λ _. tt };

    ghost took_both_at = { λ _ _ _ _ _ _ _. tt };

    ghost forgets = { λ _ _ _ _. tt };
}

impl TrackEar for Ends {
    ghost tracked = { λ _ _ _. ⊤ };

    ghost tracked_at = { λ _ _ _. ⊤ };

    ghost lost = { λ _ _ _. ⊤ };

    fn slip(&mut self, _: u8, _: u64) -> Result<(), Failed> {
        self.slips = self.slips.saturating_add(1);
        Ok(())
    }

    fn relock(&mut self, _: u64) -> Result<(), Failed> {
        self.refuted = self.refuted.saturating_add(1);
        Ok(())
    }

    ghost tracked_none = { λ _. tt };

    ghost tracked_both = { λ _ _ _ _ _ _ _. tt };

    ghost tracked_none_at = { λ _. tt };

    ghost tracked_both_at = { λ _ _ _ _ _ _ _. tt };

    ghost tracked_forgets = { λ _ _ _ _. tt };

    ghost tracked_events_at = { λ _ _ _ _. tt };

    ghost tracked_events = { λ _ _ _. (λ _. tt, λ _. tt) };

    ghost lost_event = { λ _ _ _. (λ _. tt, λ _. tt) };
}
