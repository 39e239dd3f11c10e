//! What each block of a capture decides is listed and told.
ghost use Rattle.std.specs.Prelude.{◌≡◌};
ghost use Rattle.link_sink.specs.Streams.{StandsBy, bits_fed};
ghost use Rattle.page.specs.Ears.{seen};
ghost use Rattle.page.specs.Heard.{IsSame, SaysSoFar, SaysWhole, StopsLast, StopsPast, said};

use crate::ear::PageEar;
use crate::teller::{Teller, tell_room};
use capture_reading::BlockSink;
use link_sink::{Hears, LaneReceiver, Outcome};
use outside_io::{Failed, Sink};
use tmds_word::LaneBits;

/// An ear, and who is told what it keeps.
#[derive(Drop)]
pub(crate) struct Telling<'a, 'b, K: Sink, T: Teller> {
    pub(crate) ear: &'a mut PageEar<'b, K>,
    pub(crate) teller: &'a mut T,
}

impl<'a, 'b, H: Hears, K: Sink, T: Teller> BlockSink<Telling<'a, 'b, K, T>> for LaneReceiver<H> {
    type Outcome = Outcome;

    ghost is_open = { λ s. s.is_open };

    ghost bits = { λ s lane. bits_fed s lane };

    ghost faults = { λ x. x.ear.now.failed };

    // The ear's room is free.
    ghost heard = { λ s fed x y. StandsBy H.goes_on s fed × ((y.ear.now.room.count ≡ 0) × (y.ear.now.room.used ≡ 0)) × IsSame x y
        × SaysSoFar H.grammar T.told fed (said (seen K.held K.faults x.ear.now) x.teller.now) (said (seen K.held K.faults y.ear.now) y.teller.now) };

    ghost so_far = { λ fed x y. IsSame x y × SaysSoFar H.grammar T.told fed (said (seen K.held K.faults x.ear.now) x.teller.now) (said (seen K.held K.faults y.ear.now) y.teller.now) };

    ghost stops = { λ before after x y. IsSame x y × StopsPast H.grammar T.told before after (said (seen K.held K.faults x.ear.now) x.teller.now) (said (seen K.held K.faults y.ear.now) y.teller.now) };

    ghost whole = { λ fed outcome x y. IsSame x y × SaysWhole H.grammar T.told fed outcome (said (seen K.held K.faults x.ear.now) x.teller.now) (said (seen K.held K.faults y.ear.now) y.teller.now) };

    ghost stops_last = { λ fed x y. IsSame x y × StopsLast H.grammar T.told fed (said (seen K.held K.faults x.ear.now) x.teller.now) (said (seen K.held K.faults y.ear.now) y.teller.now) };

    fn feed_block(
        &mut self,
        block: LaneBits<'_>,
        ear: &mut Telling<'a, 'b, K, T>,
    ) -> Result<(), Failed> {
        self.feed_in_turn(block, ear.ear)?;
        tell_room(&mut ear.ear.room, ear.teller);
        Ok(())
    }

    fn end(&mut self, ear: &mut Telling<'a, 'b, K, T>) -> Result<Outcome, Failed> {
        let outcome = self.finish(ear.ear)?;
        tell_room(&mut ear.ear.room, ear.teller);
        Ok(outcome)
    }

    ghost reported = { λ sink fed x y h. (h.2, h.3) };
}
