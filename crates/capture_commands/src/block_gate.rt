//! The gate that workers pass for each block of a capture.
ghost use Rattle.std.specs.Prelude.{◌≡◌, ◌+◌, List, true, OnOk, OnErr};
ghost use Rattle.outside_io.specs.Causes.{HasCause};
ghost use Rattle.period_grammar.specs.Events.{Event};
ghost use Rattle.link_sink.specs.Ears.{StopsIn};
ghost use Rattle.link_sink.specs.Received.{AreFedMore, CanFeedLanes};
ghost use Rattle.link_sink.specs.Sinks.{Fed, grown_by, IsGainBy};
ghost use Rattle.link_sink.specs.Streams.{StandsBy, bits_fed, most_bits};

use lane_team::{Gate, Open};
use link_sink::{Ear, Hears, LaneSink};
use outside_io::Failed;
use std::thread::Threads;
use tmds_word::LaneBits;

/// A gate that feeds a sink, whose workers pass it. Each gate does so by its own type, as what crosses to a worker is known by
/// its type alone.
pub trait BlockGate: Gate {
    /// Feeds a block to a sink of three lanes, of each lane its bits, and reports to the ear what they decide.
    ///
    /// # Errors
    ///
    /// Where a call of the ear failed; the sink is then spent.
    fn feed<R: Threads, H: Hears, E: Ear>(
        &self,
        rt: &R,
        sink: &mut LaneSink<H>,
        block: LaneBits<'_>,
        ear: &mut E,
    ) -> Result<(), Failed>
        requires open { sink.old.is_open ≡ true }
        requires block { CanFeedLanes (bits_fed sink.old) (most_bits sink.old) block }
        ensures open { OnOk result (sink.new.is_open ≡ true) }
        ensures more { OnOk result (AreFedMore (bits_fed sink.old) (bits_fed sink.new) block.entry) }
        ensures fed { (fed : Fed) → StandsBy H.goes_on sink.old fed → OnOk result (StandsBy H.goes_on sink.new (grown_by fed block.entry)) }
        ensures reported { (fed : Fed) → StandsBy H.goes_on sink.old fed
            → OnOk result ((events : List Event) × IsGainBy H.grammar fed (grown_by fed block.entry) events × E.took ear.old ear.new events) }
        ensures stopped { (fed : Fed) → StandsBy H.goes_on sink.old fed
            → OnErr result ((events : List Event) × IsGainBy H.grammar fed (grown_by fed block.entry) events × StopsIn E.took E.broke ear.old ear.new events) }
        ensures cause { HasCause (E.faults ear.old) (E.faults ear.new) result };
}

impl BlockGate for Open {
    fn feed<R: Threads, H: Hears, E: Ear>(
        &self,
        rt: &R,
        sink: &mut LaneSink<H>,
        block: LaneBits<'_>,
        ear: &mut E,
    ) -> Result<(), Failed> {
        sink.feed(rt, block, self, ear)
    }
}
