//! The ears that write a listing.
ghost use Rattle.std.specs.Prelude.{◌≡◌, ℕ, ◌<◌, List, [], take, length, Option, OnOk, OnErr};
ghost use Rattle.std.specs.Io.KnownBytes.{Appends};
ghost use Rattle.outside_io.specs.Causes.{HasCause};
ghost use Rattle.period_grammar.specs.Events.{Event};
ghost use Rattle.listing_writer.specs.Texts.{counted};
ghost use Rattle.listing_writer.specs.ContentAdded.{Recalls};
ghost use Rattle.capture_commands.specs.Listers.{IsText, Writes};
ghost use Rattle.capture_commands.specs.Listings.{Listing};

use biphase_listing::BiphaseLister;
use link_sink::Ear;
use listing_writer::{CheckLister, ContentLister, LinkLister};
use outside_io::{Failed, Sink};

/// Takes what is reported of a link, and writes a listing of it.
pub(crate) trait Lister: Ear {
    /// What it writes.
    ghost listing: { Self → Listing };

    /// What it writes of events after others.
    ghost after: { Self → List Event → List Event → List ℕ };

    /// What it writes last.
    ghost last: { Self → List Event → List ℕ };

    /// Nothing was reported to it.
    ghost fresh: { Self → Type 0 };

    /// What its output holds.
    ghost held: { Self → Option (List ℕ) };

    /// Which output it borrows.
    ghost name: { Self → ℕ };

    /// Writes the last line.
    fn end(&mut self) -> Result<(), Failed>
        ensures same { name self.new ≡ name self.old }
        ensures whole { (first : Self) (events : List Event) → fresh first → Self.took first self.old events → OnOk result (Appends (held self.old) (held self.new) (last first events)) }
        ensures part { (first : Self) (events : List Event) → fresh first → Self.took first self.old events → OnErr result ((n : ℕ) × (n < length (last first events)) × Appends (held self.old) (held self.new) (take n (last first events))) }
        ensures cause { HasCause (Self.faults self.old) (Self.faults self.new) result };

    /// How many of the lines written are of faults.
    fn fault_lines(&self) -> u64
        ensures { (first : Self) (events : List Event) → fresh first → Self.took first self.now events → result ≡ counted 0 ((listing first).faults events) };

    /// Its text is a listing's.
    ghost is_text: { (first : Self) → IsText (listing first) (after first) (last first) };

    /// What it takes it writes.
    ghost writes: { (first : Self) → fresh first → Writes (listing first) (after first) Self.took Self.broke held first };

    /// It keeps its output.
    ghost keeps: { (x y : Self) (h : List Event) → Self.took x y h → name y ≡ name x };

    ghost keeps_broken: { (x y : Self) (t : Event) → Self.broke x y t → name y ≡ name x };
}

impl<'a, K: Sink> Lister for LinkLister<'a, K> {
    ghost use Rattle.capture_commands.specs.Listings.{link_listing};
    ghost use Rattle.capture_commands.specs.Listers.{after_link, last_link, link_is_text};

    ghost listing = { λ _. link_listing };

    ghost after = { λ _. after_link };

    ghost last = { λ _. last_link };

    ghost fresh = { λ l. l.faults ≡ 0 };

    ghost held = { λ l. K.held l.sink.now };

    ghost name = { λ l. l.sink.ghost_name };

    fn end(&mut self) -> Result<(), Failed> {
        self.end()
    }

    fn fault_lines(&self) -> u64 {
        self.faults()
    }

    ghost is_text = { λ _. link_is_text };

    ghost writes = { λ first none. record { grows = λ x h taken. taken.2; breaks = λ x y h t taken broken. broken.2 } };

    ghost keeps = { λ x y h taken. taken.0 };

    ghost keeps_broken = { λ x y t broken. broken.0 };
}

impl<'a, K: Sink> Lister for CheckLister<'a, K> {
    ghost use Rattle.capture_commands.specs.Listings.{check_listing};
    ghost use Rattle.capture_commands.specs.Listers.{after_check, last_check, check_is_text, checked_part};

    ghost listing = { λ _. check_listing };

    ghost after = { λ _. after_check };

    ghost last = { λ _. last_check };

    ghost fresh = { λ l. l.faults ≡ 0 };

    ghost held = { λ l. K.held l.sink.now };

    ghost name = { λ l. l.sink.ghost_name };

    fn end(&mut self) -> Result<(), Failed> {
        self.end()
    }

    fn fault_lines(&self) -> u64 {
        self.faults()
    }

    ghost is_text = { λ _. check_is_text };

    ghost writes = { λ first none. record {
      grows = λ x h taken. taken.2;
      breaks = λ x y h t taken broken. checked_part t (K.held x.sink.now) (K.held y.sink.now) broken.2;
    } };

    ghost keeps = { λ x y h taken. taken.0 };

    ghost keeps_broken = { λ x y t broken. broken.0 };
}

impl<'a, K: Sink> Lister for ContentLister<'a, K> {
    ghost use Rattle.capture_commands.specs.Listings.{content_listing};
    ghost use Rattle.capture_commands.specs.Listers.{after_content, last_link, content_is_text, written_first, recalls_first, broken_after};

    ghost listing = { λ _. content_listing };

    ghost after = { λ _. after_content };

    ghost last = { λ _. last_link };

    ghost fresh = { λ l. Recalls l.past [] × (l.faults ≡ 0) };

    ghost held = { λ l. K.held l.sink.now };

    ghost name = { λ l. l.sink.ghost_name };

    fn end(&mut self) -> Result<(), Failed> {
        self.end()
    }

    fn fault_lines(&self) -> u64 {
        self.faults()
    }

    ghost is_text = { λ _. content_is_text };

    ghost writes = { λ first none. record {
      grows = λ x h taken. written_first first.past x.past h first.faults x.faults (K.held first.sink.now) (K.held x.sink.now) (taken.1 [] none.0);
      breaks = λ x y h t taken broken.
          broken_after x.past h t (K.held x.sink.now) (K.held y.sink.now)
          (broken.2 h (recalls_first first.past x.past h first.faults x.faults (K.held first.sink.now) (K.held x.sink.now) (taken.1 [] none.0)));
    } };

    ghost keeps = { λ x y h taken. taken.0 };

    ghost keeps_broken = { λ x y t broken. broken.0 };
}

impl<'a, K: Sink> Lister for BiphaseLister<'a, K> {
    ghost use Rattle.std.specs.Prelude.{◌++◌};
    ghost use Rattle.biphase_listing.specs.StreamText.{Recalls as RecallsSound};
    ghost use Rattle.capture_commands.specs.Listings.{biphase_listing};
    ghost use Rattle.capture_commands.specs.Listers.{after_biphase, last_biphase, biphase_is_text, sound_broken, sound_first};

    ghost listing = { λ l. biphase_listing l.pair };

    ghost after = { λ l. after_biphase l.pair };

    ghost last = { λ _. last_biphase };

    ghost fresh = { λ l. RecallsSound l.encoder l.pair [] × (l.faults ≡ 0) };

    ghost held = { λ l. K.held l.sink.now };

    ghost name = { λ l. l.sink.ghost_name };

    fn end(&mut self) -> Result<(), Failed> {
        self.end()
    }

    fn fault_lines(&self) -> u64 {
        self.faults()
    }

    ghost is_text = { λ l. biphase_is_text l.pair };

    ghost writes = { λ first none. record {
      grows = λ x h taken. sound_first first.pair x.encoder h first.faults x.faults (K.held first.sink.now) (K.held x.sink.now) (taken.2 [] none.0);
      breaks = λ x y h t taken broken.
          sound_broken first.pair x.pair taken.1 x.encoder h t first.faults x.faults (K.held first.sink.now) (K.held x.sink.now) (K.held y.sink.now) (taken.2 [] none.0) broken.3;
    } };

    ghost keeps = { λ x y h taken. taken.0 };

    ghost keeps_broken = { λ x y t broken. broken.0 };
}
