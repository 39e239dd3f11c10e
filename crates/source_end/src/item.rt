//! Items: a control period, a video data period or a data island.
ghost use Rattle.std.specs.Prelude.{◌≡◌, ℕ, ◌+◌, ◌/◌, ◌%◌, ◌↔◌, ◌++◌, ◌∷◌, [], List, IsTrue, OnOk, OnErr, length};
ghost use Rattle.island_pack.specs.Periods.{ControlRun, values_of, has_preamble, VIDEO_PREAMBLE, ISLAND_PREAMBLE};
ghost use Rattle.source_end.specs.Kept.{capped, led_by, is_run_in_range, are_pixels};

use crate::Island;
use island_pack::{ISLAND_CTL, VIDEO_CTL, is_run_in_range};
use outside_io::NoMemory;
use std::alloc::Global;
use std::marker::Model;

/// Neighbouring control columns of one value.
#[derive(Clone, Copy)]
pub struct Run {
    /// HSYNC in bit 0, VSYNC in bit 1, CTL0 to CTL3 in bits 2 to 5: below 64 in a stream.
    pub value: u8,
    /// How many columns: 1 to 20,000,000 in a stream.
    pub count: u32,
}

impl Model for Run {
    ghost use Rattle.island_pack.specs.Periods.{ControlRun};

    ghost Value = { ControlRun };

    ghost view = { λ r. record { value = r.value; count = r.count } };

    ghost inverse = { λ r. record { value = r.value; count = r.count } };
}

impl Run {
    /// Whether value and count are in their ranges in a stream.
    #[tactic(auto, unfolding(crate::specs::Kept::is_run_in_range))]
    pub(crate) fn is_in_range(&self) -> bool
        ensures { result ≡ is_run_in_range self.now }
    {
        is_run_in_range(self.value, u64::from(self.count))
    }

    /// CTL0 to CTL3 of its columns.
    fn ctl(&self) -> u8
        ensures { result ≡ self.now.value / 4 % 16 }
    {
        self.value / 4 % 16
    }
}

/// A control period: its runs, in order.
#[derive(Drop)]
pub struct Runs {
    list: Vec<Run>,
    /// How many columns, at most the greatest u32.
    columns: u32,
    /// How many columns at the end have the control bits of a video preamble, at most the greatest
    /// u32.
    before_video: u32,
    /// How many columns at the end have the control bits of an island preamble, at most the greatest
    /// u32.
    before_island: u32,
}

impl Model for Runs {
    ghost use Rattle.std.specs.Prelude.{◌≡◌, List, length};
    ghost use Rattle.island_pack.specs.Periods.{ControlRun, values_of, VIDEO_PREAMBLE, ISLAND_PREAMBLE};
    ghost use Rattle.source_end.specs.Kept.{capped, led_by};

    ghost Value = { List ControlRun };

    ghost view = { λ r. r.list.items };

    ghost invariant = { λ r. (r.columns ≡ capped (length (values_of r.list.items))) × (r.before_video ≡ capped (led_by VIDEO_PREAMBLE r.list.items)) × (r.before_island ≡ capped (led_by ISLAND_PREAMBLE r.list.items)) };
}

impl Runs {
    /// No columns yet; keeps the allocator for its growth.
    pub fn new(alloc: Global) -> Runs
        ensures { result ≡ [] }
    {
        Runs {
            list: Vec::new(alloc),
            columns: 0,
            before_video: 0,
            before_island: 0,
        }
    }

    /// Appends a run. After a refusal the runs are as before.
    pub fn push(&mut self, run: Run) -> Result<(), NoMemory>
        ensures ok { OnOk result (self.new ≡ self.old ++ run ∷ []) }
        ensures err { OnErr result (self.new ≡ self.old) }
    {
        self.list.push(run)?;
        self.columns = self.columns.saturating_add(run.count);
        self.before_video = led_with(self.before_video, VIDEO_CTL, run);
        self.before_island = led_with(self.before_island, ISLAND_CTL, run);
        Ok(())
    }

    /// How many columns there are, at most the greatest u32.
    pub fn columns(&self) -> u32
        ensures { result ≡ capped (length (values_of self.now)) }
    {
        self.columns
    }

    /// Whether the last eight columns are a video preamble.
    pub fn announces_video(&self) -> bool
        ensures { result ≡ has_preamble VIDEO_PREAMBLE (values_of self.now) }
    {
        self.before_video >= 8
    }

    /// Whether the last eight columns are an island preamble.
    pub fn announces_island(&self) -> bool
        ensures { result ≡ has_preamble ISLAND_PREAMBLE (values_of self.now) }
    {
        self.before_island >= 8
    }

    /// The runs, in order.
    pub fn as_slice(&self) -> &[Run]
        ensures { result.now ≡ self.now }
    {
        self.list.as_slice()
    }
}

/// How many columns at the end have these control bits, at most the greatest u32, with a run more
/// after `led` of them.
fn led_with(led: u32, ctl: u8, run: Run) -> u32
    ensures { (runs : List ControlRun) → led ≡ capped (led_by ctl runs) → result ≡ capped (led_by ctl (runs ++ run ∷ [])) }
{
    match run.count {
        0 => led,
        count if run.ctl() == ctl => led.saturating_add(count),
        _ => 0,
    }
}

/// A video data period: its pixels, in order, seen as bytes: red, green and blue of each.
#[derive(Drop)]
pub struct Pixels {
    bytes: Vec<u8>,
}

impl Model for Pixels {
    ghost use Rattle.std.specs.Prelude.{List, ℕ, IsTrue};
    ghost use Rattle.source_end.specs.Kept.{are_pixels};

    ghost Value = { List ℕ };

    ghost view = { λ p. p.bytes.items };

    ghost invariant = { λ p. IsTrue (are_pixels p.bytes.items) };
}

impl Pixels {
    /// No pixels yet; keeps the allocator for its growth.
    pub fn new(alloc: Global) -> Pixels
        ensures { result ≡ [] }
    {
        Pixels {
            bytes: Vec::new(alloc),
        }
    }

    /// Appends a pixel. After a refusal the pixels are as before.
    pub fn push(&mut self, red: u8, green: u8, blue: u8) -> Result<(), NoMemory>
        ensures ok { OnOk result (self.new ≡ self.old ++ red ∷ green ∷ blue ∷ []) }
        ensures err { OnErr result (self.new ≡ self.old) }
    {
        self.bytes.extend_from_slice(&[red, green, blue])?;
        Ok(())
    }

    /// The pixels of bytes: red, green and blue of each.
    pub fn from_bytes(bytes: Vec<u8>) -> Pixels
        requires { length bytes.items % 3 ≡ 0 }
        ensures { result ≡ bytes.items }
    {
        Pixels { bytes }
    }

    /// How many pixels there are.
    pub fn len(&self) -> usize
        ensures count { result ≡ length self.now / 3 }
        ensures whole { IsTrue (are_pixels self.now) }
    {
        self.bytes.len() / 3
    }

    /// Whether there is no pixel.
    pub fn is_empty(&self) -> bool
        ensures { IsTrue result ↔ (length self.now / 3 ≡ 0) }
    {
        self.len() == 0
    }

    /// The bytes of the pixels, in order.
    pub fn as_slice(&self) -> &[u8]
        ensures { result.now ≡ self.now }
    {
        self.bytes.as_slice()
    }
}

/// One of the periods that a source sends one after another.
#[derive(Drop)]
pub enum Item {
    /// A control period.
    Control(Runs),
    /// A video data period, in a link with its two guard columns.
    Video(Pixels),
    /// A data island, its four guard columns included.
    Island(Island),
}

impl Item {
    ghost use Rattle.island_pack.specs.Periods.{period_columns};
    ghost use Rattle.source_end.specs.DviPeriods.{dvi_columns};
    ghost use Rattle.source_end.specs.ItemPeriods.{period_of};

    /// How many columns it takes, at most the greatest u32.
    pub fn columns(&self) -> u32
        ensures { result ≡ capped (period_columns (period_of self.now)) }
    {
        match self {
            Item::Control(runs) => runs.columns(),
            Item::Video(pixels) => u32::try_from(pixels.len())
                .unwrap_or(u32::MAX)
                .saturating_add(2),
            Item::Island(island) => u32::try_from(island.len())
                .unwrap_or(u32::MAX)
                .saturating_mul(32)
                .saturating_add(4),
        }
    }

    /// How many columns it takes without guard bands, at most the greatest u32; a data island none.
    pub(crate) fn dvi_columns(&self) -> u32
        ensures { result ≡ capped (dvi_columns (period_of self.now)) }
    {
        match self {
            Item::Control(runs) => runs.columns(),
            Item::Video(pixels) => u32::try_from(pixels.len()).unwrap_or(u32::MAX),
            Item::Island(_) => 0,
        }
    }
}
