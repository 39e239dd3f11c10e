//! How the items of a stream are framed: with guard bands, or without them.
ghost use Rattle.std.specs.Prelude.{◌≡◌, ◌<◌, ◌+◌, ◌++◌, List, length, map, OnOk, OnErr, IsTrue};
ghost use Rattle.outside_io.specs.Causes.{HasCause};
ghost use Rattle.tmds_word.specs.Column.{Column};
ghost use Rattle.island_pack.specs.Periods.{Period};
ghost use Rattle.source_end.specs.Framings.{Rules, IsFraming};
ghost use Rattle.source_end.specs.Fronts.{TookFront};
ghost use Rattle.source_end.specs.ItemPeriods.{period_of};
ghost use Rattle.source_end.specs.Kept.{capped};
ghost use Rattle.source_end.specs.Refusals.{last_period};

use crate::{Item, follow, spell};
use outside_io::NoMemory;
use tmds_word::ColumnSink;

/// How the items of a stream are framed.
pub trait Framing: Drop {
    /// Which items there are, how many columns they take, and how they follow one another.
    ghost rules: { Rules };

    /// Columns spell a period.
    ghost spells_period: { Period → List Column → Type 0 };

    /// Columns spell periods, one after another.
    ghost spells: { List Period → List Column → Type 0 };

    /// How many columns an item takes, at most the greatest u32.
    fn columns(item: &Item) -> u32
        ensures { result ≡ capped (rules.columns (period_of item.now)) };

    /// Whether an item needs nothing before it that announces it, or that is there.
    fn is_announced(items: &[Item], item: &Item) -> bool
        ensures { result ≡ rules.is_announced (last_period (map period_of items.now)) (period_of item.now) };

    /// Gives the columns of an item to `out`.
    ///
    /// # Errors
    ///
    /// Only where `out` refused a column.
    fn spell<C: ColumnSink>(item: &Item, out: &mut C) -> Result<(), NoMemory>
        requires sendable { IsTrue (rules.is_sendable (period_of item.now)) }
        requires room { length (C.taken out.old) + rules.columns (period_of item.now) < 429496729 }
        ensures ok { OnOk result ((columns : List Column) × (C.taken out.new ≡ C.taken out.old ++ columns) × spells_period (period_of item.now) columns) }
        ensures part { OnErr result (TookFront (C.taken out.old) (C.taken out.new) (spells_period (period_of item.now))) }
        ensures cause { HasCause (C.refusals out.old) (C.refusals out.new) result };

    /// Its rules and the columns that it spells go together: a law, which does nothing.
    fn lawful()
        ensures { IsFraming rules spells_period spells };
}

/// With guard bands, preambles and data islands (HDMI 1.4).
#[derive(Drop)]
pub struct WithGuards;

impl Framing for WithGuards {
    ghost use Rattle.island_pack.specs.Spelling.{SpellsPeriod, Spells};
    ghost use Rattle.source_end.specs.Framings.{link_rules};

    ghost rules = { link_rules };

    ghost spells_period = { SpellsPeriod };

    ghost spells = { Spells };

    fn columns(item: &Item) -> u32 {
        item.columns()
    }

    fn is_announced(items: &[Item], item: &Item) -> bool {
        follow::is_announced(items, item)
    }

    fn spell<C: ColumnSink>(item: &Item, out: &mut C) -> Result<(), NoMemory> {
        spell::item(item, out)
    }

    fn lawful() {}
}

/// Without guard bands (DVI 1.0): control periods, and between any two of them a video period, which begins with its first
/// pixel. No preamble is asked for.
#[derive(Drop)]
pub struct WithoutGuards;

impl Framing for WithoutGuards {
    ghost use Rattle.source_end.specs.DviPeriods.{DviSpellsPeriod, DviSpells};
    ghost use Rattle.source_end.specs.Framings.{dvi_rules};

    ghost rules = { dvi_rules };

    ghost spells_period = { DviSpellsPeriod };

    ghost spells = { DviSpells };

    fn columns(item: &Item) -> u32 {
        item.dvi_columns()
    }

    fn is_announced(_items: &[Item], _item: &Item) -> bool {
        true
    }

    fn spell<C: ColumnSink>(item: &Item, out: &mut C) -> Result<(), NoMemory> {
        spell::dvi_item(item, out)
    }

    fn lawful() {}
}
