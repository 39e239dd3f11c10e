//! Conforming lists of items.
ghost use Rattle.std.specs.Prelude.{◌≡◌, ◌≤◌, ◌<◌, ◌++◌, List, length, map, OnOk, OnErr, IsTrue};
ghost use Rattle.outside_io.specs.Causes.{HasCause};
ghost use Rattle.tmds_word.specs.Column.{Column};
ghost use Rattle.island_pack.specs.declared.ranges.TheConstants.{COLUMN_LIMIT};

use crate::framing::{Framing, WithGuards, WithoutGuards};
use crate::{Item, spell};
use outside_io::NoMemory;
use std::marker::{Model, PhantomData};
use tmds_word::ColumnSink;

/// A conforming list of items with guard bands.
pub type Stream = FramedStream<WithGuards>;

/// A conforming list of items without guard bands (DVI 1.0).
pub type DviStream = FramedStream<WithoutGuards>;

/// A conforming list of items of at most 20,000,000 columns.
#[derive(Drop)]
pub struct FramedStream<F: Framing> {
    list: Vec<Item>,
    columns: u32,
    framing: PhantomData<F>,
}

impl<F: Framing> Model for FramedStream<F> {
    ghost use Rattle.std.specs.Prelude.{◌≡◌, ◌≤◌, List, map, IsTrue};
    ghost use Rattle.island_pack.specs.Periods.{Period};
    ghost use Rattle.island_pack.specs.declared.ranges.TheConstants.{COLUMN_LIMIT};
    ghost use Rattle.source_end.specs.ItemPeriods.{period_of};

    ghost Value = { List Period };

    ghost view = { λ s. map period_of s.list.items };

    ghost invariant = { λ s. IsTrue (F.rules.conforms (map period_of s.list.items)) × (s.columns ≡ F.rules.columns_of (map period_of s.list.items)) × (s.columns ≤ COLUMN_LIMIT) };
}

impl<F: Framing> FramedStream<F> {
    ghost use Rattle.source_end.specs.ItemPeriods.{period_of};

    pub(crate) fn new(list: Vec<Item>, columns: u32) -> FramedStream<F>
        requires conforming { IsTrue (F.rules.conforms (map period_of list.items)) }
        requires columns { columns ≡ F.rules.columns_of (map period_of list.items) }
        requires few { columns ≤ COLUMN_LIMIT }
        ensures { result ≡ map period_of list.items }
    {
        FramedStream {
            list,
            columns,
            framing: PhantomData,
        }
    }

    /// How many columns its items take.
    pub fn columns(&self) -> u32
        ensures value { result ≡ F.rules.columns_of self.now }
        ensures few { result ≤ COLUMN_LIMIT }
        ensures conforming { IsTrue (F.rules.conforms self.now) }
    {
        self.columns
    }

    /// The items, in order.
    pub fn items(&self) -> &[Item]
        ensures { map period_of result.now ≡ self.now }
    {
        self.list.as_slice()
    }

    /// Gives the columns of its items to `out`. It is refused only where `out` refused a column; then `out` has
    /// taken the first of some columns that spell the items.
    pub fn spell<C: ColumnSink>(&self, out: &mut C) -> Result<(), NoMemory>
        requires { length (C.taken out.old) < 400000000 }
        ensures ok { OnOk result ((columns : List Column) × (C.taken out.new ≡ C.taken out.old ++ columns) × F.spells self.now columns) }
        ensures part { OnErr result ((columns rest : List Column) × (C.taken out.new ≡ C.taken out.old ++ columns) × F.spells self.now (columns ++ rest)) }
        ensures cause { HasCause (C.refusals out.old) (C.refusals out.new) result }
    {
        F::lawful();
        spell::items::<F, C>(self.list.as_slice(), out)
    }
}
