//! The raster of a content in a mode.
ghost use Rattle.std.specs.Prelude.{◌≡◌, ◌+◌, ◌-◌, ◌*◌, ◌^◌, ◌<◌, ◌≤◌, ◌++◌, List, length, map, OnOk, IfOk, IfErr, None, Some};
ghost use Rattle.tmds_word.specs.Column.{Column};
ghost use Rattle.island_pack.specs.Conforming.{IsConforming};
ghost use Rattle.island_pack.specs.Periods.{Period, columns_of};
ghost use Rattle.island_pack.specs.Spelling.{Spells};
ghost use Rattle.island_pack.specs.declared.ranges.TheConstants.{COLUMN_LIMIT};
ghost use Rattle.source_end.specs.Gathering.{size, Parted};
ghost use Rattle.source_end.specs.ItemPeriods.{period_of};
ghost use Rattle.source_end.specs.Lines.{AreWide};
ghost use Rattle.source_end.specs.Raster.{Part, active, laid, lines_of, raster_of, total};
ghost use Rattle.source_end.specs.RasterRefusals.{bad_mode, numbers_of, raster_fault, AnswersRasterFault};

use crate::content::FrameContent;
use crate::framing::WithGuards;
use crate::gathering::Gathering;
use crate::mode::total;
use crate::refusal::{raster_columns, raster_fault};
use crate::{Content, Item, Mode, RasterFault, Stream, lines, spell};
use outside_io::NoMemory;
use std::alloc::Global;
use tmds_word::ColumnSink;

/// The stream of a content's frames, one after another, in a mode, and 32 control columns with HSYNC and
/// VSYNC at their active levels; or the first fault.
pub fn raster(alloc: Global, mode: &Mode, content: &Content) -> Result<Stream, RasterFault>
    ensures fault { AnswersRasterFault (raster_fault mode.now content.now) result }
    ensures raster { IfOk result (λ stream. stream ≡ raster_of mode.now content.now) }
{
    let columns = count_columns(mode, content)?;
    match items_of(alloc, mode, content) {
        Ok(items) => Ok(Stream::new(items, columns)),
        Err(NoMemory) => Err(RasterFault::NoMemory),
    }
}

/// How many columns the raster of a content in a mode has; or the first fault, which is never want of memory.
pub fn count_columns(mode: &Mode, content: &Content) -> Result<u32, RasterFault>
    ensures fault { AnswersRasterFault (raster_fault mode.now content.now) result }
    ensures refused { IfErr result (λ fault. raster_fault mode.now content.now ≡ Some fault) }
    ensures columns { IfOk result (λ columns. (columns ≡ columns_of (raster_of mode.now content.now)) × (columns ≤ COLUMN_LIMIT)) }
    ensures conforming { IfOk result (λ columns. IsConforming (raster_of mode.now content.now)) }
{
    match raster_fault(mode, content) {
        Some(fault) => Err(fault),
        None => Ok(raster_columns(mode, content.frames().len()) as u32),
    }
}

/// The items of a raster that is not refused.
fn items_of(alloc: Global, mode: &Mode, content: &Content) -> Result<Vec<Item>, NoMemory>
    requires { raster_fault mode.now content.now ≡ None }
    ensures { IfOk result (λ items. map period_of items.items ≡ raster_of mode.now content.now) }
{
    let mut out = Gathering::new(alloc);
    for frame in content.frames() {
        lines::frame(mode, frame, &mut out)?;
    }
    out.columns(mode.sync_value(true, true), 32)?;
    out.into_items()
}

/// Gives the columns of the raster of a content in a mode to `out`, frame by frame, and gives the memory of each frame back
/// once its columns are given; or the first fault.
pub fn spell_raster<C: ColumnSink>(
    alloc: Global,
    mode: &Mode,
    content: Content,
    out: &mut C,
) -> Result<(), RasterFault>
    requires { length (C.taken out.old) < 400000000 }
    ensures fault { AnswersRasterFault (raster_fault mode.now content) result }
    ensures spelled { OnOk result ((columns : List Column) × (C.taken out.new ≡ C.taken out.old ++ columns) × Spells (raster_of mode.now content) columns) }
{
    if let Some(fault) = raster_fault(mode, &content) {
        return Err(fault);
    }
    match spell_frames(alloc, mode, content, out) {
        Ok(()) => Ok(()),
        Err(NoMemory) => Err(RasterFault::NoMemory),
    }
}

/// Gives the columns of a raster that is not refused, and drops each frame before its columns are given.
fn spell_frames<C: ColumnSink>(
    alloc: Global,
    mode: &Mode,
    content: Content,
    out: &mut C,
) -> Result<(), NoMemory>
    requires fault { raster_fault mode.now content ≡ None }
    requires room { length (C.taken out.old) < 400000000 }
    ensures { OnOk result ((columns : List Column) × (C.taken out.new ≡ C.taken out.old ++ columns) × Spells (raster_of mode.now content) columns) }
{
    let mut gathering = Gathering::new(alloc);
    for frame in content.into_frames() {
        let items = ended_by(mode, frame, &mut gathering)?;
        spell::items::<WithGuards, C>(items.as_slice(), out)?;
    }
    gathering.columns(mode.sync_value(true, true), 32)?;
    let items = gathering.into_items()?;
    spell::items::<WithGuards, C>(items.as_slice(), out)
}

/// The items up to the last one that a frame ends; the control period that goes on stays.
fn ended_by(
    mode: &Mode,
    frame: FrameContent,
    gathering: &mut Gathering,
) -> Result<Vec<Item>, NoMemory>
    requires mode { bad_mode 0 (numbers_of mode.now) ≡ None }
    requires rows { AreWide (active mode.now.across) frame.rows }
    requires height { length frame.rows ≡ active mode.now.down }
    ensures { (periods : List Period) (parts : List Part) → Parted periods gathering.old parts → size parts + total mode.now.across * total mode.now.down < 2 ^ 32
        → IfOk result (λ items. Parted (periods ++ map period_of items.items) gathering.new (parts ++ laid mode.now (lines_of mode.now frame) frame.packets)) }
{
    lines::frame(mode, &frame, gathering)?;
    Ok(gathering.take_items())
}
