//! The sender: periods, conforming streams of them, rasters, and the columns that spell them.
//!
//! `Items::push` refuses an item exactly if it has a fault, and names the first. A `Stream` conforms, and the columns of
//! `spell` spell it; after a refusal the sink has taken the first of some columns that spell it. `DviItems` and `DviStream` do
//! the same without guard bands. `raster` returns the raster of the definition (`raster_of`), or refuses the content exactly by
//! its first fault. A raster that is not refused conforms and has the columns of all its lines. The generator's content is that
//! of its definition, and has a raster.
#![tactic(auto)]

mod content;
mod follow;
mod framing;
mod gathering;
mod generator;
mod island;
mod item;
mod items;
pub mod laws;
mod line_coding;
mod lines;
mod mode;
mod rasters;
mod refusal;
mod rows;
mod spell;
mod stream;

pub use content::Content;
pub use framing::{Framing, WithGuards, WithoutGuards};
pub use gathering::{Gathering, OpenRuns};
pub use generator::generate;
pub use island::Island;
pub use item::{Item, Pixels, Run, Runs};
pub use items::{DviItems, FramedItems, ItemFault, Items};
pub use mode::Mode;
pub use rasters::{count_columns, raster, spell_raster};
pub use refusal::{RasterFault, mode_fault, next_fault};
pub use stream::{DviStream, FramedStream, Stream};
