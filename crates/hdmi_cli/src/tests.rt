//! The top call over sources and sinks in memory: tables of runs, and what must result from each.
mod bad;
mod biphase;
mod content;
mod damage;
mod dense;
mod devices;
mod dvi;
mod edges;
mod failing;
mod gate;
mod guard;
mod island;
mod link;
mod packet;
mod pieces;
mod relayed;
mod relock;
mod sample;
mod sparse;
mod tap;
mod track;
mod trial;
mod version;
mod wild;

use std::test::*;
use trial::judge;

/// Each table, and the most bytes that a read of its inputs gives.
#[test]
fn tables(rt: HostRuntime) -> Result<(), Fail> {
    for (rows, read) in [
        (bad::ROWS, 65_536),
        (biphase::ROWS, 65_536),
        (content::ROWS, 65_536),
        (damage::ROWS, 65_536),
        (dense::ROWS, 65_536),
        (dvi::ROWS, 65_536),
        (edges::ROWS, 65_536),
        (failing::ROWS, 65_536),
        (guard::ROWS, 65_536),
        (island::ROWS, 65_536),
        (link::ROWS, 65_536),
        (packet::ROWS, 65_536),
        (pieces::ROWS, 65_536),
        (pieces::ROWS, 7),
        (pieces::ROWS, 1),
        (relayed::ROWS, 65_536),
        (relock::ROWS, 65_536),
        (relock::ROWS, 7),
        (sparse::ROWS, 65_536),
        (tap::ROWS, 65_536),
        (track::ROWS, 65_536),
        (version::ROWS, 65_536),
        (wild::ROWS, 65_536),
    ] {
        judge(&rt, rows, read)?;
    }
    Ok(())
}
