//! Events that are reported, with counts that were worked out by hand, and the text of counts.

mod hits;

use crate::events::{Step, tell};
use bch_block::Verdict;
use outside_io::{MemSink, SteadySink};
use period_grammar::Fault;
use sampling::{Counts, Tally, write_counts};
use std::test::Fail;

/// Rows 0 and 1 of the generator's frame 1 begin c9 74 1f cc 77 22 and d0 7b 26, row 0 of its frame 2 e8 93 3e.
const THINGS: [Step; 22] = [
    Step::Run(0, 12),
    Step::Line(&[1, 2, 3]),
    Step::Run(2, 3),
    Step::Line(&[0xc9, 0x74, 0x1f, 0xcc, 0x76, 0x22]),
    Step::Wrong(Fault::Code {
        lane: 1,
        column: 40,
    }),
    Step::Line(&[0xd0, 0x7a, 0x27]),
    Step::Wrong(Fault::Word { lane: 2, column: 9 }),
    Step::Run(0, 3),
    Step::Open(1, 2),
    Step::Judged([2, 0x0b, 0], 0, Verdict::Clean),
    Step::Judged([2, 0x0b, 0], 0, Verdict::Lost),
    Step::Wrong(Fault::Lost {
        column: 14,
        block: 0,
    }),
    Step::Judged([2, 0x1f, 0], 0, Verdict::Clean),
    Step::Judged([2, 0x01, 0], 1, Verdict::Mended(3)),
    Step::Wrong(Fault::Symbols {
        column: 14,
        count: 2,
    }),
    Step::Wrong(Fault::Mended {
        column: 14,
        block: 0,
        bit: 3,
    }),
    Step::Judged([0, 0, 0], 0, Verdict::Clean),
    Step::Close(0, 3),
    Step::Run(0, 12),
    Step::Line(&[0xe8, 0, 0x3e]),
    Step::Wrong(Fault::Short { column: 80 }),
    Step::Cut(99),
];

/// The line of one row is ragged, a packet has another layout, and a sample an odd side: with the faults of a word, of a
/// lost block and of a short period these are the six others. The last row is of no reported frame.
const COUNTS: Counts = Counts {
    columns: 1000,
    frames: 1,
    rows: 3,
    packets: 5,
    samples: 4,
    symbols: 1,
    mended: 1,
    code: 1,
    other: 6,
    differ: 3,
};

/// The counts, in the order of their lines.
fn numbers_of(counts: &Counts) -> [u64; 10] {
    [
        counts.columns,
        counts.frames,
        counts.rows,
        counts.packets,
        counts.samples,
        counts.symbols,
        counts.mended,
        counts.code,
        counts.other,
        counts.differ,
    ]
}

/// Whether all steps are taken, and counted so.
fn counts_steps(sink: &mut SteadySink, steps: &[Step], wanted: &Counts) -> bool {
    let mut tally = Tally::open(sink);
    let mut right = true;
    for step in steps {
        right = tell(&mut tally, step).is_ok() && right;
    }
    right && numbers_of(&tally.counts(1000)) == numbers_of(wanted)
}

#[test]
fn counts_what_is_reported(rt: HostRuntime) {
    assert!(rt; counts_steps(&mut SteadySink::new(), &THINGS, &COUNTS));
}

const TEXT: &[u8] =
    b"columns 1000\nframes 1\nrows 3\npackets 5\nsamples 4\nsymbols 1\nmended 1\ncode 1\nother 6\n\
    differ 18446744073709551615\n";

#[test]
fn writes_a_line_for_each_count(rt: HostRuntime) -> Result<(), Fail> {
    let alloc = rt.alloc();
    let counts = Counts {
        differ: u64::MAX,
        ..COUNTS
    };
    let mut sink = MemSink::new(alloc, 1000, 7, Vec::new(alloc))?;
    assert!(rt; write_counts(&counts, &mut sink).is_ok() && sink.bytes() == TEXT);
    assert!(rt; write_counts(&counts, &mut SteadySink::new()).is_ok());
    Ok(())
}

// The fourth write of seven bytes fails.
#[test]
fn writes_a_part(rt: HostRuntime) -> Result<(), Fail> {
    let alloc = rt.alloc();
    let fails = vec![in alloc; 3]?;
    let mut sink = MemSink::new(alloc, 1000, 7, fails)?;
    assert!(rt; write_counts(&COUNTS, &mut sink).is_err());
    assert!(rt; sink.bytes() == b"columns 1000\nframes 1".as_slice());
    Ok(())
}
