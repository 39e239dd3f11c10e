//! Alignments and columns of lanes whose bits arrive in feeds, compared with values that were computed apart
//! from this crate, and after each feed with the alignment of all bits that arrived.
ghost use Rattle.std.specs.Prelude.{ℕ, ◌≡◌, ◌<◌, ◌≤◌, ◌+◌, ◌*◌, ◌^◌, [], IsTrue, length, true, min};
ghost use Rattle.lane_align.specs.Words.{AreWords};
ghost use Rattle.lane_align.specs.Aligners.{fed_of};
ghost use Rattle.lane_deskew.specs.Keeping.{stored};
ghost use Rattle.lane_deskew.specs.Pushed.{ready_of};

use super::rows::CASES;
use super::{Case, Row, bits_of, case_of, number_of_column};
use crate::lane::DeskewLane;
use crate::reference::first_alignment;
use crate::{Aligned, Deskew};
use lane_align::LaneAligner;
use std::alloc::Global;
use std::process::Abort;
use std::test::*;

/// Whether a lane may push characters at a lock.
fn may_push(lane: &DeskewLane, lock: u64, words: &[u16]) -> bool
    ensures same { IsTrue result → 0 < lane.now.count → lock ≡ lane.now.lock }
    ensures room { IsTrue result → length (stored lane.now.kept) + length words.now ≤ 4160 }
    ensures total { IsTrue result → lock + 10 * (lane.now.count + length words.now) < 2 ^ 63 }
    ensures going { IsTrue result → lane.now.ended ≡ true → words.now ≡ [] }
{
    if lane.count > 0 && lock != lane.lock {
        return false;
    }
    if words.len() > 4160 || lane.held() + words.len() > 4160 {
        return false;
    }
    if lane.ended && !words.is_empty() {
        return false;
    }
    lock <= 1_000_000 && lane.count <= 1_000_000
}

/// Pushes characters that the lane may push.
fn push(rt: &impl Abort, deskew: &mut Deskew, lane: u8, lock: u64, words: &[u16])
    requires lane { lane < 3 }
    requires words { AreWords words.now }
{
    match lane {
        0 => {
            assert!(rt; may_push(&deskew.blue, lock, words));
            deskew.push(0, lock, words);
        }
        1 => {
            assert!(rt; may_push(&deskew.green, lock, words));
            deskew.push(1, lock, words);
        }
        _ => {
            assert!(rt; may_push(&deskew.red, lock, words));
            deskew.push(2, lock, words);
        }
    }
}

/// A lane that is fed, how many of its bits have been asked for, and the aligner that those were fed to.
#[derive(Drop)]
struct FedLane {
    lane: u8,
    row: Row,
    from: u32,
    aligner: LaneAligner,
    ghost one_of_three: { lane < 3 },
    ghost fed: { fed_of aligner ≡ min from row.bits },
}

impl FedLane {
    /// A lane after zeros, so many bytes of them, of which nothing has been fed.
    fn open(alloc: Global, lane: u8, row: &Row, zeros: u32) -> Result<FedLane, Fail>
        requires { lane < 3 }
    {
        Ok(FedLane {
            lane,
            row: late(alloc, row, zeros)?,
            from: 0,
            aligner: LaneAligner::new(),
        })
    }

    /// Feeds the next bits, as many as there are up to a number, and pushes the characters that they make
    /// whole. The lane ends where it has fewer.
    fn feed(&mut self, rt: &impl Abort, deskew: &mut Deskew, piece: u32, words: &mut [u16]) {
        let from = self.from;
        assert!(rt; from % 8 == 0 && from <= 1_000_000);
        assert!(rt; 0 < piece && piece <= 32768 && 3290 <= words.len());
        let bytes = self.row.bytes.as_slice();
        let count = piece.min(self.row.bits.saturating_sub(from));
        let part = &bytes[(from as usize / 8).min(bytes.len())..];
        let len = (count as usize + 7) / 8;
        assert!(rt; len <= part.len());
        let many = self.aligner.feed(&part[..len], count, words);
        self.from = from + piece;
        if let Some(lock) = self.aligner.locked() {
            push(rt, deskew, self.lane, lock, &words[..many]);
        }
        if count < piece {
            deskew.end(self.lane);
        }
    }
}

/// That the columns that are lent are the next of a case. Returns how many there are.
fn expect_columns(rt: &impl Abort, deskew: &Deskew, case: &Case, taken: usize) -> usize
    ensures { result ≡ ready_of deskew.now }
{
    let columns = deskew.columns();
    let numbers = case.columns.as_slice();
    let n = columns.len();
    assert!(rt; taken <= numbers.len() && n <= numbers.len() - taken);
    for i in 0..n {
        let number = number_of_column(columns.get(i));
        assert_eq!(rt; number, numbers[taken + i], "column {i} past {taken}");
    }
    n
}

/// The bits of a lane after zeros, so many bytes of them.
fn late(alloc: Global, row: &Row, zeros: u32) -> Result<Row, Fail> {
    let mut bytes = vec![in alloc; 0; zeros as usize]?;
    bytes.extend_from_slice(row.bytes.as_slice())?;
    Ok(Row {
        bits: zeros.saturating_mul(8).saturating_add(row.bits),
        bytes,
    })
}

/// The first alignment of the first bits of three lanes.
fn aligned(
    rt: &impl Abort,
    alloc: Global,
    rows: [&Row; 3],
    to: u32,
) -> Result<Option<Aligned>, Fail> {
    let [blue, green, red] = rows;
    let blue = bits_of(rt, alloc, blue, blue.bits.min(to))?;
    let green = bits_of(rt, alloc, green, green.bits.min(to))?;
    let red = bits_of(rt, alloc, red, red.bits.min(to))?;
    Ok(first_alignment(&blue, &green, &red))
}

/// Three lanes after zeros, so many bytes of them, and room for their characters.
#[derive(Drop)]
struct FedLanes {
    blue: FedLane,
    green: FedLane,
    red: FedLane,
    words: Vec<u16>,
    zeros: u32,
}

impl FedLanes {
    /// The lanes of a case after zeros.
    fn open(alloc: Global, case: &Case, zeros: u32) -> Result<FedLanes, Fail> {
        Ok(FedLanes {
            blue: FedLane::open(alloc, 0, &case.blue, zeros)?,
            green: FedLane::open(alloc, 1, &case.green, zeros)?,
            red: FedLane::open(alloc, 2, &case.red, zeros)?,
            words: vec![in alloc; 0; 3290]?,
            zeros,
        })
    }

    /// How many bits the longest one has.
    fn most(&self) -> u32 {
        let blue = self.blue.row.bits;
        blue.max(self.green.row.bits).max(self.red.row.bits)
    }

    /// Feeds each of them the next bits. Reports where they are aligned.
    fn feed(&mut self, rt: &impl Abort, deskew: &mut Deskew, piece: u32) -> Option<Aligned> {
        let words = self.words.as_mut_slice();
        self.blue.feed(rt, deskew, piece, words);
        self.green.feed(rt, deskew, piece, words);
        self.red.feed(rt, deskew, piece, words);
        deskew.settle()
    }

    /// That an alignment is the first one of their first bits. The reference looks at each place: few
    /// zeros alone.
    fn expect_first(
        &self,
        rt: &impl Abort,
        alloc: Global,
        to: u32,
        found: Option<Aligned>,
    ) -> Result<(), Fail> {
        if self.zeros < 100 {
            let rows = [&self.blue.row, &self.green.row, &self.red.row];
            let wanted = aligned(rt, alloc, rows, to)?;
            assert_eq!(rt; found, wanted, "{to} bits, {} zeros", self.zeros);
        }
        Ok(())
    }
}

/// Takes the columns that are lent, which are the next of a case. Reports how many were taken by then.
fn take_columns(rt: &impl Abort, deskew: &mut Deskew, case: &Case, taken: usize) -> usize {
    let n = expect_columns(rt, deskew, case, taken);
    deskew.consume(n);
    assert!(rt; taken <= 10_000 && n <= 10_000);
    taken + n
}

/// The edges of a case after zeros, so many bytes of them.
fn edges_behind(case: &Case, zeros: u32) -> Option<[u64; 3]> {
    let bits = u64::from(zeros).wrapping_mul(8);
    case.edges
        .map(|edges| edges.map(|edge| edge.wrapping_add(bits)))
}

/// Feeds lanes in pieces, and takes the columns of a case from them. Reports where they are aligned in the
/// end, and how many columns were taken.
fn feed_all(
    rt: &impl Abort,
    alloc: Global,
    deskew: &mut Deskew,
    lanes: &mut FedLanes,
    case: &Case,
    mut pieces: [u32; 3],
) -> Result<(Option<Aligned>, usize), Fail> {
    let most = lanes.most();
    let mut found = None;
    let mut taken = 0;
    let mut from = 0;
    while from < most {
        let [piece, next, last] = pieces;
        pieces = [next, last, piece];
        assert!(rt; 0 < piece && piece <= 32768 && from <= 1_000_000);
        from += piece;
        found = lanes.feed(rt, deskew, piece);
        lanes.expect_first(rt, alloc, from, found)?;
        taken = take_columns(rt, deskew, case, taken);
    }
    Ok((found, taken))
}

/// Feeds the lanes of a case, after zeros and in pieces. Reports where they are aligned, and how many columns
/// were taken.
fn feed_case(
    rt: &impl Abort,
    alloc: Global,
    case: &Case,
    zeros: u32,
    pieces: [u32; 3],
) -> Result<(Option<Aligned>, usize), Fail> {
    let mut deskew = Deskew::open();
    let mut lanes = FedLanes::open(alloc, case, zeros)?;
    feed_all(rt, alloc, &mut deskew, &mut lanes, case, pieces)
}

/// That three lanes after zeros, which are fed in pieces, are aligned as a case says.
fn expect_case(
    rt: &impl Abort,
    alloc: Global,
    case: &Case,
    zeros: u32,
    pieces: [u32; 3],
) -> Result<(), Fail> {
    let (found, taken) = feed_case(rt, alloc, case, zeros, pieces)?;
    let edges = found.map(|at| at.edges);
    assert!(rt;
        edges == edges_behind(case, zeros) && taken == case.columns.len(),
        "{zeros} zero bytes, {pieces:?}: {edges:?} and {taken} columns"
    );
    Ok(())
}

/// Zeros before the bits, in bytes, and the pieces in which they are fed, over and over.
static FEEDS: [(u32, [u32; 3]); 9] = [
    (0, [8, 8, 8]),
    (3, [16, 16, 16]),
    (0, [136, 136, 136]),
    (19, [8, 8, 8]),
    (19, [136, 1000, 1000]),
    (0, [1000, 1000, 1000]),
    (0, [32768, 32768, 32768]),
    (4090, [32768, 8, 16]),
    (4080, [16, 32768, 8]),
];

#[test]
fn alignments_of_feeds(rt: HostRuntime) -> Result<(), Fail> {
    for text in CASES.split("\n\n") {
        let case = case_of(rt.alloc(), text)?;
        for &(zeros, pieces) in &FEEDS {
            expect_case(&rt, rt.alloc(), &case, zeros, pieces)?;
        }
    }
    Ok(())
}
