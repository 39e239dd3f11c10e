//! Each command over devices that fail: each read in turn and each write in turn, of devices that move few bytes a call.
use super::trial::{Devices, STEADY, answer_of};
use std::process::Abort;
use std::test::*;
use std::thread::Threads;

/// A red pixel after a data island with one packet.
static ISLAND: &str =
    "c 00 4\nc 14 8\ni 00\np 82020d 66000800010000 00000000000000 00000000000000 00000000000000 00000000000000000000000000000000\ne 00\nc 00 4\nc 04 8\nv ff0000\nc 00 12\nend\n";

/// A frame of two pixels with one packet.
static CONTENT: &str =
    "mode 2 4 30 14 1 1 1 1 0\nacr 6144 27000\nrow 0102030405ff\nframe 2 1\nend\n";

/// The same packet with one sample of the first pair, which starts a block.
static SOUND: &str =
    "c 00 4\nc 14 8\ni 00\np 020310 56341200000000 00000001000000 00000000000000 00000000000000 00000000000000000000000000000000\ne 00\nc 00 12\nend\n";

/// A line of thirty pixels and one of one, of which a slip in the first leaves the second.
static LINES: &str =
    "c 00 4\nc 04 8\nv 000000000000000000000000000000000000000000000000000000000000000000000000000000000000000000000000000000000000000000000000000000000000000000000000000000000000000000000000000000\nc 00 24\nc 04 8\nv ff0000\nc 00 12\nend\n";

/// A pixel without guard bands.
static DVI: &str = "c 00 12\nv ff0000\nc 00 12\nend\n";

/// More calls than a run makes.
const CALLS: u64 = 10_000;

/// Fails each read or each write in turn, until a run has none of that number: it must end with the status and the note
/// of the failure and have written a part of what an undisturbed run writes.
fn fail_each(
    rt: &(impl Abort + Threads + AllocGlobal),
    words: &str,
    input: &[u8],
    piece: usize,
    reads: bool,
) -> Result<(), Fail> {
    let whole = answer_of(rt, words, input, &STEADY)?;
    let (status, note) = if reads {
        (4, "read failed\n")
    } else {
        (5, "write failed\n")
    };
    for number in 0..CALLS {
        let devices = Devices {
            read: piece,
            write: piece,
            failing_read: reads.then_some(number),
            failing_write: (!reads).then_some(number),
            ..STEADY
        };
        let it = answer_of(rt, words, input, &devices)?;
        if it.status == whole.status {
            assert!(rt; number > 0, "{words} in pieces of {piece}");
            assert_eq!(rt; it.output.as_slice(), whole.output.as_slice());
            return Ok(());
        }
        assert_eq!(rt; it.status, status, "{words} at call {number}");
        assert_eq!(rt; it.notes.as_slice(), note.as_bytes());
        assert!(rt;
            whole.output.starts_with(&it.output),
            "{words} at call {number}"
        );
    }
    Err("a run of too many calls")?
}

#[test]
fn each_call_fails_in_turn(rt: HostRuntime) -> Result<(), Fail> {
    // The words of a run, the commands that make its input of a text, each of what the last one wrote, and the text.
    let runs: [(&str, &str, &str); 13] = [
        ("make link --bits 100", "", ISLAND),
        ("make content --bits 100", "", CONTENT),
        ("make dvi --bits 100", "", DVI),
        ("recover link", "make link", ISLAND),
        ("recover content", "make link", ISLAND),
        ("check", "make link", ISLAND),
        ("damage 2:140:133 0:0:000", "make link", ISLAND),
        ("slip 2:140:3", "make link", ISLAND),
        ("relay", "make link", ISLAND),
        ("recover track", "make link|slip 2:300:3", LINES),
        ("recover dvi", "make dvi", DVI),
        ("recover biphase 0", "make link", SOUND),
        ("read biphase", "make link|recover biphase 0", SOUND),
    ];
    for (words, makers, text) in runs {
        let mut input = text.as_bytes().to_vec(rt.alloc())?;
        for maker in makers.split('|').filter(|it| !it.is_empty()) {
            input = answer_of(&rt, maker, &input, &STEADY)?.output;
        }
        fail_each(&rt, words, &input, 7, true)?;
        for piece in [1, 7, 65_536] {
            fail_each(&rt, words, &input, piece, false)?;
        }
    }
    Ok(())
}
