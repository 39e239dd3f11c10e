//! The counts of samples. The expected values are those of an independent model of the sample.
use super::trial::{Devices, STEADY, answer_of, judge};
use capture_commands::damaged;
use std::process::Abort;
use std::test::*;

/// Three frames, of which the capture lacks the first one's beginning.
static ROWS: &[u8] = b"
sample 3||0|columns 1231895/frames 2/rows 960/packets 406/samples 1600/symbols 406/mended 800/code 1440/other 0/differ 956/|
sample 3|what stands in the input is not read|0|columns 1231895/frames 2/rows 960/packets 406/samples 1600/symbols 406/mended 800/code 1440/other 0/differ 956/|
sample||2||usage: make, recover, check, damage or sample/
sample 1||2||usage: make, recover, check, damage or sample/
sample 21||2||usage: make, recover, check, damage or sample/
sample 2 2||2||usage: make, recover, check, damage or sample/
";

#[test]
fn sample_rows(rt: HostRuntime) -> Result<(), Fail> {
    judge(&rt, ROWS, 65_536)
}

#[test]
fn output_fails(rt: HostRuntime) -> Result<(), Fail> {
    let words = "sample 2";
    let whole = answer_of(&rt, words, b"", &STEADY)?;
    assert_eq!(rt; whole.status, 0);
    for number in 0..3 {
        let devices = Devices {
            write: 7,
            failing_read: Some(0),
            failing_write: Some(number),
            ..STEADY
        };
        let it = answer_of(&rt, words, b"", &devices)?;
        assert_eq!(rt; it.status, 5);
        assert_eq!(rt; it.notes.as_slice(), b"write failed\n".as_slice());
        assert_eq!(rt; it.output.len(), 7 * number as usize);
        assert!(rt; whole.output.starts_with(&it.output));
    }
    Ok(())
}

/// The damaged capture of three frames without its last byte: the front of the whole listing is written.
#[test]
fn cut_short(rt: HostRuntime) -> Result<(), Fail> {
    let capture = damaged(rt.alloc(), 3)?;
    let words = "recover content";
    let devices = Devices {
        room: 8_000_000,
        ..STEADY
    };
    let whole = answer_of(&rt, words, capture.bytes(), &devices)?;
    assert_eq!(rt; whole.status, 1);
    assert!(rt; whole.output.ends_with(b"end\n"));
    let (_, front) = capture.bytes().split_last().ok_or("no capture")?;
    let cut = answer_of(&rt, words, front, &devices)?;
    assert_eq!(rt; cut.status, 3);
    assert!(rt; whole.output.starts_with(&cut.output));
    assert!(rt; !cut.output.ends_with(b"end\n"));
    assert!(rt; cut.output.len() > 3_000_000);
    Ok(())
}
