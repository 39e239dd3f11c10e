//! The definitions of `tmds_code`, against characters and answers worked out apart from it.
ghost use Rattle.std.specs.Prelude.{◌≡◌, ◌+◌, ◌<◌};

use super::vectors::{CODED, DECODED, JUDGED, LANES};
use std::test::*;
use tmds_code::{CodeJudge, VideoCoder, decode, encode};
use tmds_word::Word;

/// The number of hexadecimal digits.
fn number_of(digits: &str) -> u16 {
    let mut number: u16 = 0;
    for digit in digits.bytes() {
        let value = if digit > b'9' {
            digit.wrapping_sub(87)
        } else {
            digit.wrapping_sub(48)
        };
        number = number.wrapping_mul(16).wrapping_add(u16::from(value));
    }
    number
}

/// Whether the bytes have these characters at a disparity.
fn has_words(disparity: i32, words: &str) -> bool {
    for (byte, word) in (0..=255).zip(words.split(' ')) {
        if encode(byte, disparity).value() != number_of(word) {
            return false;
        }
    }
    words.len() == 256 * 4 - 1
}

/// Whether the bytes have the characters of a row at each of its disparities.
fn has_row(row: &str) -> bool {
    let (range, words) = row.split_once('|').unwrap_or((row, ""));
    let (first, last) = range.split_once(' ').unwrap_or((range, ""));
    for disparity in first.parse::<i32>().unwrap_or(1)..=last.parse::<i32>().unwrap_or(1) {
        if !has_words(disparity, words) {
            return false;
        }
    }
    !words.is_empty()
}

/// Whether a character is decoded as this byte.
fn is_decoded(value: u16, byte: &str) -> bool {
    u16::from(decode(Word::of(value % 1024))) == number_of(byte)
}

/// Whether a coder gives a lane's characters and disparities for its bytes.
fn is_coded(lane: &str) -> bool {
    let mut coder = VideoCoder::new();
    let starts = coder.disparity() == 0;
    for step in lane.split(',') {
        let (byte, answer) = step.split_once(' ').unwrap_or((step, ""));
        let (word, disparity) = answer.split_once(' ').unwrap_or((answer, ""));
        let found = coder.next(number_of(byte).to_le_bytes()[0]).value();
        if found != number_of(word) || disparity.parse::<i32>().ok() != Some(coder.disparity()) {
            return false;
        }
    }
    starts
}

/// Whether a judge says of a character what a row says of it.
fn is_judged(judge: &mut CodeJudge, word: &str, answer: &str) -> bool
    requires { judge.old.count < 4097 }
    ensures { judge.new.count ≡ judge.old.count + 1 }
{
    let (byte, right) = answer.split_once(' ').unwrap_or((answer, ""));
    let (found, is_right) = judge.hear(Word::of(number_of(word) % 1024));
    u16::from(found) == number_of(byte) && is_right == (right == "true")
}

/// Whether a judge says of the twelve characters of a lane what is beside them.
fn are_judged(lane: &str) -> bool {
    let (words, answers) = lane.split_once('|').unwrap_or((lane, ""));
    let mut judge = CodeJudge::new();
    let mut count: u16 = 0;
    for (word, answer) in words.split(' ').zip(answers.split(',')) {
        if count == 12 || !is_judged(&mut judge, word, answer) {
            return false;
        }
        count += 1;
    }
    count == 12
}

#[test]
fn codes_and_decodes(rt: HostRuntime) {
    for row in CODED.split('\n') {
        assert!(rt; has_row(row));
    }
    assert!(rt; DECODED.len() == 1024 * 3 - 1);
    for (value, byte) in (0..1024).zip(DECODED.split_whitespace()) {
        assert!(rt; is_decoded(value, byte));
    }
    for row in LANES.split('\n') {
        let (_, lane) = row.split_once('|').unwrap_or((row, ""));
        assert!(rt; is_coded(lane));
    }
    for row in JUDGED.split('\n') {
        let (_, lane) = row.split_once('|').unwrap_or((row, ""));
        assert!(rt; are_judged(lane));
    }
}
