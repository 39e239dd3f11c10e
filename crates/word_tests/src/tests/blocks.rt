//! Worked rows, and what an independent model of `bch_block`'s code answers.

use super::block_rows::{BLOCKS32, BLOCKS64};
use bch_block::{Verdict, parity32, parity64, repair32, repair64};
use std::test::*;

/// The number of hexadecimal digits.
fn number_of(digits: &str) -> u64 {
    let mut number: u64 = 0;
    for digit in digits.bytes() {
        let value = if digit > b'9' {
            digit.wrapping_sub(87)
        } else {
            digit.wrapping_sub(48)
        };
        number = number.wrapping_mul(16).wrapping_add(u64::from(value));
    }
    number
}

/// Whether a verdict has this name, and this bit where one is mended.
fn is_verdict(verdict: Verdict, name: &str, bit: &str) -> bool {
    match verdict {
        Verdict::Clean => name == "clean",
        Verdict::Mended(found) => name == "mended" && bit.parse::<u8>().ok() == Some(found),
        Verdict::Lost => name == "lost",
    }
}

/// A block's digits, those of the bit that is mended, and those of the block after the repair.
fn parts_of(text: &str) -> (&str, &str, &str) {
    let (before, rest) = text.split_once(' ').unwrap_or((text, ""));
    let (bit, after) = rest.split_once(' ').unwrap_or(("", before));
    (before, bit, after)
}

/// Whether the repair of a block of 32 bits gives this verdict and this block, and a whole block has its parity byte.
fn repairs32(name: &str, text: &str) -> bool {
    let (before, bit, after) = parts_of(text);
    let [_, _, _, _, a, b, c, d] = number_of(before).to_be_bytes();
    let mut block = [a, b, c, d];
    let verdict = repair32(&mut block);
    let [a, b, c, parity] = block;
    is_verdict(verdict, name, bit)
        && u64::from(u32::from_be_bytes(block)) == number_of(after)
        && (verdict.is_lost() || parity32(&[a, b, c]) == parity)
}

/// The same for a block of 64 bits.
fn repairs64(name: &str, text: &str) -> bool {
    let (before, bit, after) = parts_of(text);
    let mut block = number_of(before).to_be_bytes();
    let verdict = repair64(&mut block);
    let [a, b, c, d, e, f, g, parity] = block;
    is_verdict(verdict, name, bit)
        && u64::from_be_bytes(block) == number_of(after)
        && (verdict.is_lost() || parity64(&[a, b, c, d, e, f, g]) == parity)
}

/// Blocks of worked rows under their verdicts.
static WORKED: &str = "\
clean|00008083
mended|00008082 24 00008083
lost|00008080";

#[test]
fn parities_and_repairs(rt: HostRuntime) {
    assert!(rt; parity32(&[0x00, 0x00, 0x80]) == 0x83);
    assert!(rt; parity32(&[0x82, 0x02, 0x0d]) == 0xe4);
    assert!(rt; parity64(&[0x66, 0x00, 0x08, 0x00, 0x01, 0x00, 0x00]) == 0x35);
    for table in [WORKED, BLOCKS32] {
        for row in table.split('\n') {
            let (name, blocks) = row.split_once('|').unwrap_or((row, ""));
            for text in blocks.split(", ") {
                assert!(rt; repairs32(name, text));
            }
        }
    }
    for row in BLOCKS64.split('\n') {
        let (name, blocks) = row.split_once('|').unwrap_or((row, ""));
        for text in blocks.split(", ") {
            assert!(rt; repairs64(name, text));
        }
    }
}
