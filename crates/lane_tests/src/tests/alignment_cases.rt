//! The cases of a text.

use std::alloc::Global;
use std::test::*;

/// A lane: how many bits it has, and their bytes and two more.
#[derive(Drop)]
pub struct Lane {
    pub bits: u32,
    pub bytes: Vec<u8>,
}

/// Three lanes and their full alignments.
#[derive(Drop)]
pub struct Case {
    pub blue: Lane,
    pub green: Lane,
    pub red: Lane,
    pub alignments: Vec<[u64; 3]>,
}

/// How many bits a lane has, and its bytes.
fn lane_of(alloc: Global, line: &str) -> Result<Lane, Fail> {
    let (bits, digits) = line.split_once('|').ok_or("a lane of no bits")?;
    let mut bytes = hex::decode(alloc, digits)?;
    bytes.extend_from_slice(&[0, 0])?;
    Ok(Lane {
        bits: bits.parse()?,
        bytes,
    })
}

/// Three edges.
fn edges_of(text: &str) -> Result<[u64; 3], Fail> {
    let (blue, rest) = text.split_once(' ').ok_or("one edge")?;
    let (green, red) = rest.split_once(' ').ok_or("two edges")?;
    Ok([blue.parse()?, green.parse()?, red.parse()?])
}

/// The case of a text.
pub fn case_of(alloc: Global, text: &str) -> Result<Case, Fail> {
    let mut lines = text.split('\n');
    let mut alignments = Vec::new(alloc);
    for edges in lines.next().unwrap_or("").split('|').skip(1) {
        alignments.push(edges_of(edges)?)?;
    }
    Ok(Case {
        blue: lane_of(alloc, lines.next().ok_or("no lane")?)?,
        green: lane_of(alloc, lines.next().ok_or("one lane")?)?,
        red: lane_of(alloc, lines.next().ok_or("two lanes")?)?,
        alignments,
    })
}
