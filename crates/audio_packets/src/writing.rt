//! Samples written into packets.
ghost use Rattle.std.specs.Prelude.{◌≡◌, ◌<◌, ◌≤◌, length, All};
ghost use Rattle.audio_packets.specs.Samples.{IsSample, samples_header, samples_bodies, sample_body, side_bits, samples_packet};

use crate::sample::Sample;
use island_pack::Packet;

/// Writes the packet of one to four samples: header, a body for each from body 0 on with the parity
/// bits that make its sides even, and zeros after them. `sync` stays.
pub fn write_samples(samples: &[Sample], out: &mut Packet)
    requires some { 1 ≤ length samples.now }
    requires few { length samples.now ≤ 4 }
    requires fits { All IsSample samples.now }
    ensures { out.new ≡ samples_packet samples.now out.old.sync }
{
    out.header = header_of(samples);
    out.bodies = bodies_of(samples);
}

/// The header bytes: the type, which bodies are present, and which are flat and which start a block.
fn header_of(samples: &[Sample]) -> [u8; 3]
    requires { length samples.now ≤ 4 }
    ensures { result ≡ samples_header samples.now }
{
    let mut present = 0;
    let mut flat = 0;
    let mut start = 0;
    for (place, sample) in samples.iter().enumerate() {
        present += 1 << place;
        flat += u8::from(sample.flat) << place;
        start += u8::from(sample.start) << place;
    }
    [2, present, flat + 16 * start]
}

/// The four bodies.
fn bodies_of(samples: &[Sample]) -> [u8; 28]
    requires few { length samples.now ≤ 4 }
    requires fits { All IsSample samples.now }
    ensures { result ≡ samples_bodies samples.now }
{
    let mut bodies = [0; 28];
    for (place, sample) in samples.iter().enumerate() {
        bodies[7 * place..7 * place + 7].copy_from_slice(&sample_body(sample));
    }
    bodies
}

/// The body of a sample.
fn sample_body(sample: &Sample) -> [u8; 7]
    requires { IsSample sample.now }
    ensures { result ≡ sample_body sample.now }
{
    let [l0, l1, l2, _] = sample.left.to_le_bytes();
    let [r0, r1, r2, _] = sample.right.to_le_bytes();
    let left = side_bits(sample.left, sample.left_flags);
    let right = side_bits(sample.right, sample.right_flags);
    [l0, l1, l2, r0, r1, r2, left + 16 * right]
}

/// V, U and C of a side and the parity bit that makes it even, as time slots 28 to 31 of a subframe have
/// them (IEC 60958-1, section 4.1).
pub fn side_bits(value: u32, flags: u8) -> u8
    requires { flags < 8 }
    ensures value { result ≡ side_bits value flags }
    ensures below { result < 16 }
{
    flags + 8 * ((value.count_ones() + flags.count_ones()) % 2) as u8
}
