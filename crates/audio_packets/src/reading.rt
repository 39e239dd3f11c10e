//! Samples read from packets.
ghost use Rattle.std.specs.Prelude.{◌≡◌, ◌+◌, ◌*◌, ◌^◌, ◌<◌, ◌≤◌, ◌∷◌, [], IfSome, drop, filter};
ghost use Rattle.std.specs.List.{find};
ghost use Rattle.bch_block.specs.Bits.{bit};
ghost use Rattle.audio_packets.specs.Samples.{IsSamplePacket, packet_with, is_even, note_at, samples_of, pair_of, has_pair};

use crate::fault::AudioFault;
use crate::sample::{Sample, SampleNote};
use island_pack::PacketRef;
use std::marker::Model;

/// Reads the samples of an audio sample packet (HDMI 1.4, section 5.3.4).
///
/// `Lost` has the least lost block; where none is lost, `Layout` says that the packet has layout 1,
/// that of up to eight channels.
pub fn samples<'a>(packet: PacketRef<'a>) -> Result<SampleIter<'a>, AudioFault>
    requires { IsSamplePacket packet.packet.now }
    ensures { result ≡ samples_of packet.entry.packet.now packet.entry.verdicts.now }
{
    if let Some(block) = packet.first_lost() {
        return Err(AudioFault::Lost(block));
    }
    let header = packet.header();
    if has_bit(header[1], 4) {
        return Err(AudioFault::Layout);
    }
    Ok(SampleIter {
        header,
        bodies: packet.bodies(),
        mask: header[1],
        place: 0,
    })
}

/// Reads the samples of one pair of channels, 0 to 3, of an audio sample packet: with layout 0 pair 0
/// has those of all present bodies, with layout 1 each pair that of the body of its number, where
/// that is present (HDMI 1.4, section 5.3.4; which pair a body has is own).
///
/// `Lost` has the least lost block. There is no other refusal.
pub fn pair<'a>(packet: PacketRef<'a>, pair: u8) -> Result<SampleIter<'a>, AudioFault>
    requires audio { IsSamplePacket packet.packet.now }
    requires pairs { pair < 4 }
    ensures { result ≡ pair_of packet.entry.packet.now packet.entry.verdicts.now pair }
{
    if let Some(lost) = packet.first_lost() {
        return Err(AudioFault::Lost(lost));
    }
    let header = packet.header();
    Ok(SampleIter {
        header,
        bodies: packet.bodies(),
        mask: pair_mask(header[1], pair),
        place: 0,
    })
}

/// The present bodies that have samples of a pair, of those that a header byte names.
fn pair_mask(present: u8, pair: u8) -> u8
    requires { pair < 4 }
    ensures { filter (bit result) (0 ∷ 1 ∷ 2 ∷ 3 ∷ []) ≡ filter (has_pair present pair) (0 ∷ 1 ∷ 2 ∷ 3 ∷ []) }
{
    if has_bit(present, 4) {
        present & (1 << pair)
    } else if pair == 0 {
        present
    } else {
        0
    }
}

/// The samples of bodies of a packet, in order. Contracts see it as the list of the samples that are
/// left.
#[derive(Drop)]
pub struct SampleIter<'a> {
    header: &'a [u8; 3],
    bodies: &'a [u8; 28],
    /// A bit for each body that is looked at, where it is present.
    mask: u8,
    /// The first body that is still to be looked at.
    place: u8,
}

impl<'a> Model for SampleIter<'a> {
    ghost use Rattle.std.specs.Prelude.{List, ◌≤◌};
    ghost use Rattle.audio_packets.specs.Samples.{packet_with, notes_from};
    ghost use Rattle.audio_packets.specs.declared.sample.SampleNote.{SampleNote};

    ghost Value = { List SampleNote };

    ghost view = { λ s. notes_from (packet_with s.header.now s.bodies.now) s.mask s.place };

    ghost invariant = { λ s. s.place ≤ 4 };
}

impl<'a> Iterator for SampleIter<'a> {
    ghost use Rattle.std.specs.Iterator.{YieldsFirst, item_count};

    type Item = SampleNote;

    ghost next_gives = { YieldsFirst (λ s. s) };

    ghost remaining = { item_count (λ s. s) };

    fn next(&mut self) -> Option<SampleNote> {
        let place = present_from(self.mask, self.place)?;
        self.place = place + 1;
        Some(note_at(self.header, self.bodies, place))
    }
}

/// The first body from a body on, of those that a mask names.
fn present_from(mask: u8, place: u8) -> Option<u8>
    requires { place ≤ 4 }
    ensures value { result ≡ find (bit mask) (drop place (0 ∷ 1 ∷ 2 ∷ 3 ∷ [])) }
    ensures bound { IfSome result (λ body. (place ≤ body) × (body < 4)) }
{
    (place..4).find(|body| has_bit(mask, *body))
}

/// The sample of a body, and whether its sides are even.
fn note_at(header: &[u8; 3], bodies: &[u8; 28], place: u8) -> SampleNote
    requires { place < 4 }
    ensures { result ≡ note_at (packet_with header.now bodies.now) place }
{
    let at = 7 * usize::from(place);
    let left = value(bodies[at], bodies[at + 1], bodies[at + 2]);
    let right = value(bodies[at + 3], bodies[at + 4], bodies[at + 5]);
    let bits = bodies[at + 6];
    let left_flags = bits & 7;
    let right_flags = (bits >> 4) & 7;
    SampleNote {
        place,
        sample: Sample {
            left,
            right,
            left_flags,
            right_flags,
            start: has_bit(header[2], 4 + place),
            flat: has_bit(header[2], place),
        },
        left_even: is_even(left, left_flags, (bits >> 3) & 1),
        right_even: is_even(right, right_flags, bits >> 7),
    }
}

/// A value of 24 bits, from its lowest byte on.
fn value(low: u8, middle: u8, high: u8) -> u32
    ensures value { result ≡ low + 256 * middle + 65536 * high }
    ensures below { result < 2 ^ 24 }
{
    u32::from_le_bytes([low, middle, high, 0])
}

/// Whether a value, its flags and its parity bit have an even number of ones.
fn is_even(value: u32, flags: u8, parity: u8) -> bool
    ensures { result ≡ is_even value flags parity }
{
    (value.count_ones() + flags.count_ones() + u32::from(parity)) % 2 == 0
}

/// Whether a bit of a byte is set.
fn has_bit(byte: u8, place: u8) -> bool
    requires { place < 8 }
    ensures { result ≡ bit byte place }
{
    (byte >> place) & 1 == 1
}
