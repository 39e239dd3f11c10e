//! InfoFrames written into packets.
ghost use Rattle.std.specs.Prelude.{◌≡◌, ◌<◌, ◌≤◌, ◌+◌, ◌%◌, ◌++◌, [], ◌∷◌, ℕ, length, drop, slice_index, IsTrue};
ghost use Rattle.island_pack.specs.Packets.{IsPacket};
ghost use Rattle.infoframe.specs.Fields.{field, avi_of, avi_reserved, audio_of, audio_reserved, spd_of};
ghost use Rattle.infoframe.specs.Bytes.{AviBounds, AudioBounds, bar_bytes};
ghost use Rattle.infoframe.specs.Frames.{sum_of};
ghost use Rattle.infoframe.specs.Written.{fits, padded, IsWritten};

use crate::content::{AudioInfo, Avi, Info};
use crate::fields::{AUDIO_TYPE, AUDIO_VERSION, AVI_TYPE, AVI_VERSION, SPD_TYPE, SPD_VERSION};
use crate::lent::sum_of;
use island_pack::Packet;

/// Writes the header and the bodies of a packet that says it: the checksum in PB0, 0 in each reserved bit and in each
/// byte after the length. The packet's `sync` stays.
pub fn write(info: &Info, out: &mut Packet)
    requires { IsTrue (fits info.now) }
    ensures written { IsWritten info.now out.new }
    ensures sync { out.new.sync ≡ out.old.sync }
{
    match info {
        Info::Avi(avi) => lay(AVI_TYPE, AVI_VERSION, &avi_bytes(avi), out),
        Info::Audio(audio) => lay(AUDIO_TYPE, AUDIO_VERSION, &audio_bytes(audio), out),
        Info::Spd(spd) => {
            let payload = spd_bytes(&spd.vendor, &spd.product, spd.kind);
            lay(SPD_TYPE, SPD_VERSION, &payload, out)
        }
        Info::Raw {
            kind,
            version,
            length,
            bytes,
        } => write_raw(*kind, *version, *length, bytes, out),
    }
}

/// Writes raw bytes.
fn write_raw(kind: u8, version: u8, length: u8, bytes: &[u8; 27], out: &mut Packet)
    requires { IsTrue (fits (Info.Raw kind version length bytes.now)) }
    ensures written { IsWritten (Info.Raw kind version length bytes.now) out.new }
    ensures sync { out.new.sync ≡ out.old.sync }
{
    lay(kind, version, &bytes[..usize::from(length)], out);
}

/// Lays a header, the checksum and a payload into a packet.
fn lay(type_code: u8, version: u8, payload: &[u8], out: &mut Packet)
    requires { length payload.now ≤ 27 }
    ensures whole { IsPacket out.new }
    ensures header { out.new.header ≡ type_code ∷ version ∷ length payload.now ∷ [] }
    ensures payload { drop 1 out.new.bodies ≡ padded payload.now }
    ensures checksum { sum_of out.new ≡ 0 }
    ensures sync { out.new.sync ≡ out.old.sync }
{
    let length = payload.len();
    out.header = [type_code, version, length as u8];
    out.bodies = [0; 28];
    out.bodies[1..length + 1].copy_from_slice(payload);
    out.bodies[0] = sum_of(&out.header)
        .wrapping_add(sum_of(payload))
        .wrapping_neg();
}

/// The payload of an AVI InfoFrame.
fn avi_bytes(avi: &Avi) -> [u8; 13]
    requires { AviBounds avi.now }
    ensures fields { avi_of result ≡ avi.now }
    ensures reserved { avi_reserved (field result) ≡ 0 ∷ 0 ∷ 0 ∷ [] }
    ensures long { length result ≡ 13 }
{
    let [b6, b7, b8, b9, b10, b11, b12, b13] = bar_bytes(&avi.bars);
    [
        avi.s + 4 * avi.b + 16 * avi.a + 32 * avi.y,
        avi.r + 16 * avi.m + 64 * avi.c,
        avi.sc + 4 * avi.q + 16 * avi.ec + 128 * avi.itc,
        avi.vic,
        avi.pr,
        b6,
        b7,
        b8,
        b9,
        b10,
        b11,
        b12,
        b13,
    ]
}

/// The bytes of four bars, the low byte of each first.
fn bar_bytes(bars: &[u16; 4]) -> [u8; 8]
    ensures bytes { result ≡ bar_bytes bars.now }
    ensures long { length result ≡ 8 }
    ensures four { length bars.now ≡ 4 }
    ensures below { (k : ℕ) → slice_index bars.now k < 65536 }
{
    let [top, bottom, left, right] = *bars;
    let [b6, b7] = top.to_le_bytes();
    let [b8, b9] = bottom.to_le_bytes();
    let [b10, b11] = left.to_le_bytes();
    let [b12, b13] = right.to_le_bytes();
    [b6, b7, b8, b9, b10, b11, b12, b13]
}

/// The payload of an audio InfoFrame.
fn audio_bytes(audio: &AudioInfo) -> [u8; 10]
    requires { AudioBounds audio.now }
    ensures fields { audio_of result ≡ audio.now }
    ensures reserved { audio_reserved (field result) ≡ 0 ∷ 0 ∷ 0 ∷ 0 ∷ 0 ∷ 0 ∷ 0 ∷ 0 ∷ 0 ∷ [] }
    ensures long { length result ≡ 10 }
{
    [
        audio.cc + 16 * audio.ct,
        audio.ss + 4 * audio.sf,
        0,
        audio.ca,
        8 * audio.lsv + 128 * audio.dm,
        0,
        0,
        0,
        0,
        0,
    ]
}

/// The payload of a source product description.
fn spd_bytes(vendor: &[u8; 8], product: &[u8; 16], kind: u8) -> [u8; 25]
    ensures fields { spd_of result ≡ record { vendor = vendor.now; product = product.now; kind = kind } }
    ensures long { length result ≡ 25 }
{
    let [v0, v1, v2, v3, v4, v5, v6, v7] = *vendor;
    let [
        p0,
        p1,
        p2,
        p3,
        p4,
        p5,
        p6,
        p7,
        p8,
        p9,
        p10,
        p11,
        p12,
        p13,
        p14,
        p15,
    ] = *product;
    [
        v0, v1, v2, v3, v4, v5, v6, v7, p0, p1, p2, p3, p4, p5, p6, p7, p8, p9, p10, p11, p12, p13,
        p14, p15, kind,
    ]
}
