//! Packets of audio clock regeneration.
ghost use Rattle.std.specs.Prelude.{◌≡◌, ◌^◌, ◌<◌, IfOk};
ghost use Rattle.audio_packets.specs.Clock.{IsClockPacket, IsAcr, twenty_bits, acr_of, acr_packet};

use crate::fault::AudioFault;
use island_pack::{Packet, PacketRef};

/// The numbers by which a sink makes the audio clock of the TMDS clock: 128 times the sampling rate
/// is the TMDS clock times N divided by CTS (HDMI 1.4, section 7.2).
#[derive(Clone, Copy)]
pub struct Acr {
    /// N, of 20 bits.
    pub n: u32,
    /// CTS, the cycle time stamp, of 20 bits.
    pub cts: u32,
}

/// Reads a packet of audio clock regeneration (HDMI 1.4, section 5.3.3).
///
/// `Lost` has the least lost block; where none is lost, `Uneven` says that the four bodies are not
/// all alike.
pub fn read_acr(packet: PacketRef<'_>) -> Result<Acr, AudioFault>
    requires { IsClockPacket packet.packet.now }
    ensures read { result ≡ acr_of packet.entry.packet.now packet.entry.verdicts.now }
    ensures fits { IfOk result IsAcr }
{
    if let Some(block) = packet.first_lost() {
        return Err(AudioFault::Lost(block));
    }
    let first = packet.body(0);
    if packet.body(1) != first || packet.body(2) != first || packet.body(3) != first {
        return Err(AudioFault::Uneven);
    }
    let bodies = packet.bodies();
    Ok(Acr {
        n: twenty_bits(bodies[4], bodies[5], bodies[6]),
        cts: twenty_bits(bodies[1], bodies[2], bodies[3]),
    })
}

/// A number of 20 bits, its highest four bits in the lowest of the first byte.
fn twenty_bits(high: u8, middle: u8, low: u8) -> u32
    ensures value { result ≡ twenty_bits high middle low }
    ensures below { result < 2 ^ 20 }
{
    u32::from_be_bytes([0, high % 16, middle, low])
}

/// Writes the packet of clock numbers of 20 bits: header, and four bodies that are alike. `sync`
/// stays.
pub fn write_acr(acr: &Acr, out: &mut Packet)
    requires { IsAcr acr.now }
    ensures { out.new ≡ acr_packet acr.now out.old.sync }
{
    let [_, c0, c1, c2] = acr.cts.to_be_bytes();
    let [_, n0, n1, n2] = acr.n.to_be_bytes();
    out.header = [1, 0, 0];
    out.bodies = [
        0, c0, c1, c2, n0, n1, n2, 0, c0, c1, c2, n0, n1, n2, 0, c0, c1, c2, n0, n1, n2, 0, c0, c1,
        c2, n0, n1, n2,
    ];
}
