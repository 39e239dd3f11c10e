//! Packets as they are sent on.
ghost use Rattle.std.specs.Prelude.{◌≡◌};
ghost use Rattle.relay.specs.Relayed.{Judged, sure};

use island_pack::{Packet, PacketRef};

/// A packet of these bytes and sync values.
fn packet_of(header: &[u8; 3], bodies: &[u8; 28], sync: &[u8; 32]) -> Packet
    ensures { result ≡ record { header = header.now; bodies = bodies.now; sync = sync.now } }
{
    let header = *header;
    let bodies = *bodies;
    let sync = *sync;
    Packet {
        header,
        bodies,
        sync,
    }
}

/// The packet as it is sent on: where a block is lost, the Null packet with its sync values.
pub(crate) fn sent_on(packet: PacketRef<'_>) -> Packet
    ensures { (judged : Judged) → judged ≡ record { packet = packet.entry.packet.now; verdicts = packet.entry.verdicts.now } → result ≡ (sure judged).packet }
{
    if packet.first_lost().is_some() {
        return packet_of(&[0; 3], &[0; 28], packet.sync());
    }
    packet_of(packet.header(), packet.bodies(), packet.sync())
}
