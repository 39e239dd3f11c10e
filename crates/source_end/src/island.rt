//! Data islands.
ghost use Rattle.std.specs.Prelude.{◌≡◌, ◌↔◌, ◌++◌, ◌∷◌, [], IsTrue, OnOk, OnErr, length, ◌&&◌, ◌<◌};
ghost use Rattle.std.specs.List.{list_all};
ghost use Rattle.island_pack.specs.Conforming.{is_sync_pair, is_packet, is_data_island};
ghost use Rattle.island_pack.specs.Ranges.{is_island_in_range};
ghost use Rattle.source_end.specs.Pairs.{pair_of};

use island_pack::{Packet, are_sync_values, is_island_in_range, is_packet_in_range};
use outside_io::NoMemory;
use std::alloc::Global;
use std::marker::Model;

/// A data island: HSYNC plus twice VSYNC in the guard columns that open it and in those that close
/// it, and its packets.
#[derive(Drop)]
pub struct Island {
    opening: [u8; 2],
    packets: Vec<Packet>,
    closing: [u8; 2],
}

impl Model for Island {
    ghost use Rattle.island_pack.specs.Periods.{DataIsland};
    ghost use Rattle.source_end.specs.Pairs.{pair_of};

    ghost Value = { DataIsland };

    ghost view = { λ i. record { opening = pair_of i.opening; packets = i.packets.items; closing = pair_of i.closing } };
}

impl Island {
    /// No packets yet; keeps the allocator for its growth.
    pub fn new(alloc: Global, opening: [u8; 2], closing: [u8; 2]) -> Island
        ensures { result ≡ record { opening = pair_of opening; packets = []; closing = pair_of closing } }
    {
        Island {
            opening,
            packets: Vec::new(alloc),
            closing,
        }
    }

    /// The island of these packets.
    pub(crate) fn from_packets(opening: [u8; 2], packets: Vec<Packet>, closing: [u8; 2]) -> Island
        ensures { result ≡ record { opening = pair_of opening; packets = packets.items; closing = pair_of closing } }
    {
        Island {
            opening,
            packets,
            closing,
        }
    }

    /// Appends a packet. After a refusal the island is as before.
    pub fn push(&mut self, packet: Packet) -> Result<(), NoMemory>
        ensures ok { OnOk result (self.new ≡ record { opening = self.old.opening; packets = self.old.packets ++ packet ∷ []; closing = self.old.closing }) }
        ensures err { OnErr result (self.new ≡ self.old) }
    {
        self.packets.push(packet)?;
        Ok(())
    }

    /// Sets the sync values of the guard columns that close it.
    pub fn set_closing(&mut self, closing: [u8; 2])
        ensures { self.new ≡ record { opening = self.old.opening; packets = self.old.packets; closing = pair_of closing } }
    {
        self.closing = closing;
    }

    /// HSYNC plus twice VSYNC in the guard columns that open it.
    pub fn opening(&self) -> [u8; 2]
        ensures { pair_of result ≡ self.now.opening }
    {
        self.opening
    }

    /// HSYNC plus twice VSYNC in the guard columns that close it.
    pub fn closing(&self) -> [u8; 2]
        ensures { pair_of result ≡ self.now.closing }
    {
        self.closing
    }

    /// How many packets there are.
    pub fn len(&self) -> usize
        ensures { result ≡ length self.now.packets }
    {
        self.packets.len()
    }

    /// Whether there is no packet.
    pub fn is_empty(&self) -> bool
        ensures { IsTrue result ↔ (length self.now.packets ≡ 0) }
    {
        self.packets.is_empty()
    }

    /// The packets, in order.
    pub fn as_slice(&self) -> &[Packet]
        ensures { result.now ≡ self.now.packets }
    {
        self.packets.as_slice()
    }

    /// Whether sync values and the number of packets are in their ranges.
    #[tactic(auto, unfolding(island_pack::specs::Conforming::is_data_island))]
    pub(crate) fn is_in_range(&self) -> bool
        ensures { result ≡ is_data_island self.now }
    {
        self.are_guards_in_range() && self.are_packets_in_range()
    }

    /// Whether the sync values of the guard columns are below 4.
    fn are_guards_in_range(&self) -> bool
        ensures { result ≡ (is_sync_pair self.now.opening && is_sync_pair self.now.closing) }
    {
        are_sync_values(&self.opening) && are_sync_values(&self.closing)
    }

    /// Whether the sync values of the packets are below 4, and there are 1 to 18 packets.
    fn are_packets_in_range(&self) -> bool
        ensures { result ≡ (list_all is_packet self.now.packets && is_island_in_range (length self.now.packets)) }
    {
        are_in_range(self.packets.as_slice()) && is_island_in_range(self.packets.len())
    }
}

/// Whether the sync values of each packet are below 4.
fn are_in_range(packets: &[Packet]) -> bool
    ensures { result ≡ list_all is_packet packets.now }
{
    packets.iter().all(|packet| is_packet_in_range(packet))
}
