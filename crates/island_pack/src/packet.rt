//! Packets of a data island (HDMI 1.4, section 5.2.3), and the verdicts on their blocks.
ghost use Rattle.std.specs.Prelude.{◌≡◌, ◌<◌};

use bch_block::Verdict;

/// A packet of a data island.
#[derive(Clone, Copy)]
pub struct Packet {
    /// The three header bytes.
    pub header: [u8; 3],
    /// The four bodies: body b is bytes 7b to 7b + 6.
    pub bodies: [u8; 28],
    /// HSYNC plus twice VSYNC at each of the 32 columns.
    pub sync: [u8; 32],
}

/// What was found of a packet's blocks.
#[derive(Clone, Copy)]
pub struct PacketVerdicts {
    /// Blocks 0 to 3 are the bodies, block 4 is the header.
    pub blocks: [Verdict; 5],
    /// How many of the 96 words are no TERC4 words.
    pub symbols: u8,
}

/// A packet and its verdicts, lent.
#[derive(Clone, Copy)]
pub struct PacketRef<'a> {
    packet: &'a Packet,
    verdicts: &'a PacketVerdicts,
}

impl<'a> PacketRef<'a> {
    ghost use Rattle.island_pack.specs.Packets.{body_of};
    ghost use Rattle.island_pack.specs.Taken.{verdict_on, first_lost};

    /// Lends a packet and its verdicts.
    pub fn new(packet: &'a Packet, verdicts: &'a PacketVerdicts) -> PacketRef<'a>
        ensures packet { result.packet.now ≡ packet.entry.now }
        ensures verdicts { result.verdicts.now ≡ verdicts.entry.now }
    {
        PacketRef { packet, verdicts }
    }

    /// The three header bytes.
    pub fn header(&self) -> &'a [u8; 3]
        ensures { result.now ≡ self.now.packet.now.header }
    {
        &self.packet.header
    }

    /// The four bodies, one after another.
    pub fn bodies(&self) -> &'a [u8; 28]
        ensures { result.now ≡ self.now.packet.now.bodies }
    {
        &self.packet.bodies
    }

    /// The seven bytes of body i.
    pub fn body(&self, i: u8) -> &'a [u8]
        requires { i < 4 }
        ensures { result.now ≡ body_of self.now.packet.now i }
    {
        let at = 7 * usize::from(i);
        let bodies = &self.packet.bodies[..];
        &bodies[at..at + 7]
    }

    /// HSYNC plus twice VSYNC at each column.
    pub fn sync(&self) -> &'a [u8; 32]
        ensures { result.now ≡ self.now.packet.now.sync }
    {
        &self.packet.sync
    }

    /// The verdict on a block: blocks 0 to 3 are the bodies, block 4 is the header.
    pub fn verdict(&self, block: u8) -> Verdict
        requires { block < 5 }
        ensures { result ≡ verdict_on self.now.verdicts.now block }
    {
        self.verdicts.blocks[usize::from(block)]
    }

    /// The least block that is lost.
    pub fn first_lost(&self) -> Option<u8>
        ensures { result ≡ first_lost self.now.verdicts.now }
    {
        (0..5).find(|block| self.verdict(*block).is_lost())
    }

    /// How many of the 96 words are no TERC4 words.
    pub fn symbols(&self) -> u8
        ensures { result ≡ self.now.verdicts.now.symbols }
    {
        self.verdicts.symbols
    }
}
