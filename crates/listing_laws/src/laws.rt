//! Laws about the frames and packets of a raster that are recovered, and about reading a link's listing back. The functions
//! have no code: their contracts are the laws.
ghost use Rattle.listing_laws.specs.FrameLaws.{FramesComeBack, FramesHeard};
ghost use Rattle.listing_laws.specs.LinkLaws.{AccountReadsBack};
ghost use Rattle.listing_laws.specs.ListingLaws.{FrameLinesComeBack, LinesOfPayload, PacketLinesAreListed, PacketLinesAsSent, PacketLinesComeBack, PacketsAsSent};
ghost use Rattle.listing_laws.specs.PacketLaws.{PacketsComeBack, OnePacketAsSent, RasterPackets};
ghost use Rattle.listing_laws.specs.Rasters.{RastersCome, HasRaster};
ghost use Rattle.listing_laws.specs.Said.{ContentFieldsAreListed, FieldsAreListed, ListedIsSaid, SaidLines};
ghost use Rattle.listing_laws.specs.Taken.{TakenIsContent};

/// Of the account of a raster's columns, received with sparse damage wherever it lies, the rows are listed of exactly
/// those frames of whose sync lines three neighbouring control columns were received with VSYNC active: each row that
/// was received with the column after it. Such a frame is reported where three such columns were received
/// after its rows.
pub fn frames_come_back()
    ensures { FramesComeBack }
{}

/// The same of what is reported of the received columns.
pub fn frames_heard()
    ensures { FramesHeard }
{}

/// Of the account of conforming periods exactly those packets are reported that were received whole, in order.
pub fn packets_come_back()
    ensures { PacketsComeBack }
{}

/// A packet with at most one wrong word, or with few and without a reported fault, is reported with its header
/// and bodies, and none of its blocks is lost.
pub fn one_packet_as_sent()
    ensures { OnePacketAsSent }
{}

/// So is each such packet of conforming periods.
pub fn packets_as_sent()
    ensures { PacketsAsSent }
{}

/// The packets of a raster are those of its content, in order.
pub fn raster_packets()
    ensures { RasterPackets }
{}

/// The lines `row ..`, `frame ..` and `! ragged ..` of a content listing of what is reported of a raster are the rows and frames
/// that were received: none is ragged.
pub fn frame_lines_come_back()
    ensures { FrameLinesComeBack }
{}

/// The lines of a content listing that packets give are those of the packets that are reported, in order.
pub fn packet_lines_are_listed()
    ensures { PacketLinesAreListed }
{}

/// The content lines of a packet are those of its header and its bodies.
pub fn lines_of_payload()
    ensures { LinesOfPayload }
{}

/// The content lines of such a packet are those of the packet as it was sent.
pub fn packet_lines_as_sent()
    ensures { PacketLinesAsSent }
{}

/// So are those of each such packet of conforming periods, as it is reported.
pub fn packet_lines_come_back()
    ensures { PacketLinesComeBack }
{}

/// A packet that says fields of an InfoFrame, clock numbers or samples has the lines of these, and no others.
pub fn said_lines()
    ensures { SaidLines }
{}

/// The lines of the fields that a packet says are in the content listing, if the packet was received whole and as it was sent.
pub fn fields_are_listed()
    ensures { FieldsAreListed }
{}

/// So are those of each packet of a content.
pub fn content_fields_are_listed()
    ensures { ContentFieldsAreListed }
{}

/// The line of an InfoFrame in a content listing gives a packet that says its fields.
pub fn listed_is_said()
    ensures { ListedIsSaid }
{}

/// A content listing that is taken gives rows of bytes, and packets of bytes.
pub fn taken_is_content()
    ensures { TakenIsContent }
{}

/// Columns that spell a raster that is not refused, and whose bytes are content, are received for it with no damage.
pub fn rasters_come()
    ensures { RastersCome }
{}

/// There is such a raster: a mode, and a frame with a row and a packet.
pub fn has_raster()
    ensures { HasRaster }
{}

/// The listing of a stream that was received whole and undamaged reads back as a stream with the same columns.
pub fn listing_reads_back()
    ensures { AccountReadsBack }
{}
