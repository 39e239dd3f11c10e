//! Rows that were worked out by hand, checked against the definitions alone.
//!
//! Each law is proved by evaluating the definitions (`refl`), so no program comes between the formats and the definitions. The
//! functions have no code: their contracts are the laws. The rows are:
//!
//! - a line of one red pixel: its listing, its columns, its capture, and what `make link` makes of the listing;
//! - the characters of black and of white pixels, and the block of a packet's header;
//! - a Null packet, an AVI InfoFrame, clock numbers and a sample, each written and read;
//! - a data island and a line: the listing, the columns, and what they report with a mended and with a lost block;
//! - an island of two packets, both mended, and one of nineteen: the listings that their columns report;
//! - a tap with an offset and skews, one that is aligned late, damaged pixels, a capture that ends within an island, and noise: what their
//!   columns report;
//! - a lane that loses bits of a line: the text of what comes before the slip and after it;
//! - listings that are refused, and the note of each;
//! - two frames: the content listing, the periods of their raster, and the content listing of what the columns report.
#![tactic(auto)]

ghost use Rattle.worked_rows.specs.Codes.{IsBlackRow, IsHeaderBlock, IsWhiteRow};
ghost use Rattle.worked_rows.specs.Content.{ContentIsHeard, ContentIsRaster, ContentIsRead};
ghost use Rattle.worked_rows.specs.Fields.{IsAvi, IsClock, IsNull, IsSampleRow};
ghost use Rattle.worked_rows.specs.Island.{IslandIsHeard, IslandIsLost, IslandIsMended, IslandIsRead, IslandIsSpelled};
ghost use Rattle.worked_rows.specs.Packets.{LongIsHeard, TwoAreListed};
ghost use Rattle.worked_rows.specs.Refused.{AreRefused};
ghost use Rattle.worked_rows.specs.Row.{IsRead, IsCaptured, IsSpelled, IsHeard, IsMade};
ghost use Rattle.worked_rows.specs.Slipped.{LateIsHeard, SlippedIsHeard};
ghost use Rattle.worked_rows.specs.Taps.{CutIsHeard, NoiseIsHeard, PixelIsHeard, SkewedIsHeard};

/// The listing of one red pixel reads as its periods.
pub fn is_read()
    ensures { IsRead }
{}

/// The capture of its columns has these bytes.
pub fn is_captured()
    ensures { IsCaptured }
{}

/// Its columns spell its periods.
pub fn is_spelled()
    ensures { IsSpelled }
{}

/// `make link` makes these bytes of the listing.
pub fn is_made()
    ensures { IsMade }
{}

/// What is reported of the columns has the listing.
pub fn is_heard()
    ensures { IsHeard }
{}

/// Three black bytes have these characters, and the disparity after each.
pub fn black_row()
    ensures { IsBlackRow }
{}

/// Two white bytes have these characters, and the disparity after each.
pub fn white_row()
    ensures { IsWhiteRow }
{}

/// The block of a header has this parity byte. One wrong bit of it is mended, and by two it is lost.
pub fn header_block()
    ensures { IsHeaderBlock }
{}

/// These columns carry a Null packet, and it is taken of them with no fault.
pub fn null_row()
    ensures { IsNull }
{}

/// An AVI InfoFrame has these bytes. It is read with its fields, and with a wrong checksum it is refused.
pub fn avi_row()
    ensures { IsAvi }
{}

/// Clock numbers have these bytes. They are read, and bodies that are not alike are refused.
pub fn clock_row()
    ensures { IsClock }
{}

/// A sample has these bytes. It is read with both sides even, and with a wrong parity bit one is not.
pub fn sample_row()
    ensures { IsSampleRow }
{}

/// The listing of an island and a line reads as its periods.
pub fn island_read()
    ensures { IslandIsRead }
{}

/// Its columns spell its periods.
pub fn island_spelled()
    ensures { IslandIsSpelled }
{}

/// What is reported of the columns has the listing.
pub fn island_heard()
    ensures { IslandIsHeard }
{}

/// With one damaged character in the packet, a block is mended.
pub fn island_mended()
    ensures { IslandIsMended }
{}

/// With two damaged characters in one column of the packet, a block is lost.
pub fn island_lost()
    ensures { IslandIsLost }
{}

/// The content listing of two frames reads as their mode and their rows.
pub fn content_read()
    ensures { ContentIsRead }
{}

/// They have a raster, which has these periods.
pub fn content_raster()
    ensures { ContentIsRaster }
{}

/// What is reported of the raster's columns has the rows of the second frame, and the frame.
pub fn content_heard()
    ensures { ContentIsHeard }
{}

/// What is reported of a tap with an offset and skews begins with the first control period that all lanes have.
pub fn skewed_row()
    ensures { SkewedIsHeard }
{}

/// A damaged character of a pixel is listed as it was received, with a fault if it is no character that a source sends there.
pub fn pixel_row()
    ensures { PixelIsHeard }
{}

/// What is reported of a capture that ends within a packet ends with `cut`, which is no fault.
pub fn cut_row()
    ensures { CutIsHeard }
{}

/// A column of three characters 0 between control columns is noise.
pub fn noise_row()
    ensures { NoiseIsHeard }
{}

/// The listing of an island of two packets reads as its periods. What its columns report has the listing. With a control character at the end
/// of the first packet and at the beginning of the second, both packets are mended.
pub fn two_row()
    ensures { TwoAreListed }
{}

/// What is reported of an island of nineteen Null packets has them all, and says that they are too many.
pub fn long_row()
    ensures { LongIsHeard }
{}

/// What is reported of a tap with a skew of one bit begins with the second control period, if one lane has only eleven characters of the first.
pub fn late_row()
    ensures { LateIsHeard }
{}

/// One lane loses three bits of a line. What is reported of the lanes before the place where its characters lie otherwise, and after it, has this
/// text, with the slip's line between.
pub fn slipped_row()
    ensures { SlippedIsHeard }
{}

/// These listings are refused, each at a line, and each note says why.
pub fn are_refused()
    ensures { AreRefused }
{}
