//! Laws of columns received with sparse damage, of columns without a reported fault, and of what is reported
//! of bits. The functions have no code: their contracts are the laws.
ghost use Rattle.link_laws.specs.Laws.{FramingStands, PeriodsStand, LinkLaw, EdgesEnd, FirstEnds, FirstUntil, TapAccounted, PayloadAccounted, OneWrongBit, HasExample, HasPayloadExample};
ghost use Rattle.link_laws.specs.PeriodLaws.{ControlLaw, VideoLaw, IslandLaw, JoiningLaw};
ghost use Rattle.link_laws.specs.Literal.{AccountLiteral};
ghost use Rattle.link_laws.specs.Whole.{CleanIsWhole, WholeHeard};
ghost use Rattle.link_laws.specs.Bytes.{DecodedIsByte};
ghost use Rattle.link_laws.specs.Calm.{LanesAreCalm};
ghost use Rattle.link_laws.specs.Exact.{CleanIsFront, FrontIsClean, CheckIsExact};
ghost use Rattle.link_sink.specs.Sinks.{SomeReported, OneReported};
ghost use Rattle.link_laws.specs.Freely.{FreeReceived, CleanReceived};
ghost use Rattle.link_laws.specs.Local.{VideoAnywhere, IslandAnywhere, IslandClosesAnywhere, RowAnywhere, StreamAnywhere, PacketInStream, AlignedWhateverFollows, HasLocalExample, HasPacketExample};
ghost use Rattle.link_laws.specs.Noticed.{Noticed, NoticedReported, FewOnLanes, OneIsAsSent, FewIsAsSent};
ghost use Rattle.link_laws.specs.Growth.{ReportedGrows, WholeGrows, LinkIsGrammar};

/// The received control columns are those of the control periods, wherever damage lies.
pub fn framing_stands()
    ensures { FramingStands }
{}

/// The received columns are cut where the periods are, wherever damage lies.
pub fn periods_stand()
    ensures { PeriodsStand }
{}

/// What is reported of the columns from twelve before the end of a control period on is the account,
/// wherever damage lies.
pub fn link_law()
    ensures { LinkLaw }
{}

/// Of a control period control columns are received, and of these the runs of their values and their words that are no
/// control words are reported.
pub fn control_law()
    ensures { ControlLaw }
{}

/// What is reported of the columns received of a video data period, after control columns and before one, is its row.
pub fn video_law()
    ensures { VideoLaw }
{}

/// What is reported of the columns received of a data island, after control columns and before one, is its row.
pub fn island_law()
    ensures { IslandLaw }
{}

/// What is reported of conforming periods is, period after period, the row of each.
pub fn joining_law()
    ensures { JoiningLaw }
{}

/// The account is what its rows report before column `m`, and then what is reported at the end of the
/// first `m` columns.
pub fn account_literal()
    ensures { AccountLiteral }
{}

/// Where damage lies only in pixels and packets, each edge in a part of a lane's bits is the end of a control period.
pub fn edges_end()
    ensures { EdgesEnd }
{}

/// Where damage lies only in pixels and packets, the first full alignment of a tap with skews of at most 70 bits is the
/// end of one control period on all three lanes.
pub fn first_ends()
    ensures { FirstEnds }
{}

/// Where damage spares control and guard words until a column that is the first after a control period, and each lane of
/// the tap has that column and the twelve before it, there is a first full alignment, and it is the end of one control
/// period on all three lanes, at or before that column.
pub fn first_until()
    ensures { FirstUntil }
{}

/// Under the same premises what is reported of the aligned columns of the tap is the account from the end of a control
/// period on.
pub fn tap_accounted()
    ensures { TapAccounted }
{}

/// The same where damage lies only in pixels and packets and there is a first full alignment.
pub fn payload_accounted()
    ensures { PayloadAccounted }
{}

/// If at most one word of a packet was received wrong, each of its blocks has at most one wrong bit.
pub fn one_wrong_bit()
    ensures { OneWrongBit }
{}

/// There are columns with damaged words only in pixels and packets, and a tap of them with a first full alignment.
pub fn has_payload_example()
    ensures { HasPayloadExample }
{}

/// There are columns with damaged words in each kind of column, and a tap of them that is aligned before.
pub fn has_example()
    ensures { HasExample }
{}

/// Where no fault is reported, some conforming periods are spelled by columns that begin with the ones before the cut:
/// some conforming sender could have sent them.
pub fn clean_is_front()
    ensures { CleanIsFront }
{}

/// Of columns with which those begin that spell some conforming periods no fault is reported, wherever they end.
pub fn front_is_clean()
    ensures { FrontIsClean }
{}

/// No fault is reported exactly where some conforming sender could have sent the columns before the cut, but for bit 3
/// of lane 0 in packet columns, which is not judged.
pub fn check_is_exact()
    ensures { CheckIsExact }
{}

/// Of any bits of three lanes something is reported so far.
pub fn some_reported()
    ensures { SomeReported }
{}

/// Nothing more is reported, so neither the cutting of the bits into feeds nor a gate matters.
pub fn one_reported()
    ensures { OneReported }
{}

/// What is reported so far of three lanes begins what is reported so far when each has any bits more.
pub fn reported_grows()
    ensures { ReportedGrows }
{}

/// And it begins all that is reported of those lanes to their end.
pub fn whole_grows()
    ensures { WholeGrows }
{}

/// What is reported of the columns of a link is reported whatever follows them, and what is reported at their
/// end is last.
pub fn link_is_grammar()
    ensures { LinkIsGrammar }
{}

/// Clean columns that end in a control period of twelve columns or more are spelled whole.
pub fn clean_is_whole()
    ensures { CleanIsWhole }
{}

/// What is reported of columns that are spelled whole is their account.
pub fn whole_heard()
    ensures { WholeHeard }
{}

/// Every word decodes to a byte.
pub fn decoded_is_byte()
    ensures { DecodedIsByte }
{}

/// Lanes of columns received with sparse damage, wherever it lies, are calm: of any eleven of their characters at most
/// two were received damaged, and each other one is a control character or has few transitions.
pub fn lanes_are_calm()
    ensures { LanesAreCalm }
{}

/// Columns that a source spells are received as these laws ask, which leave bit 3 of lane 0 in packet columns free.
pub fn free_received()
    ensures { FreeReceived }
{}

/// So are clean columns that end in a control period of twelve columns or more, with what was received for what was sent.
pub fn clean_received()
    ensures { CleanReceived }
{}

/// Whatever was received before and after it, a video data period received with few words damaged, after twelve control
/// columns and before one, is reported as its row.
pub fn video_anywhere()
    ensures { VideoAnywhere }
{}

/// So is a data island.
pub fn island_anywhere()
    ensures { IslandAnywhere }
{}

/// A data island is reported as its row by its last column, whatever follows.
pub fn island_closes_anywhere()
    ensures { IslandClosesAnywhere }
{}

/// In all that is reported, the row of such a period comes after the events before its second column.
pub fn row_anywhere()
    ensures { RowAnywhere }
{}

/// The same holds for such a period of a stream, whatever was received of the rest.
pub fn stream_anywhere()
    ensures { StreamAnywhere }
{}

/// A packet of a data island is reported at its last column, whatever else was received of the island's columns, where a
/// control column precedes the island, none is in it up to the packet's end, and the island is opened and not closed.
pub fn packet_in_stream()
    ensures { PacketInStream }
{}

/// Where damage is sparse and spares control and guard words until a column that is the first after a control period, the
/// first full alignment is the end of one control period at or before it, whatever is received after.
pub fn aligned_whatever_follows()
    ensures { AlignedWhateverFollows }
{}

/// The premises of the last one and of the one on a stream are met together, with a column after the alignment of which no word was received as it was
/// sent, and skews of 0, 70 and 35.
pub fn has_local_example()
    ensures { HasLocalExample }
{}

/// The premises of the last one are met in a stream and a tap of it that is aligned: the packet is the second one of its island. No character of
/// the first one was received as it was sent, and the island is broken off after the second.
pub fn has_packet_example()
    ensures { HasPacketExample }
{}

/// A packet with at most three damaged words on lane 0 and three on the others is reported with a fault, or as it was sent.
pub fn noticed()
    ensures { Noticed }
{}

/// Its row in the account is then only that packet. The account has it as it was sent, even with one damaged word.
pub fn noticed_reported()
    ensures reported { NoticedReported }
    ensures few { FewOnLanes }
    ensures one { OneIsAsSent }
    ensures as_sent { FewIsAsSent }
{}
